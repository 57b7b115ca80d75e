//! Tests whether bytes spell a program that already exists.
ghost use Rattle.std.specs.Prelude.{◌≡◌, ◌≢◌, ◌↔◌, ◌++◌, ℕ, List, IfSome, IfNone, IsTrue};
ghost use Rattle.bpf_model.specs.Spelling.{Spells, spelling, IsInstruction};

use crate::unit::Fields;
use bpf_model::{Insn, Program};

/// Returns the bytes after the instruction's spelling, if they begin with it.
fn rest_after<'a>(bytes: &'a [u8], insn: &Insn) -> Option<&'a [u8]>
    ensures instruction { IfSome result (λ _. IsInstruction insn.now) }
    ensures begins { IfSome result (λ rest. bytes.now ≡ spelling insn.now ++ rest.now) }
    ensures other { IfNone result ((rest : List ℕ) → bytes.now ≢ spelling insn.now ++ rest) }
{
    let Some(rest) = bytes.strip_prefix(&Fields::of(insn).to_bytes()) else {
        return None;
    };
    if let Insn::Wide { value, .. } = insn {
        return rest.strip_prefix(&Fields::second_half(*value).to_bytes());
    }
    Some(rest)
}

/// Tests whether the bytes spell the program. Takes no memory.
pub fn spells(bytes: &[u8], program: &Program) -> bool
    ensures { IsTrue result ↔ Spells bytes.now program.now }
{
    let mut rest = bytes;
    for insn in program.instructions() {
        let Some(next) = rest_after(rest, insn) else {
            return false;
        };
        rest = next;
    }
    rest.is_empty()
}
