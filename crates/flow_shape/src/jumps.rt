//! How instructions affect the flow of a program.
ghost use Rattle.std.specs.Prelude.{◌≡◌, ◌<◌, ◌^◌, ◌<ℤ◌, ◌≤ℤ◌, pos, IfSome, IfNone};
ghost use Rattle.flow_shape.specs.Jumps.{distance_of, falls_through, target_of};

use bpf_model::Insn;

/// Returns the distance of a jump, in units from the next instruction on, or `None` if the instruction is no jump. Takes
/// no memory.
pub fn distance(insn: &Insn) -> Option<i32>
    ensures value { result ≡ distance_of insn.now }
{
    match insn {
        Insn::Jump { distance } | Insn::Branch { distance, .. } => Some(i32::from(*distance)),
        Insn::JumpLong { distance } => Some(*distance),
        _ => None,
    }
}

/// Returns the unit that a forward jump goes to, or `None` if it goes backward, or to itself.
pub(crate) fn target(unit: usize, distance: i32) -> Option<usize>
    requires { unit < 2 ^ 32 }
    ensures forward { IfSome result (λ target. target_of unit distance ≡ pos target) }
    ensures not_back { IfSome result (λ target. pos 0 ≤ℤ distance) }
    ensures back { IfNone result (distance <ℤ pos 0) }
{
    if distance < 0 {
        return None;
    }
    Some(unit + 1 + distance.unsigned_abs() as usize)
}

/// Tests whether a run may go on at the next instruction.
pub(crate) fn falls_through(insn: &Insn) -> bool
    ensures { result ≡ falls_through insn.now }
{
    !matches!(insn, Insn::Jump { .. } | Insn::JumpLong { .. } | Insn::Exit)
}
