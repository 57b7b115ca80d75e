//! Reads a script: its first line, and the bytes of its program.
ghost use Rattle.std.specs.Prelude.{◌≡◌, ◌≢◌, ◌⊎◌, ◌%◌, Ok, length, option_copied, IfOk, IfErr};
ghost use Rattle.hex.specs.Hex.{decode_of};
ghost use Rattle.bpf_assembler.specs.Faults.{line_number};
ghost use Rattle.redis_scripts.specs.Pieces.{pieces_after};
ghost use Rattle.redis_scripts.specs.Code.{code_of_all, other_lines, line_with_code};
ghost use Rattle.redis_scripts.specs.Scripts.{is_space, is_hex, digits_in, GivesBytes};
ghost use Rattle.redis_scripts.specs.Faults.{at_line, Begins, IsFaultOf, IsFaultOfCode};

use crate::code::{code_of_all, line_with_code};
use crate::fault::ScriptFault;
use crate::head::{Head, head_in};
use crate::pieces::cut;
use bpf_assembler::{AsmFault, assemble};
use bpf_decode::encode;
use bpf_model::NoMemory;
use std::alloc::Global;
use std::str;

/// What is read of a script.
#[derive(Drop)]
pub(crate) struct Reading {
    pub head: Head,
    pub bytes: Vec<u8>,
}

/// Tests whether it is blank space or a newline.
fn is_space(c: u8) -> bool
    ensures { result ≡ is_space c }
{
    matches!(c, b' ' | b'\t' | b'\r' | b'\n')
}

/// Tests whether there are only hexadecimal digits and blank space.
fn is_hex(code: &[u8]) -> bool
    ensures { result ≡ is_hex code.now }
{
    code.iter().all(|c| c.is_ascii_hexdigit() || is_space(*c))
}

/// Returns the code without blank space.
fn digits_in(alloc: Global, code: &[u8]) -> Result<Vec<u8>, NoMemory>
    ensures { IfOk result (λ digits. digits.items ≡ digits_in code.now) }
{
    let mut digits = Vec::new(alloc);
    for c in code {
        if !is_space(*c) {
            digits.push(*c)?;
        }
    }
    Ok(digits)
}

/// Returns the bytes that the digits give.
fn bytes_of_hex(alloc: Global, code: &[u8]) -> Result<Vec<u8>, ScriptFault>
    ensures ok { IfOk result (λ bytes. decode_of (digits_in code.now) ≡ Ok bytes.items) }
    ensures err { IfErr result (λ fault. (fault ≡ ScriptFault.NoMemory) ⊎ ((fault ≡ ScriptFault.OddDigits) × (length (digits_in code.now) % 2 ≡ 1))) }
{
    let digits = digits_in(alloc, code)?;
    if digits.len() % 2 == 1 {
        return Err(ScriptFault::OddDigits);
    }
    // They are pairs of digits, so only memory can be refused.
    match hex::decode(alloc, digits) {
        Ok(bytes) => Ok(bytes),
        Err(_) => Err(ScriptFault::NoMemory),
    }
}

/// Returns the fault with another line's number.
fn at_line(line: usize, fault: AsmFault) -> AsmFault
    ensures { result ≡ at_line line fault }
{
    match fault {
        AsmFault::NoMemory => AsmFault::NoMemory,
        AsmFault::UnknownName(_) => AsmFault::UnknownName(line),
        AsmFault::BadOperand(_) => AsmFault::BadOperand(line),
        AsmFault::OutOfRange(_) => AsmFault::OutOfRange(line),
        AsmFault::Trailing(_) => AsmFault::Trailing(line),
        AsmFault::BadCount(_) => AsmFault::BadCount(line),
    }
}

/// Returns the assembler's fault as one of the script, whose lines after the first these are.
fn fault_in(lines: Option<&[u8]>, fault: AsmFault) -> ScriptFault
    ensures { (result ≡ ScriptFault.NoMemory) ⊎ ((fault ≢ AsmFault.NoMemory) × (result ≡ ScriptFault.Assembler (at_line (line_with_code 2 (line_number fault) (pieces_after 10 (option_copied lines.entry))) fault))) }
{
    if fault == AsmFault::NoMemory {
        return ScriptFault::NoMemory;
    }
    ScriptFault::Assembler(at_line(line_with_code(lines, fault.line()), fault))
}

/// Returns the bytes of the program that the lines after the first one give.
fn program_bytes(alloc: Global, lines: Option<&[u8]>) -> Result<Vec<u8>, ScriptFault>
    ensures ok { IfOk result (λ bytes. GivesBytes (code_of_all (pieces_after 10 (option_copied lines.entry))) bytes.items) }
    ensures err { IfErr result (IsFaultOfCode (pieces_after 10 (option_copied lines.entry))) }
{
    let code = code_of_all(alloc, lines)?;
    if is_hex(&code) {
        return bytes_of_hex(alloc, &code);
    }
    let Ok(text) = str::from_utf8(&code) else {
        return Err(ScriptFault::NotText);
    };
    let program = match assemble(alloc, text) {
        Ok(program) => program,
        Err(fault) => return Err(fault_in(lines, fault)),
    };
    Ok(encode(alloc, &program)?)
}

/// Reads the text of a script. Returns its first fault if it has one. `NoMemory` if a request for memory is refused.
pub(crate) fn read(alloc: Global, text: &[u8]) -> Result<Reading, ScriptFault>
    ensures head { IfOk result (λ read. Begins text.now read.head) }
    ensures bytes { IfOk result (λ read. GivesBytes (code_of_all (other_lines text.now)) read.bytes.items) }
    ensures err { IfErr result (IsFaultOf text.now) }
{
    let (first, lines) = cut(text, b'\n');
    let Some(head) = head_in(first) else {
        return Err(ScriptFault::NotServed);
    };
    if head.merges_with_now() {
        return Err(ScriptFault::MergesWithNow);
    }
    let bytes = program_bytes(alloc, lines)?;
    Ok(Reading { head, bytes })
}
