//! Repeats runs of programs, and the steps before them.

use crate::programs::{SIZES, Sample, program, verified};
use anyhow::{Result, bail, ensure};
use bpf_decode::encode;
use bpf_machine::{Machine, run, run_into};
use bpf_model::{Answer, Input, Insn, Key, Program, Value, fits, value_bytes};
use flow_shape::{Shaped, shape};
use std::alloc::Global;
use verifier::verify;

/// The work on a program.
#[derive(Clone, Copy, Debug, PartialEq, Eq)]
pub enum Mode {
    Run,
    /// The same, in one machine and into one value.
    RunInto,
    /// Only the steps before `verify`.
    Shape,
    Verify,
}

/// Runs take this many old values in turn.
const INPUTS: u64 = 256;

impl Mode {
    /// Returns the mode of this name, or `None` if there is no such one.
    pub fn named(name: &str) -> Option<Mode> {
        match name {
            "run" => Some(Mode::Run),
            "into" => Some(Mode::RunInto),
            "shape" => Some(Mode::Shape),
            "verify" => Some(Mode::Verify),
            _ => None,
        }
    }
}

fn shaped(alloc: Global, instructions: &[Insn]) -> Result<Shaped> {
    let mut copy = Vec::new(alloc);
    copy.extend_from_slice(instructions)?;
    let Some(program) = Program::new(copy) else {
        bail!("no program");
    };
    Ok(shape(program)?)
}

/// Makes an input of the empty key, an old value and the argument 2, each number of 8 bytes.
fn input(old: u64) -> Result<Input> {
    Ok(Input {
        key: Key::from_slice(b"")?,
        old: Some(Value::from_slice(&old.to_le_bytes())?),
        arg: Some(Value::from_slice(&2u64.to_le_bytes())?),
    })
}

/// Makes `INPUTS` of them.
fn inputs(alloc: Global) -> Result<Vec<Input>> {
    let mut inputs = Vec::new(alloc);
    for number in 0..INPUTS {
        inputs.push(input((number + 1).wrapping_mul(0x9e37_79b9_7f4a_7c15))?)?;
    }
    Ok(inputs)
}

fn run_all(alloc: Global, sample: Sample, count: u64) -> Result<()> {
    let verified = verified(alloc, sample)?;
    let inputs = inputs(alloc)?;
    ensure!(inputs.len() as u64 == INPUTS, "inputs");
    for turn in 0..count {
        let input = &inputs[(turn % INPUTS) as usize];
        ensure!(fits(&verified.sizes(), input).is_ok(), "unfit");
        if let Answer::Nothing = run(&verified, input) {
            bail!("no bytes");
        }
    }
    Ok(())
}

fn run_all_into(alloc: Global, sample: Sample, count: u64) -> Result<()> {
    let verified = verified(alloc, sample)?;
    let inputs = inputs(alloc)?;
    ensure!(inputs.len() as u64 == INPUTS, "inputs");
    let mut machine = Machine::new();
    let mut answer = Value::new();
    for turn in 0..count {
        let input = &inputs[(turn % INPUTS) as usize];
        ensure!(fits(&verified.sizes(), input).is_ok(), "unfit");
        let (old, arg) = (
            value_bytes(input.old.as_ref()),
            value_bytes(input.arg.as_ref()),
        );
        ensure!(
            run_into(&verified, &input.key, old, arg, &mut machine, &mut answer),
            "no bytes"
        );
    }
    Ok(())
}

fn shape_all(alloc: Global, sample: Sample, count: u64) -> Result<()> {
    let program = program(alloc, sample)?;
    for _ in 0..count {
        shaped(alloc, program.instructions())?;
    }
    Ok(())
}

fn verify_all(alloc: Global, sample: Sample, count: u64) -> Result<()> {
    let program = program(alloc, sample)?;
    for _ in 0..count {
        verify(alloc, shaped(alloc, program.instructions())?, SIZES)?;
    }
    Ok(())
}

/// Runs, shapes or verifies the program this often.
pub fn run_often(alloc: Global, mode: Mode, sample: Sample, count: u64) -> Result<()> {
    match mode {
        Mode::Run => run_all(alloc, sample, count),
        Mode::RunInto => run_all_into(alloc, sample, count),
        Mode::Shape => shape_all(alloc, sample, count),
        Mode::Verify => verify_all(alloc, sample, count),
    }
}

/// Returns the bytes in hex.
fn hex(alloc: Global, bytes: &[u8]) -> Result<String> {
    let mut text = String::new(alloc);
    for byte in bytes {
        text.push_str(&format!(in alloc; "{byte:02x}")?)?;
    }
    Ok(text)
}

/// Returns the program's bytes, in hex.
pub fn bytes_of(alloc: Global, sample: Sample) -> Result<String> {
    let bytes = encode(alloc, &program(alloc, sample)?)?;
    hex(alloc, bytes.as_slice())
}

/// Returns the program's answer on the old value 1 and the argument 2, in hex, or `nothing`.
pub fn answer_of(alloc: Global, sample: Sample) -> Result<String> {
    let verified = verified(alloc, sample)?;
    let input = input(1)?;
    ensure!(fits(&verified.sizes(), &input).is_ok(), "unfit");
    match run(&verified, &input) {
        Answer::Bytes(value) => hex(alloc, value.as_slice()),
        Answer::Nothing => Ok(format!(in alloc; "nothing")?),
    }
}
