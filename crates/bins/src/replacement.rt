//! The replacement of values by a program's answers.
ghost use Rattle.std.specs.Prelude.{◌≡◌, ◌<◌, ◌^◌, length, set};
ghost use Rattle.bins.specs.KeptRows.{string_at};
ghost use Rattle.bins.specs.Entries.{entries_in};
ghost use Rattle.bins.specs.Passes.{Replaces, ReplacesList};

use crate::counts::Counts;
use crate::rows::Rows;
use bpf_machine::{Machine, run_into};
use bpf_model::{InputPart, Key, Value, fits_parts, value_bytes};
use verifier::Verified;

/// Runs the program on the key, its value and the argument, and enters its answer. Returns whether it answered bytes. The
/// value stays if the answer is nothing, or if a window is too small; the error names that window. Works in `machine` and
/// `answer`: their content before makes no difference, and their content after is not said. Takes no memory.
pub fn replace_value(
    program: &Verified,
    key: &Key,
    value: &mut Value,
    arg: &Option<Value>,
    machine: &mut Machine,
    answer: &mut Value,
) -> Result<bool, InputPart>
    ensures by_outcome { Replaces program.now key.now arg.now value.old value.new result }
{
    let (old, arg) = (Some(value.as_slice()), value_bytes(arg.as_ref()));
    fits_parts(&program.sizes(), key, old, arg)?;
    let given = run_into(program, key, old, arg, machine, answer);
    if given {
        value.set_from(answer.as_slice());
    }
    Ok(given)
}

/// Replaces the value of each entry once, in their order, and counts what became of them. Takes no memory.
pub fn replace_values(
    entries: &mut Vec<(Key, Value)>,
    program: &Verified,
    arg: &Option<Value>,
) -> Counts
    ensures each { ReplacesList program.now arg.now entries.old.items entries.new.items result }
    ensures bounded { result.scanned < 2 ^ 57 }
{
    let mut machine = Machine::new();
    let mut answer = Value::new();
    let mut given = 0;
    let mut unfit = 0;
    for entry in entries.iter_mut() {
        let (key, value) = (&entry.0, &mut entry.1);
        match replace_value(program, key, value, arg, &mut machine, &mut answer) {
            Ok(true) => given += 1,
            Ok(false) => {}
            Err(_) => unfit += 1,
        }
    }
    Counts {
        scanned: count_of(entries),
        given,
        unfit,
    }
}

/// Returns the number of entries. Takes no memory.
pub fn count_of(entries: &[(Key, Value)]) -> u64
    ensures value { result ≡ length entries.now }
    ensures bounded { result < 2 ^ 57 }
{
    entries.len() as u64
}

/// Programs that replace one value after the other run in it. Its content makes no difference.
#[derive(Drop)]
struct Workbench {
    machine: Machine,
    answer: Value,
}

/// Replaces the value at a position, as `replace_value` does.
fn replace_at(
    program: &Verified,
    rows: &mut Rows,
    position: usize,
    arg: &Option<Value>,
    bench: &mut Workbench,
) -> Result<bool, InputPart>
    requires key { position < length rows.old.keys }
    requires value { position < length rows.old.values }
    ensures by_outcome { Replaces program.now (string_at rows.old.keys position) arg.now
        (string_at rows.old.values position) (string_at rows.new.values position) result }
    ensures keys { rows.new.keys ≡ rows.old.keys }
    ensures others { rows.new.values ≡ set rows.old.values position (string_at rows.new.values position) }
{
    let key = Key::from_slice(rows.key(position));
    let key = key.unwrap();
    let (old, arg) = (Some(rows.value(position)), value_bytes(arg.as_ref()));
    let Workbench { machine, answer } = bench;
    fits_parts(&program.sizes(), &key, old, arg)?;
    let given = run_into(program, &key, old, arg, machine, answer);
    if given {
        rows.set_value(position, answer.as_slice());
    }
    Ok(given)
}

/// Replaces the value of each entry once, in their order, and counts what became of them. Takes no memory.
pub(crate) fn replace_rows(rows: &mut Rows, program: &Verified, arg: &Option<Value>) -> Counts
    requires paired { length rows.old.keys ≡ length rows.old.values }
    ensures each { ReplacesList program.now arg.now (entries_in rows.old.keys rows.old.values)
        (entries_in rows.new.keys rows.new.values) result }
    ensures keys { rows.new.keys ≡ rows.old.keys }
    ensures paired { length rows.new.keys ≡ length rows.new.values }
    ensures bounded { result.scanned < 2 ^ 57 }
{
    let mut bench = Workbench {
        machine: Machine::new(),
        answer: Value::new(),
    };
    let mut given = 0;
    let mut unfit = 0;
    let many = rows.len();
    for position in 0..many {
        match replace_at(program, rows, position, arg, &mut bench) {
            Ok(true) => given += 1,
            Ok(false) => {}
            Err(_) => unfit += 1,
        }
    }
    Counts {
        scanned: many as u64,
        given,
        unfit,
    }
}
