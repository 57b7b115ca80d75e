//! Programs and scripts, into a save.
ghost use Rattle.std.specs.Prelude.{◌≡◌, ℕ, OnOk};
ghost use Rattle.sqlite.specs.Held.{state};
ghost use Rattle.sqlite.specs.State.{HasCleanDisk, Survives};
ghost use Rattle.bin_stripes.specs.Passes.{stripes_of};
ghost use Rattle.map_keeper.specs.Written.{WritesOthers};

use crate::keeper::{InFile, Shared};
use crate::taker::memory_fault;
use bpf_decode::encode;
use kept_file::{KeepFault, Save, save};
use program_registry::Registry;
use redis_scripts::Scripts;
use sqlite::Alter;
use std::alloc::Global;
use std::sync::Wait;
use verifier::Verified;

/// Writes the program of this number into the save. The faults of `save_programs`.
fn save_program<S: Alter>(
    alloc: Global,
    number: u64,
    verified: &Verified,
    save: &mut Save<'_, S>,
) -> Result<(), KeepFault>
    ensures same_reference { save.new.conn.ghost_name ≡ save.old.conn.ghost_name }
    ensures wrote { (stripes : ℕ) → HasCleanDisk (state S.Store save.new.conn.now) → OnOk result
        (WritesOthers (state S.Store) stripes save.old.conn.now save.new.conn.now) }
    ensures kept { Survives (state S.Store save.old.conn.now) (state S.Store save.new.conn.now) (λ _. ⊥) }
{
    let bytes = encode(alloc, verified.program()).map_err(memory_fault)?;
    save::program(save, number, &verified.sizes(), &bytes)
}

/// Writes the programs from this number on into the save, and returns the number of the next one. `NoMemory` if a request for memory was
/// refused; else a fault is the save's.
fn save_programs<S: Alter>(
    alloc: Global,
    registry: &Registry,
    from: u64,
    save: &mut Save<'_, S>,
) -> Result<u64, KeepFault>
    ensures same_reference { save.new.conn.ghost_name ≡ save.old.conn.ghost_name }
    ensures wrote { (stripes : ℕ) → HasCleanDisk (state S.Store save.new.conn.now) → OnOk result
        (WritesOthers (state S.Store) stripes save.old.conn.now save.new.conn.now) }
    ensures kept { Survives (state S.Store save.old.conn.now) (state S.Store save.new.conn.now) (λ _. ⊥) }
{
    for number in from..u64::MAX {
        let Some(verified) = registry.get(number) else {
            return Ok(number);
        };
        save_program(alloc, number, verified, save)?;
    }
    Ok(u64::MAX)
}

/// Writes the scripts after the first `from` into the save, and returns how many there are. The faults of `save_programs`.
fn save_scripts<R: Wait, S: Alter>(
    rt: &R,
    alloc: Global,
    scripts: &Scripts<'_>,
    from: usize,
    save: &mut Save<'_, S>,
) -> Result<usize, KeepFault>
    ensures same_reference { save.new.conn.ghost_name ≡ save.old.conn.ghost_name }
    ensures wrote { (stripes : ℕ) → HasCleanDisk (state S.Store save.new.conn.now) → OnOk result
        (WritesOthers (state S.Store) stripes save.old.conn.now save.new.conn.now) }
    ensures kept { Survives (state S.Store save.old.conn.now) (state S.Store save.new.conn.now) (λ _. ⊥) }
{
    let texts = scripts.after(rt, alloc, from).map_err(memory_fault)?;
    for text in texts.iter() {
        save::script(save, text.as_slice())?;
    }
    Ok(from.saturating_add(texts.len()))
}

/// Takes all entries of these stripes, which the map has no more, out of the file.
fn drop_stripes<S: Alter>(from: u64, to: u64, save: &mut Save<'_, S>) -> Result<(), KeepFault>
    ensures same_reference { save.new.conn.ghost_name ≡ save.old.conn.ghost_name }
    ensures wrote { HasCleanDisk (state S.Store save.new.conn.now) → OnOk result
        (WritesOthers (state S.Store) from save.old.conn.now save.new.conn.now) }
    ensures kept { Survives (state S.Store save.old.conn.now) (state S.Store save.new.conn.now) (λ _. ⊥) }
{
    for stripe in from..to {
        save::start_anew(save, stripe)?;
    }
    Ok(())
}

/// Notes how many stripes the map has, and takes those out of the file that it has no more.
pub(crate) fn write_width<S: Alter>(
    had: u64,
    stripes: u64,
    save: &mut Save<'_, S>,
) -> Result<(), KeepFault>
    ensures same_reference { save.new.conn.ghost_name ≡ save.old.conn.ghost_name }
    ensures wrote { HasCleanDisk (state S.Store save.new.conn.now) → OnOk result
        (WritesOthers (state S.Store) stripes save.old.conn.now save.new.conn.now) }
    ensures kept { Survives (state S.Store save.old.conn.now) (state S.Store save.new.conn.now) (λ _. ⊥) }
{
    drop_stripes(stripes, had, save)?;
    if had == stripes {
        return Ok(());
    }
    save::set_stripes(save, stripes)
}

/// Writes what the map's programs and scripts have more than the file, and takes out of it what it has of stripes that the map has not.
/// Returns what the file has then.
pub(crate) fn write_others<R: Wait, S: Alter>(
    rt: &R,
    alloc: Global,
    shared: &Shared<'_, '_>,
    had: &InFile,
    save: &mut Save<'_, S>,
) -> Result<InFile, KeepFault>
    ensures same_reference { save.new.conn.ghost_name ≡ save.old.conn.ghost_name }
    ensures wrote { HasCleanDisk (state S.Store save.new.conn.now) → OnOk result
        (WritesOthers (state S.Store) (stripes_of shared.now.map.now) save.old.conn.now save.new.conn.now) }
    ensures kept { Survives (state S.Store save.old.conn.now) (state S.Store save.new.conn.now) (λ _. ⊥) }
{
    let stripes = shared.map.stripes();
    write_width(had.stripes, stripes, save)?;
    // A script's program is registered before the script is noted: so the programs are looked at last.
    let scripts = save_scripts(rt, alloc, shared.scripts, had.scripts, save)?;
    let programs = save_programs(alloc, shared.registry, had.programs, save)?;
    Ok(InFile {
        stripes,
        programs,
        scripts,
    })
}
