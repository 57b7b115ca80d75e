//! Numbers, threads that share a registry, and a registration that finds no memory.
use crate::programs::{NOTHING, accepted, sizes};
use bpf_model::NoMemory;
use program_registry::Registry;
use std::alloc::Global;
use std::sync::Wait;
use std::test::Fail;
use std::thread;
use std::thread::Threads;
use verifier::Verified;

/// Makes a program that answers nothing. Its declared size of the key tells it from others.
fn program_of(alloc: Global, key: u16) -> Option<Verified> {
    accepted(alloc, NOTHING, sizes(key, 0, 0, 0))
}

/// Returns the declared size of the key of the program with this number, by `get` and `find`.
fn key_size(registry: &Registry, number: u64) -> Option<u16> {
    let key = registry.get(number)?.sizes().key;
    let (token, program) = registry.find(number)?;
    if token.number() == number && program.sizes().key == key {
        Some(key)
    } else {
        None
    }
}

/// Registers ten programs, and reads each by its token and by its number.
fn reads_its_own<R: Wait>(rt: &R, alloc: Global, registry: &Registry, first: u16) -> Option<bool> {
    let mut right = true;
    for low in 0..10 {
        let key = first | low;
        let token = registry.register(rt, program_of(alloc, key)?).ok()?;
        registry.agrees(&token, &token);
        right &= registry.get_by(&token).sizes().key == key;
        right &= key_size(registry, token.number()) == Some(key);
    }
    Some(right)
}

/// Has two threads register and read their programs. Tells whether each read its own.
fn read_their_own<R: Threads + Wait + Sync>(rt: &R, alloc: Global, registry: &Registry) -> bool {
    let read = thread::join(
        rt,
        || reads_its_own(rt, alloc, registry, 0),
        || reads_its_own(rt, alloc, registry, 32),
    );
    read == (Some(true), Some(true))
}

#[test]
fn two_threads_read_by_their_tokens(rt: HostRuntime) -> Result<(), Fail> {
    let registry = Registry::new(rt.alloc())?;
    assert!(rt; read_their_own(&rt, rt.alloc(), &registry));
    assert!(rt; registry.get(19).is_some() && registry.get(20).is_none());
    Ok(())
}

/// Makes a registry, and again if memory was refused.
fn made(alloc: Global) -> Result<Registry, NoMemory> {
    match Registry::new(alloc) {
        Err(NoMemory) => Registry::new(alloc),
        result => result,
    }
}

/// Makes the program, and again if memory was refused.
fn program_again(alloc: Global, key: u16) -> Option<Verified> {
    match program_of(alloc, key) {
        Some(program) => Some(program),
        None => program_of(alloc, key),
    }
}

/// Registers a program with this size of the key, and again if it came back. Tells whether that was the one.
fn comes_back<R: Wait>(rt: &R, registry: &Registry, program: Verified, key: u16) -> bool {
    match registry.register(rt, program) {
        Ok(_) => true,
        Err((NoMemory, program)) => {
            let same = program.sizes().key == key;
            registry.register(rt, program).is_ok() && same
        }
    }
}

/// Also if one allocation fails: that program comes back, and can be registered at the next try.
#[test]
fn a_refused_program_comes_back(rt: HostRuntime) -> Result<(), Fail> {
    let registry = made(rt.alloc())?;
    for key in 0..40 {
        let program = program_again(rt.alloc(), key).ok_or("no program")?;
        assert!(rt; comes_back(&rt, &registry, program, key));
        assert!(rt; key_size(&registry, u64::from(key)) == Some(key));
    }
    Ok(())
}
