//! Scripts that are loaded, refused and found.
use program_registry::Registry;
use redis_scripts::{
    LockAct, Method, ReplyKind, Script, ScriptFault, Scripts, digest_in, digest_of, hex_of,
};
use std::alloc::Global;
use std::sync::Wait;
use std::test::Fail;
use std::thread;
use std::thread::Threads;

/// A program that answers no byte, with comments, blanks and an empty line.
const COMMENTED: &[u8] =
    b"#!bpf merge bytes 64 8 8 8\n; answers no byte\n  mov64 r0, 0 # r0 is the length\r\n\n\texit // the end";

/// The same program in hex, called otherwise.
const IN_HEX: &[u8] =
    b"#!bpf if-absent integer 64 8 8 8\r\nB7 00 00 00 00 00 00 00 ; mov64 r0, 0\n9500000000000000\n";

/// Loads the text, and again if memory was refused.
fn loaded<'a, R: Wait>(
    rt: &R,
    alloc: Global,
    scripts: &Scripts<'a>,
    text: &[u8],
) -> Result<Script<'a>, ScriptFault> {
    match scripts.load(rt, alloc, text) {
        Err(ScriptFault::NoMemory) => scripts.load(rt, alloc, text),
        result => result,
    }
}

/// Makes a registry, and again if memory was refused.
fn registry(alloc: Global) -> Option<Registry> {
    match Registry::new(alloc) {
        Ok(registry) => Some(registry),
        Err(_) => Registry::new(alloc).ok(),
    }
}

/// Loads a script. Tells whether it alone is found, by its digest.
fn is_found<R: Wait>(rt: &R, alloc: Global, scripts: &Scripts<'_>) -> Result<bool, ScriptFault> {
    let other = digest_in(b"0123456789abcdefABCDEF0123456789abcdef01");
    let script = loaded(rt, alloc, scripts, COMMENTED)?;
    let (Some(other), Some(found)) = (other, scripts.find(rt, digest_of(COMMENTED))) else {
        return Ok(false);
    };
    let name = hex_of(&script.digest);
    let is_named = name.as_slice() == b"430e0ae7c993a696b2b896d9d832ee5d916a1fb1".as_slice();
    let is_right = script.method == Method::Merge && script.reply == ReplyKind::Bytes;
    let is_same = found.digest == script.digest && found.method == Method::Merge;
    let is_alone = scripts.find(rt, other).is_none();
    Ok(is_named && is_right && is_same && is_alone && script.program.sizes().result == 8)
}

#[test]
fn is_found_by_its_digest(rt: HostRuntime) -> Result<(), Fail> {
    let registry = registry(rt.alloc()).ok_or("no registry")?;
    let scripts = Scripts::new(rt.alloc(), &registry);
    assert!(rt; is_found(&rt, rt.alloc(), &scripts) == Ok(true));
    Ok(())
}

/// One text more than a table of two takes.
const THIRD: &[u8] = b"#!bpf compute bytes 64 8 8 8\nmov64 r0, 0\nexit\n";

/// Loads one program by two texts, one of them twice. Tells whether it is kept once, and a third text is refused.
fn is_kept_once<R: Wait>(
    rt: &R,
    alloc: Global,
    registry: &Registry,
    scripts: &Scripts<'_>,
) -> Result<bool, ScriptFault> {
    let first = loaded(rt, alloc, scripts, COMMENTED)?;
    let second = loaded(rt, alloc, scripts, IN_HEX)?;
    let again = loaded(rt, alloc, scripts, COMMENTED)?;
    let is_right = second.method == Method::IfAbsent && second.reply == ReplyKind::Integer;
    let is_other = first.digest != second.digest && again.digest == first.digest;
    let is_full = scripts.load(rt, alloc, THIRD).err() == Some(ScriptFault::NoMemory);
    Ok(is_right && is_other && is_full && registry.get(1).is_none())
}

#[test]
fn one_program_is_kept_once(rt: HostRuntime) -> Result<(), Fail> {
    let registry = registry(rt.alloc()).ok_or("no registry")?;
    let scripts = Scripts::bounded(rt.alloc(), &registry, 2);
    assert!(rt; is_kept_once(&rt, rt.alloc(), &registry, &scripts) == Ok(true));
    Ok(())
}

/// Texts, and the beginning of what is told of them.
const FAULTS: [(&[u8], &[u8]); 11] = [
    (b"return 1", b"ERR not a script that is served"),
    (
        b"#!bpf merge bytes 64 8 8 08\nexit",
        b"ERR not a script that is served",
    ),
    (
        b"#!bpf compute bytes 64 8 8 8 with-nox\nexit",
        b"ERR not a script that is served",
    ),
    (
        b"#!bpf compute bytes 64 8 8 8 with-now with-now\nexit",
        b"ERR not a script that is served",
    ),
    (
        b"#!bpf merge bytes 64 8 8 8 with-now\nexi",
        b"ERR a merge has no 'with-now': it stores its argument if there is no old value",
    ),
    (
        b"#!bpf merge bytes 64 8 8 8 \n# none",
        b"ERR the script is refused: 10 at 0",
    ),
    (
        b"#!bpf merge bytes 64 8 8 8\nb70",
        b"ERR the script has an odd number of hex digits",
    ),
    (
        b"#!bpf merge bytes 64 8 8 8\nexit\xFF",
        b"ERR the script's code is not UTF-8",
    ),
    (
        b"#!bpf merge bytes 64 8 8 8\n\n# r0\nmov64 r0, 0\nmov65 r0\nexit",
        b"ERR the script's line 5: unknown instruction",
    ),
    (
        b"#!bpf merge bytes 64 8 8 8\nmov64 r0, r9\nexit",
        b"ERR the script is refused: 40 at 0",
    ),
    (
        b"#!bpf merge bytes 65 8 8 8\nmov64 r0, 0\nexit",
        b"ERR the script is refused: 47 at 0",
    ),
];

/// Loads the texts. Returns the first one of which something else is told.
fn first_untold<R: Wait>(rt: &R, alloc: Global, scripts: &Scripts<'_>) -> Option<&'static [u8]> {
    for (text, message) in &FAULTS {
        match loaded(rt, alloc, scripts, text) {
            Err(fault) if fault.message().as_slice().starts_with(message) => {}
            _ => return Some(*text),
        }
    }
    None
}

#[test]
fn first_fault_is_told(rt: HostRuntime) -> Result<(), Fail> {
    let registry = registry(rt.alloc()).ok_or("no registry")?;
    let scripts = Scripts::new(rt.alloc(), &registry);
    let untold = first_untold(&rt, rt.alloc(), &scripts);
    assert!(rt; untold.is_none(), "{untold:?}");
    Ok(())
}

/// Texts, their methods, and whether they ask for the time.
const TIMED: [(&[u8], Method, bool); 4] = [
    (COMMENTED, Method::Merge, false),
    (
        b"#!bpf compute bytes 64 8 8 8 with-now\nmov64 r0, 0\nexit",
        Method::Compute,
        true,
    ),
    (
        b"#!bpf if-absent bytes 64 8 8 8 with-now \r\nmov64 r0, 0\nexit",
        Method::IfAbsent,
        true,
    ),
    (
        b"#!bpf if-present bytes 64 8 8 8\nmov64 r0, 0\nexit",
        Method::IfPresent,
        false,
    ),
];

/// Loads the texts. Returns the first one that is loaded as something else, or refused.
fn first_mistimed<R: Wait>(rt: &R, alloc: Global, scripts: &Scripts<'_>) -> Option<&'static [u8]> {
    for (text, method, with_now) in &TIMED {
        match loaded(rt, alloc, scripts, text) {
            Ok(script) if script.method == *method && script.with_now == *with_now => {}
            _ => return Some(*text),
        }
    }
    None
}

#[test]
fn the_time_is_asked_for_by_a_word(rt: HostRuntime) -> Result<(), Fail> {
    let registry = registry(rt.alloc()).ok_or("no registry")?;
    let scripts = Scripts::new(rt.alloc(), &registry);
    let mistimed = first_mistimed(&rt, rt.alloc(), &scripts);
    assert!(rt; mistimed.is_none(), "{mistimed:?}");
    Ok(())
}

/// The digests that redis-py and the shell's sha1sum give, and what their texts do to a lock. The last is that of no text here.
const LOCKS: [(&[u8], Option<LockAct>); 5] = [
    (
        b"c3f8721cbb97f72bc19e972846bd7aaf91901658",
        Some(LockAct::Release),
    ),
    (
        b"647C65A442733A1AA440F99908D249D13B4D6C4A",
        Some(LockAct::Release),
    ),
    (
        b"a4e8783852e6b949f9ef3a97212805108459a890",
        Some(LockAct::Extend),
    ),
    (
        b"1cac51482acf5858da00f6d685d68f886cd6b6b2",
        Some(LockAct::Reacquire),
    ),
    (b"1cac51482acf5858da00f6d685d68f886cd6b6b3", None),
];

/// Returns the first of the digests whose text does something else.
fn first_misread(scripts: &Scripts<'_>) -> Option<&'static [u8]> {
    for (name, act) in &LOCKS {
        match digest_in(name) {
            Some(digest) if scripts.known_lua(digest) == *act => {}
            _ => return Some(*name),
        }
    }
    None
}

#[test]
fn acts_on_locks_are_known(rt: HostRuntime) -> Result<(), Fail> {
    let registry = registry(rt.alloc()).ok_or("no registry")?;
    let scripts = Scripts::new(rt.alloc(), &registry);
    let misread = first_misread(&scripts);
    assert!(rt; misread.is_none(), "{misread:?}");
    Ok(())
}

/// Loads both texts, and finds the first. Tells whether it is there.
fn finds_both<R: Wait>(rt: &R, alloc: Global, scripts: &Scripts<'_>) -> bool {
    let first = loaded(rt, alloc, scripts, COMMENTED);
    let second = loaded(rt, alloc, scripts, IN_HEX);
    first.is_ok() && second.is_ok() && scripts.find(rt, digest_of(COMMENTED)).is_some()
}

/// Has two threads load the same texts.
fn find_both<R: Threads + Wait + Sync>(rt: &R, alloc: Global, scripts: &Scripts<'_>) -> bool {
    let found = thread::join(
        rt,
        || finds_both(rt, alloc, scripts),
        || finds_both(rt, alloc, scripts),
    );
    found == (true, true)
}

#[test]
fn threads_share_scripts(rt: HostRuntime) -> Result<(), Fail> {
    let registry = registry(rt.alloc()).ok_or("no registry")?;
    let scripts = Scripts::new(rt.alloc(), &registry);
    assert!(rt; find_both(&rt, rt.alloc(), &scripts));
    Ok(())
}
