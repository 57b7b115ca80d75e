//! Rows that a Redis 7.0.15 answered.
use redis_commands::{
    Command, CommandFault, Condition, ExpireRule, FaultText, KeyAct, Lifetime, TimeForm, TimeUnit,
    WalkCommand, command_before_auth, command_of, matches,
};
use std::alloc::{AllocError, Global};
use std::test::Fail;

/// The time of the rows.
const NOW: u64 = 1_000;

/// Splits a line into words at its blanks.
fn words_of<'a>(alloc: Global, line: &'a str) -> Result<Vec<&'a [u8]>, AllocError> {
    let mut words = Vec::new(alloc);
    for word in line.split(' ') {
        words.reserve(1)?;
        words.push_reserved(word.as_bytes());
    }
    Ok(words)
}

/// Lines of words, and the text of the error.
const FAULTS: [(&str, &str); 47] = [
    (
        "foo",
        "ERR unknown command 'foo', with args beginning with: ",
    ),
    (
        "foo a\r\nb\0c d",
        "ERR unknown command 'foo', with args beginning with: 'a  b' 'd' ",
    ),
    (
        "MULTI",
        "ERR unknown command 'MULTI', with args beginning with: ",
    ),
    ("GET a b", "ERR wrong number of arguments for 'get' command"),
    (
        "mset a 1 b",
        "ERR wrong number of arguments for 'mset' command",
    ),
    (
        "ping a b",
        "ERR wrong number of arguments for 'ping' command",
    ),
    (
        "client setname",
        "ERR wrong number of arguments for 'client|setname' command",
    ),
    (
        "client",
        "ERR wrong number of arguments for 'client' command",
    ),
    (
        "CLIENT Foo\r\nbar",
        "ERR unknown subcommand 'Foo  bar'. Try CLIENT HELP.",
    ),
    (
        "client setname \u{7f}",
        "ERR Client names cannot contain spaces, newlines or special characters.",
    ),
    ("set a 1 nx xx", "ERR syntax error"),
    ("set a 1 ifeq", "ERR syntax error"),
    ("set a 1 ex 0", "ERR invalid expire time in 'set' command"),
    ("set a 1 ex x foo", "ERR syntax error"),
    ("set a 1 ex 1 px 1", "ERR syntax error"),
    (
        "set a 1 ex x",
        "ERR value is not an integer or out of range",
    ),
    ("getex a keepttl", "ERR syntax error"),
    (
        "psetex a 9223372036854775807 v",
        "ERR invalid expire time in 'psetex' command",
    ),
    ("expire a x nx f\noo\r\n gt", "ERR Unsupported option f oo"),
    (
        "expire a x nx gt",
        "ERR NX and XX, GT or LT options at the same time are not compatible",
    ),
    (
        "pexpire a x lt gt",
        "ERR GT and LT options at the same time are not compatible",
    ),
    (
        "expireat a -9223372036854776",
        "ERR invalid expire time in 'expireat' command",
    ),
    (
        "client setname aaaaaaaaaaaaaaaaaaaaaaaaaaaaaaaaaaaaaaaaaaaaaaaaaaaaaaaaaaaaaaaaa",
        "ERR client name exceeds maximum allowed size (64)",
    ),
    ("incrby n 01", "ERR value is not an integer or out of range"),
    (
        "incrby n 9223372036854775808",
        "ERR value is not an integer or out of range",
    ),
    (
        "decrby n -9223372036854775808",
        "ERR decrement would overflow",
    ),
    (
        "getrange n 0 b",
        "ERR value is not an integer or out of range",
    ),
    ("setrange n -1 x", "ERR offset is out of range"),
    (
        "setrange n 1024 x",
        "ERR string exceeds maximum allowed size (1024)",
    ),
    ("scan 18446744073709551616", "ERR invalid cursor"),
    ("scan 0 count 0", "ERR syntax error"),
    ("scan 0 match", "ERR syntax error"),
    ("select -1", "ERR DB index is out of range"),
    (
        "select 99999999999",
        "ERR value is out of range, value must between -2147483648 and 2147483647",
    ),
    ("flushall async sync", "ERR syntax error"),
    (
        "hello x",
        "ERR Protocol version is not an integer or out of range",
    ),
    ("hello 3", "NOPROTO unsupported protocol version"),
    (
        "hello 2 setname",
        "ERR Syntax error in HELLO option 'setname'",
    ),
    (
        "hello 2 auth u x",
        "WRONGPASS invalid username-password pair or user is disabled.",
    ),
    (
        "auth u x",
        "WRONGPASS invalid username-password pair or user is disabled.",
    ),
    ("auth a b c", "ERR syntax error"),
    ("eval t -1", "ERR Number of keys can't be negative"),
    (
        "eval t 2 a",
        "ERR Number of keys can't be greater than number of args",
    ),
    (
        "eval t 0",
        "ERR not served: a script is called with one key",
    ),
    (
        "evalsha x y",
        "NOSCRIPT No matching script. Please use EVAL.",
    ),
    (
        "config",
        "ERR wrong number of arguments for 'config' command",
    ),
    (
        "command foo",
        "ERR unknown subcommand 'foo'. Try COMMAND HELP.",
    ),
];

/// Tests whether the line is refused with this text.
fn is_refused(alloc: Global, line: &str, text: &str) -> Result<bool, AllocError> {
    let words = words_of(alloc, line)?;
    Ok(match command_of(&words, NOW) {
        Ok(_) => false,
        Err(fault) => fault.text().as_slice() == text.as_bytes(),
    })
}

#[test]
fn error_texts_are_those_of_redis(rt: HostRuntime) -> Result<(), Fail> {
    for (line, text) in &FAULTS {
        assert!(rt; is_refused(rt.alloc(), line, text)?, "{line}");
    }
    Ok(())
}

/// What a client is told that has not authenticated: lines of words, and the text of the error.
const LOCKED: [(&str, &str); 8] = [
    ("get a", "NOAUTH Authentication required."),
    ("set a 1 foo", "NOAUTH Authentication required."),
    ("mset a 1 b", "NOAUTH Authentication required."),
    ("get", "ERR wrong number of arguments for 'get' command"),
    (
        "foo",
        "ERR unknown command 'foo', with args beginning with: ",
    ),
    ("client list", "NOAUTH Authentication required."),
    (
        "client foo",
        "ERR unknown subcommand 'foo'. Try CLIENT HELP.",
    ),
    ("auth a b c", "ERR syntax error"),
];

/// Lines that a client may send that has not authenticated.
const UNLOCKED: [&str; 5] = ["ping", "quit", "reset", "hello 2", "auth x"];

/// Returns the text with which the line of such a client is refused, if it is.
fn locked_out(alloc: Global, line: &str) -> Result<Option<FaultText>, AllocError> {
    let words = words_of(alloc, line)?;
    Ok(command_before_auth(&words).err().map(|fault| fault.text()))
}

#[test]
fn clients_are_locked_out_as_by_redis(rt: HostRuntime) -> Result<(), Fail> {
    for (line, text) in &LOCKED {
        let told = locked_out(rt.alloc(), line)?;
        let same = told.is_some_and(|told| told.as_slice() == text.as_bytes());
        assert!(rt; same, "{line}");
    }
    for line in &UNLOCKED {
        assert!(rt; locked_out(rt.alloc(), line)?.is_none(), "{line}");
    }
    Ok(())
}

/// Patterns, texts, and whether they match.
const PATTERNS: [(&[u8], &[u8], bool); 18] = [
    (b"*", b"", true),
    (b"**", b"", false),
    (b"**", b"a", true),
    (b"a*c", b"abcbc", true),
    (b"a*c", b"abcb", false),
    (b"*a*a*", b"ba", false),
    (b"?", b"", false),
    (b"h[^e]llo", b"hello", false),
    (b"h[a-e]llo", b"hello", true),
    (b"[c-a]", b"b", true),
    (b"[a-]]", b"^", true),
    (b"[a-]]", b"]]", false),
    (b"[a-]", b"b", false),
    (b"[ab", b"b", true),
    (b"[]a]", b"a]", false),
    (b"\\*", b"*", true),
    (b"[\\]]", b"]", true),
    (b"a\\", b"a\\", true),
];

#[test]
fn patterns_match_as_in_redis(rt: HostRuntime) {
    for (pattern, text, wanted) in &PATTERNS {
        assert!(rt; matches(pattern, text) == *wanted, "{pattern:?}");
    }
}

static SET: [&[u8]; 6] = [b"SeT", b"k", b"v", b"GET", b"keepttl", b"Nx"];

static SCAN: [&[u8]; 8] = [
    b"scan", b"9", b"type", b"STRING", b"count", b"5", b"match", b"a*",
];

static POST: [&[u8]; 3] = [b"POST", b"/", b"HTTP/1.1"];

#[test]
fn options_come_in_any_order(rt: HostRuntime) {
    let wanted = Command::OnKey {
        key: b"k",
        act: KeyAct::Set {
            value: b"v",
            condition: Condition::IfAbsent,
            wants_old: true,
            lifetime: Lifetime::Kept,
        },
    };
    assert!(rt; command_of(&SET, NOW) == Ok(wanted), "SET");
    let wanted = Command::Walk(WalkCommand::Scan {
        cursor: 9,
        pattern: Some(b"a*"),
        count: 5,
        is_string: true,
    });
    assert!(rt; command_of(&SCAN, NOW) == Ok(wanted), "SCAN");
    assert!(rt;
        command_of(&POST, NOW) == Err(CommandFault::WebRequest),
        "POST"
    );
}

/// Lines of words, and what they ask for at the time 1,000.
const DEADLINES: [(&str, KeyAct<'static>); 6] = [
    (
        "setex k 2 v",
        KeyAct::Set {
            value: b"v",
            condition: Condition::Always,
            wants_old: false,
            lifetime: Lifetime::Until(3_000),
        },
    ),
    (
        "getex k pxat 7 PXAT 9",
        KeyAct::GetAndExpire {
            lifetime: Lifetime::Until(9),
        },
    ),
    (
        "getex k persist",
        KeyAct::GetAndExpire {
            lifetime: Lifetime::Forever,
        },
    ),
    (
        "expire k -2 LT xx",
        KeyAct::Expire {
            at: 0,
            rule: ExpireRule::IfSomeAndSooner,
        },
    ),
    (
        "pexpireat k 5 xx gt",
        KeyAct::Expire {
            at: 5,
            rule: ExpireRule::IfLater,
        },
    ),
    (
        "pexpiretime k",
        KeyAct::TimeLeft {
            unit: TimeUnit::Millis,
            form: TimeForm::Until,
        },
    ),
];

/// Returns what words ask for on the key `k`; none if they ask for something else.
fn act_on_k<'w>(words: &'w [&'w [u8]]) -> Option<KeyAct<'w>> {
    match command_of(words, NOW) {
        Ok(Command::OnKey { key, act }) if key == b"k".as_slice() => Some(act),
        _ => None,
    }
}

/// Tests whether the line asks for this on the key `k`.
fn is_asked_on_k(alloc: Global, line: &str, act: KeyAct<'_>) -> Result<bool, AllocError> {
    let words = words_of(alloc, line)?;
    Ok(act_on_k(&words) == Some(act))
}

#[test]
fn deadlines_are_absolute(rt: HostRuntime) -> Result<(), Fail> {
    for (line, act) in &DEADLINES {
        assert!(rt; is_asked_on_k(rt.alloc(), line, *act)?, "{line}");
    }
    Ok(())
}
