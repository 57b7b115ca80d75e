//! Tests of `mapd_words`: defaults, and each word once. What a server prints has its rows in `tests/server.sh`.
use map_server::{MapdWords, WordsFault, mapd_words};
use std::alloc::{AllocError, Global};
use std::test::Fail;

/// The address that rows listen on.
const ANY_PORT: &str = "127.0.0.1:0";

/// Makes the words for this address, for these numbers of stripes, workers and passes of a team, and for this number of sessions. The
/// limits are the defaults.
fn asked(
    alloc: Global,
    listen: &str,
    sizes: (u64, u64, u64),
    sessions: Option<u64>,
) -> Result<MapdWords, AllocError> {
    Ok(MapdWords {
        listen: Some(String::from_str(alloc, listen)?),
        redis: None,
        stripes: sizes.0,
        workers: sizes.1,
        team: sizes.2,
        sessions,
        clients: 1000,
        idle: None,
        programs: 65_536,
        memory: None,
        keep: None,
        keep_seconds: 1,
        keep_strict: false,
        password_file: None,
        metrics: None,
        slowlog_microseconds: None,
    })
}

#[test]
fn words_have_defaults(rt: HostRuntime) -> Result<(), Fail> {
    let words = mapd_words(rt.alloc(), &["mapd", "--listen", ANY_PORT])?;
    let wanted = asked(rt.alloc(), ANY_PORT, (16, 4, 1), None)?;
    assert!(rt; words == wanted, "{words:?}");
    Ok(())
}

#[test]
fn a_redis_port_is_enough(rt: HostRuntime) -> Result<(), Fail> {
    let words = mapd_words(rt.alloc(), &["mapd", "--redis", ANY_PORT])?;
    let mut wanted = asked(rt.alloc(), ANY_PORT, (16, 4, 1), None)?;
    wanted.redis = wanted.listen.take();
    assert!(rt; words == wanted, "{words:?}");
    Ok(())
}

/// Each word of `mapd` once.
const ALL_WORDS: [&str; 15] = [
    "mapd",
    "--listen",
    "[::1]:7",
    "--redis=[::1]:8",
    "--stripes",
    "2",
    "--workers=32",
    "--team",
    "8",
    "--sessions",
    "65535",
    "--clients=65535",
    "--idle",
    "60",
    "--programs=100",
];

#[test]
fn words_are_taken(rt: HostRuntime) -> Result<(), Fail> {
    let words = mapd_words(rt.alloc(), &ALL_WORDS)?;
    let mut wanted = asked(rt.alloc(), "[::1]:7", (2, 32, 8), Some(65535))?;
    wanted.redis = Some(String::from_str(rt.alloc(), "[::1]:8")?);
    wanted.clients = 65535;
    wanted.idle = Some(60);
    wanted.programs = 100;
    assert!(rt; words == wanted, "{words:?}");
    Ok(())
}

#[test]
fn an_address_is_asked_for(rt: HostRuntime) {
    assert!(rt; matches!(mapd_words(rt.alloc(), &["mapd"]), Err(WordsFault::Words(_))));
}
