//! Commands and replies as Redis has them.
use bumpalo::Bump;
use devices::StreamSink;
use resp::{
    Next, NextFault, RespFault, integer, next_command, put_array, put_error, put_integer,
    put_nothing, put_simple, put_value,
};
use std::alloc::{AllocError, Global};
use std::test::*;

/// Tests whether the bytes begin with the command of these words, and this rest follows it.
fn reads(rt: &HostRuntime, bytes: &[u8], words: &[&[u8]], after: &[u8]) -> bool {
    let arena = Bump::new(rt.alloc());
    let mut read = Vec::new(rt.alloc());
    match next_command(bytes, &arena, &mut read) {
        Ok(Next::Command(rest)) => rest == after && read.as_slice() == words,
        _ => false,
    }
}

#[test]
fn arrays_and_lines_are_commands(rt: HostRuntime) {
    let set: &[&[u8]] = &[b"SET", b"k", b"a\r\nb"];
    assert!(rt;
        reads(
            &rt,
            b"*3\r\n$3\r\nSET\r\n$1\r\nk\r\n$4\r\na\r\nb\r\n*1",
            set,
            b"*1"
        )
    );
    assert!(rt; reads(&rt, b"*1\r\n$0\r\n\r\n", &[b""], b""));
    assert!(rt; reads(&rt, b"PING\r\nPING", &[b"PING"], b"PING"));
    assert!(rt; reads(&rt, b"PING\n", &[b"PING"], b""));
    let quoted: &[&[u8]] = &[b"set", b"a b", b"", b"it's"];
    assert!(rt; reads(&rt, b"  set 'a b' \"\"\t\"it's\" \r\n", quoted, b""));
}

#[test]
fn words_of_a_line_are_those_of_redis(rt: HostRuntime) {
    let rows: [(&[u8], &[u8]); 21] = [
        (b"a\"b c\"", b"ab c"),
        (b"a'b c'", b"ab c"),
        (b"\"a\\x41\\x4\"", b"aAx4"),
        (b"\"\\xaF\\xFa\\x0a\\x00z\"", b"\xaf\xfa\n\0z"),
        (b"\"\\x\"", b"x"),
        (b"\"\\xg1\\x1g\"", b"xg1x1g"),
        (b"\"\\X41\"", b"X41"),
        (b"\"\\n\\r\\t\\b\\a\\q\\\\\\\"\"", b"\n\r\t\x08\x07q\\\""),
        (b"'a\\'b\\n\\x41'", b"a'b\\n\\x41"),
        (b"'a\\b\\\\c'", b"a\\b\\\\c"),
        (b"\"a\rb\"", b"a\rb"),
        (b"\"a\"\x0b", b"a"),
        (b"'a'\x0c", b"a"),
        (b"\x0b\x0ca", b"a"),
        (b"a\x0cb", b"a\x0cb"),
        (b"a\x0b", b"a\x0b"),
        (b"a\x0b'b'", b"a\x0bb"),
        (b"a\\b", b"a\\b"),
        (b"a\\\"b\"", b"a\\b"),
        (b"\"'\"", b"'"),
        (b"'\"'", b"\""),
    ];
    for (text, word) in &rows {
        let mut line = Vec::from_slice(rt.alloc(), b"ECHO ").expect(&rt, "there");
        line.extend_from_slice(*text).expect(&rt, "there");
        line.extend_from_slice(b"\r\n").expect(&rt, "there");
        let words: [&[u8]; 2] = [b"ECHO", *word];
        assert!(rt; reads(&rt, &line, &words, b""), "{text:?}");
    }
}

#[test]
fn quotes_that_redis_finds_unbalanced_are_a_fault(rt: HostRuntime) {
    for line in [
        b"GET 'a\r\n" as &[u8],
        b"GET 'a'b\n",
        b"GET \"a\"'b'\n",
        b"GET a'b'\"c\"\n",
        b"GET a\"b\"c\n",
        b"GET \"\\\r\n",
        b"GET \"a\\\"\r\n",
        b"GET 'a\\'\r\n",
        b"GET 'a\\\\'\r\n",
        b"GET 'a\r\r\n",
        b"GET \"a\n\"\n",
    ] {
        let arena = Bump::new(rt.alloc());
        let mut words = Vec::new(rt.alloc());
        let fault = Err(NextFault::Faulty(RespFault::UnbalancedQuotes));
        assert!(rt; next_command(line, &arena, &mut words) == fault, "{line:?}");
    }
}

#[test]
fn arrays_and_lines_without_words_are_ignored(rt: HostRuntime) {
    for bytes in [
        b"*0\r\n+",
        b"*-1\r\n+" as &[u8],
        b"*-9223372036854775808\r\n+",
        b"\r\n+",
        b"\n+",
        b" \t\r\n+",
    ] {
        let arena = Bump::new(rt.alloc());
        let mut words = Vec::new(rt.alloc());
        assert_eq!(rt;
            next_command(bytes, &arena, &mut words),
            Ok(Next::Nothing(b"+"))
        );
    }
}

#[test]
fn a_front_of_a_command_is_waited_for(rt: HostRuntime) {
    for whole in [
        b"*2\r\n$3\r\nGET\r\n$10\r\n0123456789\r\n" as &[u8],
        b"*-12\r\n",
        b"GET 'a b' \"c\r\n",
        b"GET a\0b\r\nPING\r\n",
    ] {
        for n in 0..whole.len() {
            let arena = Bump::new(rt.alloc());
            let mut words = Vec::new(rt.alloc());
            assert_eq!(rt;
                next_command(&whole[..n], &arena, &mut words),
                Ok(Next::More),
                "at {n}"
            );
        }
    }
}

#[test]
fn a_line_with_a_zero_byte_has_no_end(rt: HostRuntime) {
    let mut line = vec![in rt.alloc(); b'a'; 65530].expect(&rt, "there");
    line.extend_from_slice(b"\0\r\n").expect(&rt, "there");
    for (more, result) in [
        (b"bcd" as &[u8], Ok(Next::More)),
        (b"bcde", Err(NextFault::Faulty(RespFault::TooBigLine))),
    ] {
        let mut whole = line.clone().expect(&rt, "there");
        whole.extend_from_slice(more).expect(&rt, "there");
        let arena = Bump::new(rt.alloc());
        let mut words = Vec::new(rt.alloc());
        assert!(rt;
            next_command(&whole, &arena, &mut words) == result,
            "{more:?}"
        );
    }
}

#[test]
fn faults_have_the_texts_of_redis(rt: HostRuntime) {
    let rows: [(&[u8], RespFault, &[u8]); 13] = [
        (
            b"*x",
            RespFault::BadCount,
            b"ERR Protocol error: invalid multibulk length",
        ),
        (
            b"*01",
            RespFault::BadCount,
            b"ERR Protocol error: invalid multibulk length",
        ),
        (
            b"*-0",
            RespFault::BadCount,
            b"ERR Protocol error: invalid multibulk length",
        ),
        (
            b"*4097",
            RespFault::BadCount,
            b"ERR Protocol error: invalid multibulk length",
        ),
        (
            b"*-9223372036854775809",
            RespFault::BadCount,
            b"ERR Protocol error: invalid multibulk length",
        ),
        (
            b"*1\r\nPING",
            RespFault::NoDollar(b'P'),
            b"ERR Protocol error: expected '$', got 'P'",
        ),
        (
            b"*1\r\n\r\n",
            RespFault::NoDollar(b'\r'),
            b"ERR Protocol error: expected '$', got ' '",
        ),
        (
            b"*1\r\n$-1",
            RespFault::BadLength,
            b"ERR Protocol error: invalid bulk length",
        ),
        (
            b"*1\r\n$65537",
            RespFault::BadLength,
            b"ERR Protocol error: invalid bulk length",
        ),
        (
            b"*1\r\n$1\n",
            RespFault::BadLength,
            b"ERR Protocol error: invalid bulk length",
        ),
        (
            b"*1\r\n$1\r\nab",
            RespFault::NoNewline,
            b"ERR Protocol error: invalid bulk length",
        ),
        (
            b"GET 'a\r\n",
            RespFault::UnbalancedQuotes,
            b"ERR Protocol error: unbalanced quotes in request",
        ),
        (
            &[b'a'; 65537],
            RespFault::TooBigLine,
            b"ERR Protocol error: too big inline request",
        ),
    ];
    for (bytes, fault, message) in &rows {
        let arena = Bump::new(rt.alloc());
        let mut words = Vec::new(rt.alloc());
        assert_eq!(rt;
            next_command(*bytes, &arena, &mut words),
            Err(NextFault::Faulty(*fault))
        );
        assert!(rt; fault.message().as_slice() == *message);
    }
}

/// Returns an array of 65 words up to the last one, whose words have 4 MiB together, and then these bytes.
fn long_array(alloc: Global, then: &[u8]) -> Result<Vec<u8>, AllocError> {
    let word = vec![in alloc; b'a'; 65536]?;
    let mut bytes = Vec::from_slice(alloc, b"*65\r\n")?;
    for _ in 0..64 {
        bytes.extend_from_slice(b"$65536\r\n")?;
        bytes.extend_from_slice(&word)?;
        bytes.extend_from_slice(b"\r\n")?;
    }
    bytes.extend_from_slice(then)?;
    Ok(bytes)
}

/// Tests whether the bytes begin with a whole command.
fn is_whole(rt: &HostRuntime, bytes: &[u8]) -> Result<bool, NextFault> {
    let arena = Bump::new(rt.alloc());
    let mut words = Vec::new(rt.alloc());
    let next = next_command(bytes, &arena, &mut words)?;
    Ok(matches!(next, Next::Command(_)))
}

#[test]
fn all_words_together_have_a_limit(rt: HostRuntime) {
    let rows: [(&[u8], Result<bool, NextFault>); 7] = [
        (b"$0\r\n\r\n", Ok(true)),
        (b"$", Ok(false)),
        (b"$0\r", Ok(false)),
        (b"$1", Err(NextFault::Faulty(RespFault::TooBigCommand))),
        (b"$x", Err(NextFault::Faulty(RespFault::TooBigCommand))),
        (b"$0x", Err(NextFault::Faulty(RespFault::TooBigCommand))),
        (b"+", Err(NextFault::Faulty(RespFault::NoDollar(b'+')))),
    ];
    for (then, result) in rows {
        let bytes = long_array(rt.alloc(), then).expect(&rt, "there");
        assert!(rt; is_whole(&rt, &bytes) == result, "{then:?}");
    }
    let message = RespFault::TooBigCommand.message();
    assert!(rt; message.as_slice() == b"ERR Protocol error: too big command".as_slice());
}

#[test]
fn only_canonical_numbers_are_read(rt: HostRuntime) {
    let rows: [(&[u8], Option<i64>); 12] = [
        (b"0", Some(0)),
        (b"-1", Some(-1)),
        (b"9223372036854775807", Some(i64::MAX)),
        (b"-9223372036854775808", Some(i64::MIN)),
        (b"9223372036854775808", None),
        (b"-9223372036854775809", None),
        (b"99999999999999999999999", None),
        (b"-0", None),
        (b"+1", None),
        (b"01", None),
        (b" 1", None),
        (b"", None),
    ];
    for (text, number) in &rows {
        assert_eq!(rt; integer(*text), *number);
    }
}

#[test]
fn replies_are_written(rt: HostRuntime) {
    let mut sink = StreamSink::new(Vec::new(rt.alloc()));
    assert!(rt; put_simple(&mut sink, b"OK").is_ok());
    assert!(rt; put_error(&mut sink, b"ERR no").is_ok());
    assert!(rt; put_integer(&mut sink, -12).is_ok());
    assert!(rt; put_array(&mut sink, 2).is_ok());
    assert!(rt; put_value(&mut sink, b"a\r\n").is_ok());
    assert!(rt; put_nothing(&mut sink).is_ok());
    let written: &[u8] = b"+OK\r\n-ERR no\r\n:-12\r\n*2\r\n$3\r\na\r\n\r\n$-1\r\n";
    assert!(rt; sink.into_inner().as_slice() == written);
}
