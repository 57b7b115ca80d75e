//! Laws that no command prints, on words at the edges of both widths. `tests/words.txt` has the results of instructions.
use bpf_model::Width::{W32, W64};
use bpf_model::{Answer, Condition, JumpOp, NoMemory, SignExtension, SwapWidth, TooLong, Window};
use std::test::*;

const MAX: u64 = u64::MAX;

/// The least signed word.
const TOP: u64 = 0x8000_0000_0000_0000;

/// -13.
const MINUS_13: u64 = 0xffff_ffff_ffff_fff3;

const TESTS: [JumpOp; 11] = [
    JumpOp::Eq,
    JumpOp::Gt,
    JumpOp::Ge,
    JumpOp::Set,
    JumpOp::Ne,
    JumpOp::SGt,
    JumpOp::SGe,
    JumpOp::Lt,
    JumpOp::Le,
    JumpOp::SLt,
    JumpOp::SLe,
];

#[test]
fn a_condition_or_its_opposite_holds(rt: HostRuntime) {
    for (width, a, b) in [
        (W64, 0, 0),
        (W64, 0x7fff_ffff, 0x8000_0000),
        (W64, 0x8000_0000, 0x7fff_ffff),
        (W64, 0xffff_ffff, MAX),
        (W64, TOP - 1, TOP),
        (W64, TOP, TOP - 1),
        (W64, MAX, 0),
        (W64, TOP, 0x1_0000_0000),
        (W64, 0x1_0000_0005, 5),
        (W32, 0, 0),
        (W32, 0x7fff_ffff, 0x8000_0000),
        (W32, 0x8000_0000, 0x7fff_ffff),
        (W32, 0xffff_ffff, MAX),
        (W32, TOP - 1, TOP),
        (W32, TOP, TOP - 1),
        (W32, MAX, 0),
        (W32, TOP, 0x1_0000_0000),
        (W32, 0x1_0000_0005, 5),
    ] {
        for test in TESTS {
            let condition = test.condition();
            let holds = condition.holds(width, a, b);
            assert!(rt;
                condition.opposite().holds(width, a, b) != holds
                    && condition.fails(width, a, b) != holds,
                "{test:?} of {a} and {b} at {width:?}"
            );
        }
    }
}

#[test]
fn words_with_a_sign_extended(rt: HostRuntime) {
    for (extension, n, given) in [
        (SignExtension::From8To32, 0xffff_ff80, true),
        (SignExtension::From8To32, 0xffff_ffff_ffff_ff80, false),
        (SignExtension::From8To32, 0x80, false),
        (SignExtension::From16To32, 0xffff_8000, true),
        (SignExtension::From16To32, 0x8000, false),
        (SignExtension::From8To64, MAX, true),
        (SignExtension::From8To64, 0x7f, true),
        (SignExtension::From8To64, 0x1234, false),
        (SignExtension::From16To64, 0x1234, true),
        (SignExtension::From16To64, 0xffff_8000, false),
        (SignExtension::From32To64, 0xffff_ffff_8000_0000, true),
        (SignExtension::From32To64, 0x1_0000_0000, false),
        (SignExtension::From8To32, 0x7f, true),
        (SignExtension::From8To32, 0xffff_ff80, true),
        (SignExtension::From16To32, 0x7fff, true),
        (SignExtension::From16To32, 0xffff_8000, true),
        (SignExtension::From8To64, 0x7f, true),
        (SignExtension::From8To64, 0xffff_ffff_ffff_ff80, true),
        (SignExtension::From16To64, 0x7fff, true),
        (SignExtension::From16To64, 0xffff_ffff_ffff_8000, true),
        (SignExtension::From32To64, 0x7fff_ffff, true),
        (SignExtension::From32To64, 0xffff_ffff_8000_0000, true),
    ] {
        assert_eq!(rt; extension.gives(n), given, "{extension:?} and {n}");
    }
}

#[test]
fn quotients_and_orders_are_undone(rt: HostRuntime) {
    let word = 0x1122_3344_5566_7788;
    for (name, given, wanted) in [
        ("-13 and 3", W64.divided_again(MINUS_13, 3), MINUS_13),
        (
            "-13 of 32 bits",
            W32.divided_again(MINUS_13, 3),
            0xffff_fff3,
        ),
        ("the least word", W64.divided_again(TOP, MAX), TOP),
        ("13 by zero", W64.divided_again(13, 0), 13),
        ("zero by -13", W64.divided_again(0, MINUS_13), 0),
        ("16 bits", SwapWidth::S16.reversed_twice(word), 0x7788),
        ("16 bits of 4660", SwapWidth::S16.reversed_twice(4660), 4660),
        ("32 bits", SwapWidth::S32.reversed_twice(word), 0x5566_7788),
        ("64 bits", SwapWidth::S64.reversed_twice(word), word),
    ] {
        assert_eq!(rt; given, wanted, "{name}");
    }
    assert!(rt; W32.has(0xffff_ffff) && !W32.has(0x1_0000_0000) && W64.has(MAX));
    assert!(rt;
        Condition::NoCommonBit.fails(W64, 6, 3)
            && Window::Key.is_read_only()
            && !Window::Stack.is_read_only()
    );
    assert!(rt; Answer::Nothing.is_same(&Answer::Nothing));
}

#[test]
fn refusals_have_their_numbers(rt: HostRuntime) {
    assert_eq!(rt; (TooLong.number(), NoMemory.number()), (1, 9));
}
