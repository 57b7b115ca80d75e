//! Operations on small ranges.
use super::Row::{Four, One, Same, Signed, Unsigned};
use super::{FULL, MAX31, MAX32, MAX63, MAX64, Operands, WORD, bounds};
use bpf_model::{AluOp, Width};
use std::test::*;
use value_ranges::alu;

const SMALL_RANGES: [Operands; 9] = [
    Operands {
        name: "the two greatest words and one",
        a: Four(MAX64 - 1, MAX64, -2, -1),
        b: One(1),
        add: (Signed(-1, 0), WORD),
        sub: (Four(MAX64 - 2, MAX64 - 1, -3, -2), WORD),
        mul: (Four(MAX64 - 1, MAX64, -2, -1), WORD),
        div: (Four(MAX64 - 1, MAX64, -2, -1), WORD),
        remainder: (One(0), One(0)),
        and: (Same(0, 1), Same(0, 1)),
        or: (Four(MAX64 - 1, MAX64, -2, -1), Same(1, MAX32)),
        xor: (FULL, WORD),
        lsh: (FULL, WORD),
        rsh: (One(MAX63), Same(0, MAX31)),
        arsh: (One(MAX64), WORD),
    },
    Operands {
        name: "zero to ten and three",
        a: Same(0, 10),
        b: One(3),
        add: (Same(3, 13), Same(3, 13)),
        sub: (Signed(-3, 7), WORD),
        mul: (Same(0, 30), Same(0, 30)),
        div: (Same(0, 3), Same(0, 3)),
        remainder: (Same(0, 2), Same(0, 2)),
        and: (Same(0, 3), Same(0, 3)),
        or: (Same(3, 15), Same(3, 15)),
        xor: (Same(0, 15), Same(0, 15)),
        lsh: (Same(0, 80), Same(0, 80)),
        rsh: (Same(0, 1), Same(0, 1)),
        arsh: (Same(0, 1), Same(0, 1)),
    },
    Operands {
        name: "any word and a mask",
        a: FULL,
        b: One(7),
        add: (FULL, WORD),
        sub: (FULL, WORD),
        mul: (FULL, WORD),
        div: (Same(0, 0x2492_4924_9249_2492), Same(0, 0x2492_4924)),
        remainder: (Same(0, 6), Same(0, 6)),
        and: (Same(0, 7), Same(0, 7)),
        or: (Unsigned(7, MAX64), Same(7, MAX32)),
        xor: (FULL, WORD),
        lsh: (FULL, WORD),
        rsh: (Same(0, 0x1ff_ffff_ffff_ffff), Same(0, 0x1ff_ffff)),
        arsh: (Signed(-0x100_0000_0000_0000, 0xff_ffff_ffff_ffff), WORD),
    },
    Operands {
        name: "words around zero and one",
        a: Signed(-8, 7),
        b: One(1),
        add: (Signed(-7, 8), WORD),
        sub: (Signed(-9, 6), WORD),
        mul: (FULL, WORD),
        div: (FULL, WORD),
        remainder: (One(0), One(0)),
        and: (Same(0, 1), Same(0, 1)),
        or: (Unsigned(1, MAX64), Same(1, MAX32)),
        xor: (FULL, WORD),
        lsh: (FULL, WORD),
        rsh: (Same(0, MAX63), Same(0, MAX31)),
        arsh: (Signed(-4, 3), WORD),
    },
    Operands {
        name: "zero and a range",
        a: One(0),
        b: Same(0, 10),
        add: (Same(0, 10), Same(0, 10)),
        sub: (Signed(-10, 0), WORD),
        mul: (One(0), One(0)),
        div: (One(0), One(0)),
        remainder: (One(0), One(0)),
        and: (One(0), One(0)),
        or: (Same(0, 15), Same(0, 15)),
        xor: (Same(0, 15), Same(0, 15)),
        lsh: (FULL, WORD),
        rsh: (One(0), One(0)),
        arsh: (One(0), One(0)),
    },
    Operands {
        name: "ranges that touch",
        a: Same(9, 40),
        b: Same(7, 9),
        add: (Same(16, 49), Same(16, 49)),
        sub: (Same(0, 33), Same(0, 33)),
        mul: (Same(63, 360), Same(63, 360)),
        div: (Same(1, 5), Same(1, 5)),
        remainder: (Same(0, 8), Same(0, 8)),
        and: (Same(0, 9), Same(0, 9)),
        or: (Same(9, 63), Same(9, 63)),
        xor: (Same(0, 63), Same(0, 63)),
        lsh: (FULL, WORD),
        rsh: (Same(0, 40), Same(0, 40)),
        arsh: (Same(0, 40), Same(0, 40)),
    },
    Operands {
        name: "some negative words and a range",
        a: Four(MAX64 - 15, MAX64 - 7, -16, -8),
        b: Same(1, 3),
        add: (Four(MAX64 - 14, MAX64 - 4, -15, -5), WORD),
        sub: (Four(MAX64 - 18, MAX64 - 8, -19, -9), WORD),
        mul: (FULL, WORD),
        div: (Unsigned(0x5555_5555_5555_5550, MAX64 - 7), WORD),
        remainder: (Same(0, 2), Same(0, 2)),
        and: (Same(0, 3), Same(0, 3)),
        or: (Four(MAX64 - 15, MAX64, -16, -1), Same(1, MAX32)),
        xor: (FULL, WORD),
        lsh: (FULL, WORD),
        rsh: (Unsigned(0, MAX64 - 7), WORD),
        arsh: (Four(MAX64 - 15, MAX64, -16, -1), WORD),
    },
    Operands {
        name: "one word by its unsigned bounds alone",
        a: Four(5, 5, 0, 10),
        b: One(3),
        add: (One(8), One(8)),
        sub: (One(2), One(2)),
        mul: (One(15), One(15)),
        div: (One(1), One(1)),
        remainder: (One(2), One(2)),
        and: (One(1), One(1)),
        or: (One(7), One(7)),
        xor: (One(6), One(6)),
        lsh: (One(40), One(40)),
        rsh: (One(0), One(0)),
        arsh: (One(0), One(0)),
    },
    Operands {
        name: "no word, and two",
        a: Four(5, 10, -5, -1),
        b: One(2),
        add: (FULL, Same(7, 12)),
        sub: (FULL, Same(3, 8)),
        mul: (Same(10, 20), Same(10, 20)),
        div: (Same(2, 5), Same(2, 5)),
        remainder: (Same(0, 1), Same(0, 1)),
        and: (Same(0, 2), Same(0, 2)),
        or: (Same(5, 15), Same(5, 15)),
        xor: (Same(0, 15), Same(0, 15)),
        lsh: (Same(20, 40), Same(20, 40)),
        rsh: (Same(1, 2), Same(1, 2)),
        arsh: (Four(MAX64 - 1, MAX64, -2, -1), Same(1, 2)),
    },
];

#[test]
fn operations_on_small_ranges(rt: HostRuntime) {
    for row in &SMALL_RANGES {
        row.check(&rt);
    }
}

#[test]
fn signed_quotients_and_remainders_may_be_any_number(rt: HostRuntime) {
    let (a, b) = (Same(0, 10).range(&rt), One(3).range(&rt));
    for op in [AluOp::SDiv, AluOp::SMod] {
        for (width, any) in [(Width::W64, FULL), (Width::W32, WORD)] {
            assert_eq!(rt;
                bounds(alu(op, width, a, b)),
                any.bounds(),
                "{op:?} {width:?}"
            );
        }
    }
}
