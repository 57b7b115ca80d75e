//! The exact bounds that operations, conditions and unsigned or signed bounds give. The rows are worked out from the
//! rules of each operation, apart from this program; no contract has them.
mod changes;
mod conditions;
mod conditions_at_edges;
mod operations;
mod operations_at_edges;

use bpf_model::{AluOp, ByteOrder, Condition, SignExtension, SwapWidth, Width};
use std::process::Abort;
use std::test::*;
use value_ranges::{Range, alu, mov, negate, refine, reorder, sign_extend};

const MAX31: u64 = 0x7fff_ffff;

const BIT31: u64 = 0x8000_0000;

const MAX32: u64 = 0xffff_ffff;

const BIT32: u64 = 0x1_0000_0000;

const MAX63: u64 = 0x7fff_ffff_ffff_ffff;

const BIT63: u64 = 0x8000_0000_0000_0000;

const MAX64: u64 = 0xffff_ffff_ffff_ffff;

/// A range in a row.
#[derive(Clone, Copy, Debug)]
enum Row {
    /// All four bounds are this word.
    One(u64),
    /// The same bounds of both readings.
    Same(u64, u64),
    /// Any signed reading.
    Unsigned(u64, u64),
    /// Any unsigned reading.
    Signed(i64, i64),
    Four(u64, u64, i64, i64),
}

const FULL: Row = Row::Unsigned(0, MAX64);

const WORD: Row = Row::Same(0, MAX32);

type FourBounds = (u64, u64, i64, i64);

impl Row {
    fn bounds(self) -> FourBounds {
        match self {
            Row::One(word) => (word, word, word.cast_signed(), word.cast_signed()),
            Row::Same(min, max) => (min, max, min.cast_signed(), max.cast_signed()),
            Row::Unsigned(min, max) => (min, max, i64::MIN, i64::MAX),
            Row::Signed(min, max) => (0, MAX64, min, max),
            Row::Four(umin, umax, smin, smax) => (umin, umax, smin, smax),
        }
    }

    /// returns the range, or fails if a row's bounds are out of order
    fn range(self, rt: &impl Abort) -> Range {
        let (umin, umax, smin, smax) = self.bounds();
        assert!(rt; umin <= umax && smin <= smax, "{self:?}");
        Range {
            umin,
            umax,
            smin,
            smax,
        }
    }
}

fn bounds(range: Range) -> FourBounds {
    (range.umin, range.umax, range.smin, range.smax)
}

/// The result of an operation, at 64 bits and at 32.
type Given = (Row, Row);

/// Two operands, and the result of each operation on them.
struct Operands {
    name: &'static str,
    a: Row,
    b: Row,
    add: Given,
    sub: Given,
    mul: Given,
    div: Given,
    remainder: Given,
    and: Given,
    or: Given,
    xor: Given,
    lsh: Given,
    rsh: Given,
    arsh: Given,
}

impl Operands {
    fn columns(&self) -> [(AluOp, Given); 11] {
        [
            (AluOp::Add, self.add),
            (AluOp::Sub, self.sub),
            (AluOp::Mul, self.mul),
            (AluOp::Div, self.div),
            (AluOp::Mod, self.remainder),
            (AluOp::And, self.and),
            (AluOp::Or, self.or),
            (AluOp::Xor, self.xor),
            (AluOp::Lsh, self.lsh),
            (AluOp::Rsh, self.rsh),
            (AluOp::Arsh, self.arsh),
        ]
    }

    fn check(&self, rt: &impl Abort) {
        let (a, b) = (self.a.range(rt), self.b.range(rt));
        for (op, (double, word)) in self.columns() {
            for (width, given) in [(Width::W64, double), (Width::W32, word)] {
                let found = bounds(alu(op, width, a, b));
                assert_eq!(rt; found, given.bounds(), "{op:?} {width:?}: {}", self.name);
            }
        }
    }
}

/// One operand, and the result of each change: at 64 bits and at 32, or at 16, 32 and 64.
struct Operand {
    name: &'static str,
    a: Row,
    negated: Given,
    moved: Given,
    extended_from_8: Given,
    extended_from_16: Given,
    extended_from_32: Row,
    little: [Row; 3],
    reversed: [Row; 3],
}

impl Operand {
    fn check(&self, rt: &impl Abort) {
        let a = self.a.range(rt);
        for (width, negated, moved) in [
            (Width::W64, self.negated.0, self.moved.0),
            (Width::W32, self.negated.1, self.moved.1),
        ] {
            let name = self.name;
            assert_eq!(rt;
                bounds(negate(width, a)),
                negated.bounds(),
                "neg {width:?}: {name}"
            );
            assert_eq!(rt;
                bounds(mov(width, a)),
                moved.bounds(),
                "mov {width:?}: {name}"
            );
        }
        self.check_extensions(rt, a);
        self.check_orders(rt, a);
    }

    fn check_extensions(&self, rt: &impl Abort, a: Range) {
        for (extension, given) in [
            (SignExtension::From8To64, self.extended_from_8.0),
            (SignExtension::From8To32, self.extended_from_8.1),
            (SignExtension::From16To64, self.extended_from_16.0),
            (SignExtension::From16To32, self.extended_from_16.1),
            (SignExtension::From32To64, self.extended_from_32),
        ] {
            let found = bounds(sign_extend(extension, a));
            assert_eq!(rt; found, given.bounds(), "{extension:?}: {}", self.name);
        }
    }

    fn check_orders(&self, rt: &impl Abort, a: Range) {
        for (order, [half, word, double]) in [
            (ByteOrder::Little, self.little),
            (ByteOrder::Big, self.reversed),
            (ByteOrder::Swap, self.reversed),
        ] {
            for (size, given) in [
                (SwapWidth::S16, half),
                (SwapWidth::S32, word),
                (SwapWidth::S64, double),
            ] {
                let found = bounds(reorder(order, size, a));
                assert_eq!(rt; found, given.bounds(), "{order:?} {size:?}: {}", self.name);
            }
        }
    }
}

/// What a condition leaves of two ranges.
#[derive(Clone, Copy, Debug)]
enum Answer {
    /// It holds of no pair.
    Never,
    /// Both ranges unchanged.
    Kept,
    Are(Row, Row),
}

/// Two operands, and what each condition leaves of them, at 64 bits and at 32.
struct Compared {
    name: &'static str,
    a: Row,
    b: Row,
    equal: (Answer, Answer),
    unequal: (Answer, Answer),
    greater: (Answer, Answer),
    at_least: (Answer, Answer),
    signed_greater: (Answer, Answer),
    signed_at_least: (Answer, Answer),
    common_bit: (Answer, Answer),
    no_common_bit: (Answer, Answer),
}

impl Compared {
    fn columns(&self) -> [(Condition, (Answer, Answer)); 8] {
        [
            (Condition::Eq, self.equal),
            (Condition::Ne, self.unequal),
            (Condition::Gt, self.greater),
            (Condition::Ge, self.at_least),
            (Condition::SGt, self.signed_greater),
            (Condition::SGe, self.signed_at_least),
            (Condition::CommonBit, self.common_bit),
            (Condition::NoCommonBit, self.no_common_bit),
        ]
    }

    fn bounds(&self, answer: Answer) -> Option<(FourBounds, FourBounds)> {
        match answer {
            Answer::Never => None,
            Answer::Kept => Some((self.a.bounds(), self.b.bounds())),
            Answer::Are(a, b) => Some((a.bounds(), b.bounds())),
        }
    }

    fn check(&self, rt: &impl Abort) {
        let (a, b) = (self.a.range(rt), self.b.range(rt));
        for (condition, (double, word)) in self.columns() {
            for (width, answer) in [(Width::W64, double), (Width::W32, word)] {
                let wanted = self.bounds(answer);
                let found = refine(condition, width, a, b).map(both_bounds);
                assert_eq!(rt; found, wanted, "{condition:?} {width:?}: {}", self.name);
                if let Some(exchanged) = exchanged(condition) {
                    let found = refine(exchanged, width, b, a).map(|(b, a)| both_bounds((a, b)));
                    assert_eq!(rt; found, wanted, "{exchanged:?} {width:?}: {}", self.name);
                }
            }
        }
    }
}

fn both_bounds((a, b): (Range, Range)) -> (FourBounds, FourBounds) {
    (bounds(a), bounds(b))
}

/// the condition that says the same with the operands exchanged
fn exchanged(condition: Condition) -> Option<Condition> {
    match condition {
        Condition::Gt => Some(Condition::Lt),
        Condition::Ge => Some(Condition::Le),
        Condition::SGt => Some(Condition::SLt),
        Condition::SGe => Some(Condition::SLe),
        _ => None,
    }
}
