//! Negations, moves, extensions of signs and byte orders.
use super::Row::{Four, One, Same, Signed};
use super::{BIT31, BIT32, BIT63, FULL, MAX32, MAX63, MAX64, Operand, WORD};
use std::test::*;

const OPERANDS: [Operand; 9] = [
    Operand {
        name: "bytes that keep their sign",
        a: Same(3, 127),
        negated: (Four(0xffff_ffff_ffff_ff81, MAX64 - 2, -127, -3), WORD),
        moved: (Same(3, 127), Same(3, 127)),
        extended_from_8: (Same(3, 127), Same(3, 127)),
        extended_from_16: (Same(3, 127), Same(3, 127)),
        extended_from_32: Same(3, 127),
        little: [Same(3, 127), Same(3, 127), Same(3, 127)],
        reversed: [Same(0, 65535), WORD, FULL],
    },
    Operand {
        name: "bytes that may change it",
        a: Same(3, 128),
        negated: (Four(0xffff_ffff_ffff_ff80, MAX64 - 2, -128, -3), WORD),
        moved: (Same(3, 128), Same(3, 128)),
        extended_from_8: (Signed(-128, 127), WORD),
        extended_from_16: (Same(3, 128), Same(3, 128)),
        extended_from_32: Same(3, 128),
        little: [Same(3, 128), Same(3, 128), Same(3, 128)],
        reversed: [Same(0, 65535), WORD, FULL],
    },
    Operand {
        name: "half words that may change it",
        a: Same(3, 32768),
        negated: (Four(0xffff_ffff_ffff_8000, MAX64 - 2, -32768, -3), WORD),
        moved: (Same(3, 32768), Same(3, 32768)),
        extended_from_8: (Signed(-128, 127), WORD),
        extended_from_16: (Signed(-32768, 32767), WORD),
        extended_from_32: Same(3, 32768),
        little: [Same(3, 32768), Same(3, 32768), Same(3, 32768)],
        reversed: [Same(0, 65535), WORD, FULL],
    },
    Operand {
        name: "numbers past 16 bits",
        a: Same(7, 65536),
        negated: (Four(0xffff_ffff_ffff_0000, MAX64 - 6, -65536, -7), WORD),
        moved: (Same(7, 65536), Same(7, 65536)),
        extended_from_8: (Signed(-128, 127), WORD),
        extended_from_16: (Signed(-32768, 32767), WORD),
        extended_from_32: Same(7, 65536),
        little: [Same(0, 65535), Same(7, 65536), Same(7, 65536)],
        reversed: [Same(0, 65535), WORD, FULL],
    },
    Operand {
        name: "numbers past 31 bits",
        a: Same(1, BIT31),
        negated: (Four(0xffff_ffff_8000_0000, MAX64, -0x8000_0000, -1), WORD),
        moved: (Same(1, BIT31), Same(1, BIT31)),
        extended_from_8: (Signed(-128, 127), WORD),
        extended_from_16: (Signed(-32768, 32767), WORD),
        extended_from_32: Signed(-0x8000_0000, 0x7fff_ffff),
        little: [Same(0, 65535), Same(1, BIT31), Same(1, BIT31)],
        reversed: [Same(0, 65535), WORD, FULL],
    },
    Operand {
        name: "numbers past 32 bits",
        a: Same(0, BIT32),
        negated: (Signed(-0x1_0000_0000, 0), WORD),
        moved: (Same(0, BIT32), WORD),
        extended_from_8: (Signed(-128, 127), WORD),
        extended_from_16: (Signed(-32768, 32767), WORD),
        extended_from_32: Signed(-0x8000_0000, 0x7fff_ffff),
        little: [Same(0, 65535), WORD, Same(0, BIT32)],
        reversed: [Same(0, 65535), WORD, FULL],
    },
    Operand {
        name: "all negative words but one",
        a: Four(BIT63 + 1, MAX64, i64::MIN + 1, -1),
        negated: (Same(1, MAX63), WORD),
        moved: (Four(BIT63 + 1, MAX64, i64::MIN + 1, -1), WORD),
        extended_from_8: (Signed(-128, 127), WORD),
        extended_from_16: (Signed(-32768, 32767), WORD),
        extended_from_32: Signed(-0x8000_0000, 0x7fff_ffff),
        little: [
            Same(0, 65535),
            WORD,
            Four(BIT63 + 1, MAX64, i64::MIN + 1, -1),
        ],
        reversed: [Same(0, 65535), WORD, FULL],
    },
    Operand {
        name: "any word",
        a: FULL,
        negated: (FULL, WORD),
        moved: (FULL, WORD),
        extended_from_8: (Signed(-128, 127), WORD),
        extended_from_16: (Signed(-32768, 32767), WORD),
        extended_from_32: Signed(-0x8000_0000, 0x7fff_ffff),
        little: [Same(0, 65535), WORD, FULL],
        reversed: [Same(0, 65535), WORD, FULL],
    },
    Operand {
        name: "one word by its unsigned bounds alone",
        a: Four(5, 5, 0, 10),
        negated: (One(MAX64 - 4), One(MAX32 - 4)),
        moved: (One(5), One(5)),
        extended_from_8: (One(5), One(5)),
        extended_from_16: (One(5), One(5)),
        extended_from_32: One(5),
        little: [One(5), One(5), One(5)],
        reversed: [One(1280), One(0x500_0000), One(0x500_0000_0000_0000)],
    },
];

#[test]
fn changes_of_one_operand(rt: HostRuntime) {
    for row in &OPERANDS {
        row.check(&rt);
    }
}
