//! Conditions of small ranges.
use super::Answer::{Are, Kept, Never};
use super::Row::{Four, One, Same, Signed};
use super::{Compared, MAX64};
use std::test::*;

const SMALL_RANGES: [Compared; 7] = [
    Compared {
        name: "a range and its least word",
        a: Same(0, 10),
        b: One(0),
        equal: (Are(One(0), One(0)), Are(One(0), One(0))),
        unequal: (Are(Same(1, 10), One(0)), Are(Same(1, 10), One(0))),
        greater: (Are(Same(1, 10), One(0)), Are(Same(1, 10), One(0))),
        at_least: (Kept, Kept),
        signed_greater: (Are(Same(1, 10), One(0)), Are(Same(1, 10), One(0))),
        signed_at_least: (Kept, Kept),
        common_bit: (Kept, Kept),
        no_common_bit: (Kept, Kept),
    },
    Compared {
        name: "signed ranges that overlap",
        a: Signed(-3, 12),
        b: Signed(-5, 7),
        equal: (Are(Signed(-3, 7), Signed(-3, 7)), Kept),
        unequal: (Kept, Kept),
        greater: (Are(Four(1, MAX64, -3, 12), Four(0, MAX64 - 1, -5, 7)), Kept),
        at_least: (Kept, Kept),
        signed_greater: (Kept, Kept),
        signed_at_least: (Kept, Kept),
        common_bit: (Kept, Kept),
        no_common_bit: (Kept, Kept),
    },
    Compared {
        name: "around zero and minus one",
        a: Signed(-1, 8),
        b: One(MAX64),
        equal: (Are(One(MAX64), One(MAX64)), Kept),
        unequal: (Are(Same(0, 8), One(MAX64)), Kept),
        greater: (Never, Kept),
        at_least: (Are(One(MAX64), One(MAX64)), Kept),
        signed_greater: (Are(Same(0, 8), One(MAX64)), Kept),
        signed_at_least: (Kept, Kept),
        common_bit: (Kept, Kept),
        no_common_bit: (Kept, Kept),
    },
    Compared {
        name: "around zero and the greatest of it",
        a: Signed(-8, 7),
        b: One(7),
        equal: (Are(One(7), One(7)), Kept),
        unequal: (Are(Signed(-8, 6), One(7)), Kept),
        greater: (Are(Four(8, MAX64, -8, 7), One(7)), Kept),
        at_least: (Are(Four(7, MAX64, -8, 7), One(7)), Kept),
        signed_greater: (Never, Kept),
        signed_at_least: (Are(One(7), One(7)), Kept),
        common_bit: (Kept, Kept),
        no_common_bit: (Kept, Kept),
    },
    Compared {
        name: "bounds that tighten",
        a: Four(0, 20, -3, 9),
        b: Same(2, 12),
        equal: (Are(Same(2, 9), Same(2, 9)), Are(Same(2, 9), Same(2, 9))),
        unequal: (
            Are(Four(0, 20, 0, 9), Same(2, 12)),
            Are(Four(0, 20, 0, 9), Same(2, 12)),
        ),
        greater: (
            Are(Four(3, 20, 3, 9), Same(2, 12)),
            Are(Four(3, 20, 3, 9), Same(2, 12)),
        ),
        at_least: (
            Are(Four(2, 20, 2, 9), Same(2, 12)),
            Are(Four(2, 20, 2, 9), Same(2, 12)),
        ),
        signed_greater: (Are(Same(3, 9), Same(2, 8)), Are(Same(3, 9), Same(2, 8))),
        signed_at_least: (Are(Same(2, 9), Same(2, 9)), Are(Same(2, 9), Same(2, 9))),
        common_bit: (
            Are(Four(0, 20, 0, 9), Same(2, 12)),
            Are(Four(0, 20, 0, 9), Same(2, 12)),
        ),
        no_common_bit: (
            Are(Four(0, 20, 0, 9), Same(2, 12)),
            Are(Four(0, 20, 0, 9), Same(2, 12)),
        ),
    },
    Compared {
        name: "one word by its unsigned bounds, twice",
        a: Four(5, 5, 0, 10),
        b: Four(5, 5, 3, 12),
        equal: (Are(One(5), One(5)), Are(One(5), One(5))),
        unequal: (Never, Never),
        greater: (Never, Never),
        at_least: (Are(One(5), One(5)), Are(One(5), One(5))),
        signed_greater: (Are(One(5), One(5)), Are(One(5), One(5))),
        signed_at_least: (Are(One(5), One(5)), Are(One(5), One(5))),
        common_bit: (Are(One(5), One(5)), Are(One(5), One(5))),
        no_common_bit: (Never, Never),
    },
    Compared {
        name: "no word, and three",
        a: Four(0, 10, -5, -1),
        b: One(3),
        equal: (Never, Never),
        unequal: (Never, Never),
        greater: (Never, Never),
        at_least: (Never, Never),
        signed_greater: (Never, Never),
        signed_at_least: (Never, Never),
        common_bit: (Never, Never),
        no_common_bit: (Never, Never),
    },
];

#[test]
fn conditions_of_small_ranges(rt: HostRuntime) {
    for row in &SMALL_RANGES {
        row.check(&rt);
    }
}
