//! A seat at rest: calls each function of known_seat once, at a table of one word without slots.
ghost use Rattle.std.specs.Prelude.{◌≡◌};

use atomic_table::{Play, Seat, Shared, Split, Table, TableRule};
use known_seat::{Known, Lesson, learn};
use std::alloc::Global;
use std::test::Fail;

/// A table without a rule.
struct Anything;

impl TableRule<u8, (), ()> for Anything {
    ghost holds = { λ _ _. Unit {0} };

    ghost first = { λ _. tt };
}

impl Play<u8, ()> for Anything {
    // The slots stay.
    ghost then = { λ _ before _ after. after.1 ≡ before.1 };
}

impl Split<()> for Anything {
    ghost left = { λ _. tt };

    ghost right = { λ _. tt };
}

impl Lesson<()> for Anything {
    ghost then = { λ _ _ _. Unit {0} };
}

type Words = Table<u8, (), (), Anything, Global>;

#[test]
fn a_seat_learns_from_one_at_rest(rt: HostRuntime) -> Result<(), Fail> {
    let (table, mut seat) = Words::of_words(rt.alloc(), &[7], &())?;
    let other = table.shared.split_seat::<Anything>(&mut seat);
    let mut from = Known::of(other);
    learn::<_, _, _, _, Anything>(&table.shared, &mut seat, &from);
    let found = table.shared.load::<Anything>(&mut seat, 0);
    let mut out: Seat<u8, ()> = from.take();
    let before = table.shared.swap::<Anything>(&mut out, 0, 8);
    from.put(out);
    assert!(rt; found == 7 && before == 7 && table.shared.peek(0) == 8);
    Ok(())
}
