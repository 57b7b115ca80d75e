//! The rule of the stripes in the form that the table asks for, and the effect of each step.
ghost use Rattle.std.specs.Prelude.{◌≡◌, List, []};
ghost use Rattle.bin_stripes.specs.Actions.{Action};

use crate::ghost_action::GhostAction;
use atomic_table::{Join, Play, Split, TableRule};
use known_seat::Lesson;
use noted_bins::NotedBins;
use std::marker::{Brand, PhantomData};
use stripe_rule::View;

/// How many stripes and passes a map has.
#[derive(Drop)]
pub struct Shape {
    pub stripes: u64,
    pub passes: u64,
}

/// The rule.
pub struct Striping<B> {
    bins: PhantomData<B>,
}

impl<B: NotedBins> TableRule<Option<B>, View<GhostAction>, Shape> for Striping<B> {
    ghost use Rattle.stripe_rule.specs.Rule.{Kept, opener};
    ghost use Rattle.bin_stripes.specs.Histories.{empty, does};
    ghost use Rattle.bin_stripes.specs.Saves.{keeps};

    ghost holds = { λ shape.
        Kept (does shape.stripes) empty B.table (keeps B.table B.noted) shape.stripes shape.passes };

    ghost first = { λ shape. opener shape.stripes shape.passes };
}

/// A load of a stripe's word.
pub struct Look;

impl<B> Play<Option<B>, View<GhostAction>> for Look {
    ghost use Rattle.bin_stripes.specs.Releasing.{stripe_looked};

    ghost then = { stripe_looked };
}

/// The compare-exchange of a stripe's word from 0 to 1.
pub struct Take<B> {
    bins: PhantomData<B>,
}

impl<B: NotedBins> Play<Option<B>, View<GhostAction>> for Take<B> {
    ghost use Rattle.bin_stripes.specs.Releasing.{stripe_took};

    ghost then = { stripe_took B.table B.noted };
}

/// A fact about the actions that a release adds. The release picks it.
pub trait May {
    ghost may: { List Action → Type 0 };
}

impl May for Brand {
    ghost may = { λ actions. actions ≡ [] };
}

/// The swap of a stripe's word to 0.
pub struct Release<J> {
    may: PhantomData<J>,
}

impl<B, J: May> Play<Option<B>, View<GhostAction>> for Release<J> {
    ghost use Rattle.bin_stripes.specs.Releasing.{stripe_released};

    ghost then = { stripe_released J.may };
}

/// Each pass is dealt the first remaining number.
pub struct Deal;

impl Split<View<GhostAction>> for Deal {
    ghost use Rattle.stripe_rule.specs.Steps.{with_numbers, head_of, tail_of};

    ghost left = { λ v. with_numbers v (head_of v.numbers) };

    ghost right = { λ v. with_numbers v (tail_of v.numbers) };
}

/// A pass is told what another has seen.
pub struct Inform;

impl Lesson<View<GhostAction>> for Inform {
    ghost use Rattle.stripe_rule.specs.Steps.{IsTold};

    ghost then = { λ v from u. IsTold from v u };
}

/// Two passes become one.
pub struct Unite;

impl Join<View<GhostAction>> for Unite {
    ghost use Rattle.stripe_rule.specs.Steps.{united, spent};

    ghost both = { united };

    ghost spent = { spent };
}
