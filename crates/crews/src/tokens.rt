//! The tokens that one client's session keeps: of the programs that it registered or named.
ghost use Rattle.std.specs.Prelude.{◌≡◌, All};
ghost use Rattle.crews.specs.Stations.{no_tokens, tokens_of};
ghost use Rattle.program_registry.specs.Tokens.{IsOf};
ghost use Rattle.crews.specs.Steps.{Agree, MeanTheSame};

use crate::serving::show_agrees;
use program_registry::{ProgramToken, Registry};
use std::alloc::Global;
use std::marker::Model;

/// The tokens of the programs that one client registered or named, all of one registry. Each has a number of its own.
#[derive(Drop)]
pub struct Tokens<'a> {
    pub(crate) registry: &'a Registry,
    pub(crate) items: Vec<ProgramToken>,
}

impl<'a> Model for Tokens<'a> {
    ghost use Rattle.std.specs.Prelude.{All};
    ghost use Rattle.program_registry.specs.Tokens.{IsOf};
    ghost use Rattle.crews.specs.Stations.{KeptTokens};
    ghost use Rattle.crews.specs.Steps.{Agree};

    ghost Value = { KeptTokens };

    ghost view = { λ t. record { registry = t.registry.now; items = t.items.items } };

    ghost invariant = { λ t. All (λ token. IsOf t.registry.now token) t.items.items × Agree t.items.items };
}

/// Looks through these tokens and those, of one registry. For the proof alone: they mean the same programs.
fn show_same(registry: &Registry, tokens: &[ProgramToken], others: &[ProgramToken])
    requires tokens { All (λ t. IsOf registry.now t) tokens.now }
    requires others { All (λ t. IsOf registry.now t) others.now }
    ensures { MeanTheSame tokens.now others.now }
{
    for token in tokens {
        show_agrees(registry, others, token);
    }
}

impl<'a> Tokens<'a> {
    /// No program is registered yet. Takes no memory.
    pub fn new(alloc: Global, registry: &'a Registry) -> Tokens<'a>
        ensures { result ≡ no_tokens registry.now }
    {
        Tokens {
            registry,
            items: Vec::new(alloc),
        }
    }

    /// Tokens that were kept apart from their registry (`into_vec`), with it again. Takes no memory.
    pub fn from_vec(registry: &'a Registry, items: Vec<ProgramToken>) -> Tokens<'a>
        requires of { All (λ token. IsOf registry.now token) items.items }
        requires agree { Agree items.items }
        ensures { result ≡ tokens_of registry.now items.items }
    {
        Tokens { registry, items }
    }

    /// Returns how many bytes the tokens take that there is room for.
    pub(crate) fn bytes(&self) -> usize {
        self.items
            .capacity()
            .saturating_mul(size_of::<ProgramToken>())
    }

    /// The tokens alone, which outlast the reference to their registry. Takes no memory.
    pub fn into_vec(self) -> Vec<ProgramToken>
        ensures items { result.items ≡ self.entry.items }
        ensures of { All (λ token. IsOf self.entry.registry token) result.items }
        ensures agree { Agree result.items }
    {
        self.items
    }

    /// Two sessions' numbers mean the same programs, if their tokens are of one registry. Takes no memory. Never waits.
    pub fn mean_the_same(&self, other: &Tokens<'_>)
        requires registry { other.now.registry ≡ self.now.registry }
        ensures same { MeanTheSame self.now.items other.now.items }
    {
        show_same(self.registry, &self.items, &other.items);
    }
}
