//! A pass's numbers and knowledge.

use std::collections::LinkedList;

/// An action on a stripe, made with the number of a pass. `D` has the action and its answer.
pub struct Event<D> {
    pub by: u64,
    pub action: D,
}

/// What a pass knows of one stripe.
pub struct Part<D> {
    /// All events that it knows, the oldest first.
    pub seen: LinkedList<Event<D>>,
    /// Those of them that it made, with one of its numbers.
    pub mine: LinkedList<Event<D>>,
    /// The events that another pass has told it: it has seen them after its next look.
    pub told: LinkedList<Event<D>>,
    /// Whether it holds the stripe.
    pub held: bool,
}

/// A pass's numbers and knowledge.
pub struct View<D> {
    /// The numbers with which it makes events.
    pub numbers: LinkedList<u64>,
    /// How many passes were opened.
    pub passes: u64,
    /// What it knows of each stripe.
    pub parts: LinkedList<Part<D>>,
}
