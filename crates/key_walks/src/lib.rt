//! Walks over the keys of a striped map with one pass.
//!
//! The promise to the layers above: a walk scans one stripe after the other, each once, and its reply is a function of what these
//! scans found (`specs/Walks.antt`). A walk by pages goes on from a cursor: its pages together come to each place once, so a key
//! that is there all along is in one of them (`scan_some`, `Page::is_last`). After `NoMemory` what was done stays done (`Stops`).
//! Each walk waits until each stripe is free in its turn; all but `count_all` take memory for what they find.
#![tactic(auto)]

mod choosing;
mod clearing;
mod counting;
mod expiring;
mod finding;
mod pages;
mod places;

pub use choosing::random_key;
pub use clearing::remove_all;
pub use counting::count_all;
pub use finding::all_keys;
pub use pages::{Page, PageAsked, scan_some};
