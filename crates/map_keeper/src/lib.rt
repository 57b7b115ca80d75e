//! A map that is kept in a file: it is restored from it, and saved in it again and again.
//!
//! The promise to the layers above: if `Keeper::save` returns `Ok`, all rows that were handed out of a stripe, in their order, come to
//! the content of this stripe at one moment of its history (`IsWhole` of `specs/Saves.antt`), and the file has them, those of a stripe in
//! one transaction. After a fault the file has of each stripe what it had, or what this save took of it, and the next save takes every
//! stripe anew. `Keeper::restore` verifies each program anew.
//! No thread is started here. `restore` and `save` wait for stripes that others hold.
#![tactic(auto)]

mod fault;
mod keeper;
mod opener;
mod restoring;
mod saving;
mod taker;

pub use fault::RestoreFault;
pub use keeper::{Keeper, Shared};
pub use kept_file::{KeepFault, KeptFile, OnDisk};
pub use opener::{HostFiles, Opener};
pub use restoring::Restored;
