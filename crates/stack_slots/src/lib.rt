//! What is known of registers and of the bytes of stack and result, and how stores, loads and joins change it.
//!
//! A `RegValue` says what is known of a register's word: nothing, a range, or that it points into a window. A `Frame`
//! records which bytes of stack and result were written, and for each slot of the stack the value that was spilled to
//! it. The promise to the layers above: if a frame describes a memory, it describes the memory after a store at any
//! place that the access may have (`Frame::store`, clause `describes`). The answer to a load stands for the loaded word,
//! and all its bytes are present (`Frame::load`, clause `found`). A join describes what either side describes
//! (`Frame::join`, clauses `first` and `second`). The bytes of the written prefix are present. And it is exact: which
//! bytes are marked, which loads are answered, which slots keep a value (clauses `written`, `some`, `slots`,
//! `greatest`). A `KeptFrame` is a frame in less room: frames that are kept one after the other share the values that
//! stay the same between them. No call waits, and only `Frame::keep` asks for memory. `specs/Frames.antt` says what
//! 'describes' means, `specs/Values.antt` what 'stands for' means; they hide how a frame is stored.
#![tactic(auto)]

mod access;
mod accesses;
mod frame;
mod groups;
mod loads;
mod marks;
mod pointer;
mod pointing;
mod reg_value;
mod slots;

pub use access::Access;
pub use frame::{Frame, KeptFrame};
pub use loads::loadable;
pub use pointer::Pointer;
pub use reg_value::RegValue;
