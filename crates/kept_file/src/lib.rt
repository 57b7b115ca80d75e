//! The file in which a map is kept: a SQLite database of four tables and an index.
//!
//! `KeptFile::open` opens it or makes it. A save is one transaction of its `connection`: until `Save::commit` the file is as it
//! was, and if the save is dropped, or the process ends, it stays so (`Survives` of the kit's `sqlite`). What a file holds is read
//! back as programs, scripts and batches of changes, or refused: a row that no save wrote is never handed out. A refused request for memory
//! is the fault `NoMemory`.
#![tactic(auto)]

pub mod batches;
mod changes;
mod connecting;
mod counts;
mod fault;
mod file;
mod query;
mod rows;
pub mod save;
mod schema;
mod tables;

pub use batches::{Batches, KeptBatch};
pub use changes::{Batch, KeptChange, Mark};
pub use connecting::OnDisk;
pub use counts::EntryCounts;
pub use fault::KeepFault;
pub use file::KeptFile;
pub use rows::KeptProgram;
pub use save::Save;
pub use schema::FORMAT;
