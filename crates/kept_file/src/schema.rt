//! The tables of a file and their index, as texts of SQL.

/// The format that this crate writes and reads.
pub const FORMAT: u64 = 3;

/// The texts that make a file's tables and its index, and by which a file is known.
pub(crate) const SCHEMA: [&str; 5] = [SETTINGS, PROGRAMS, SCRIPTS, BATCHES, BATCHES_BY_STRIPE];

pub(crate) const SETTINGS: &str =
    "CREATE TABLE settings (name TEXT NOT NULL PRIMARY KEY, value INTEGER NOT NULL) STRICT";

pub(crate) const PROGRAMS: &str =
    "CREATE TABLE programs (number INTEGER PRIMARY KEY, key_size INTEGER NOT NULL, old_size INTEGER NOT NULL, arg_size INTEGER NOT NULL, result_size INTEGER NOT NULL, bytes BLOB NOT NULL) STRICT";

pub(crate) const SCRIPTS: &str =
    "CREATE TABLE scripts (number INTEGER PRIMARY KEY, text BLOB NOT NULL) STRICT";

pub(crate) const BATCHES: &str =
    "CREATE TABLE batches (number INTEGER PRIMARY KEY, stripe INTEGER NOT NULL, changes BLOB NOT NULL) STRICT";

/// The batches of a stripe are found by it: without it, each stripe that begins anew would read the whole file.
pub(crate) const BATCHES_BY_STRIPE: &str = "CREATE INDEX batches_by_stripe ON batches (stripe)";

/// Sets a setting: its name and its number.
pub(crate) const SET: &str = "INSERT OR REPLACE INTO settings (name, value) VALUES (?1, ?2)";

/// Enters a batch of a stripe, after those that are there.
pub(crate) const APPEND: &str = "INSERT INTO batches (stripe, changes) VALUES (?1, ?2)";

/// Shows the numbers of a stripe's batches. It reads the index alone.
pub(crate) const NUMBERS: &str = "SELECT number FROM batches WHERE stripe = ?1";

/// Removes the batch with a number.
pub(crate) const REMOVE: &str = "DELETE FROM batches WHERE number = ?1";

/// Enters a program.
pub(crate) const PROGRAM: &str =
    "INSERT INTO programs (number, key_size, old_size, arg_size, result_size, bytes) VALUES (?1, ?2, ?3, ?4, ?5, ?6)";

/// Enters a script, after those that are there.
pub(crate) const SCRIPT: &str = "INSERT INTO scripts (text) VALUES (?1)";
