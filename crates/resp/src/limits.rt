//! Limits of a command.

/// A command has at most this many words.
pub const COMMAND_WORDS: u64 = 4096;

/// A word has at most this many bytes.
pub const WORD_BYTES: u64 = 65536;

/// The words of a command have at most this many bytes together.
pub const COMMAND_BYTES: u64 = 4_194_304;

/// A command in a line has at most this many bytes before its newline.
pub const LINE_BYTES: usize = 65536;
