//! Texts of errors that several commands tell.

/// The value, or an argument, is no number.
pub const NOT_A_NUMBER: &[u8] = b"ERR value is not an integer or out of range";

/// The value would have more bytes than a value may have.
pub const TOO_LONG: &[u8] = b"ERR string exceeds maximum allowed size (1024)";

/// A script has too few arguments, or too many.
pub const NO_ARGUMENT: &[u8] = b"ERR wrong number of arguments for this script";
