//! The lines that need no command.

/// What a client is told if a request for memory is refused.
pub const NO_MEMORY_LINE: &[u8] = b"-OOM command not allowed when used memory > 'maxmemory'.\r\n";

/// What a client is told if there is no room for one more.
pub const NO_ROOM_LINE: &[u8] = b"-ERR max number of clients reached\r\n";
