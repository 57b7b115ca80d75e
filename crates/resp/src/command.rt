//! The command that begins a stream.
ghost use Rattle.std.specs.Prelude.{IfOk, IfErr};
ghost use Rattle.resp.specs.Grammar.{texts};
ghost use Rattle.resp.specs.Reading.{Reads, Refuses};

use crate::array::array_at;
use crate::fault::NextFault;
use crate::front::after;
use crate::line::line_at;
use bumpalo::Bump;

/// What a stream begins with.
#[derive(Clone, Copy, Debug, PartialEq, Eq)]
pub enum Next<'b> {
    /// A command. These are the bytes after it.
    Command(&'b [u8]),
    /// An array or a line without any word, which is ignored. These are the bytes after it.
    Nothing(&'b [u8]),
    /// A command that is not whole yet.
    More,
}

/// Reads the command that the bytes begin with, and makes the list its words. The words that were in the list are lost. A word with quotes
/// is put into the arena. Returns `Faulty` if no command can begin the bytes, whatever follows them, and `NoMemory` if a request for memory is
/// refused; then the list may have any words.
pub fn next_command<'b: 'w, 'w>(
    bytes: &'b [u8],
    arena: &'w Bump,
    words: &mut Vec<&'w [u8]>,
) -> Result<Next<'b>, NextFault>
    ensures read { IfOk result (λ next. Reads bytes.now (texts words.new.items) next) }
    ensures err { IfErr result (λ fault. Refuses bytes.now fault) }
{
    words.clear();
    match after(bytes, b'*') {
        Some(head) => array_at(head, words),
        None => line_at(bytes, arena, words),
    }
}
