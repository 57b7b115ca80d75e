//! Short texts in place.
ghost use Rattle.std.specs.Prelude.{◌≡◌, ◌+◌, ◌≤◌, ◌++◌, length};
ghost use Rattle.arrayvec.specs.ArrayVec.{array_vec_len};

use arrayvec::ArrayVec;

/// A short text has at most this many bytes.
pub const SHORT_BYTES: usize = 64;

/// Adds bytes.
pub fn put(text: &mut ArrayVec<u8, SHORT_BYTES>, bytes: &[u8])
    requires { array_vec_len text.old + length bytes.now ≤ SHORT_BYTES }
    ensures items { text.new.items ≡ text.old.items ++ bytes.now }
    ensures len { array_vec_len text.new ≡ array_vec_len text.old + length bytes.now }
{
    match text.try_extend_from_slice(bytes) {
        Ok(()) => {}
        Err(_) => unreachable!(),
    }
}
