//! Bytes in a room that is fixed.
ghost use Rattle.std.specs.Prelude.{◌≡◌, ◌+◌, ◌≤◌, ◌++◌, length};
ghost use Rattle.arrayvec.specs.ArrayVec.{array_vec_len};

use arrayvec::ArrayVec;

/// Appends the bytes, for which there is room.
pub(crate) fn append<const ROOM: usize>(buffer: &mut ArrayVec<u8, ROOM>, bytes: &[u8])
    requires { array_vec_len buffer.old + length bytes.now ≤ ROOM }
    ensures items { buffer.new.items ≡ buffer.old.items ++ bytes.now }
    ensures len { array_vec_len buffer.new ≡ array_vec_len buffer.old + length bytes.now }
{
    match buffer.try_extend_from_slice(bytes) {
        Ok(()) => {}
        Err(_) => unreachable!(),
    }
}
