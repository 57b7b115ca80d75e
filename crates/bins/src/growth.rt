//! Room for more elements of a list.
ghost use Rattle.std.specs.Prelude.{◌≡◌, ◌+◌, ◌<◌, ◌≤◌, OnOk, vec_len, vec_capacity};

use bpf_model::NoMemory;

/// A list that can't double grows by this part of its length, if that is granted.
const PARTS: usize = 16;
/// A list that gets room in small steps has this many bytes, and if it needs more, `FAR_BYTES` at once. Of lists of many other lengths
/// glibc would keep some that were freed, and then it couldn't give back what lies before them.
const STEP_BYTES: usize = 1_056;
/// A list that doubles asks for `FAR_BYTES` at once if it needs this many bytes.
const NEAR_BYTES: usize = 16 << 10;
/// A list of this many bytes is a mapping of its own: the system gives a page of it only when it is touched, and moves pages when it
/// grows.
const FAR_BYTES: usize = 256 << 10;

/// Returns for how many more elements of this size a list asks first, which needs room for `more`. If it needs less than `near`
/// bytes, that is just these.
fn wish(len: usize, more: usize, size: usize, near: usize) -> usize
    ensures enough { more ≤ result }
{
    let bytes = len.saturating_add(more).saturating_mul(size);
    if bytes < near || bytes >= FAR_BYTES {
        return more;
    }
    (FAR_BYTES / size.max(1)).saturating_sub(len).max(more)
}

/// Makes room in a full list. Asks for twice as much, or for `FAR_BYTES`; if that is refused, for a little more; and if that is
/// refused, for one element.
#[cold]
fn grow<T: Drop>(list: &mut Vec<T>, size: usize) -> Result<(), NoMemory>
    ensures ok { OnOk result (vec_len list.new < vec_capacity list.new) }
    ensures same { list.new.items ≡ list.old.items }
{
    if list
        .try_reserve(wish(list.len(), 1, size, NEAR_BYTES))
        .is_ok()
    {
        return Ok(());
    }
    if list.try_reserve_exact(list.len() / PARTS + 1).is_ok() {
        return Ok(());
    }
    list.try_reserve_exact(1)?;
    Ok(())
}

/// Makes room for one more element, which has this size. Returns `NoMemory` if the request for it is refused, and the requests for less are too.
#[inline(always)]
pub(crate) fn make_room<T: Drop>(list: &mut Vec<T>, size: usize) -> Result<(), NoMemory>
    ensures ok { OnOk result (vec_len list.new < vec_capacity list.new) }
    ensures same { list.new.items ≡ list.old.items }
{
    if list.len() < list.capacity() {
        return Ok(());
    }
    grow(list, size)
}

/// Returns for how many elements of this size a list has room that gets it in small steps, at the least.
pub(crate) fn least_room(size: usize) -> usize {
    STEP_BYTES / size.max(1)
}

/// Makes room for this many more elements of this size. Returns `NoMemory` if the request for just these is refused.
pub(crate) fn make_room_for<T: Drop>(
    list: &mut Vec<T>,
    more: usize,
    size: usize,
) -> Result<(), NoMemory>
    ensures ok { OnOk result (vec_len list.old + more ≤ vec_capacity list.new) }
    ensures same { list.new.items ≡ list.old.items }
    ensures kept { vec_capacity list.old ≤ vec_capacity list.new }
{
    let wanted = wish(list.len(), more, size, STEP_BYTES);
    let least = least_room(size).saturating_sub(list.len());
    if list.try_reserve_exact(wanted.max(least)).is_ok() {
        return Ok(());
    }
    list.try_reserve_exact(more)?;
    Ok(())
}
