//! Values that were spilled to the stack's slots.
ghost use Rattle.std.specs.Prelude.{◌≡◌, ◌≤◌, ◌<◌, ◌&&◌, ℕ, true, Some, None, length, nat_eq, nat_le, nat_lt, slice_index_or, if◌then◌else◌};
ghost use Rattle.stack_slots.specs.declared.access.TheConstants.{SLOTS as SlotCount};
ghost use Rattle.stack_slots.specs.Frames.{IsSlotJoin, slot_in};

use crate::access::SLOTS;
use crate::reg_value::RegValue;

/// For each slot of the stack the value that was spilled to it. `None` until a value is spilled, so that copying or
/// joining such slots costs nothing.
pub(crate) type Slots = Option<[Option<RegValue>; SLOTS]>;

/// Becomes a copy of other slots, in place.
pub(crate) fn copy(slots: &mut Slots, other: &Slots)
    ensures value { slots.new ≡ other.now }
{
    match other {
        Some(values) => *slots = Some(*values),
        None => forget_all(slots),
    }
}

/// Forgets all values. Writing `None` writes all the room of the values, so it's done only if there are some.
pub(crate) fn forget_all(slots: &mut Slots)
    ensures value { slots.new ≡ None }
{
    if slots.is_some() {
        *slots = None;
    }
}

/// Forgets the values of the slots from `first` to below `end`.
pub(crate) fn forget(slots: &mut Slots, first: usize, end: usize)
    requires order { first ≤ end }
    requires inside { end ≤ SlotCount }
    ensures exact { (i : ℕ) → slot_in slots.new i
        ≡ (if nat_le first i && nat_lt i end then None else slot_in slots.old i) }
{
    if let Some(values) = slots {
        forget_each(values, first, end);
    }
}

fn forget_each(slots: &mut [Option<RegValue>], first: usize, end: usize)
    requires order { first ≤ end }
    requires inside { end ≤ length slots.old }
    ensures exact { (i : ℕ) → slice_index_or slots.new i None
        ≡ (if nat_le first i && nat_lt i end then None else slice_index_or slots.old i None) }
{
    slots[first..end].fill(None);
}

/// Stores a value in a slot.
pub(crate) fn keep(slots: &mut Slots, slot: usize, value: RegValue)
    requires inside { slot < SlotCount }
    ensures exact { (i : ℕ) → slot_in slots.new i
        ≡ (if nat_eq i slot then Some value else slot_in slots.old i) }
{
    match slots {
        Some(values) => values[slot] = Some(value),
        None => {
            let mut values = [None; SLOTS];
            values[slot] = Some(value);
            *slots = Some(values);
        }
    }
}

/// Returns the value of a slot.
pub(crate) fn value_of(slots: &Slots, slot: usize) -> Option<RegValue>
    requires inside { slot < SlotCount }
    ensures value { result ≡ slot_in slots.now slot }
{
    match slots {
        Some(values) => values[slot],
        None => None,
    }
}

/// Joins the values of each slot; none is left if one side has none.
pub(crate) fn join_slots(slots: &mut Slots, other: &Slots)
    ensures exact { (i : ℕ) → IsSlotJoin (slot_in slots.old i) (slot_in other.now i)
        (slot_in slots.new i) }
{
    match other {
        Some(others) => {
            if let Some(values) = slots {
                join_each(values, others);
            }
        }
        None => forget_all(slots),
    }
}

pub(crate) fn join_each(slots: &mut [Option<RegValue>], other: &[Option<RegValue>])
    requires same { length slots.old ≡ length other.now }
    ensures exact { (i : ℕ) → IsSlotJoin (slice_index_or slots.old i None)
        (slice_index_or other.now i None) (slice_index_or slots.new i None) }
{
    for (index, slot) in slots.iter_mut().enumerate() {
        if slot.is_some() {
            *slot = joined(slot, &other[index]);
        }
    }
}

fn joined(slot: &Option<RegValue>, other: &Option<RegValue>) -> Option<RegValue>
    ensures exact { IsSlotJoin slot.now other.now result }
{
    match (slot, other) {
        (Some(a), Some(b)) => Some(a.join(b)),
        _ => None,
    }
}

/// Tests whether both have the same values.
pub(crate) fn is_each_same(slots: &[Option<RegValue>], other: &[Option<RegValue>]) -> bool
    requires same { length slots.now ≡ length other.now }
    ensures same { result ≡ true → slots.now ≡ other.now }
{
    for (index, slot) in slots.iter().enumerate() {
        if !is_same_slot(slot, &other[index]) {
            return false;
        }
    }
    true
}

fn is_same_slot(slot: &Option<RegValue>, other: &Option<RegValue>) -> bool
    ensures same { result ≡ true → slot.now ≡ other.now }
{
    match (slot, other) {
        (Some(a), Some(b)) => a.is_same(b),
        (None, None) => true,
        _ => false,
    }
}
