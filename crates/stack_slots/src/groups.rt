//! Values of slots in groups that several frames may share.
ghost use Rattle.std.specs.Prelude.{◌≡◌, ℕ, true, IfOk, Some, length};
ghost use Rattle.stack_slots.specs.Frames.{IsSlotJoin, slot_in};
ghost use Rattle.stack_slots.specs.Groups.{together, ungrouped, AreWhole};
ghost use Rattle.stack_slots.specs.declared.access.TheConstants.{SLOTS as SlotCount};

use crate::access::SLOTS;
use crate::reg_value::RegValue;
use crate::slots::{Slots, forget_all, is_each_same, join_each};
use std::alloc::{AllocError, Global};
use std::rc::Rc;

/// A group has this many slots.
const GROUP_SLOTS: usize = 8;

/// There are this many groups.
const GROUPS: usize = SLOTS / GROUP_SLOTS;

/// The values of slots that follow each other.
pub(crate) type Group = [Option<RegValue>; GROUP_SLOTS];

/// Returns the values in groups, in their order. Shares each group that is the same in `last`. Fails if a request for
/// memory is refused.
pub(crate) fn grouped(
    alloc: Global,
    values: &[Option<RegValue>],
    last: &[Rc<Group>],
) -> Result<Vec<Rc<Group>>, AllocError>
    requires all { length values.now ≡ SlotCount }
    ensures value { IfOk result (λ groups. together groups.items ≡ values.now) }
    ensures all { IfOk result (λ groups. length groups.items ≡ 8) }
{
    let mut groups = Vec::with_capacity(alloc, GROUPS)?;
    for index in 0..GROUPS {
        let first = GROUP_SLOTS * index;
        let group = group_of(alloc, &values[first..first + GROUP_SLOTS], last.get(index))?;
        groups.push(group)?;
    }
    Ok(groups)
}

fn group_of(
    alloc: Global,
    values: &[Option<RegValue>],
    last: Option<&Rc<Group>>,
) -> Result<Rc<Group>, AllocError>
    requires whole { length values.now ≡ 8 }
    ensures value { IfOk result (λ group. group.value ≡ values.now) }
{
    if let Some(last) = last {
        let group: &Group = last;
        if is_each_same(group, values) {
            return last.clone();
        }
    }
    let mut group = [None; GROUP_SLOTS];
    group.copy_from_slice(values);
    Ok(Rc::new(alloc, group)?)
}

/// Returns the values of all groups.
pub(crate) fn ungrouped(groups: &[Rc<Group>]) -> [Option<RegValue>; SLOTS]
    requires all { length groups.now ≡ 8 }
    ensures value { result ≡ together groups.now }
{
    let mut values = [None; SLOTS];
    for index in 0..GROUPS {
        let group: &Group = &groups[index];
        let first = GROUP_SLOTS * index;
        values[first..first + GROUP_SLOTS].copy_from_slice(group);
    }
    values
}

/// Tests whether these are the values of all groups.
pub(crate) fn are_grouped(groups: &[Rc<Group>], values: &[Option<RegValue>]) -> bool
    requires groups { length groups.now ≡ 8 }
    requires all { length values.now ≡ SlotCount }
    ensures same { result ≡ true → together groups.now ≡ values.now }
{
    for index in 0..GROUPS {
        let group: &Group = &groups[index];
        let first = GROUP_SLOTS * index;
        if !is_each_same(group, &values[first..first + GROUP_SLOTS]) {
            return false;
        }
    }
    true
}

/// Joins the values of all groups into those of the slots. If there are no groups, no value is left.
pub(crate) fn join_groups(slots: &mut Slots, groups: &Option<Vec<Rc<Group>>>)
    requires whole { AreWhole groups.now }
    ensures exact { (i : ℕ) → IsSlotJoin (slot_in slots.old i) (slot_in (ungrouped groups.now) i)
        (slot_in slots.new i) }
{
    match groups {
        Some(groups) => join_each_group(slots, groups),
        None => forget_all(slots),
    }
}

// This has room for all values, which would be cleared in each caller.
#[inline(never)]
fn join_each_group(slots: &mut Slots, groups: &[Rc<Group>])
    requires all { length groups.now ≡ 8 }
    ensures exact { (i : ℕ) → IsSlotJoin (slot_in slots.old i)
        (slot_in (Some (together groups.now)) i) (slot_in slots.new i) }
{
    if let Some(values) = slots {
        join_each(values, &ungrouped(groups));
    }
}
