//! Frames that are kept, and share the values that they have in common.
ghost use Rattle.std.specs.Prelude.{◌≡◌, true, IfOk};
ghost use Rattle.stack_slots.specs.Frames.{NoneUnwritten, MeetsMarks, JoinsSlots, DescribesMore};

use super::{Frame, RESULT_WORDS, STACK_WORDS};
use crate::groups::{Group, are_grouped, grouped, join_groups, ungrouped};
use crate::marks::keep_common;
use std::alloc::{AllocError, Global};
use std::marker::Model;
use std::rc::Rc;

/// A frame that is kept. Frames that are kept one after the other share the values that stay the same between them.
#[derive(Drop)]
pub struct KeptFrame {
    result: [u64; RESULT_WORDS],
    stack: [u64; STACK_WORDS],
    // the values of all slots, in groups; none if no value was spilled
    groups: Option<Vec<Rc<Group>>>,
}

impl Model for KeptFrame {
    ghost use Rattle.stack_slots.specs.declared.frame.Frame.{Frame};
    ghost use Rattle.stack_slots.specs.Groups.{ungrouped, AreWhole};

    ghost Value = { Frame };

    ghost view = { λ kept. record {
      result = kept.result;
      stack = kept.stack;
      slots = ungrouped kept.groups;
    } };

    ghost invariant = { λ kept. AreWhole kept.groups };
}

impl Frame {
    /// Keeps a copy of the frame. It shares with `last` the values that are the same. Fails if a request for memory is
    /// refused.
    pub fn keep(&self, alloc: Global, last: Option<&KeptFrame>) -> Result<KeptFrame, AllocError>
        ensures value { IfOk result (λ kept. kept ≡ self.now) }
    {
        let groups = match &self.slots {
            Some(values) => Some(grouped(alloc, values, groups_of(last))?),
            None => None,
        };
        Ok(KeptFrame {
            result: self.result,
            stack: self.stack,
            groups,
        })
    }

    /// Joins a kept frame into this one, in place. Takes no memory.
    pub fn join_kept(&mut self, kept: &KeptFrame)
        ensures first { DescribesMore self.old self.new }
        ensures second { DescribesMore kept.now self.new }
        ensures marks { MeetsMarks self.old kept.now self.new }
        ensures slots { JoinsSlots self.old kept.now self.new }
        ensures values { NoneUnwritten self.old → NoneUnwritten kept.now → NoneUnwritten self.new }
    {
        keep_common(&mut self.result, &kept.result);
        keep_common(&mut self.stack, &kept.stack);
        join_groups(&mut self.slots, &kept.groups);
    }
}

fn groups_of(kept: Option<&KeptFrame>) -> &[Rc<Group>] {
    match kept {
        Some(kept) => match &kept.groups {
            Some(groups) => groups,
            None => &[],
        },
        None => &[],
    }
}

impl KeptFrame {
    /// Tests whether this is the frame that is kept.
    pub fn is(&self, frame: &Frame) -> bool
        ensures same { result ≡ true → self.now ≡ frame.now }
    {
        self.stack == frame.stack
            && self.result == frame.result
            && match (&self.groups, &frame.slots) {
                (Some(groups), Some(values)) => are_grouped(groups, values),
                (None, None) => true,
                _ => false,
            }
    }

    /// Returns the frame that is kept. Takes no memory.
    pub fn frame(&self) -> Frame
        ensures value { result ≡ self.now }
    {
        Frame {
            result: self.result,
            stack: self.stack,
            slots: match &self.groups {
                Some(groups) => Some(ungrouped(groups)),
                None => None,
            },
        }
    }
}
