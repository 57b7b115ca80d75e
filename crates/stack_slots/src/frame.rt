//! Which bytes of stack and result were written, and which values were spilled to the stack.
ghost use Rattle.std.specs.Prelude.{◌≡◌, ◌≢◌, ◌≤◌, ◌<◌, ◌↔◌, ℕ, true, false, Some, None, IsTrue, IsSome, IfSome, IfNone};
ghost use Rattle.bpf_model.specs.declared.window.Window.{Window};
ghost use Rattle.bpf_model.specs.declared.window.Window.TheVariants.{Result as ResultWindow};
ghost use Rattle.bpf_model.specs.Memory.{Partial};
ghost use Rattle.stack_slots.specs.Accesses.{fills_slot};
ghost use Rattle.stack_slots.specs.Frames.{is_written, spilled_in, DescribesMemory, NoneUnwritten, AreWritten, KeepsMarks, Marks, Spills, DescribesStore, FindsLoaded, Reloads, LoadsNumber, MeetsMarks, JoinsSlots, DescribesMore};

mod kept;

use crate::access::{Access, SLOT_BYTES};
use crate::loads::loadable;
use crate::marks::{WORD_BITS, are_marked, keep_common, mark, prefix};
use crate::reg_value::RegValue;
use crate::slots::{Slots, copy, forget, join_slots, keep, value_of};
use bpf_model::Window;
use bpf_model::limits::{STACK_BYTES, VALUE_BYTES};
pub use kept::KeptFrame;

/// The result's marks take this many words.
const RESULT_WORDS: usize = VALUE_BYTES / WORD_BITS;

/// The stack's marks take this many words.
const STACK_WORDS: usize = STACK_BYTES / WORD_BITS;

/// A mark for each byte of stack and result that was written, and for each slot of the stack the value that was spilled
/// to it. Everything is inline: copying a frame takes no memory.
#[derive(Debug, PartialEq, Eq, Drop)]
pub struct Frame {
    result: [u64; RESULT_WORDS],
    stack: [u64; STACK_WORDS],
    slots: Slots,
}

/// A frame with a value for each of the eleven registers fits in four pages of 1,024 bytes.
const _: () = prove!(size_of::<Frame>() + 11 * size_of::<RegValue>() <= 4 * 1024);

impl Frame {
    /// Returns the frame at the start of a run: no byte was written, and no value spilled.
    pub fn empty() -> Frame
        ensures written { (r : Window) (i : ℕ) → is_written result r i ≡ false }
        ensures describes { (memory : Partial) → DescribesMemory result memory }
        ensures values { NoneUnwritten result }
    {
        Frame {
            result: [0; RESULT_WORDS],
            stack: [0; STACK_WORDS],
            slots: None,
        }
    }

    /// Returns a copy of the frame. Takes no memory.
    pub fn copied(&self) -> Frame
        ensures value { result ≡ self.now }
    {
        Frame {
            result: self.result,
            stack: self.stack,
            slots: self.slots,
        }
    }

    /// Becomes a copy of another frame, in place. Takes no memory.
    pub fn copy_from(&mut self, other: &Frame)
        ensures value { self.new ≡ other.now }
    {
        self.result = other.result;
        self.stack = other.stack;
        copy(&mut self.slots, &other.slots);
    }

    /// Updates the frame for a store of a word that `value` stands for. If the access has only one place, its bytes
    /// become written. A slot that the store fills then has the value; every other slot that it may touch has none.
    /// Takes no memory.
    pub fn store(&mut self, access: &Access, value: &RegValue)
        ensures describes { DescribesStore self.old access.now value.now self.new }
        ensures written { Marks self.old access.now self.new }
        ensures keeps { KeepsMarks self.old self.new }
        ensures marks { access.now.least ≡ access.now.greatest → AreWritten self.new access.now }
        ensures slots { Spills self.old access.now value.now self.new }
        ensures values { value.now ≢ RegValue.Unwritten → NoneUnwritten self.old
            → NoneUnwritten self.new }
    {
        self.spill(access, value);
        if access.least == access.greatest {
            self.mark(access);
        }
    }

    fn spill(&mut self, access: &Access, value: &RegValue)
        ensures written { (r : Window) (i : ℕ) → is_written self.new r i ≡ is_written self.old r i }
        ensures slots { Spills self.old access.now value.now self.new }
    {
        if !matches!(access.window, Window::Stack) {
            return;
        }
        let first = access.least / SLOT_BYTES;
        let past = (access.greatest + access.size.bytes()).div_ceil(SLOT_BYTES);
        forget(&mut self.slots, first, past);
        if let Some(slot) = access.filled_slot() {
            keep(&mut self.slots, slot, *value);
        }
    }

    fn mark(&mut self, access: &Access)
        requires alone { access.now.least ≡ access.now.greatest }
        ensures written { Marks self.old access.now self.new }
        ensures slots { (slot : ℕ) → spilled_in self.new slot ≡ spilled_in self.old slot }
    {
        let end = access.greatest + access.size.bytes();
        match access.window {
            Window::Result => mark(&mut self.result, access.least, end),
            Window::Stack => mark(&mut self.stack, access.least, end),
            Window::Key | Window::Old | Window::Arg => {}
        }
    }

    /// Returns what is known of the loaded word: the value of the slot that the access fills, or the range of all words
    /// that it may give. Returns `None` if the access may touch a byte that wasn't written. Takes no memory.
    pub fn load(&self, access: &Access) -> Option<RegValue>
        ensures some { IsSome result ↔ AreWritten self.now access.now }
        ensures found { IfSome result (FindsLoaded self.now access.now) }
        ensures spilled { IfSome result (Reloads self.now access.now) }
        ensures number { IfSome result (LoadsNumber self.now access.now) }
        ensures value { NoneUnwritten self.now → IfSome result (λ x. x ≢ RegValue.Unwritten) }
    {
        if !self.are_written(access) {
            return None;
        }
        match self.spilled(access) {
            Some(value) => Some(value),
            None => Some(RegValue::Number(loadable(access.size, access.signed))),
        }
    }

    /// the value of the slot that the access fills
    fn spilled(&self, access: &Access) -> Option<RegValue>
        ensures found { IfSome result (λ x. (slot : ℕ) × ((fills_slot access.now slot ≡ true)
            × (spilled_in self.now slot ≡ Some x))) }
        ensures none { IfNone result ((slot : ℕ) → fills_slot access.now slot ≡ true
            → spilled_in self.now slot ≡ None) }
    {
        let slot = access.filled_slot()?;
        value_of(&self.slots, slot)
    }

    fn are_written(&self, access: &Access) -> bool
        ensures exact { IsTrue result ↔ AreWritten self.now access.now }
    {
        let end = access.greatest + access.size.bytes();
        match access.window {
            Window::Result => are_marked(&self.result, access.least, end),
            Window::Stack => are_marked(&self.stack, access.least, end),
            Window::Key | Window::Old | Window::Arg => false,
        }
    }

    /// Returns what both frames know: the bytes that both have as written, and the joins of the values that both have.
    /// Takes no memory.
    pub fn join(&self, other: &Frame) -> Frame
        ensures first { DescribesMore self.now result }
        ensures second { DescribesMore other.now result }
        ensures marks { MeetsMarks self.now other.now result }
        ensures slots { JoinsSlots self.now other.now result }
        ensures values { NoneUnwritten self.now → NoneUnwritten other.now → NoneUnwritten result }
    {
        let mut joined = self.copied();
        joined.join_with(other);
        joined
    }

    /// Joins another frame into this one, in place. Takes no memory.
    pub fn join_with(&mut self, other: &Frame)
        ensures first { DescribesMore self.old self.new }
        ensures second { DescribesMore other.now self.new }
        ensures marks { MeetsMarks self.old other.now self.new }
        ensures slots { JoinsSlots self.old other.now self.new }
        ensures values { NoneUnwritten self.old → NoneUnwritten other.now → NoneUnwritten self.new }
    {
        keep_common(&mut self.result, &other.result);
        keep_common(&mut self.stack, &other.stack);
        join_slots(&mut self.slots, &other.slots);
    }

    /// Returns how many bytes of the result were written without a gap from the first on. Takes no memory.
    pub fn written_prefix(&self) -> u16
        ensures written { (i : ℕ) → i < result → is_written self.now ResultWindow i ≡ true }
        ensures greatest { is_written self.now ResultWindow result ≡ false }
        ensures bound { result ≤ VALUE_BYTES }
    {
        prefix(&self.result) as u16
    }
}
