//! Accesses of declared sizes, and the slot that an access fills.
ghost use Rattle.std.specs.Prelude.{◌≡◌, ◌≤◌, ◌<◌, ◌+◌, ◌*◌, ◌↔◌, ℕ, true, false, IsSome, IfSome, IfNone, nat_eq};
ghost use Rattle.bpf_model.specs.Accesses.{byte_count};
ghost use Rattle.bpf_model.specs.Fits.{AreWithinLimits};
ghost use Rattle.bpf_model.specs.Memory.{window_size};
ghost use Rattle.stack_slots.specs.Kept.{IsKept};
ghost use Rattle.stack_slots.specs.Accesses.{IsAccess, fills_slot};

use crate::access::{Access, SLOT_BYTES, SLOTS};
use bpf_model::{AccessSize, Sizes, Window};

impl Access {
    /// Makes the access with these fields, or returns `None` if the window is read-only or declared too short.
    pub fn new(
        window: Window,
        least: usize,
        greatest: usize,
        size: AccessSize,
        signed: bool,
        sizes: Sizes,
    ) -> Option<Access>
        requires order { least ≤ greatest }
        requires limits { AreWithinLimits sizes }
        ensures some { IsSome result
            ↔ (IsKept window × (greatest + byte_count size ≤ window_size sizes window)) }
        ensures value { IfSome result (IsAccess window least greatest size signed) }
    {
        let declared = match window {
            Window::Key | Window::Old | Window::Arg => return None,
            Window::Result | Window::Stack => window.size(sizes),
        };
        if greatest <= declared && size.bytes() <= declared - greatest {
            Some(Access {
                window,
                least,
                greatest,
                size,
                signed,
            })
        } else {
            None
        }
    }

    /// Returns the slot of the stack that the access fills exactly, at every place that it may have.
    pub(crate) fn filled_slot(&self) -> Option<usize>
        ensures inside { IfSome result (λ slot. slot < SLOTS) }
        ensures fills { IfSome result (λ slot. (i : ℕ) → fills_slot self.now i ≡ nat_eq i slot) }
        ensures none { IfNone result ((i : ℕ) → fills_slot self.now i ≡ false) }
    {
        let is_alone = self.least == self.greatest && self.least % SLOT_BYTES == 0;
        match (self.window, self.size) {
            (Window::Stack, AccessSize::DoubleWord) if is_alone => Some(self.least / SLOT_BYTES),
            _ => None,
        }
    }
}
