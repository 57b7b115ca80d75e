//! The state at entry.
ghost use Rattle.std.specs.Prelude.{◌+◌, pos, Some};
ghost use Rattle.bpf_model.specs.Memory.{first_address};
ghost use Rattle.stack_slots.specs.Values.{StandsFor, IsPointerIn};
ghost use Rattle.verifier.specs.Describes.{DescribesEntry};
ghost use Rattle.verifier.specs.Changes.{IsEntry};
ghost use Rattle.verifier.specs.Grants.{GrantsEntry};

use super::AbstractState;
use bpf_model::limits::STACK_BYTES;
use bpf_model::{Sizes, Window};
use stack_slots::{Frame, Pointer, RegValue};
use value_ranges::Range;

impl AbstractState {
    /// Returns the state at entry.
    pub(crate) fn entry(sizes: Sizes) -> AbstractState
        ensures describes { DescribesEntry sizes result }
        ensures exact { IsEntry sizes result }
        ensures grants { GrantsEntry result }
    {
        let key = Range::unsigned(0, u64::from(sizes.key));
        let old = Range::signed(-1, i64::from(sizes.old));
        let arg = Range::signed(-1, i64::from(sizes.arg));
        AbstractState {
            registers: [
                RegValue::Unwritten,
                address_in(Window::Key, 0),
                address_in(Window::Old, 0),
                address_in(Window::Arg, 0),
                address_in(Window::Result, 0),
                RegValue::Unwritten,
                RegValue::Number(key),
                RegValue::Number(old),
                RegValue::Number(arg),
                RegValue::Unwritten,
                address_in(Window::Stack, STACK_BYTES as u16),
            ],
            frame: Frame::empty(),
        }
    }
}

fn address_in(window: Window, offset: u16) -> RegValue
    ensures describes { StandsFor result (Some (first_address window + offset)) }
    ensures exact { IsPointerIn window (pos offset) (pos offset) result }
{
    let offset = i64::from(offset);
    RegValue::Pointer(Pointer {
        window,
        least: offset,
        greatest: offset,
    })
}
