//! What is known of a loaded word if no value is kept for its bytes.
ghost use Rattle.std.specs.Prelude.{◌<◌, ◌^◌, ℕ};
ghost use Rattle.bpf_model.specs.Accesses.{byte_count};
ghost use Rattle.value_ranges.specs.In.{IsIn};
ghost use Rattle.stack_slots.specs.Accesses.{loaded_word, IsLoadRange};

use bpf_model::AccessSize;
use value_ranges::Range;

/// Returns the range of the words that a load of this size may give, extended with zeros or with the sign.
pub fn loadable(size: AccessSize, signed: bool) -> Range
    ensures holds { (n : ℕ) → n < 256 ^ byte_count size → IsIn (loaded_word size signed n) result }
    ensures bounds { IsLoadRange size signed result }
{
    match (size, signed) {
        (AccessSize::Byte, false) => Range::unsigned(0, 0xff),
        (AccessSize::HalfWord, false) => Range::unsigned(0, 0xffff),
        (AccessSize::Word, false) => Range::unsigned(0, 0xffff_ffff),
        (AccessSize::Byte, true) => Range::signed(-0x80, 0x7f),
        (AccessSize::HalfWord, true) => Range::signed(-0x8000, 0x7fff),
        (AccessSize::Word, true) => Range::signed(-0x8000_0000, 0x7fff_ffff),
        (AccessSize::DoubleWord, _) => Range::full(),
    }
}
