//! Programs that are plain, and programs that are not: the definition is neither empty nor all. Each fact is the contract of a
//! small function.
ghost use Rattle.std.specs.Prelude.{pos};
ghost use Rattle.verifier.specs.Plain.{IsPlain};
ghost use Rattle.bpf_model.specs.declared.accesses.AccessSize.TheVariants.{Byte, DoubleWord};
ghost use Rattle.program_tests.specs.Examples.{with_sizes, one_byte_at, two_ways_with, masked_byte, read_back};

/// A store after the result's first byte leaves that byte unwritten, so an answer of one byte is not plain.
#[tactic(auto, using(crate::proofs::ExampleLemmas::gap_is_not_plain))]
pub fn gap_is_not_plain()
    ensures { IsPlain (one_byte_at (pos 1)) (with_sizes 0 0 0 2) → ⊥ }
{}

/// A store of the result's one byte, which the answer counts.
#[tactic(auto, using(crate::proofs::PlainLemmas::one_byte_is_plain))]
pub fn one_byte_is_plain()
    ensures { IsPlain (one_byte_at (pos 0)) (with_sizes 0 0 0 1) }
{}

/// Two ways meet. Both store four bytes of the result, and these are the answer.
#[tactic(auto, using(crate::proofs::WaysLemmas::bytes_of_both_ways_are_plain))]
pub fn bytes_of_both_ways_are_plain()
    ensures { IsPlain (two_ways_with (pos 4)) (with_sizes 64 8 8 8) }
{}

/// Only one of the two stores eight, so an answer of eight is not plain.
#[tactic(auto, using(crate::proofs::WaysLemmas::bytes_of_one_way_are_not_plain))]
pub fn bytes_of_one_way_are_not_plain()
    ensures { IsPlain (two_ways_with (pos 8)) (with_sizes 64 8 8 8) → ⊥ }
{}

/// The key's byte chooses which of eight bytes of the old value is loaded: the mask leaves 0 to 7, and each of them is
/// inside.
#[tactic(auto, using(crate::proofs::MaskLemmas::masked_byte_is_plain))]
pub fn masked_byte_is_plain()
    ensures { IsPlain masked_byte (with_sizes 1 8 0 1) }
{}

/// An old value of seven bytes has none at 7, so the same program is not plain with it.
#[tactic(auto, using(crate::proofs::MaskLemmas::mask_past_its_window_is_not_plain))]
pub fn mask_past_its_window_is_not_plain()
    ensures { IsPlain masked_byte (with_sizes 1 7 0 1) → ⊥ }
{}

/// A byte of the stack is loaded after it was stored with its neighbours. No path leads to the first exit, so its -2 does not
/// matter.
#[tactic(auto, using(crate::proofs::StackLemmas::stored_byte_is_plain))]
pub fn stored_byte_is_plain()
    ensures { IsPlain (read_back DoubleWord) (with_sizes 0 0 0 0) }
{}

/// After a store of only the first byte the eighth is not there.
#[tactic(auto, using(crate::proofs::StackLemmas::other_byte_is_not_plain))]
pub fn other_byte_is_not_plain()
    ensures { IsPlain (read_back Byte) (with_sizes 0 0 0 0) → ⊥ }
{}
