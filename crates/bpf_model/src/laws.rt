//! Laws of the definitions, true of all arguments. Each is the contract of a small function.
ghost use Rattle.std.specs.Prelude.{ℕ, ◌≡◌, ◌↔◌, ◌*◌, ◌++◌, ◌∷◌, ◌<◌, ◌≤◌, length, List, IsTrue, not, true, false};
ghost use Rattle.std.specs.declared.cmp.Ordering.TheVariants.{Less};
ghost use Rattle.bpf_model.specs.declared.input.Input.{Input};
ghost use Rattle.bpf_model.specs.declared.input.Sizes.{Sizes as DeclaredSizes};
ghost use Rattle.bpf_model.specs.declared.instruction.Insn.{Insn as AnyInsn};
ghost use Rattle.bpf_model.specs.declared.operations.AluOp.TheVariants.{SDiv, SMod};
ghost use Rattle.bpf_model.specs.declared.operations.ByteOrder.{ByteOrder as AnyOrder};
ghost use Rattle.bpf_model.specs.declared.operations.ByteOrder.TheVariants.{Little, Big, Swap};
ghost use Rattle.bpf_model.specs.Arithmetic.{modulus, alu_value, negated, mov_value, extended, extension_width, reordered, swap_modulus};
ghost use Rattle.bpf_model.specs.Conditions.{opposite_of, holds};
ghost use Rattle.bpf_model.specs.Fits.{AreWithinLimits};
ghost use Rattle.bpf_model.specs.Keys.{by_bytes};
ghost use Rattle.bpf_model.specs.Laws.{IsSignedDivision, StaysAt, IsSpelledAlone};
ghost use Rattle.bpf_model.specs.Memory.{lies_in_window, can_write};
ghost use Rattle.bpf_model.specs.Spelling.{IsInstruction, spelling, spelling_of_all, Spells};
ghost use Rattle.bpf_model.specs.Meaning.{Means};

use crate::bytes::Key;
use crate::conditions::Condition;
use crate::input::Answer;
use crate::instruction::Insn;
use crate::limits::PROGRAM_UNITS;
use crate::operations::{AluOp, ByteOrder, SignExtension, SwapWidth, Width};
use crate::program::Program;
use crate::window::Window;
use std::cmp::Ordering;

impl Key {
    /// How the key compares with another in the order of keys.
    #[tactic(auto, using(crate::proofs::KeyLaws::by_bytes_beginning, crate::proofs::KeyLaws::by_bytes_difference))]
    pub fn compare(&self, other: &Key) -> Ordering
        ensures value { result ≡ by_bytes self.now other.now }
        ensures ord { (a b : List ℕ) → ⟦<Key as Ord>⟧.cmp a b ≡ by_bytes a b }
        ensures beginning { (key rest : List ℕ) (b : ℕ) → by_bytes key (key ++ b ∷ rest) ≡ Less }
        ensures difference { (common xs ys : List ℕ) (a b : ℕ) → a < b →
            by_bytes (common ++ a ∷ xs) (common ++ b ∷ ys) ≡ Less }
    {
        self.cmp(other)
    }
}

impl Width {
    /// Tests whether the word is a number of the width. The result of an operation, a negation or a move at this width
    /// always is.
    #[tactic(auto, using(crate::proofs::ArithmeticLaws::alu_value_below, crate::proofs::ArithmeticLaws::negated_below, crate::proofs::ArithmeticLaws::low_below))]
    pub fn has(self, n: u64) -> bool
        ensures exact { IsTrue result ↔ (n < modulus self) }
        ensures alu { (op : AluOp) (x y : ℕ) → alu_value op self x y < modulus self }
        ensures negated { (x : ℕ) → negated self x < modulus self }
        ensures moved { (x : ℕ) → mov_value self x < modulus self }
    {
        n <= self.greatest()
    }

    /// Computes the dividend again from its signed quotient and remainder. The least number by -1 gives itself, with
    /// remainder 0. If the divisor is zero, the quotient is 0 and the remainder is the dividend.
    pub fn divided_again(self, dividend: u64, divisor: u64) -> u64
        ensures value { result ≡ mov_value self dividend }
        ensures division { let quotient = alu_value SDiv self dividend divisor in
            let remainder = alu_value SMod self dividend divisor in
            IsSignedDivision self dividend divisor quotient remainder }
    {
        let quotient = AluOp::SDiv.apply(self, dividend, divisor);
        let remainder = AluOp::SMod.apply(self, dividend, divisor);
        AluOp::Add.apply(self, AluOp::Mul.apply(self, quotient, divisor), remainder)
    }
}

impl SignExtension {
    /// Tests whether the extension can give this word: if so, extending it again changes nothing.
    #[tactic(auto, using(crate::proofs::ArithmeticLaws::extended_below, crate::proofs::ArithmeticLaws::extended_again))]
    pub fn gives(self, n: u64) -> bool
        ensures exact { IsTrue result ↔ (extended self n ≡ n) }
        ensures again { (x : ℕ) → extended self (extended self x) ≡ extended self x }
        ensures extended { (x : ℕ) → extended self x < modulus (extension_width self) }
    {
        self.apply(n) == n
    }
}

impl SwapWidth {
    /// Reverses the low bytes of a word twice: they end as they began, and the other bytes are zero.
    #[tactic(auto, using(crate::proofs::ByteOrderLaws::reordered_below))]
    pub fn reversed_twice(self, n: u64) -> u64
        ensures value { result ≡ reordered Little self n }
        ensures big { reordered Big self (reordered Big self n) ≡ reordered Little self n }
        ensures swap { reordered Swap self (reordered Swap self n) ≡ reordered Little self n }
        ensures below { (order : AnyOrder) (x : ℕ) → reordered order self x < swap_modulus self }
    {
        ByteOrder::Swap.apply(self, ByteOrder::Big.apply(self, n))
    }
}

impl Condition {
    /// Tests whether the condition fails for two words: exactly then its opposite holds.
    pub fn fails(self, width: Width, a: u64, b: u64) -> bool
        ensures value { result ≡ not (holds self width a b) }
        ensures opposite { holds (opposite_of self) width a b ≡ not (holds self width a b) }
    {
        self.opposite().holds(width, a, b)
    }
}

impl Window {
    /// Tests whether the window is read-only: no step changes a byte of such a window, or a byte outside all windows.
    pub fn is_read_only(self) -> bool
        ensures exact { (sizes : DeclaredSizes) (a n : ℕ) → AreWithinLimits sizes →
            lies_in_window sizes self a n ≡ true → result ≡ not (can_write sizes a n) }
        ensures kept { (sizes : DeclaredSizes) (a : ℕ) → AreWithinLimits sizes → result ≡ true →
            lies_in_window sizes self a 1 ≡ true → StaysAt sizes a }
        ensures outside { (sizes : DeclaredSizes) (a : ℕ) →
            can_write sizes a 1 ≡ false → StaysAt sizes a }
    {
        matches!(self, Window::Key | Window::Old | Window::Arg)
    }
}

impl Answer {
    /// Tests whether two answers are the same. A program gives one answer to one input.
    pub fn is_same(&self, other: &Answer) -> bool
        ensures exact { IsTrue result ↔ (self.now ≡ other.now) }
        ensures one { (program : List AnyInsn) (sizes : DeclaredSizes) (input : Input) →
            Means program sizes input self.now → Means program sizes input other.now →
            IsTrue result }
    {
        self == other
    }
}

impl Insn {
    /// Returns how many bytes spell the instruction: 8 per unit. No instruction's spelling is the beginning of
    /// another's.
    pub fn spelled_bytes(self) -> usize
        ensures value { result ≡ length (spelling self) }
        ensures bounded { result ≤ 16 }
        ensures fits { IsInstruction self }
        ensures alone { IsSpelledAlone self }
    {
        8 * self.units()
    }
}

impl Program {
    /// Returns how many bytes spell the program. It has one spelling, and bytes spell one program at most.
    pub fn spelled_bytes(&self) -> usize
        ensures value { result ≡ length (spelling_of_all self.now) }
        ensures bounded { result ≤ 8 * PROGRAM_UNITS }
        ensures one_spelling { (text other : List ℕ) →
            Spells text self.now → Spells other self.now → text ≡ other }
        ensures one_program { (text : List ℕ) (other : List AnyInsn) →
            Spells text self.now → Spells text other → other ≡ self.now }
    {
        let instructions = self.instructions();
        let mut bytes = 0;
        for insn in instructions {
            bytes += insn.spelled_bytes();
        }
        bytes
    }
}
