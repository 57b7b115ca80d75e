//! Numbers of a text: registers, immediates, offsets and distances.
ghost use Rattle.std.specs.Prelude.{◌≡◌, ◌≤◌, ◌<◌, ◌^◌, ◌++◌, ℕ, suc, pos, negsuc, length, decimal, All, IfOk, IfSome, IfNone};
ghost use Rattle.bpf_model.specs.Spelling.{IsRegister, IsImmediate, IsOffset};
ghost use Rattle.bpf_assembler.specs.Text.{register_text, immediate, offset};
ghost use Rattle.bpf_assembler.specs.Operands.{Gives, TakesText, value_from, is_digit, is_numeral, number_at, register_at, positive_at, negative_at, immediate_at, offset_at, FitsBelow};

use crate::cursor::Cursor;
use crate::fault::LineFault;
use bpf_model::Reg;

fn is_numeral(digits: &[u8]) -> bool
    ensures { result ≡ is_numeral digits.now }
{
    match digits {
        [] => false,
        [first, rest @ ..] => *first != b'0' || rest.is_empty(),
    }
}

/// Returns the number of the digits, or `None` if it is above the limit.
fn value_within(digits: &[u8], limit: u64) -> Option<u64>
    requires { All (λ c. (48 ≤ c) × (c ≤ 57)) digits.now }
    ensures some { IfSome result (λ n. (n ≡ value_from 0 digits.now) × (n ≤ limit)) }
    ensures none { IfNone result (limit < value_from 0 digits.now) }
{
    let mut value: u64 = 0;
    for digit in digits {
        value = value
            .checked_mul(10)?
            .checked_add(u64::from(*digit - b'0'))?;
    }
    if value <= limit { Some(value) } else { None }
}

impl<'a> Cursor<'a> {
    /// Takes a number without needless zeros, at most the limit.
    #[tactic(auto, unfolding(crate::specs::Operands::number_at))]
    pub(crate) fn number(&mut self, limit: u64) -> Result<u64, LineFault>
        ensures exact { Gives self.new.rest.now result (number_at limit self.old.rest.now) }
        ensures found { TakesText decimal (λ n. n ≤ limit) self.old.rest.now self.new.rest.now result }
    {
        let digits = self.digits();
        if !is_numeral(digits) {
            return Err(LineFault::BadOperand);
        }
        match value_within(digits, limit) {
            Some(number) => Ok(number),
            None => Err(LineFault::OutOfRange),
        }
    }

    /// Takes a register.
    #[tactic(auto, unfolding(crate::specs::Operands::register_at))]
    pub(crate) fn register(&mut self) -> Result<Reg, LineFault>
        ensures exact { Gives self.new.rest.now result (register_at self.old.rest.now) }
        ensures found { TakesText register_text IsRegister self.old.rest.now self.new.rest.now result }
    {
        self.byte(b'r')?;
        let number = self.number(10)?;
        Ok(Reg::new(number as u8).unwrap())
    }

    /// Takes a number without a minus, below half the numbers of its field.
    #[tactic(auto, unfolding(crate::specs::Operands::positive_at))]
    fn positive(&mut self, half: u32) -> Result<i32, LineFault>
        requires some { 1 ≤ half }
        requires bounded { half ≤ 2 ^ 31 }
        ensures exact { Gives self.new.rest.now result (positive_at half self.old.rest.now) }
        ensures found { IfOk result (λ z. (n : ℕ) × ((z ≡ pos n)
            × (self.old.rest.now ≡ decimal n ++ self.new.rest.now) × (n < half))) }
    {
        let number = self.number(u64::from(half) - 1)?;
        Ok(number as i32)
    }

    /// Takes the rest of a negative number, after its sign.
    #[tactic(auto, unfolding(crate::specs::Operands::negative_at))]
    fn negative(&mut self, half: u32) -> Result<i32, LineFault>
        requires bounded { half ≤ 2 ^ 31 }
        ensures exact { Gives self.new.rest.now result (negative_at half self.old.rest.now) }
        ensures found { IfOk result (λ z. (n : ℕ) × ((z ≡ negsuc n)
            × (self.old.rest.now ≡ decimal (suc n) ++ self.new.rest.now) × (n < half))) }
    {
        let number = self.number(u64::from(half))?;
        if number == 0 {
            return Err(LineFault::BadOperand);
        }
        Ok(-1 - (number - 1) as i32)
    }

    /// Takes an immediate.
    #[tactic(auto, unfolding(crate::specs::Operands::immediate_at))]
    pub(crate) fn immediate(&mut self) -> Result<i32, LineFault>
        ensures exact { Gives self.new.rest.now result (immediate_at self.old.rest.now) }
        ensures found { IfOk result (λ z. self.old.rest.now ≡ immediate z ++ self.new.rest.now) }
        ensures fits { IfOk result IsImmediate }
    {
        if self.take(b'-') {
            self.negative(0x8000_0000)
        } else {
            self.positive(0x8000_0000)
        }
    }

    /// Takes a number with its sign, from `-half` to `half - 1`.
    #[tactic(auto, unfolding(crate::specs::Operands::offset_at))]
    fn signed(&mut self, half: u32) -> Result<i32, LineFault>
        requires some { 1 ≤ half }
        requires bounded { half ≤ 2 ^ 31 }
        ensures exact { Gives self.new.rest.now result (offset_at half self.old.rest.now) }
        ensures found { IfOk result (λ z. self.old.rest.now ≡ offset z ++ self.new.rest.now) }
        ensures fits { IfOk result (FitsBelow half) }
    {
        if self.take(b'+') {
            return self.positive(half);
        }
        if self.take(b'-') {
            return self.negative(half);
        }
        Err(LineFault::BadOperand)
    }

    /// Takes an offset, or a distance of 16 bits.
    pub(crate) fn offset(&mut self) -> Result<i16, LineFault>
        ensures exact { Gives self.new.rest.now result (offset_at (2 ^ 15) self.old.rest.now) }
        ensures found { IfOk result (λ z. self.old.rest.now ≡ offset z ++ self.new.rest.now) }
        ensures fits { IfOk result IsOffset }
    {
        let number = self.signed(0x8000)?;
        Ok(number as i16)
    }

    /// Takes a distance of 32 bits.
    pub(crate) fn distance(&mut self) -> Result<i32, LineFault>
        ensures exact { Gives self.new.rest.now result (offset_at (2 ^ 31) self.old.rest.now) }
        ensures found { IfOk result (λ z. self.old.rest.now ≡ offset z ++ self.new.rest.now) }
        ensures fits { IfOk result IsImmediate }
    {
        self.signed(0x8000_0000)
    }
}
