//! The rest of a text. You take bytes from its front.
ghost use Rattle.std.specs.Prelude.{◌≡◌, ◌≤◌, ◌++◌, ◌∷◌, take, drop, length, codes, OnOk, IsTrue, nat_eq, if◌then◌else◌};
ghost use Rattle.bpf_assembler.specs.Operands.{Gives, run, is_digit, begins_with, byte_at};
ghost use Rattle.bpf_assembler.specs.Reading.{is_name_byte, newline_at};

use crate::fault::LineFault;

/// The rest of a text.
#[derive(Drop)]
pub(crate) struct Cursor<'a> {
    rest: &'a [u8],
}

fn is_digit(byte: u8) -> bool
    ensures { result ≡ is_digit byte }
{
    byte.is_ascii_digit()
}

fn is_name_byte(byte: u8) -> bool
    ensures { result ≡ is_name_byte byte }
{
    byte != b' ' && byte != b'\n'
}

fn digits_length(text: &[u8]) -> usize
    ensures value { result ≡ run is_digit text.now }
    ensures within { result ≤ length text.now }
{
    let end = text.iter().position(|byte| !is_digit(*byte));
    end.unwrap_or(text.len())
}

fn name_length(text: &[u8]) -> usize
    ensures value { result ≡ run is_name_byte text.now }
    ensures within { result ≤ length text.now }
{
    let end = text.iter().position(|byte| !is_name_byte(*byte));
    end.unwrap_or(text.len())
}

impl<'a> Cursor<'a> {
    /// Starts at the front of a text.
    pub(crate) fn new(text: &'a [u8]) -> Cursor<'a>
        ensures { result.rest.now ≡ text.now }
    {
        Cursor { rest: text }
    }

    /// Tests whether nothing is left.
    pub(crate) fn is_done(&self) -> bool
        ensures { result ≡ nat_eq (length self.now.rest.now) 0 }
    {
        self.rest.is_empty()
    }

    /// Tests whether this byte is next.
    pub(crate) fn begins_with(&self, byte: u8) -> bool
        ensures { result ≡ begins_with byte self.now.rest.now }
    {
        match self.rest {
            [first, ..] => *first == byte,
            [] => false,
        }
    }

    /// Takes this byte if it is next, and returns whether it was.
    pub(crate) fn take(&mut self, byte: u8) -> bool
        ensures value { result ≡ begins_with byte self.old.rest.now }
        ensures rest { self.new.rest.now
            ≡ (if result then drop 1 self.old.rest.now else self.old.rest.now) }
        ensures found { IsTrue result → self.old.rest.now ≡ byte ∷ self.new.rest.now }
    {
        let next = self.begins_with(byte);
        if next {
            self.rest = &self.rest[1..];
        }
        next
    }

    /// Takes all digits up to something else.
    pub(crate) fn digits(&mut self) -> &'a [u8]
        ensures digits { result.now ≡ take (run is_digit self.old.rest.now) self.old.rest.now }
        ensures rest { self.new.rest.now ≡ drop (run is_digit self.old.rest.now) self.old.rest.now }
    {
        let (digits, rest) = self.rest.split_at(digits_length(self.rest));
        self.rest = rest;
        digits
    }

    /// Takes all bytes up to a blank or a newline.
    pub(crate) fn name(&mut self) -> &'a [u8]
        ensures name { result.now ≡ take (run is_name_byte self.old.rest.now) self.old.rest.now }
        ensures rest { self.new.rest.now
            ≡ drop (run is_name_byte self.old.rest.now) self.old.rest.now }
    {
        let (name, rest) = self.rest.split_at(name_length(self.rest));
        self.rest = rest;
        name
    }

    /// Takes this byte; a fault if another is next.
    #[tactic(auto, unfolding(crate::specs::Operands::byte_at))]
    pub(crate) fn byte(&mut self, byte: u8) -> Result<(), LineFault>
        ensures exact { Gives self.new.rest.now result (byte_at byte self.old.rest.now) }
        ensures found { OnOk result (self.old.rest.now ≡ byte ∷ self.new.rest.now) }
    {
        if self.take(byte) {
            Ok(())
        } else {
            Err(LineFault::BadOperand)
        }
    }

    /// Takes the newline at the end of a line.
    #[tactic(auto, unfolding(crate::specs::Reading::newline_at))]
    pub(crate) fn newline(&mut self) -> Result<(), LineFault>
        ensures exact { Gives self.new.rest.now result (newline_at self.old.rest.now) }
        ensures found { OnOk result (self.old.rest.now ≡ codes "\n" ++ self.new.rest.now) }
    {
        if self.take(b'\n') {
            Ok(())
        } else {
            Err(LineFault::Trailing)
        }
    }
}
