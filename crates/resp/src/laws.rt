//! Laws of the grammar.
ghost use Rattle.std.specs.Prelude.{◌≡◌, ◌≢◌, ◌++◌, ℕ, List};
ghost use Rattle.resp.specs.Readings.{Reading as TheReading, IsReading, with_more};
ghost use Rattle.resp.specs.Readings.Reading.{part};

/// Bytes have one reading: one command, or one fault, and no others.
pub fn one_reading()
    ensures { (bytes : List ℕ) (a b : TheReading) → IsReading bytes a → IsReading bytes b → a ≡ b }
{}

/// A command stays a command, and a fault the same fault, whatever follows. So no command begins bytes with a fault.
pub fn readings_stay()
    ensures { (bytes more : List ℕ) (a : TheReading) → a ≢ part → IsReading bytes a → IsReading (bytes ++ more) (with_more a more) }
{}
