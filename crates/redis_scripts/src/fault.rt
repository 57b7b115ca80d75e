//! Why a text is refused as a script.
ghost use Rattle.std.specs.Prelude.{◌≡◌, ◌≤◌, ◌+◌, ◌++◌, length};
ghost use Rattle.arrayvec.specs.ArrayVec.{array_vec_len};
ghost use Rattle.redis_scripts.specs.Faults.{fault_text, line_fault_words};

use admission::AdmissionFault;
use arrayvec::ArrayVec;
use bpf_assembler::AsmFault;
use bpf_model::NoMemory;
use itoa::Buffer;

/// A message has at most this many bytes.
pub const MESSAGE_BYTES: usize = 256;

/// Why a text is refused as a script: its first fault.
#[derive(Clone, Copy, Debug, PartialEq, Eq)]
pub enum ScriptFault {
    /// The first line is not one of a script that is served. Texts in Lua come here.
    NotServed,
    /// The first line has the method `merge` and the word `with-now`. A merge stores its argument if there is no old value, so it has
    /// no time in front.
    MergesWithNow,
    /// The code is neither hex nor UTF-8.
    NotText,
    /// The code is hex, with an odd number of digits.
    OddDigits,
    /// The code isn't the text of a program. The fault has the line's number in the script, whose first line is 1.
    Assembler(AsmFault),
    /// The program isn't admitted with these sizes.
    Admission(AdmissionFault),
    /// A request for memory was refused, or there are as many scripts or programs as there may be.
    NoMemory,
}

impl From<NoMemory> for ScriptFault {
    ghost use Rattle.std.specs.Prelude.{◌≡◌};
    ghost use Rattle.redis_scripts.specs.declared.fault.ScriptFault.TheVariants.{NoMemory};

    ghost from_gives = { λ _ e. e ≡ NoMemory };

    fn from(_: NoMemory) -> ScriptFault {
        ScriptFault::NoMemory
    }
}

/// Returns what is wrong with a line.
fn line_fault_words(fault: &AsmFault) -> &'static [u8]
    ensures { result.now ≡ line_fault_words fault.now }
{
    match fault {
        AsmFault::NoMemory => b"no memory",
        AsmFault::UnknownName(_) => b"unknown instruction",
        AsmFault::BadOperand(_) => b"bad operand",
        AsmFault::OutOfRange(_) => b"number out of range",
        AsmFault::Trailing(_) => b"something after the last operand",
        AsmFault::BadCount(_) => b"more than 4096 units",
    }
}

/// Adds bytes to a message.
fn put(message: &mut ArrayVec<u8, MESSAGE_BYTES>, bytes: &[u8])
    requires { array_vec_len message.old + length bytes.now ≤ MESSAGE_BYTES }
    ensures items { message.new.items ≡ message.old.items ++ bytes.now }
    ensures len { array_vec_len message.new ≡ array_vec_len message.old + length bytes.now }
{
    message.try_extend_from_slice(bytes).unwrap();
}

/// Returns the message on the fault of a line.
fn line_message(fault: &AsmFault) -> ArrayVec<u8, MESSAGE_BYTES>
    ensures { result.items ≡ fault_text (ScriptFault.Assembler fault.now) }
{
    let mut buffer = Buffer::new();
    let mut message = ArrayVec::new();
    put(&mut message, b"ERR the script's line ");
    put(&mut message, buffer.format(fault.line()).as_bytes());
    put(&mut message, b": ");
    put(&mut message, line_fault_words(fault));
    message
}

/// Returns the message on the refusal of a program.
fn refusal_message(fault: &AdmissionFault) -> ArrayVec<u8, MESSAGE_BYTES>
    ensures { result.items ≡ fault_text (ScriptFault.Admission fault.now) }
{
    let mut number = Buffer::new();
    let mut unit = Buffer::new();
    let mut message = ArrayVec::new();
    put(&mut message, b"ERR the script is refused: ");
    put(&mut message, number.format(fault.number()).as_bytes());
    put(&mut message, b" at ");
    put(&mut message, unit.format(fault.unit()).as_bytes());
    message
}

/// Returns a message of these bytes.
fn message_of(bytes: &[u8]) -> ArrayVec<u8, MESSAGE_BYTES>
    requires { length bytes.now ≤ MESSAGE_BYTES }
    ensures { result.items ≡ bytes.now }
{
    let mut message = ArrayVec::new();
    put(&mut message, bytes);
    message
}

impl ScriptFault {
    /// Returns the text that tells a client of the fault: the line of an error, without the mark in front and the newline. Takes no
    /// memory.
    pub fn message(&self) -> ArrayVec<u8, MESSAGE_BYTES>
        ensures { result.items ≡ fault_text self.now }
    {
        match self {
            ScriptFault::NotServed => message_of(NOT_SERVED),
            ScriptFault::MergesWithNow => message_of(MERGES_WITH_NOW),
            ScriptFault::NotText => message_of(b"ERR the script's code is not UTF-8"),
            ScriptFault::OddDigits => message_of(b"ERR the script has an odd number of hex digits"),
            ScriptFault::Assembler(fault) => line_message(fault),
            ScriptFault::Admission(fault) => refusal_message(fault),
            ScriptFault::NoMemory => message_of(NO_MEMORY),
        }
    }
}

/// What is served, for a client that sent something else.
const NOT_SERVED: &[u8] =
    b"ERR not a script that is served: its first line has to be '#!bpf METHOD REPLY KEY OLD ARGUMENT RESULT' (METHOD: compute, if-absent, if-present or merge; REPLY: bytes or integer; four sizes; the word 'with-now' may follow)";

/// Why a merge has no time.
const MERGES_WITH_NOW: &[u8] =
    b"ERR a merge has no 'with-now': it stores its argument if there is no old value";

/// The text of Redis if memory runs out.
const NO_MEMORY: &[u8] = b"OOM command not allowed when used memory > 'maxmemory'.";
