//! Why words are no command that is served, and the text of the reply.
ghost use Rattle.std.specs.Prelude.{◌≡◌, ◌≤◌, length};
ghost use Rattle.redis_commands.specs.Commands.{fault_by};
ghost use Rattle.redis_commands.specs.Texts.{fault_text, IsFixed};

use crate::name::{Name, Parent, Sub};
use crate::text::FaultText;

/// Why words are no command that is served.
#[derive(Clone, Copy, Debug, PartialEq, Eq)]
pub enum CommandFault<'a> {
    /// No command that is served has this name.
    UnknownCommand {
        name: &'a [u8],
        args: &'a [&'a [u8]],
    },
    /// The first argument names nothing that this command does.
    UnknownSub {
        parent: Parent,
        word: &'a [u8],
    },
    /// What the first argument names takes another number of arguments, as `SLOWLOG GET` says it.
    WrongSub {
        parent: Parent,
        word: &'a [u8],
    },
    /// This command takes another number of arguments.
    WrongCount(Name),
    /// The same, of a command whose first argument names what it does.
    WrongSubCount(Sub),
    /// An option is unknown, lacks its value, or goes against another one.
    Syntax,
    /// A number is no canonical decimal, or out of its range.
    NotAnInteger,
    /// `DECRBY` by the least number.
    DecrementOverflow,
    /// `SETRANGE` with an offset below 0.
    OffsetOutOfRange,
    /// A key is above `KEY_BYTES`.
    LongKey,
    /// A value, or what a range would make of it, is above `VALUE_BYTES`.
    LongValue,
    /// A deadline of this command is not within the milliseconds that a signed number of 64 bits has, or it is not above 0
    /// where it has to be.
    BadExpire(Name),
    /// An option of `EXPIRE` or its like is unknown.
    ExpireOption(&'a [u8]),
    /// `EXPIRE` or its like with `NX` and another option.
    NxWithOthers,
    /// The same with `GT` and `LT`.
    GtWithLt,
    /// `SCAN` with a cursor that is no canonical decimal of 64 bits.
    BadCursor,
    /// `SELECT` of another map than 0.
    BadIndex,
    /// `SELECT` of a number that has more than 32 bits.
    WideIndex,
    /// `HELLO` with a version that is no number.
    BadVersion,
    /// `HELLO` with a version that is not 2.
    NoProtocol,
    /// An option of `HELLO` is unknown, or lacks its values.
    HelloOption(&'a [u8]),
    /// A client's name has a byte that is not from `!` to `~`.
    BadClientName,
    /// A client's name is above `NAME_BYTES`. Redis has no such limit.
    LongClientName,
    /// `AUTH` of a user that there is not, or with a wrong password.
    WrongPassword,
    /// The client has to authenticate before it may call this command.
    NotAuthenticated,
    /// `EVAL` or `EVALSHA` with a number of keys below 0.
    NegativeKeys,
    /// `EVAL` or `EVALSHA` with fewer arguments than keys.
    TooManyKeys,
    /// `EVAL` or `EVALSHA` with another number of keys than 1.
    ScriptShape,
    /// `EVALSHA` with a digest that has not 40 bytes.
    NoScript,
    /// `DEBUG`, which is not served.
    NoDebug,
    /// `CLIENT LIST` or `CLIENT KILL` with a type that there is not.
    ClientType(&'a [u8]),
    /// `CLIENT KILL` with a user that there is not.
    NoUser(&'a [u8]),
    /// `CLIENT KILL` with a client's number that is no number above 0.
    ClientNumber,
    /// `CLIENT LIST` with a client's number that is no number.
    ListedNumber,
    /// `SLOWLOG GET` with a count that is no number from -1 on.
    SlowlogCount,
    /// The name is `POST` or `HOST:`, as a browser sends it. Redis ends such a connection without a reply.
    WebRequest,
}

impl CommandFault<'_> {
    /// Returns the text of the error reply, without the `-` before it and the end of the line after it. It is a copy of
    /// at most 320 bytes.
    pub fn text(&self) -> FaultText
        ensures { result ≡ fault_text (fault_by self.now) }
    {
        match self {
            CommandFault::UnknownCommand { name, args } => FaultText::unknown_command(name, args),
            CommandFault::UnknownSub { parent, word } => FaultText::unknown_sub(*parent, word),
            CommandFault::WrongCount(name) => FaultText::wrong_count(*name),
            CommandFault::WrongSubCount(sub) => FaultText::wrong_sub_count(*sub),
            CommandFault::BadExpire(name) => FaultText::bad_expire(*name),
            CommandFault::ExpireOption(option) => FaultText::expire_option(option),
            CommandFault::HelloOption(option) => FaultText::hello_option(option),
            CommandFault::WrongSub { parent, word } => FaultText::wrong_sub(*parent, word),
            CommandFault::ClientType(word) => FaultText::client_type(word),
            CommandFault::NoUser(user) => FaultText::no_user(user),
            _ => FaultText::of(self.fixed_text()),
        }
    }

    /// Returns the text of a fault that shows no word.
    fn fixed_text(&self) -> &'static str
        ensures value { IsFixed (fault_by self.now) → result.now ≡ fault_text (fault_by self.now) }
        ensures short { length result.now ≤ 160 }
    {
        match self {
            CommandFault::Syntax => "ERR syntax error",
            CommandFault::NotAnInteger => "ERR value is not an integer or out of range",
            CommandFault::DecrementOverflow => "ERR decrement would overflow",
            CommandFault::OffsetOutOfRange => "ERR offset is out of range",
            CommandFault::LongKey => "ERR key exceeds maximum allowed size (64)",
            CommandFault::LongValue => "ERR string exceeds maximum allowed size (1024)",
            CommandFault::NxWithOthers =>
                "ERR NX and XX, GT or LT options at the same time are not compatible",
            CommandFault::GtWithLt => "ERR GT and LT options at the same time are not compatible",
            CommandFault::BadCursor => "ERR invalid cursor",
            CommandFault::BadIndex => "ERR DB index is out of range",
            CommandFault::WideIndex =>
                "ERR value is out of range, value must between -2147483648 and 2147483647",
            CommandFault::BadVersion => "ERR Protocol version is not an integer or out of range",
            CommandFault::NoProtocol => "NOPROTO unsupported protocol version",
            CommandFault::BadClientName =>
                "ERR Client names cannot contain spaces, newlines or special characters.",
            CommandFault::LongClientName => "ERR client name exceeds maximum allowed size (64)",
            CommandFault::WrongPassword =>
                "WRONGPASS invalid username-password pair or user is disabled.",
            CommandFault::NotAuthenticated => "NOAUTH Authentication required.",
            CommandFault::NegativeKeys => "ERR Number of keys can't be negative",
            CommandFault::TooManyKeys => "ERR Number of keys can't be greater than number of args",
            CommandFault::ScriptShape => "ERR not served: a script is called with one key",
            CommandFault::NoScript => "NOSCRIPT No matching script. Please use EVAL.",
            CommandFault::NoDebug => "ERR DEBUG command not allowed.",
            CommandFault::ClientNumber => "ERR client-id should be greater than 0",
            CommandFault::ListedNumber => "ERR Invalid client ID",
            CommandFault::SlowlogCount => "ERR count should be greater than or equal to -1",
            _ => "",
        }
    }
}
