//! Commands, as words of a client ask for them.

/// The name of a client has at most this many bytes. Redis has no such limit.
pub const NAME_BYTES: usize = 64;

/// When `SET` puts its value.
#[derive(Clone, Copy, Debug, PartialEq, Eq)]
pub enum Condition<'a> {
    Always,
    /// If the key has no value.
    IfAbsent,
    /// If the key has a value.
    IfPresent,
    /// If the key has this value.
    IfEqual(&'a [u8]),
}

/// How long the entry of a key stays, after its value was set or read.
#[derive(Clone, Copy, Debug, PartialEq, Eq)]
pub enum Lifetime {
    /// It has no deadline.
    Forever,
    /// As long as before.
    Kept,
    /// Its time is over at this one, in milliseconds since the epoch. It may be past.
    Until(u64),
}

/// When a deadline is set, by the one that the key has. A key without a deadline counts as one that stays longer than
/// any other.
#[derive(Clone, Copy, Debug, PartialEq, Eq)]
pub enum ExpireRule {
    Always,
    /// `NX`: if the key has no deadline.
    IfNone,
    /// `XX`: if the key has a deadline.
    IfSome,
    /// `GT`: if the key has a deadline, and the new one is later.
    IfLater,
    /// `LT`: if the key has no deadline, or the new one is sooner.
    IfSooner,
    /// `XX LT`: if the key has a deadline, and the new one is sooner.
    IfSomeAndSooner,
}

/// The unit of a time.
#[derive(Clone, Copy, Debug, PartialEq, Eq)]
pub enum TimeUnit {
    Seconds,
    Millis,
}

/// How a deadline is told: by what is left of the time until it, or by its time since the epoch.
#[derive(Clone, Copy, Debug, PartialEq, Eq)]
pub enum TimeForm {
    Left,
    Until,
}

/// What is to be done with the value or the deadline of one key.
#[derive(Clone, Copy, Debug, PartialEq, Eq)]
pub enum KeyAct<'a> {
    /// `GET`
    Get,
    /// `SET`; the reply is the old value if that is wanted. `SETEX` and `PSETEX`
    Set {
        value: &'a [u8],
        condition: Condition<'a>,
        wants_old: bool,
        lifetime: Lifetime,
    },
    /// `SETNX`
    SetIfAbsent {
        value: &'a [u8],
    },
    /// `GETSET`
    GetAndSet {
        value: &'a [u8],
    },
    /// `GETDEL`
    GetAndDelete,
    /// `STRLEN`
    Length,
    /// `TYPE`
    TypeName,
    /// `GETEX`
    GetAndExpire {
        lifetime: Lifetime,
    },
    /// `EXPIRE`, `PEXPIRE`, `EXPIREAT` and `PEXPIREAT`: sets this deadline, in milliseconds since the epoch. It may be past.
    Expire {
        at: u64,
        rule: ExpireRule,
    },
    /// `PERSIST`
    Persist,
    /// `TTL`, `PTTL`, `EXPIRETIME` and `PEXPIRETIME`
    TimeLeft {
        unit: TimeUnit,
        form: TimeForm,
    },
    /// `INCR`, `DECR`, `INCRBY` and `DECRBY`
    Add {
        by: i64,
    },
    /// `APPEND`
    Append {
        value: &'a [u8],
    },
    /// `GETRANGE` and `SUBSTR`; numbers below 0 count from the end.
    GetRange {
        start: i64,
        end: i64,
    },
    /// `SETRANGE`; an empty value changes nothing, wherever the offset is.
    SetRange {
        offset: u64,
        value: &'a [u8],
    },
    /// `DELIFEQ`
    DeleteIfEqual {
        value: &'a [u8],
    },
}

/// What is to be done with several keys.
#[derive(Clone, Copy, Debug, PartialEq, Eq)]
pub enum KeysAct {
    /// `MGET`
    GetEach,
    /// `DEL` and `UNLINK`
    Delete,
    /// `EXISTS` and `TOUCH`
    CountPresent,
}

/// What is asked of the whole map.
#[derive(Clone, Copy, Debug, PartialEq, Eq)]
pub enum WalkCommand<'a> {
    /// `DBSIZE`
    CountAll,
    /// `SCAN`; of about `count` keys at a step those that match the pattern, if there is one. If another type than
    /// `string` is asked for, no key is of that type.
    Scan {
        cursor: u64,
        pattern: Option<&'a [u8]>,
        count: u64,
        is_string: bool,
    },
    /// `KEYS`
    Keys {
        pattern: &'a [u8],
    },
    /// `RANDOMKEY`
    RandomKey,
    /// `FLUSHALL` and `FLUSHDB`
    RemoveAll,
}

/// What is asked of the connection.
#[derive(Clone, Copy, Debug, PartialEq, Eq)]
pub enum ConnectionCommand<'a> {
    /// `PING`, with the text that is to come back, if there is one.
    Ping(Option<&'a [u8]>),
    /// `ECHO`
    Echo(&'a [u8]),
    /// `QUIT`
    Quit,
    /// `SELECT 0`
    Select,
    /// `HELLO` or `HELLO 2`, with the password of the user `default` and the client's name, if it gives them. The name is as in
    /// `SetClientName`.
    Hello {
        password: Option<&'a [u8]>,
        name: Option<&'a [u8]>,
    },
    /// `AUTH` with a password alone.
    Auth {
        password: &'a [u8],
    },
    /// `AUTH default` with a password.
    AuthDefault {
        password: &'a [u8],
    },
    /// `CLIENT ID`
    ClientId,
    /// `CLIENT GETNAME`
    ClientName,
    /// `CLIENT SETNAME`; at most `NAME_BYTES` bytes, each from `!` to `~`. An empty name takes the name away.
    SetClientName(&'a [u8]),
    /// `CLIENT SETINFO`; an attribute that isn't known is taken too.
    SetClientInfo {
        attribute: &'a [u8],
        value: &'a [u8],
    },
    /// `COMMAND`
    Commands,
    /// `COMMAND COUNT`
    CommandCount,
    /// `COMMAND DOCS`
    CommandDocs,
    /// `CONFIG GET`
    Config {
        parameters: &'a [&'a [u8]],
    },
    /// `RESET`
    Reset,
}

/// Whether a server that is to end saves its map before.
#[derive(Clone, Copy, Debug, PartialEq, Eq)]
pub enum LastSave {
    /// If it keeps its map in a file.
    IfKept,
    /// `SAVE`
    Always,
    /// `NOSAVE`
    Never,
}

/// Which clients `CLIENT KILL` is about: those that have all that is given.
#[derive(Clone, Copy, Debug, PartialEq, Eq)]
pub struct ClientFilter<'a> {
    /// `ID`
    pub number: Option<u64>,
    /// `ADDR`
    pub address: Option<&'a [u8]>,
    /// `LADDR`
    pub local_address: Option<&'a [u8]>,
    /// No other `TYPE` than `normal` is asked for. Each client is of this type.
    pub is_normal: bool,
    /// `SKIPME`: the client that asks is spared.
    pub spares_own: bool,
}

/// What is asked of the server's clients.
#[derive(Clone, Copy, Debug, PartialEq, Eq)]
pub enum ClientsCommand<'a> {
    /// `CLIENT LIST`, alone or with the type `normal`.
    List,
    /// `CLIENT LIST` with another type: no client is of it.
    Nobody,
    /// `CLIENT LIST ID`. Each of the words is a number.
    Named { numbers: &'a [&'a [u8]] },
    /// `CLIENT INFO`
    Own,
    /// `CLIENT KILL` with an address.
    KillAt { address: &'a [u8] },
    /// `CLIENT KILL` with options.
    Kill { filter: ClientFilter<'a> },
}

/// What is asked of the requests that took long.
#[derive(Clone, Copy, Debug, PartialEq, Eq)]
pub enum SlowlogCommand {
    /// `SLOWLOG GET`: this many of the latest ones, or all.
    Get { count: Option<u64> },
    /// `SLOWLOG LEN`
    Length,
    /// `SLOWLOG RESET`
    Reset,
    /// `SLOWLOG HELP`
    Help,
}

/// What is asked of the server.
#[derive(Clone, Copy, Debug, PartialEq, Eq)]
pub enum ServerCommand<'a> {
    /// `INFO`, about these sections, or about all if there is none.
    Info { sections: &'a [&'a [u8]] },
    /// `SAVE`
    Save,
    /// `BGSAVE`
    SaveLater,
    /// `LASTSAVE`
    LastSaved,
    /// `SHUTDOWN`
    Shutdown { save: LastSave },
    /// `CLIENT LIST`, `CLIENT INFO` and `CLIENT KILL`
    Clients(ClientsCommand<'a>),
    /// `SLOWLOG`
    Slowlog(SlowlogCommand),
}

/// What is asked of programs.
#[derive(Clone, Copy, Debug, PartialEq, Eq)]
pub enum ProgramCommand<'a> {
    /// `SCRIPT LOAD`
    Load {
        text: &'a [u8],
    },
    /// `SCRIPT EXISTS`
    Exists {
        digests: &'a [&'a [u8]],
    },
    /// `EVALSHA`; the digest has 40 bytes.
    Call {
        digest: &'a [u8],
        key: &'a [u8],
        arguments: &'a [&'a [u8]],
    },
    /// `EVAL`
    Eval {
        text: &'a [u8],
        key: &'a [u8],
        arguments: &'a [&'a [u8]],
    },
}

/// A command. Its keys have at most `KEY_BYTES` bytes, and its values at most `VALUE_BYTES`, if it comes from
/// `command_of`.
#[derive(Clone, Copy, Debug, PartialEq, Eq)]
pub enum Command<'a> {
    OnKey { key: &'a [u8], act: KeyAct<'a> },
    OnKeys { keys: &'a [&'a [u8]], act: KeysAct },
    /// `MSET`: keys and values by turns.
    SetEach { words: &'a [&'a [u8]] },
    Walk(WalkCommand<'a>),
    Connection(ConnectionCommand<'a>),
    Server(ServerCommand<'a>),
    Program(ProgramCommand<'a>),
}
