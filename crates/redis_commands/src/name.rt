//! The names of commands, and how many arguments each command takes.
ghost use Rattle.std.specs.Prelude.{◌≡◌};
ghost use Rattle.std.specs.Str.{str_eq_ignore_ascii_case};
ghost use Rattle.redis_commands.specs.Names.{arity_of, key_arity, walk_arity, connection_arity, server_arity, parent_arity, sub_arity, is_allowed, name_text, sub_word, parent_text, parent_capitals, key_name_text, keys_name_text, walk_name_text, connection_name_text, server_name_text, program_name_text, parent_of, subs_of, sub_named, first_sub, first_named, named, names_of_length};

/// Whether the word is this name, in any case.
pub(crate) fn is(name: &str, word: &[u8]) -> bool
    ensures { result ≡ str_eq_ignore_ascii_case name.now word.now }
{
    name.as_bytes().eq_ignore_ascii_case(word)
}

/// How many arguments a command takes, after its name.
#[derive(Clone, Copy, Debug, PartialEq, Eq)]
pub enum Arity {
    Exactly(usize),
    AtLeast(usize),
    AtMost(usize),
}

impl Arity {
    /// Whether this number of arguments may come.
    pub(crate) fn allows(self, count: usize) -> bool
        ensures { result ≡ is_allowed self count }
    {
        match self {
            Arity::Exactly(n) => count == n,
            Arity::AtLeast(n) => n <= count,
            Arity::AtMost(n) => count <= n,
        }
    }
}

/// A command that is served, by its name.
#[derive(Clone, Copy, Debug, PartialEq, Eq)]
pub enum Name {
    Key(KeyName),
    Keys(KeysName),
    Walk(WalkName),
    Connection(ConnectionName),
    Server(ServerName),
    Program(ProgramName),
    /// A command whose first argument names what it does.
    Parent(Parent),
}

/// The commands of one key.
#[derive(Clone, Copy, Debug, PartialEq, Eq)]
pub enum KeyName {
    Get,
    Set,
    SetNx,
    GetSet,
    GetDel,
    SetEx,
    PsetEx,
    GetEx,
    Expire,
    Pexpire,
    ExpireAt,
    PexpireAt,
    Persist,
    Ttl,
    Pttl,
    ExpireTime,
    PexpireTime,
    StrLen,
    Type,
    Incr,
    Decr,
    IncrBy,
    DecrBy,
    Append,
    GetRange,
    Substr,
    SetRange,
    DelIfEq,
}

/// The commands of several keys.
#[derive(Clone, Copy, Debug, PartialEq, Eq)]
pub enum KeysName {
    Mget,
    Mset,
    Del,
    Unlink,
    Exists,
    Touch,
}

/// The commands of the whole map.
#[derive(Clone, Copy, Debug, PartialEq, Eq)]
pub enum WalkName {
    DbSize,
    Scan,
    Keys,
    RandomKey,
    FlushAll,
    FlushDb,
}

/// The commands of a connection.
#[derive(Clone, Copy, Debug, PartialEq, Eq)]
pub enum ConnectionName {
    Ping,
    Echo,
    Quit,
    Select,
    Hello,
    Auth,
    Reset,
}

/// The commands of the server.
#[derive(Clone, Copy, Debug, PartialEq, Eq)]
pub enum ServerName {
    Info,
    Save,
    BgSave,
    LastSave,
    Shutdown,
    Debug,
}

/// The commands that run programs.
#[derive(Clone, Copy, Debug, PartialEq, Eq)]
pub enum ProgramName {
    Eval,
    EvalSha,
}

/// The commands whose first argument names what they do.
#[derive(Clone, Copy, Debug, PartialEq, Eq)]
pub enum Parent {
    Client,
    Command,
    Config,
    Script,
    Slowlog,
}

/// What the first argument of such a command names.
#[derive(Clone, Copy, Debug, PartialEq, Eq)]
pub enum Sub {
    ClientId,
    ClientGetName,
    ClientSetName,
    ClientSetInfo,
    ClientList,
    ClientInfo,
    ClientKill,
    CommandCount,
    CommandDocs,
    ConfigGet,
    ScriptLoad,
    ScriptExists,
    SlowlogGet,
    SlowlogLen,
    SlowlogReset,
    SlowlogHelp,
}

impl KeyName {
    fn text(self) -> &'static str
        ensures { result.now ≡ key_name_text self }
    {
        match self {
            KeyName::Get => "get",
            KeyName::Set => "set",
            KeyName::SetNx => "setnx",
            KeyName::GetSet => "getset",
            KeyName::GetDel => "getdel",
            KeyName::SetEx => "setex",
            KeyName::PsetEx => "psetex",
            KeyName::GetEx => "getex",
            KeyName::Expire => "expire",
            KeyName::Pexpire => "pexpire",
            KeyName::ExpireAt => "expireat",
            KeyName::PexpireAt => "pexpireat",
            KeyName::Persist => "persist",
            KeyName::Ttl => "ttl",
            KeyName::Pttl => "pttl",
            KeyName::ExpireTime => "expiretime",
            KeyName::PexpireTime => "pexpiretime",
            KeyName::StrLen => "strlen",
            KeyName::Type => "type",
            KeyName::Incr => "incr",
            KeyName::Decr => "decr",
            KeyName::IncrBy => "incrby",
            KeyName::DecrBy => "decrby",
            KeyName::Append => "append",
            KeyName::GetRange => "getrange",
            KeyName::Substr => "substr",
            KeyName::SetRange => "setrange",
            KeyName::DelIfEq => "delifeq",
        }
    }

    fn arity(self) -> Arity
        ensures { result ≡ key_arity self }
    {
        match self {
            KeyName::GetEx => Arity::AtLeast(1),
            KeyName::Set
            | KeyName::Expire
            | KeyName::Pexpire
            | KeyName::ExpireAt
            | KeyName::PexpireAt => Arity::AtLeast(2),
            KeyName::SetEx
            | KeyName::PsetEx
            | KeyName::GetRange
            | KeyName::Substr
            | KeyName::SetRange => Arity::Exactly(3),
            KeyName::SetNx
            | KeyName::GetSet
            | KeyName::IncrBy
            | KeyName::DecrBy
            | KeyName::Append
            | KeyName::DelIfEq => Arity::Exactly(2),
            _ => Arity::Exactly(1),
        }
    }
}

impl KeysName {
    fn text(self) -> &'static str
        ensures { result.now ≡ keys_name_text self }
    {
        match self {
            KeysName::Mget => "mget",
            KeysName::Mset => "mset",
            KeysName::Del => "del",
            KeysName::Unlink => "unlink",
            KeysName::Exists => "exists",
            KeysName::Touch => "touch",
        }
    }
}

impl WalkName {
    fn text(self) -> &'static str
        ensures { result.now ≡ walk_name_text self }
    {
        match self {
            WalkName::DbSize => "dbsize",
            WalkName::Scan => "scan",
            WalkName::Keys => "keys",
            WalkName::RandomKey => "randomkey",
            WalkName::FlushAll => "flushall",
            WalkName::FlushDb => "flushdb",
        }
    }

    fn arity(self) -> Arity
        ensures { result ≡ walk_arity self }
    {
        match self {
            WalkName::DbSize | WalkName::RandomKey => Arity::Exactly(0),
            WalkName::Scan => Arity::AtLeast(1),
            WalkName::Keys => Arity::Exactly(1),
            WalkName::FlushAll | WalkName::FlushDb => Arity::AtLeast(0),
        }
    }
}

impl ConnectionName {
    fn text(self) -> &'static str
        ensures { result.now ≡ connection_name_text self }
    {
        match self {
            ConnectionName::Ping => "ping",
            ConnectionName::Echo => "echo",
            ConnectionName::Quit => "quit",
            ConnectionName::Select => "select",
            ConnectionName::Hello => "hello",
            ConnectionName::Auth => "auth",
            ConnectionName::Reset => "reset",
        }
    }

    fn arity(self) -> Arity
        ensures { result ≡ connection_arity self }
    {
        match self {
            ConnectionName::Ping => Arity::AtMost(1),
            ConnectionName::Echo | ConnectionName::Select => Arity::Exactly(1),
            ConnectionName::Auth => Arity::AtLeast(1),
            ConnectionName::Reset => Arity::Exactly(0),
            ConnectionName::Quit | ConnectionName::Hello => Arity::AtLeast(0),
        }
    }
}

impl ServerName {
    fn text(self) -> &'static str
        ensures { result.now ≡ server_name_text self }
    {
        match self {
            ServerName::Info => "info",
            ServerName::Save => "save",
            ServerName::BgSave => "bgsave",
            ServerName::LastSave => "lastsave",
            ServerName::Shutdown => "shutdown",
            ServerName::Debug => "debug",
        }
    }

    fn arity(self) -> Arity
        ensures { result ≡ server_arity self }
    {
        match self {
            ServerName::Save | ServerName::LastSave => Arity::Exactly(0),
            ServerName::Info | ServerName::BgSave | ServerName::Shutdown => Arity::AtLeast(0),
            ServerName::Debug => Arity::AtLeast(1),
        }
    }
}

impl ProgramName {
    fn text(self) -> &'static str
        ensures { result.now ≡ program_name_text self }
    {
        match self {
            ProgramName::Eval => "eval",
            ProgramName::EvalSha => "evalsha",
        }
    }
}

impl Parent {
    /// Returns the name in small letters.
    pub(crate) fn text(self) -> &'static str
        ensures { result.now ≡ parent_text self }
    {
        match self {
            Parent::Client => "client",
            Parent::Command => "command",
            Parent::Config => "config",
            Parent::Script => "script",
            Parent::Slowlog => "slowlog",
        }
    }

    /// Returns the name in capitals.
    pub(crate) fn capitals(self) -> &'static str
        ensures { result.now ≡ parent_capitals self }
    {
        match self {
            Parent::Client => "CLIENT",
            Parent::Command => "COMMAND",
            Parent::Config => "CONFIG",
            Parent::Script => "SCRIPT",
            Parent::Slowlog => "SLOWLOG",
        }
    }

    fn arity(self) -> Arity
        ensures { result ≡ parent_arity self }
    {
        match self {
            Parent::Command => Arity::AtLeast(0),
            _ => Arity::AtLeast(1),
        }
    }

    /// Returns what the first argument may name.
    fn subs(self) -> &'static [Sub]
        ensures { result.now ≡ subs_of self }
    {
        match self {
            Parent::Client => &[
                Sub::ClientId,
                Sub::ClientGetName,
                Sub::ClientSetName,
                Sub::ClientSetInfo,
                Sub::ClientList,
                Sub::ClientInfo,
                Sub::ClientKill,
            ],
            Parent::Command => &[Sub::CommandCount, Sub::CommandDocs],
            Parent::Config => &[Sub::ConfigGet],
            Parent::Script => &[Sub::ScriptLoad, Sub::ScriptExists],
            Parent::Slowlog => &[
                Sub::SlowlogGet,
                Sub::SlowlogLen,
                Sub::SlowlogReset,
                Sub::SlowlogHelp,
            ],
        }
    }

    /// Returns what this word names, in any case, or `None`.
    pub(crate) fn sub_named(self, word: &[u8]) -> Option<Sub>
        ensures { result ≡ sub_named self word.now }
    {
        first_sub(self.subs(), word)
    }
}

impl Sub {
    /// Returns the word, in small letters.
    pub(crate) fn word(self) -> &'static str
        ensures { result.now ≡ sub_word self }
    {
        match self {
            Sub::ClientId => "id",
            Sub::ClientGetName => "getname",
            Sub::ClientSetName => "setname",
            Sub::ClientSetInfo => "setinfo",
            Sub::ClientList => "list",
            Sub::ClientInfo => "info",
            Sub::ClientKill => "kill",
            Sub::CommandCount => "count",
            Sub::CommandDocs => "docs",
            Sub::ConfigGet => "get",
            Sub::ScriptLoad => "load",
            Sub::ScriptExists => "exists",
            Sub::SlowlogGet => "get",
            Sub::SlowlogLen => "len",
            Sub::SlowlogReset => "reset",
            Sub::SlowlogHelp => "help",
        }
    }

    /// Returns the command whose first argument this is.
    pub(crate) fn parent(self) -> Parent
        ensures { result ≡ parent_of self }
    {
        match self {
            Sub::ClientId
            | Sub::ClientGetName
            | Sub::ClientSetName
            | Sub::ClientSetInfo
            | Sub::ClientList
            | Sub::ClientInfo
            | Sub::ClientKill => Parent::Client,
            Sub::CommandCount | Sub::CommandDocs => Parent::Command,
            Sub::ConfigGet => Parent::Config,
            Sub::ScriptLoad | Sub::ScriptExists => Parent::Script,
            Sub::SlowlogGet | Sub::SlowlogLen | Sub::SlowlogReset | Sub::SlowlogHelp => {
                Parent::Slowlog
            }
        }
    }

    /// Returns how many arguments follow it.
    pub(crate) fn arity(self) -> Arity
        ensures { result ≡ sub_arity self }
    {
        match self {
            Sub::ClientId
            | Sub::ClientGetName
            | Sub::ClientInfo
            | Sub::CommandCount
            | Sub::SlowlogLen
            | Sub::SlowlogReset
            | Sub::SlowlogHelp => Arity::Exactly(0),
            Sub::ClientSetName | Sub::ScriptLoad => Arity::Exactly(1),
            Sub::ClientSetInfo => Arity::Exactly(2),
            Sub::ClientList | Sub::CommandDocs | Sub::SlowlogGet => Arity::AtLeast(0),
            Sub::ConfigGet | Sub::ScriptExists | Sub::ClientKill => Arity::AtLeast(1),
        }
    }
}

impl Name {
    /// Returns the name in small letters.
    pub(crate) fn text(self) -> &'static str
        ensures { result.now ≡ name_text self }
    {
        match self {
            Name::Key(name) => name.text(),
            Name::Keys(name) => name.text(),
            Name::Walk(name) => name.text(),
            Name::Connection(name) => name.text(),
            Name::Server(name) => name.text(),
            Name::Program(name) => name.text(),
            Name::Parent(name) => name.text(),
        }
    }

    /// Returns how many arguments the command takes.
    pub(crate) fn arity(self) -> Arity
        ensures { result ≡ arity_of self }
    {
        match self {
            Name::Key(name) => name.arity(),
            Name::Keys(KeysName::Mset) => Arity::AtLeast(2),
            Name::Keys(_) => Arity::AtLeast(1),
            Name::Walk(name) => name.arity(),
            Name::Connection(name) => name.arity(),
            Name::Server(name) => name.arity(),
            Name::Program(_) => Arity::AtLeast(2),
            Name::Parent(name) => name.arity(),
        }
    }

    /// Returns the command that this word names, in any case, or `None`. It is looked for among the names of the
    /// word's length, those that clients send most before the others.
    #[inline]
    pub(crate) fn named(word: &[u8]) -> Option<Name>
        ensures { result ≡ named word.now }
    {
        first_named(names_of_length(word.len()), word)
    }
}

/// Returns the first of these whose word this is, in any case.
fn first_sub(subs: &[Sub], word: &[u8]) -> Option<Sub>
    ensures { result ≡ first_sub subs.now word.now }
{
    for sub in subs {
        if is(sub.word(), word) {
            return Some(*sub);
        }
    }
    None
}

/// Returns the first of the names that the word is, in any case.
fn first_named(names: &[Name], word: &[u8]) -> Option<Name>
    ensures { result ≡ first_named names.now word.now }
{
    for name in names {
        if is(name.text(), word) {
            return Some(*name);
        }
    }
    None
}

/// The names of three letters.
static THREE: [Name; 4] = [
    Name::Key(KeyName::Get),
    Name::Key(KeyName::Set),
    Name::Key(KeyName::Ttl),
    Name::Keys(KeysName::Del),
];

/// The names of four letters.
static FOUR: [Name; 15] = [
    Name::Key(KeyName::Incr),
    Name::Key(KeyName::Decr),
    Name::Key(KeyName::Type),
    Name::Key(KeyName::Pttl),
    Name::Keys(KeysName::Mget),
    Name::Keys(KeysName::Mset),
    Name::Walk(WalkName::Scan),
    Name::Walk(WalkName::Keys),
    Name::Connection(ConnectionName::Ping),
    Name::Connection(ConnectionName::Echo),
    Name::Connection(ConnectionName::Quit),
    Name::Connection(ConnectionName::Auth),
    Name::Server(ServerName::Info),
    Name::Server(ServerName::Save),
    Name::Program(ProgramName::Eval),
];

/// The names of five letters.
static FIVE: [Name; 7] = [
    Name::Key(KeyName::SetNx),
    Name::Key(KeyName::SetEx),
    Name::Key(KeyName::GetEx),
    Name::Keys(KeysName::Touch),
    Name::Connection(ConnectionName::Hello),
    Name::Connection(ConnectionName::Reset),
    Name::Server(ServerName::Debug),
];

/// The names of six letters.
static SIX: [Name; 17] = [
    Name::Key(KeyName::IncrBy),
    Name::Key(KeyName::DecrBy),
    Name::Key(KeyName::GetSet),
    Name::Key(KeyName::GetDel),
    Name::Key(KeyName::StrLen),
    Name::Key(KeyName::Append),
    Name::Key(KeyName::Substr),
    Name::Key(KeyName::Expire),
    Name::Key(KeyName::PsetEx),
    Name::Keys(KeysName::Unlink),
    Name::Keys(KeysName::Exists),
    Name::Walk(WalkName::DbSize),
    Name::Connection(ConnectionName::Select),
    Name::Server(ServerName::BgSave),
    Name::Parent(Parent::Client),
    Name::Parent(Parent::Config),
    Name::Parent(Parent::Script),
];

/// The names of seven letters.
static SEVEN: [Name; 7] = [
    Name::Key(KeyName::Pexpire),
    Name::Key(KeyName::DelIfEq),
    Name::Key(KeyName::Persist),
    Name::Walk(WalkName::FlushDb),
    Name::Program(ProgramName::EvalSha),
    Name::Parent(Parent::Command),
    Name::Parent(Parent::Slowlog),
];

/// The names of eight letters.
static EIGHT: [Name; 6] = [
    Name::Key(KeyName::GetRange),
    Name::Key(KeyName::SetRange),
    Name::Key(KeyName::ExpireAt),
    Name::Walk(WalkName::FlushAll),
    Name::Server(ServerName::LastSave),
    Name::Server(ServerName::Shutdown),
];

/// The names of nine letters.
static NINE: [Name; 2] = [
    Name::Key(KeyName::PexpireAt),
    Name::Walk(WalkName::RandomKey),
];

/// The names of ten letters.
static TEN: [Name; 1] = [Name::Key(KeyName::ExpireTime)];

/// The names of eleven letters.
static ELEVEN: [Name; 1] = [Name::Key(KeyName::PexpireTime)];

/// Returns the names of this length.
fn names_of_length(length: usize) -> &'static [Name]
    ensures { result.now ≡ names_of_length length }
{
    match length {
        3 => &THREE,
        4 => &FOUR,
        5 => &FIVE,
        6 => &SIX,
        7 => &SEVEN,
        8 => &EIGHT,
        9 => &NINE,
        10 => &TEN,
        11 => &ELEVEN,
        _ => &[],
    }
}
