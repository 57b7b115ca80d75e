//! Commands by numbers, for those who count and note them.
use crate::name::{
    ConnectionName, KeyName, KeysName, Name, Parent, ProgramName, ServerName, Sub, WalkName,
};

/// There are this many kinds of commands. They are numbered from 0 on.
pub const COMMAND_KINDS: usize = 76;

/// The first number of a kind whose name is the second word too.
const FIRST_SUB: usize = 60;

/// All commands, in the order of their numbers.
static NAMES: [Name; 60] = [
    Name::Key(KeyName::Get),
    Name::Key(KeyName::Set),
    Name::Key(KeyName::SetNx),
    Name::Key(KeyName::GetSet),
    Name::Key(KeyName::GetDel),
    Name::Key(KeyName::SetEx),
    Name::Key(KeyName::PsetEx),
    Name::Key(KeyName::GetEx),
    Name::Key(KeyName::Expire),
    Name::Key(KeyName::Pexpire),
    Name::Key(KeyName::ExpireAt),
    Name::Key(KeyName::PexpireAt),
    Name::Key(KeyName::Persist),
    Name::Key(KeyName::Ttl),
    Name::Key(KeyName::Pttl),
    Name::Key(KeyName::ExpireTime),
    Name::Key(KeyName::PexpireTime),
    Name::Key(KeyName::StrLen),
    Name::Key(KeyName::Type),
    Name::Key(KeyName::Incr),
    Name::Key(KeyName::Decr),
    Name::Key(KeyName::IncrBy),
    Name::Key(KeyName::DecrBy),
    Name::Key(KeyName::Append),
    Name::Key(KeyName::GetRange),
    Name::Key(KeyName::Substr),
    Name::Key(KeyName::SetRange),
    Name::Key(KeyName::DelIfEq),
    Name::Keys(KeysName::Mget),
    Name::Keys(KeysName::Mset),
    Name::Keys(KeysName::Del),
    Name::Keys(KeysName::Unlink),
    Name::Keys(KeysName::Exists),
    Name::Keys(KeysName::Touch),
    Name::Walk(WalkName::DbSize),
    Name::Walk(WalkName::Scan),
    Name::Walk(WalkName::Keys),
    Name::Walk(WalkName::RandomKey),
    Name::Walk(WalkName::FlushAll),
    Name::Walk(WalkName::FlushDb),
    Name::Connection(ConnectionName::Ping),
    Name::Connection(ConnectionName::Echo),
    Name::Connection(ConnectionName::Quit),
    Name::Connection(ConnectionName::Select),
    Name::Connection(ConnectionName::Hello),
    Name::Connection(ConnectionName::Auth),
    Name::Connection(ConnectionName::Reset),
    Name::Server(ServerName::Info),
    Name::Server(ServerName::Save),
    Name::Server(ServerName::BgSave),
    Name::Server(ServerName::LastSave),
    Name::Server(ServerName::Shutdown),
    Name::Server(ServerName::Debug),
    Name::Program(ProgramName::Eval),
    Name::Program(ProgramName::EvalSha),
    Name::Parent(Parent::Client),
    Name::Parent(Parent::Command),
    Name::Parent(Parent::Config),
    Name::Parent(Parent::Script),
    Name::Parent(Parent::Slowlog),
];

/// All second words, in the order of their numbers.
static SUBS: [Sub; 16] = [
    Sub::ClientId,
    Sub::ClientGetName,
    Sub::ClientSetName,
    Sub::ClientSetInfo,
    Sub::ClientList,
    Sub::ClientInfo,
    Sub::ClientKill,
    Sub::CommandCount,
    Sub::CommandDocs,
    Sub::ConfigGet,
    Sub::ScriptLoad,
    Sub::ScriptExists,
    Sub::SlowlogGet,
    Sub::SlowlogLen,
    Sub::SlowlogReset,
    Sub::SlowlogHelp,
];

/// Returns the number of a command.
fn number_of(name: Name) -> usize {
    match name {
        Name::Key(name) => name as usize,
        Name::Keys(name) => 28 + name as usize,
        Name::Walk(name) => 34 + name as usize,
        Name::Connection(name) => 40 + name as usize,
        Name::Server(name) => 47 + name as usize,
        Name::Program(name) => 53 + name as usize,
        Name::Parent(name) => 55 + name as usize,
    }
}

/// Returns the kind of the command of this name, with these words.
#[inline]
pub fn kind_of(name: Name, words: &[&[u8]]) -> usize {
    if let (Name::Parent(parent), [_, second, ..]) = (name, words) {
        if let Some(sub) = parent.sub_named(second) {
            return FIRST_SUB + sub as usize;
        }
    }
    number_of(name)
}

/// Returns the command that the words name, or `None`.
pub fn name_of(words: &[&[u8]]) -> Option<Name> {
    let [first, ..] = words else {
        return None;
    };
    Name::named(first)
}

/// Returns the name of this kind, in small letters: a word, and a second one if there is one. `None` if there is no such kind.
pub fn kind_name(kind: usize) -> Option<(&'static str, Option<&'static str>)> {
    if let Some(name) = NAMES.get(kind) {
        return Some((name.text(), None));
    }
    let sub = SUBS.get(kind - FIRST_SUB)?;
    Some((sub.parent().text(), Some(sub.word())))
}
