//! The texts of faults that show words.
ghost use Rattle.std.specs.Prelude.{◌≡◌, ◌+◌, ◌≤◌, ◌++◌, length};
ghost use Rattle.redis_commands.specs.Commands.{texts};
ghost use Rattle.redis_commands.specs.Commands.Fault.{UnknownCommand, UnknownSub, WrongCount, WrongSubCount, WrongSub, BadExpire, ExpireOption, HelloOption, ClientType, NoUser};
ghost use Rattle.redis_commands.specs.Texts.{until_0, is_line_end, trimmed, blanked, shown, shown_args, fault_text};

use crate::name::{Name, Parent, Sub};
use arrayvec::ArrayVec;
use std::marker::Model;

/// A text has at most this many bytes.
const TEXT_BYTES: usize = 320;

/// At most this many bytes of a name are shown, and about as many of all arguments.
const SHOWN_BYTES: usize = 128;

/// The text of an error reply. In a contract it is a list of bytes.
#[derive(Drop)]
pub struct FaultText {
    bytes: ArrayVec<u8, TEXT_BYTES>,
}

impl Model for FaultText {
    ghost use Rattle.std.specs.Prelude.{List, ℕ};

    ghost Value = { List ℕ };

    ghost view = { λ t. t.bytes.items };

    ghost inverse = { λ xs. record { bytes = record { items = xs } } };
}

impl FaultText {
    /// The bytes.
    pub fn as_slice(&self) -> &[u8]
        ensures { result.now ≡ self.now }
    {
        let FaultText { bytes } = self;
        bytes.as_slice()
    }

    /// Adds bytes.
    fn add(&mut self, bytes: &[u8])
        requires { length self.old + length bytes.now ≤ 320 }
        ensures { self.new ≡ self.old ++ bytes.now }
    {
        let _ = self.bytes.try_extend_from_slice(bytes);
    }

    /// Adds a text.
    fn add_text(&mut self, text: &str)
        requires { length self.old + length text.now ≤ 320 }
        ensures { self.new ≡ self.old ++ text.now }
    {
        self.add(text.as_bytes());
    }

    /// Adds what is shown of a word, at most `most` bytes.
    #[tactic(auto, using(crate::proofs::TextLemmas::shown_step, crate::proofs::TextLemmas::shown_none, crate::proofs::TextLemmas::shown_0, crate::proofs::TextLemmas::shown_end))]
    fn add_shown(&mut self, most: usize, word: &[u8])
        requires { length self.old + most ≤ 320 }
        ensures added { self.new ≡ self.old ++ shown most word.now }
        ensures short { length self.new ≤ length self.old + most }
    {
        let mut left = most;
        for b in word {
            if left == 0 || *b == 0 {
                return;
            }
            self.bytes.push(blanked(*b));
            left -= 1;
        }
    }

    /// Makes a text of this one.
    pub(crate) fn of(text: &str) -> FaultText
        requires { length text.now ≤ 320 }
        ensures { result ≡ text.now }
    {
        let mut made = FaultText {
            bytes: ArrayVec::new(),
        };
        made.add_text(text);
        made
    }

    /// Adds what is shown of the arguments.
    fn add_args(&mut self, args: &[&[u8]])
        requires { length self.old ≤ 178 }
        ensures { self.new ≡ self.old ++ shown_args 0 (texts args.now) }
    {
        let start = self.as_slice().len();
        for arg in args {
            let so_far = self.as_slice().len() - start;
            if so_far >= SHOWN_BYTES {
                return;
            }
            self.add_text("'");
            self.add_shown(SHOWN_BYTES - so_far, arg);
            self.add_text("' ");
        }
    }

    /// Makes the text of `UnknownCommand`.
    pub(crate) fn unknown_command(name: &[u8], args: &[&[u8]]) -> FaultText
        ensures { result ≡ fault_text (UnknownCommand name.now (texts args.now)) }
    {
        let mut text = FaultText::of("ERR unknown command '");
        text.add_shown(SHOWN_BYTES, name);
        text.add_text("', with args beginning with: ");
        text.add_args(args);
        text
    }

    /// Makes the text of `UnknownSub`.
    pub(crate) fn unknown_sub(parent: Parent, word: &[u8]) -> FaultText
        ensures { result ≡ fault_text (UnknownSub parent word.now) }
    {
        let mut text = FaultText::of("ERR unknown subcommand '");
        text.add_shown(SHOWN_BYTES, word);
        text.add_text("'. Try ");
        text.add_text(parent.capitals());
        text.add_text(" HELP.");
        text
    }

    /// Makes the text of `WrongSub`.
    pub(crate) fn wrong_sub(parent: Parent, word: &[u8]) -> FaultText
        ensures { result ≡ fault_text (WrongSub parent word.now) }
    {
        let mut text = FaultText::of("ERR unknown subcommand or wrong number of arguments for '");
        text.add_shown(SHOWN_BYTES, word);
        text.add_text("'. Try ");
        text.add_text(parent.capitals());
        text.add_text(" HELP.");
        text
    }

    /// Makes the text of `ClientType`.
    pub(crate) fn client_type(word: &[u8]) -> FaultText
        ensures { result ≡ fault_text (ClientType word.now) }
    {
        let mut text = FaultText::of("ERR Unknown client type '");
        text.add_shown(SHOWN_BYTES, word);
        text.add_text("'");
        text
    }

    /// Makes the text of `NoUser`.
    pub(crate) fn no_user(user: &[u8]) -> FaultText
        ensures { result ≡ fault_text (NoUser user.now) }
    {
        let mut text = FaultText::of("ERR No such user '");
        text.add_shown(SHOWN_BYTES, user);
        text.add_text("'");
        text
    }

    /// Makes the text of `WrongCount`.
    pub(crate) fn wrong_count(name: Name) -> FaultText
        ensures { result ≡ fault_text (WrongCount name) }
    {
        let mut text = FaultText::of("ERR wrong number of arguments for '");
        text.add_text(name.text());
        text.add_text("' command");
        text
    }

    /// Makes the text of `WrongSubCount`.
    pub(crate) fn wrong_sub_count(sub: Sub) -> FaultText
        ensures { result ≡ fault_text (WrongSubCount sub) }
    {
        let mut text = FaultText::of("ERR wrong number of arguments for '");
        text.add_text(sub.parent().text());
        text.add_text("|");
        text.add_text(sub.word());
        text.add_text("' command");
        text
    }

    /// Makes the text of `BadExpire`.
    pub(crate) fn bad_expire(name: Name) -> FaultText
        ensures { result ≡ fault_text (BadExpire name) }
    {
        let mut text = FaultText::of("ERR invalid expire time in '");
        text.add_text(name.text());
        text.add_text("' command");
        text
    }

    /// Makes the text of `ExpireOption`.
    pub(crate) fn expire_option(option: &[u8]) -> FaultText
        ensures { result ≡ fault_text (ExpireOption option.now) }
    {
        let mut text = FaultText::of("ERR Unsupported option ");
        text.add_shown(SHOWN_BYTES, trimmed(until_0(option)));
        text
    }

    /// Makes the text of `HelloOption`.
    pub(crate) fn hello_option(option: &[u8]) -> FaultText
        ensures { result ≡ fault_text (HelloOption option.now) }
    {
        let mut text = FaultText::of("ERR Syntax error in HELLO option '");
        text.add_shown(SHOWN_BYTES, option);
        text.add_text("'");
        text
    }
}

/// Returns the bytes before the first 0.
fn until_0(word: &[u8]) -> &[u8]
    ensures { result.now ≡ until_0 word.now }
{
    for i in 0..word.len() {
        if word[i] == 0 {
            return &word[..i];
        }
    }
    word
}

/// Whether the byte ends a line.
fn is_line_end(b: u8) -> bool
    ensures { result ≡ is_line_end b }
{
    b == b'\n' || b == b'\r'
}

/// Returns the text without the ends of lines at its end.
fn trimmed(text: &[u8]) -> &[u8]
    ensures { result.now ≡ trimmed text.now }
{
    let mut left = text;
    while let [before @ .., last] = left {
        if !is_line_end(*last) {
            return left;
        }
        left = before;
    }
    left
}

/// Returns a blank for the end of a line, and else the byte.
fn blanked(b: u8) -> u8
    ensures { result ≡ blanked b }
{
    match b {
        b'\n' | b'\r' => b' ',
        _ => b,
    }
}
