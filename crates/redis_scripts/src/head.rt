//! A script's first line.
ghost use Rattle.std.specs.Prelude.{◌≡◌, ◌≢◌, ◌<◌, ◌^◌, ◌∷◌, ◌++◌, [], ℕ, Bool, List, decimal, option_copied, IfSome, IfNone, MatchOption};
ghost use Rattle.bpf_model.specs.declared.input.Sizes.{Sizes as TheSizes};
ghost use Rattle.redis_scripts.specs.declared.head.Head.{Head as TheHead};
ghost use Rattle.redis_scripts.specs.declared.head.Method.{Method as TheMethod};
ghost use Rattle.redis_scripts.specs.declared.head.ReplyKind.{ReplyKind as TheReplyKind};
ghost use Rattle.redis_scripts.specs.Heads.{method_word, reply_word, size_words, now_words, AreSmall, IsHead, merges_with_now};
ghost use Rattle.redis_scripts.specs.Pieces.{pieces_after};

use crate::code::without_end_blanks;
use crate::pieces::cut;
use bpf_model::Sizes;
use itoa::Buffer;
use std::str;

/// The method of the map that runs a script's program.
#[derive(Clone, Copy, Debug, PartialEq, Eq)]
pub enum Method {
    Compute,
    IfAbsent,
    IfPresent,
    Merge,
}

/// How a script's value is replied.
#[derive(Clone, Copy, Debug, PartialEq, Eq)]
pub enum ReplyKind {
    /// As bytes.
    Bytes,
    /// As the signed number that 8 bytes spell, the low one first.
    Integer,
}

/// What a script's first line says.
#[derive(Clone, Copy, Debug, PartialEq, Eq)]
pub struct Head {
    pub method: Method,
    pub reply: ReplyKind,
    pub sizes: Sizes,
    /// Whether the program's argument begins with the time.
    pub with_now: bool,
}

impl Head {
    /// Tests whether it is a merge with the time, which isn't served.
    pub(crate) fn merges_with_now(&self) -> bool
        ensures { result ≡ merges_with_now self.now.method self.now.with_now }
    {
        self.method == Method::Merge && self.with_now
    }
}

/// Returns the method with this name.
fn method_named(word: &[u8]) -> Option<Method>
    ensures some { IfSome result (λ method. word.now ≡ method_word method) }
    ensures none { IfNone result ((method : TheMethod) → word.now ≢ method_word method) }
{
    match word {
        b"compute" => Some(Method::Compute),
        b"if-absent" => Some(Method::IfAbsent),
        b"if-present" => Some(Method::IfPresent),
        b"merge" => Some(Method::Merge),
        _ => None,
    }
}

/// Returns the kind of reply with this name.
fn reply_named(word: &[u8]) -> Option<ReplyKind>
    ensures some { IfSome result (λ reply. word.now ≡ reply_word reply) }
    ensures none { IfNone result ((reply : TheReplyKind) → word.now ≢ reply_word reply) }
{
    match word {
        b"bytes" => Some(ReplyKind::Bytes),
        b"integer" => Some(ReplyKind::Integer),
        _ => None,
    }
}

/// Returns the number of 16 bits whose decimal text this is.
fn number_in(text: &str) -> Option<u16>
    ensures some { IfSome result (λ n. text.now ≡ decimal n) }
    ensures none { IfNone result ((n : ℕ) → n < 2 ^ 16 → text.now ≢ decimal n) }
{
    match text.parse::<u16>() {
        Ok(number) => {
            let mut buffer = Buffer::new();
            let is_decimal = buffer.format(number) == text;
            if is_decimal { Some(number) } else { None }
        }
        Err(_) => None,
    }
}

/// The same for bytes.
fn size_in(word: &[u8]) -> Option<u16>
    ensures some { IfSome result (λ n. word.now ≡ decimal n) }
    ensures none { IfNone result ((n : ℕ) → n < 2 ^ 16 → word.now ≢ decimal n) }
{
    match str::from_utf8(word) {
        Ok(text) => number_in(text),
        Err(_) => None,
    }
}

/// Takes the next word of a line, and returns what is after it.
fn word(rest: Option<&[u8]>) -> Option<(&[u8], Option<&[u8]>)>
    ensures { MatchOption result (pieces_after 32 (option_copied rest.entry) ≡ [])
        (λ taken. pieces_after 32 (option_copied rest.entry) ≡ taken.0.now ∷ pieces_after 32 (option_copied taken.1)) }
{
    Some(cut(rest?, b' '))
}

/// Takes the next word if it is a number of 16 bits, and returns what is after it.
fn size(rest: Option<&[u8]>) -> Option<(u16, Option<&[u8]>)>
    ensures some { IfSome result (λ taken. pieces_after 32 (option_copied rest.entry) ≡ decimal taken.0 ∷ pieces_after 32 (option_copied taken.1)) }
    ensures none { IfNone result ((n : ℕ) (more : List (List ℕ)) → n < 2 ^ 16 → pieces_after 32 (option_copied rest.entry) ≢ decimal n ∷ more) }
{
    let (text, rest) = word(rest)?;
    Some((size_in(text)?, rest))
}

/// Takes the four sizes, and returns what is after them.
fn sizes_in(rest: Option<&[u8]>) -> Option<(Sizes, Option<&[u8]>)>
    ensures some { IfSome result (λ taken. (pieces_after 32 (option_copied rest.entry) ≡ size_words taken.0 ++ pieces_after 32 (option_copied taken.1)) × AreSmall taken.0) }
    ensures none { IfNone result ((sizes : TheSizes) (more : List (List ℕ)) → AreSmall sizes → pieces_after 32 (option_copied rest.entry) ≢ size_words sizes ++ more) }
{
    let (key, rest) = size(rest)?;
    let (old, rest) = size(rest)?;
    let (arg, rest) = size(rest)?;
    let (result, rest) = size(rest)?;
    let sizes = Sizes {
        key,
        old,
        arg,
        result,
    };
    Some((sizes, rest))
}

/// Returns whether the program gets the time, if this is all that is left of a line.
fn with_now_in(rest: Option<&[u8]>) -> Option<bool>
    ensures some { IfSome result (λ with_now. pieces_after 32 (option_copied rest.entry) ≡ now_words with_now) }
    ensures none { IfNone result ((with_now : Bool) → pieces_after 32 (option_copied rest.entry) ≢ now_words with_now) }
{
    let Some(text) = rest else {
        return Some(false);
    };
    let (last, rest) = cut(text, b' ');
    if rest.is_none() && last == b"with-now".as_slice() {
        Some(true)
    } else {
        None
    }
}

/// Returns what the line says, if it is the first line of a script.
pub(crate) fn head_in(line: &[u8]) -> Option<Head>
    ensures some { IfSome result (IsHead line.now) }
    ensures none { IfNone result ((head : TheHead) → IsHead line.now head → ⊥) }
{
    let (mark, rest) = cut(without_end_blanks(line), b' ');
    if mark != b"#!bpf".as_slice() {
        return None;
    }
    let (method, rest) = word(rest)?;
    let method = method_named(method)?;
    let (reply, rest) = word(rest)?;
    let reply = reply_named(reply)?;
    let (sizes, rest) = sizes_in(rest)?;
    let with_now = with_now_in(rest)?;
    Some(Head {
        method,
        reply,
        sizes,
        with_now,
    })
}
