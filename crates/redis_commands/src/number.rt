//! Numbers as Redis reads them.
ghost use Rattle.std.specs.Prelude.{◌≡◌};
ghost use Rattle.std.specs.Fmt.{signed_decimal};
ghost use Rattle.redis_commands.specs.Numbers.{integer_of, natural_of};

use itoa::Buffer;

/// Returns the number, whose decimal text this is.
#[tactic(auto, using(crate::proofs::NumberLemmas::integer_some))]
fn found(text: &[u8], n: i64) -> Option<i64>
    requires { text.now ≡ signed_decimal n }
    ensures { result ≡ integer_of text.now }
{
    Some(n)
}

/// Returns the signed number of 64 bits whose decimal text this is, or `None`. No plus and no needless zero is read.
#[tactic(auto, using(crate::proofs::NumberLemmas::integer_none))]
pub(crate) fn integer(text: &[u8]) -> Option<i64>
    ensures { result ≡ integer_of text.now }
{
    match resp::integer(text) {
        Some(n) => found(text, n),
        None => None,
    }
}

/// Returns the unsigned number of 64 bits whose decimal text this is, or `None`.
#[tactic(auto, using(crate::proofs::NumberLemmas::natural_unread, crate::proofs::NumberLemmas::natural_no_text))]
pub(crate) fn natural(text: &[u8]) -> Option<u64>
    ensures { result ≡ natural_of text.now }
{
    let Ok(digits) = str::from_utf8(text) else {
        return None;
    };
    let Ok(n) = digits.parse::<u64>() else {
        return None;
    };
    let mut buffer = Buffer::new();
    if buffer.format(n).as_bytes() == text {
        Some(n)
    } else {
        None
    }
}
