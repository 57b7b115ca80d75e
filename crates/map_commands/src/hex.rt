//! Hex text: pairs of hexadecimal digits of either case, with blank space before, between and after them.
ghost use Rattle.std.specs.Prelude.{◌≡◌, ◌↔◌, ◌<◌, ◌+◌, ◌*◌, ◌++◌, List, ℕ, IsTrue, IsSome, IfSome, IfNone, IfOk, IfErr, MatchResult, unwrap_or, option_to_list};
ghost use Rattle.map_commands.specs.Hex.{Piece, IsPiece, IsBlank, digit_of, piece_text, piece_bytes, HasNoPiece, SpellsBytes};
ghost use Rattle.map_commands.specs.HexFaults.{TellsFault};

use std::alloc::{AllocFailed, Global};

/// Why there are no bytes of a text.
#[derive(Clone, Copy, Debug, PartialEq, Eq)]
pub enum HexFault {
    /// At this byte, counted from 0, neither blank space nor a pair begins.
    NotHex { place: usize },
    /// A request for memory was refused.
    NoMemory,
}

impl<T: Drop> From<AllocFailed<T>> for HexFault {
    ghost use Rattle.std.specs.Prelude.{◌≡◌};
    ghost use Rattle.map_commands.specs.declared.hex.HexFault.TheVariants.{NoMemory};

    ghost from_gives = { λ _ e. e ≡ NoMemory };

    fn from(_: AllocFailed<T>) -> HexFault {
        HexFault::NoMemory
    }
}

/// Tells whether it is a blank, a tab, a carriage return or a newline.
fn is_blank(c: u8) -> bool
    ensures { IsTrue result ↔ IsBlank c }
{
    matches!(c, b' ' | b'\t' | b'\r' | b'\n')
}

/// Returns the value of a hexadecimal digit of either case.
fn digit_value(c: u8) -> Option<u8>
    ensures value { result ≡ digit_of c }
    ensures small { IfSome result (λ d. d < 16) }
{
    match c {
        b'0'..=b'9' => Some(c - b'0'),
        b'A'..=b'F' => Some(c - b'A' + 10),
        b'a'..=b'f' => Some(c - b'a' + 10),
        _ => None,
    }
}

/// Returns the byte that two digits spell.
fn pair_value(high: u8, low: u8) -> Option<u8>
    ensures digits { IsSome result ↔ (IsSome (digit_of high) × IsSome (digit_of low)) }
    ensures value { IfSome result (λ b.
        b ≡ 16 * unwrap_or (digit_of high) 0 + unwrap_or (digit_of low) 0) }
{
    Some(16 * digit_value(high)? + digit_value(low)?)
}

/// What begins the text, a pair's byte or a blank, and the text after it.
fn first_piece(text: &[u8]) -> Option<(Option<u8>, &[u8])>
    ensures some { IfSome result (λ r. (piece : Piece) × IsPiece piece
        × (text.now ≡ piece_text piece ++ r.1.now) × (option_to_list r.0 ≡ piece_bytes piece)) }
    ensures none { IfNone result (HasNoPiece text.now) }
{
    match text {
        [c, rest @ ..] if is_blank(*c) => Some((None, rest)),
        [high, low, rest @ ..] => Some((Some(pair_value(*high, *low)?), rest)),
        _ => None,
    }
}

/// The bytes that hex text spells.
pub fn hex_bytes(alloc: Global, text: &[u8]) -> Result<Vec<u8>, HexFault>
    // What is read is spelled so.
    ensures found { IfOk result (λ v. SpellsBytes text.now v.items) }
    // What is spelled so is read, unless memory runs out.
    ensures only { (bytes : List ℕ) → SpellsBytes text.now bytes
        → MatchResult result (λ v. v.items ≡ bytes) (λ e. e ≡ HexFault.NoMemory) }
    // At which byte the fault is.
    ensures fault { IfErr result (λ e. TellsFault e text.now) }
{
    let mut bytes = Vec::new(alloc);
    let mut rest = text;
    while let Some((byte, after)) = first_piece(rest) {
        if let Some(byte) = byte {
            bytes.push(byte)?;
        }
        rest = after;
    }
    if !rest.is_empty() {
        let place = text.len() - rest.len();
        return Err(HexFault::NotHex { place });
    }
    Ok(bytes)
}
