//! Text in pieces, between separators.
ghost use Rattle.std.specs.Prelude.{◌≡◌, ◌∷◌, option_copied};
ghost use Rattle.redis_scripts.specs.Pieces.{pieces, pieces_after};

use memchr::memchr;

/// Cuts the text at its first separator. Returns what is before it and, if there is one, what is after it.
pub(crate) fn cut(text: &[u8], separator: u8) -> (&[u8], Option<&[u8]>)
    ensures { pieces separator text.now ≡ result.0.now ∷ pieces_after separator (option_copied result.1) }
{
    match memchr(separator, text) {
        Some(place) => (&text[..place], Some(&text[place + 1..])),
        None => (text, None),
    }
}
