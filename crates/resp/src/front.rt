//! Fronts of bytes.
ghost use Rattle.std.specs.Prelude.{◌≡◌, ◌≢◌, ◌∷◌, [], ℕ, List, true, IfSome, IfNone};
ghost use Rattle.resp.specs.Grammar.{ends_line};
ghost use Rattle.resp.specs.LineWords.{is_gap as is_a_gap, is_blank as is_a_blank, is_no_blank, is_quote as is_a_quote, ends_plain};
ghost use Rattle.resp.specs.Reading.{CutsBefore};

/// Returns the first byte, and the others.
pub fn first_of(bytes: &[u8]) -> Option<(u8, &[u8])>
    ensures some { IfSome result (λ r. bytes.now ≡ r.0 ∷ r.1.now) }
    ensures none { IfNone result (bytes.now ≡ []) }
{
    let [first, rest @ ..] = bytes else {
        return None;
    };
    Some((*first, rest))
}

/// Returns the bytes after this byte, if they begin with it.
pub fn after(bytes: &[u8], byte: u8) -> Option<&[u8]>
    ensures some { IfSome result (λ rest. bytes.now ≡ byte ∷ rest.now) }
    ensures none { IfNone result ((rest : List ℕ) → bytes.now ≢ byte ∷ rest) }
{
    let [first, rest @ ..] = bytes else {
        return None;
    };
    if *first != byte {
        return None;
    }
    Some(rest)
}

/// Tests whether the byte is a space, a tab or a `\r`.
fn is_gap(byte: u8) -> bool
    ensures { result ≡ is_a_gap byte }
{
    byte == b' ' || byte == b'\t' || byte == b'\r'
}

/// Tests whether the byte is one of these, `\v` or `\f`.
pub fn is_blank(byte: u8) -> bool
    ensures { result ≡ is_a_blank byte }
{
    is_gap(byte) || byte == 11 || byte == 12
}

/// Tests whether the byte is `"` or `'`.
fn is_quote(byte: u8) -> bool
    ensures { result ≡ is_a_quote byte }
{
    byte == b'"' || byte == b'\''
}

/// Returns the quote that the bytes begin with, and the bytes after it.
pub fn quote_at(bytes: &[u8]) -> Option<(u8, &[u8])>
    ensures is { IfSome result (λ r. is_a_quote r.0 ≡ true) }
    ensures some { IfSome result (λ r. bytes.now ≡ r.0 ∷ r.1.now) }
    ensures none { IfNone result ((quote : ℕ) (rest : List ℕ) → is_a_quote quote ≡ true → bytes.now ≢ quote ∷ rest) }
{
    let (first, rest) = first_of(bytes)?;
    if !is_quote(first) {
        return None;
    }
    Some((first, rest))
}

/// Cuts the bytes before the first newline or zero byte.
pub fn before_end(bytes: &[u8]) -> (&[u8], &[u8])
    ensures { CutsBefore ends_line bytes.now result.0.now result.1.now }
{
    let end = bytes.iter().position(|byte| *byte == b'\n' || *byte == 0);
    bytes.split_at(end.unwrap_or(bytes.len()))
}

/// Cuts the bytes before the first that is no blank.
pub fn after_blanks(bytes: &[u8]) -> (&[u8], &[u8])
    ensures { CutsBefore is_no_blank bytes.now result.0.now result.1.now }
{
    let end = bytes.iter().position(|byte| !is_blank(*byte));
    bytes.split_at(end.unwrap_or(bytes.len()))
}

/// Cuts the bytes before what ends plain ones: a space, a tab, a `\r` or a quote.
pub fn plain_word(bytes: &[u8]) -> (&[u8], &[u8])
    ensures { CutsBefore ends_plain bytes.now result.0.now result.1.now }
{
    let end = bytes
        .iter()
        .position(|byte| is_gap(*byte) || is_quote(*byte));
    bytes.split_at(end.unwrap_or(bytes.len()))
}
