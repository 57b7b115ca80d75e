//! Patterns of keys, as Redis reads them.
ghost use Rattle.std.specs.Prelude.{◌≡◌, ◌+◌, ◌≤◌, true, false, length, drop};
ghost use Rattle.redis_commands.specs.Matching.{is_between, more_of_member, is_first, is_member, class_length, class_at, class_bytes, piece_at, more_bytes, fits, matches, stand_for, pieces_after};
ghost use Rattle.redis_commands.specs.Places.{piece_by, is_carried, shifted, spread, some_place, GoesOnBy};

use bpf_model::limits::KEY_BYTES;

/// A piece of a pattern. A class has the bytes from its first member to the end of the pattern.
#[derive(Clone, Copy)]
enum Piece<'a> {
    AnyBytes,
    AnyByte,
    OneOf(&'a [u8]),
    NoneOf(&'a [u8]),
    This(u8),
}

/// Whether a byte is between two others, whichever is less.
fn is_between(a: u8, z: u8, b: u8) -> bool
    ensures { result ≡ is_between a z b }
{
    a.min(z) <= b && b <= a.max(z)
}

/// Returns how many of the bytes after the first one belong to the first member of a class.
fn more_of_member(first: u8, rest: &[u8]) -> usize
    ensures value { result ≡ more_of_member first rest.now }
    ensures within { result ≤ length rest.now }
{
    match rest {
        [] => 0,
        [_] => { if first == b'\\' { 1 } else { 0 } }
        [second, _, ..] => {
            if first == b'\\' {
                1
            } else if *second == b'-' {
                2
            } else {
                0
            }
        }
    }
}

/// Whether the byte is in the first member of a class.
fn is_first(first: u8, rest: &[u8], b: u8) -> bool
    ensures { result ≡ is_first first rest.now b }
{
    match rest {
        [] => first == b,
        [second] => {
            if first == b'\\' {
                *second == b
            } else {
                first == b
            }
        }
        [second, third, ..] => {
            if first == b'\\' {
                *second == b
            } else if *second == b'-' {
                is_between(first, *third, b)
            } else {
                first == b
            }
        }
    }
}

/// Whether the byte is in a class.
fn is_member(class: &[u8], b: u8) -> bool
    ensures { result ≡ is_member class.now b }
{
    let mut left = class;
    while let [first, rest @ ..] = left {
        if *first == b']' {
            return false;
        }
        if is_first(*first, rest, b) {
            return true;
        }
        left = &rest[more_of_member(*first, rest)..];
    }
    false
}

/// Returns how many bytes the members of a class and its end take.
fn class_length(class: &[u8]) -> usize
    ensures value { result ≡ class_length class.now }
    ensures within { result ≤ length class.now }
{
    let mut left = class;
    while let [first, rest @ ..] = left {
        if *first == b']' {
            return class.len() - rest.len();
        }
        left = &rest[more_of_member(*first, rest)..];
    }
    class.len()
}

impl Piece<'_> {
    /// Whether the byte stands for the piece.
    fn fits(&self, b: u8) -> bool
        ensures { result ≡ fits (piece_by self.now) b }
    {
        match self {
            Piece::AnyBytes | Piece::AnyByte => true,
            Piece::OneOf(class) => is_member(class, b),
            Piece::NoneOf(class) => !is_member(class, b),
            Piece::This(byte) => *byte == b,
        }
    }
}

impl Piece<'_> {
    /// Whether the first byte of the text goes on from a place, which is reached or not.
    fn carries(&self, place: bool, text: &[u8]) -> bool
        ensures { result ≡ is_carried place (piece_by self.now) text.now }
    {
        match text {
            [] => false,
            [b, ..] => place && self.fits(*b),
        }
    }
}

/// Returns the class that begins the bytes after a `[`.
fn class_at(rest: &[u8]) -> Piece<'_>
    ensures { piece_by result ≡ class_at rest.now }
{
    match rest {
        [] => Piece::OneOf(rest),
        [first, members @ ..] => {
            if *first == b'^' {
                Piece::NoneOf(members)
            } else {
                Piece::OneOf(rest)
            }
        }
    }
}

/// Returns how many bytes after its `[` belong to a class.
fn class_bytes(rest: &[u8]) -> usize
    ensures value { result ≡ class_bytes rest.now }
    ensures within { result ≤ length rest.now }
{
    match rest {
        [] => 0,
        [first, members @ ..] => {
            if *first == b'^' {
                1 + class_length(members)
            } else {
                class_length(rest)
            }
        }
    }
}

/// Returns the first piece of a pattern.
fn piece_at(first: u8, rest: &[u8]) -> Piece<'_>
    ensures { piece_by result ≡ piece_at first rest.now }
{
    match first {
        b'*' => Piece::AnyBytes,
        b'?' => Piece::AnyByte,
        b'[' => class_at(rest),
        b'\\' => match rest {
            [] => Piece::This(b'\\'),
            [byte, ..] => Piece::This(*byte),
        },
        _ => Piece::This(first),
    }
}

/// Returns how many bytes after its first one belong to the first piece of a pattern.
fn more_bytes(first: u8, rest: &[u8]) -> usize
    ensures value { result ≡ more_bytes first rest.now }
    ensures within { result ≤ length rest.now }
{
    match first {
        b'[' => class_bytes(rest),
        b'\\' => rest.len().min(1),
        _ => 0,
    }
}

/// Returns the text without its first byte, if it has one.
fn tail(text: &[u8]) -> &[u8]
    ensures { result.now ≡ drop 1 text.now }
{
    match text {
        [] => text,
        [_, rest @ ..] => rest,
    }
}

/// Goes on from each reached place by a byte that stands for the piece.
fn shift(places: &mut [bool], piece: &Piece<'_>, text: &[u8])
    requires { length places.old ≡ length text.now + 1 }
    ensures value { places.new ≡ shifted false (piece_by piece.now) places.old text.now }
    ensures same { length places.new ≡ length places.old }
{
    let mut carried = false;
    let mut left = text;
    for i in 0..places.len() {
        let was = places[i];
        places[i] = carried;
        carried = piece.carries(was, left);
        left = tail(left);
    }
}

/// Goes on from each reached place by any bytes.
fn spread(places: &mut [bool])
    ensures value { places.new ≡ spread false places.old }
    ensures same { length places.new ≡ length places.old }
{
    let mut reached = false;
    for i in 0..places.len() {
        reached |= places[i];
        places[i] = reached;
    }
}

/// Goes on by a piece.
fn go_on(places: &mut [bool], piece: &Piece<'_>, text: &[u8])
    requires { length places.old ≡ length text.now + 1 }
    ensures on { GoesOnBy (piece_by piece.now) places.old places.new text.now }
    ensures same { length places.new ≡ length places.old }
{
    match piece {
        Piece::AnyBytes => spread(places),
        _ => shift(places, piece, text),
    }
}

/// Goes through the text with the pattern, and returns whether the end is reached.
fn stands_for(places: &mut [bool], pattern: &[u8], text: &[u8]) -> bool
    requires { length places.old ≡ length text.now + 1 }
    ensures { result ≡ some_place (stand_for (pieces_after 0 pattern.now)) places.old text.now }
{
    let mut left = pattern;
    while let [first, rest @ ..] = left {
        go_on(places, &piece_at(*first, rest), text);
        left = &rest[more_bytes(*first, rest)..];
    }
    places[text.len()]
}

/// Whether the text matches the pattern. The text has at most `KEY_BYTES` bytes, as a key has. It takes time in proportion
/// to the product of both lengths, and no memory. The empty text matches the empty pattern and `*`, and not `**`.
pub fn matches(pattern: &[u8], text: &[u8]) -> bool
    requires { length text.now ≤ KEY_BYTES }
    ensures { result ≡ matches pattern.now text.now }
{
    if text.is_empty() {
        return pattern.is_empty() || pattern == b"*".as_slice();
    }
    let mut places = [false; KEY_BYTES + 1];
    places[0] = true;
    stands_for(&mut places[..=text.len()], pattern, text)
}
