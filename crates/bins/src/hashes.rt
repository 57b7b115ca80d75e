//! Hashes of keys: the one that chooses the stripe, and the one by which an index spreads keys, which nobody can tell without its
//! seed. And the first bytes of a key as a number: most keys are compared by it.
ghost use Rattle.std.specs.Prelude.{◌≡◌, [], ◌∷◌, fold, ◌<◌, ◌≤◌, length, slice_index_or, ◌^◌, ◌*◌, min};
ghost use Rattle.bins.specs.Hashes.{hash as hash_is, hash_more};
ghost use Rattle.bins.specs.Fronts.{front, AreBytes};
ghost use Rattle.std.specs.Hash.FoldHasher.{folded_multiply};
ghost use Rattle.bins.specs.Mixed.{mixed, word_at};

use bpf_model::Key;
use std::cell::Cell;
use std::marker::Model;

/// Adds four bytes to a hash: multiplies it once, by 31 to the fourth.
#[inline(always)]
fn with_four(hash: u32, a: u8, b: u8, c: u8, d: u8) -> u32
    ensures { result ≡ fold hash_more hash (a ∷ b ∷ c ∷ d ∷ []) }
{
    let added = u32::from(a) * 29_791 + u32::from(b) * 961 + u32::from(c) * 31 + u32::from(d);
    hash.wrapping_mul(923_521).wrapping_add(added)
}

/// Returns the hash of the first eight bytes, if they are there, and the bytes that are left: no loop is needed for them.
#[inline(always)]
fn hash_first(bytes: &[u8]) -> (u32, &[u8])
    ensures { fold hash_more result.0 result.1.now ≡ fold hash_more 1 bytes.now }
{
    if let [a, b, c, d, e, f, g, h, after @ ..] = bytes {
        let hash = with_four(1, *a, *b, *c, *d);
        return (with_four(hash, *e, *f, *g, *h), after);
    }
    (1, bytes)
}

/// Returns the hash of all bytes but the last three at most, and these last ones.
#[inline(always)]
fn hash_fours(bytes: &[u8]) -> (u32, &[u8])
    ensures { fold hash_more result.0 result.1.now ≡ fold hash_more 1 bytes.now }
{
    let (mut hash, mut rest) = hash_first(bytes);
    while let [a, b, c, d, after @ ..] = rest {
        hash = with_four(hash, *a, *b, *c, *d);
        rest = after;
    }
    (hash, rest)
}

/// Returns the hash of a key: it starts at 1, and each byte in turn makes it 31 times the hash plus the byte, modulo 2^32.
/// Takes no memory.
pub fn hash_of(key: &Key) -> u32
    ensures value { result ≡ hash_is key.now }
{
    let (mut hash, rest) = hash_fours(key.as_slice());
    for byte in rest {
        hash = hash.wrapping_mul(31).wrapping_add(u32::from(*byte));
    }
    hash
}

/// A key with its hash, so the caller computes the hash once. It also has the position where the key was found last, so you
/// can change what you found without a second search.
#[derive(Drop)]
pub struct HashedKey<'a> {
    key: &'a Key,
    hash: u32,
    // A guess: by now the key may stand elsewhere, or in other bins.
    guess: Cell<usize>,
}

impl<'a> Model for HashedKey<'a> {
    ghost use Rattle.std.specs.Prelude.{◌≡◌, List, ℕ};
    ghost use Rattle.bins.specs.Hashes.{hash as hash_is};

    ghost Value = { List ℕ };

    ghost view = { λ hashed. hashed.key.now };

    ghost invariant = { λ hashed. hashed.hash ≡ hash_is hashed.key.now };
}

impl<'a> HashedKey<'a> {
    /// Computes the hash of a key and keeps it with the key. Takes no memory.
    pub fn new(key: &'a Key) -> HashedKey<'a>
        ensures key { result ≡ key.now }
    {
        HashedKey {
            key,
            hash: hash_of(key),
            guess: Cell::new(0),
        }
    }

    /// Returns the key.
    #[inline(always)]
    pub fn key(&self) -> &'a Key
        ensures value { result.now ≡ self.now }
    {
        self.key
    }

    /// Returns the hash.
    #[inline(always)]
    pub fn hash(&self) -> u32
        ensures value { result ≡ hash_is self.now }
    {
        self.hash
    }

    /// Returns a guess at the key's position. Nothing is known of it.
    #[inline(always)]
    pub(crate) fn guess(&self) -> usize {
        self.guess.get()
    }

    /// Remembers the position of the key.
    #[inline(always)]
    pub(crate) fn remember(&self, position: usize) {
        self.guess.set(position);
    }
}

/// Returns the byte at a position; zero after the last one.
#[inline(always)]
fn byte_at(bytes: &[u8], position: usize) -> u64
    ensures value { result ≡ slice_index_or bytes.now position 0 }
    ensures small { result < 256 }
{
    if position < bytes.len() {
        return bytes[position] as u64;
    }
    0
}

/// Returns eight bytes as a number; the first one weighs most.
#[inline(never)]
fn number_of(bytes: &[u8]) -> u64
    ensures value { result ≡ front 8 bytes.now }
{
    let mut number = byte_at(bytes, 0);
    number = number * 256 + byte_at(bytes, 1);
    number = number * 256 + byte_at(bytes, 2);
    number = number * 256 + byte_at(bytes, 3);
    number = number * 256 + byte_at(bytes, 4);
    number = number * 256 + byte_at(bytes, 5);
    number = number * 256 + byte_at(bytes, 6);
    number * 256 + byte_at(bytes, 7)
}

/// Does the same if all of them are there: they are read as one word.
#[inline(always)]
fn front_word(bytes: &[u8]) -> u64
    requires { 8 ≤ length bytes.now }
    ensures value { result ≡ front 8 bytes.now }
{
    u64::from_be_bytes([
        bytes[0], bytes[1], bytes[2], bytes[3], bytes[4], bytes[5], bytes[6], bytes[7],
    ])
}

/// Returns the first eight bytes as a number, with zeros for those that are missing. If one string's number is less than
/// another's, it comes first. Takes no memory.
#[inline(always)]
pub fn front_of(bytes: &[u8]) -> u64
    ensures value { result ≡ front 8 bytes.now }
    ensures bytes { AreBytes bytes.now }
{
    if bytes.len() >= 8 {
        return front_word(bytes);
    }
    number_of(bytes)
}

/// Hashes by the fixed seed begin with this: digits of pi.
const FIXED_START: u64 = 0x243F_6A88_85A3_08D3;
/// The fixed seed multiplies by this: 2^64 divided by the golden ratio.
const FIXED_FACTOR: u64 = 0x9E37_79B9_7F4A_7C15;

/// The number that a hash begins with, and the number that each word is multiplied by.
#[derive(Clone, Copy)]
pub struct Seed {
    start: u64,
    factor: u64,
}

/// Joins the two halves of a product's 128 bits by xor.
#[inline(always)]
fn folded(one: u64, other: u64) -> u64
    ensures { result ≡ folded_multiply one other }
{
    let product = one as u128 * other as u128;
    (product & 0xFFFF_FFFF_FFFF_FFFF) as u64 ^ (product >> 64) as u64
}

/// Returns the word at this number: eight bytes as a number, and the last eight for the last word.
#[inline(always)]
fn word(key: &[u8], number: usize) -> u64
    requires { 8 * number < length key.now }
    ensures { result ≡ word_at key.now number }
{
    let at = (8 * number).min(key.len().saturating_sub(8));
    front_of(&key[at..])
}

impl Seed {
    /// Makes a seed of two numbers. An even factor would lose bits, so the next odd one stands for it.
    pub fn new(start: u64, factor: u64) -> Seed {
        Seed {
            start,
            factor: factor | 1,
        }
    }

    /// Returns a seed that is always the same, for tables whose keys nobody chooses to slow them down.
    pub fn fixed() -> Seed {
        Seed::new(FIXED_START, FIXED_FACTOR)
    }

    /// Returns another seed, which follows from this one.
    pub(crate) fn next(&self) -> Seed {
        let start = folded(self.start ^ FIXED_START, FIXED_FACTOR);
        let factor = folded(self.factor ^ start, FIXED_FACTOR);
        Seed::new(start, factor)
    }
}

/// Returns the hash of eight bytes, as a number has: they are one word.
#[inline(always)]
fn hash_of_eight(seed: &Seed, key: &[u8]) -> u64
    requires { length key.now ≡ 8 }
    ensures { result ≡ mixed seed.now key.now }
{
    folded(seed.start ^ 8 ^ front_of(key), seed.factor)
}

/// Returns the hash of these bytes. Takes no memory.
#[inline(always)]
pub(crate) fn mixed_hash(seed: &Seed, key: &[u8]) -> u64
    ensures { result ≡ mixed seed.now key.now }
{
    if key.len() == 8 {
        return hash_of_eight(seed, key);
    }
    let mut hash = seed.start ^ key.len() as u64;
    for number in 0..key.len().div_ceil(8) {
        hash = folded(hash ^ word(key, number), seed.factor);
    }
    hash
}
