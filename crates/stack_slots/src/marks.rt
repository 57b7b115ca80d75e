//! Marks in words of 64 bits, the lowest bit first.
ghost use Rattle.std.specs.Prelude.{◌≡◌, ◌≤◌, ◌<◌, ◌+◌, ◌*◌, ◌^◌, ◌↔◌, ◌&&◌, ◌||◌, ℕ, true, false, IsTrue, length, nat_eq, nat_le, nat_lt};
ghost use Rattle.std.specs.Int.{bit_at};
ghost use Rattle.stack_slots.specs.Marks.{is_marked};

/// A word of marks has this many bits.
pub(crate) const WORD_BITS: usize = 64;

/// a word with its n lowest bits set
fn lowest(n: usize) -> u64
    ensures bits { (k : ℕ) → k < 64 → nat_eq (bit_at result k) 1 ≡ nat_lt k n }
{
    if n < WORD_BITS {
        (1 << n) - 1
    } else {
        u64::MAX
    }
}

/// the bits of this word that mark places from `first` to below `end`
fn between(index: usize, first: usize, end: usize) -> u64
    requires small { index < 2 ^ 32 }
    ensures bits { (k : ℕ) → k < 64
        → nat_eq (bit_at result k) 1
        ≡ (nat_le first (64 * index + k) && nat_lt (64 * index + k) end) }
{
    let base = WORD_BITS * index;
    lowest(end.saturating_sub(base)) & !lowest(first.saturating_sub(base))
}

/// Marks the places from `first` to below `end`.
pub(crate) fn mark(words: &mut [u64], first: usize, end: usize)
    requires inside { end ≤ 64 * length words.old }
    requires small { length words.old < 2 ^ 32 }
    ensures exact { (i : ℕ) → is_marked words.new i
        ≡ ((nat_le first i && nat_lt i end) || is_marked words.old i) }
{
    for index in first / WORD_BITS..end.div_ceil(WORD_BITS) {
        words[index] |= between(index, first, end);
    }
}

/// Tests whether all places from `first` to below `end` are marked.
pub(crate) fn are_marked(words: &[u64], first: usize, end: usize) -> bool
    requires inside { end ≤ 64 * length words.now }
    requires small { length words.now < 2 ^ 32 }
    ensures exact { IsTrue result ↔ ((i : ℕ) → first ≤ i → i < end → is_marked words.now i ≡ true) }
{
    for index in first / WORD_BITS..end.div_ceil(WORD_BITS) {
        if between(index, first, end) & !words[index] != 0 {
            return false;
        }
    }
    true
}

/// Keeps only the marks that both have, a word at a time.
pub(crate) fn keep_common(words: &mut [u64], other: &[u64])
    requires same { length words.old ≡ length other.now }
    ensures exact { (i : ℕ) → is_marked words.new i
        ≡ (is_marked words.old i && is_marked other.now i) }
{
    for (index, word) in words.iter_mut().enumerate() {
        *word &= other[index];
    }
}

/// Returns how many places from the first on are marked without a gap.
pub(crate) fn prefix(words: &[u64]) -> usize
    requires small { length words.now < 2 ^ 32 }
    ensures marked { (i : ℕ) → i < result → is_marked words.now i ≡ true }
    ensures greatest { is_marked words.now result ≡ false }
    ensures bound { result ≤ 64 * length words.now }
{
    for (index, word) in words.iter().enumerate() {
        if *word != u64::MAX {
            return WORD_BITS * index + word.trailing_ones() as usize;
        }
    }
    WORD_BITS * words.len()
}
