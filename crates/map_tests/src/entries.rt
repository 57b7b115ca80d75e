//! Puts, changes, removals and replacements in both bodies of the trait, and copies of the entries.
ghost use Rattle.std.specs.Prelude.{◌≤◌, ◌<◌};

use crate::expectations::expect;
use bins::{Bins, EntryList, HashedBins, HashedKey, ListBins, Seed, SortedEntries, hash_of};
use bpf_model::{Key, NoMemory, Value};
use lengths::fit_each_length;
use replaced::are_replaced;
use std::alloc::Global;
use std::test::Fail;

mod lengths;
mod replaced;

/// Puts bytes at a name.
fn put<B: Bins>(bins: &mut B, name: &[u8], bytes: &[u8]) -> Result<(), Fail> {
    let key = Key::from_slice(name)?;
    bins.put(&HashedKey::new(&key), &Value::from_slice(bytes)?)?;
    Ok(())
}

/// Puts each of these bytes at the name before it.
fn put_all<B: Bins>(bins: &mut B, rows: &[(&[u8], &[u8])]) -> Result<(), Fail> {
    for (name, bytes) in rows {
        put(bins, name, bytes)?;
    }
    Ok(())
}

/// Tells whether these are all entries, in this order.
fn holds<B: Bins>(bins: &B, alloc: Global, wanted: &[(&[u8], &[u8])]) -> Result<bool, NoMemory> {
    let found = bins.entries(alloc)?;
    let mut same = found.len() == wanted.len();
    for (entry, (name, bytes)) in found.iter().zip(wanted) {
        same &= entry.0.as_slice() == *name && entry.1.as_slice() == *bytes;
    }
    Ok(same)
}

/// Puts `count` keys of two bytes in mixed order, each with itself as its value.
fn fill<B: Bins>(bins: &mut B, count: u16) -> Result<(), Fail>
    requires { count ≤ 300 }
{
    for i in 0..count {
        let number = (i * 7 % 300).to_be_bytes();
        put(bins, &number, &number)?;
    }
    Ok(())
}

/// Empties each value in another order, and removes it. Tells whether each was there, and then was not.
fn remove_all<B: Bins>(bins: &mut B) -> Result<bool, Fail> {
    let mut there = true;
    for i in 0..300u16 {
        let number = (i * 11 % 300).to_be_bytes();
        let key = Key::from_slice(&number)?;
        let key = HashedKey::new(&key);
        there &= bins.find(&key) == Some(number.as_slice());
        bins.put(&key, &Value::new())?;
        there &= bins.remove(&key) == Some(Value::new());
        there &= bins.find(&key).is_none();
    }
    Ok(there)
}

/// Tells whether the entry at each place has that number.
fn are_in_order(entries: &[(Key, Value)]) -> bool {
    let mut same = entries.len() == 300;
    for (number, entry) in (0..300u16).zip(entries) {
        same &= entry.0.as_slice() == number.to_be_bytes().as_slice();
    }
    same
}

/// Puts 300 keys, scans them, and removes them. Tells whether each was there, and then none.
fn come_and_go<B: Bins + Drop>(alloc: Global) -> Result<bool, Fail> {
    let mut bins = B::open(alloc, 1)?;
    fill(&mut bins, 300)?;
    let in_order = are_in_order(&bins.entries(alloc)?);
    Ok(in_order && remove_all(&mut bins)? && bins.entries(alloc)?.is_empty())
}

/// Tells whether the one list has each entry of the other twice, in their order.
fn are_twice(sorted: &SortedEntries, entries: &[(Key, Value)]) -> bool {
    if sorted.len() != 2 * entries.len() {
        return false;
    }
    for position in 0..sorted.len() {
        let (key, value) = &entries[position / 2];
        if sorted.get(position) != (key.as_slice(), value.as_slice()) {
            return false;
        }
    }
    true
}

/// Copies the entries of bins twice. Tells whether each is there twice. One key and one value are long.
fn copied_twice<B: Bins + Drop>(alloc: Global) -> Result<bool, Fail> {
    let mut bins = B::open(alloc, 4)?;
    fill(&mut bins, 40)?;
    put(&mut bins, &[1; 64], &[2; 200])?;
    let mut list = EntryList::new(alloc);
    bins.copy_into(&mut list)?;
    bins.copy_into(&mut list)?;
    let sorted = SortedEntries::new(alloc, list)?;
    Ok(are_twice(&sorted, &bins.entries(alloc)?))
}

/// Makes one of 256 keys of eight pairs, each `41 61` or `42 42`: all have one hash.
fn key_of_pairs(number: u8) -> Result<Key, Fail> {
    let mut bytes = [0; 16];
    for pair in 0..8usize {
        let second = number & (1 << pair) != 0;
        bytes[2 * pair] = if second { 0x42 } else { 0x41 };
        bytes[2 * pair + 1] = if second { 0x42 } else { 0x61 };
    }
    Ok(Key::from_slice(&bytes)?)
}

/// Makes one of 256 keys of five bytes: each has a different hash, but the lowest 16 bits of all hashes are 0.
fn key_of_bin(number: u8) -> Result<Key, Fail> {
    let begun = hash_of(&Key::from_slice(&[number])?);
    let rest = begun.wrapping_mul(31 * 31 * 31 * 31).wrapping_neg() % 65_536;
    Ok(Key::from_slice(&[
        number,
        (rest / 29_791) as u8,
        (rest / 961 % 31) as u8,
        (rest / 31 % 31) as u8,
        (rest % 31) as u8,
    ])?)
}

/// How the hashes of keys are alike.
#[derive(Clone, Copy)]
enum Crowd {
    /// They differ: the keys have one byte.
    Apart,
    /// They are equal.
    OneHash,
    /// They are in one bin, however many bins there are.
    OneBin,
}

impl Crowd {
    /// Returns the key of a number.
    fn key(self, number: u8) -> Result<Key, Fail> {
        match self {
            Crowd::Apart => Ok(Key::from_slice(&[number])?),
            Crowd::OneHash => key_of_pairs(number),
            Crowd::OneBin => key_of_bin(number),
        }
    }

    /// Tells whether the hashes of two keys are alike in this way.
    fn is_of(self, one: &Key, other: &Key) -> bool {
        let one = hash_of(one);
        let other = hash_of(other);
        match self {
            Crowd::Apart => one != other,
            Crowd::OneHash => one == other,
            Crowd::OneBin => one != other && one % 65_536 == other % 65_536,
        }
    }
}

/// Puts 200 keys of a crowd. Tells whether they belong to that crowd.
fn put_crowd<B: Bins>(bins: &mut B, crowd: Crowd) -> Result<bool, Fail> {
    let other = crowd.key(255)?;
    let mut all = true;
    for number in 0..200u8 {
        let key = crowd.key(number)?;
        all &= crowd.is_of(&key, &other);
        put(bins, key.as_slice(), &[number])?;
    }
    Ok(all)
}

/// Removes every third key of a crowd. Tells whether each had its value.
fn remove_thirds<B: Bins>(bins: &mut B, crowd: Crowd) -> Result<bool, Fail> {
    let mut there = true;
    for number in 0..200u8 {
        if number % 3 == 0 {
            let key = crowd.key(number)?;
            there &= bins.remove(&HashedKey::new(&key)) == Some(Value::from_slice(&[number])?);
            there &= bins.remove(&HashedKey::new(&key)).is_none();
        }
    }
    Ok(there)
}

/// Tells whether a key has this value.
fn has<B: Bins>(bins: &B, key: &Key, number: u8) -> bool {
    bins.find(&HashedKey::new(key)) == Some([number].as_slice())
}

/// Puts the keys of a crowd among others, and removes every third. Tells whether exactly the remaining ones are found.
fn stand_apart<B: Bins + Drop>(alloc: Global, crowd: Crowd) -> Result<bool, Fail> {
    let mut bins = B::open_seeded(alloc, 1, weak_seed())?;
    let mut apart = put_crowd(&mut bins, Crowd::Apart)? && put_crowd(&mut bins, crowd)?;
    apart &= remove_thirds(&mut bins, crowd)?;
    for number in 0..200u8 {
        apart &= has(&bins, &crowd.key(number)?, number) == (number % 3 != 0);
        apart &= has(&bins, &Crowd::Apart.key(number)?, number);
    }
    Ok(apart && bins.count() == 333)
}

/// Tries everything that bins of either kind must do.
fn try_each<B: Bins + Drop>(alloc: Global) -> Result<(), Fail> {
    expect(come_and_go::<B>(alloc)?, "three hundred keys")?;
    expect(copied_twice::<B>(alloc)?, "copies in a list")?;
    expect(stand_apart::<B>(alloc, Crowd::OneHash)?, "keys of one hash")?;
    expect(stand_apart::<B>(alloc, Crowd::OneBin)?, "keys of one bin")?;
    expect(fit_each_length::<B>(alloc)?, "values of each length")?;
    expect(are_replaced::<B>(alloc)?, "replacements")?;
    Ok(())
}

#[test]
fn bins_in_a_list_do_as_wanted(rt: HostRuntime) -> Result<(), Fail> {
    try_each::<ListBins>(rt.alloc())
}

#[test]
fn hashed_bins_do_as_wanted(rt: HostRuntime) -> Result<(), Fail> {
    try_each::<HashedBins>(rt.alloc())
}

#[test]
fn hashes_are_as_in_java(rt: HostRuntime) -> Result<(), Fail> {
    for (name, hash) in [
        (b"".as_slice(), 1),
        (b"ab".as_slice(), 4066),
        (b"\xff".as_slice(), 286),
        (b"0123456789".as_slice(), 4_082_890_950),
        (b"Aa".as_slice(), 3073),
        (b"BB".as_slice(), 3073),
        (b"AaAaAaAaAa".as_slice(), 2_839_690_241),
        (b"BBBBBBBBBB".as_slice(), 2_839_690_241),
    ] {
        assert!(rt; hash_of(&Key::from_slice(name)?) == hash, "{hash}");
    }
    Ok(())
}

/// Returns how many bins `entries` entries should have.
fn wanted_bins(entries: u8) -> u64 {
    match entries {
        0..=16 => 8,
        17..=32 => 16,
        33..=64 => 32,
        _ => 64,
    }
}

/// Puts the key of this number, counted from 0. Tells whether there were as many bins as expected before and after.
fn double_in_time(bins: &mut HashedBins, key: &Key, number: u8) -> Result<bool, Fail>
    requires { number < 255 }
{
    let before = bins.bins();
    put(bins, key.as_slice(), b"")?;
    Ok(before == wanted_bins(number) && bins.bins() == wanted_bins(number + 1))
}

/// Puts 40 keys of a crowd. Tells whether the bins doubled with the keys that crowded them.
fn double_with(alloc: Global, stripes: u64, crowd: Crowd) -> Result<bool, Fail> {
    let mut bins = HashedBins::open(alloc, stripes)?;
    let mut right = true;
    for number in 0..40u8 {
        right &= double_in_time(&mut bins, &crowd.key(number)?, number)?;
    }
    Ok(right)
}

#[test]
fn bins_double_with_the_key_that_crowds_them(rt: HostRuntime) -> Result<(), Fail> {
    for stripes in [1, 4, 64] {
        let apart = double_with(rt.alloc(), stripes, Crowd::Apart)?;
        let together = double_with(rt.alloc(), stripes, Crowd::OneHash)?;
        assert!(rt; apart && together, "{stripes}: {apart}, {together}");
    }
    Ok(())
}

/// With this seed a hash is the xor of a key's words and its length, so keys with equal ends share a chain.
fn weak_seed() -> Seed {
    Seed::new(0, 1)
}

/// Opens bins with the weak seed, and again if that was refused.
fn opened<B: Bins>(alloc: Global) -> Result<B, NoMemory> {
    match B::open_seeded(alloc, 1, weak_seed()) {
        Ok(bins) => Ok(bins),
        Err(NoMemory) => B::open_seeded(alloc, 1, weak_seed()),
    }
}

/// Puts a key, and again if that was refused. Tells whether it was then not there.
fn put_twice<B: Bins>(bins: &mut B, key: &Key) -> Result<bool, Fail> {
    let key = HashedKey::new(key);
    if bins.put(&key, &Value::new()).is_ok() {
        return Ok(true);
    }
    let absent = bins.find(&key).is_none();
    bins.put(&key, &Value::new())?;
    Ok(absent)
}

/// Tells whether the first keys of a crowd are there.
fn has_first<B: Bins>(bins: &B, crowd: Crowd, count: u8) -> Result<bool, Fail> {
    let mut there = true;
    for number in 0..count {
        there &= bins.find(&HashedKey::new(&crowd.key(number)?)).is_some();
    }
    Ok(there)
}

/// Puts a key of a crowd, and again if that was refused. Tells whether it was then not there, and the first keys now are.
fn enters<B: Bins>(bins: &mut B, crowd: Crowd, number: u8) -> Result<bool, Fail>
    requires { number < 255 }
{
    let absent = put_twice(bins, &crowd.key(number)?)?;
    Ok(absent && has_first(bins, crowd, number + 1)?)
}

/// Also if one request for memory is refused: that put leaves the entries, and the next one enters.
#[test]
fn a_refused_put_leaves_the_list(rt: HostRuntime) -> Result<(), Fail> {
    let mut bins = opened::<ListBins>(rt.alloc())?;
    for number in 0..40u8 {
        assert!(rt; enters(&mut bins, Crowd::Apart, number)?);
    }
    Ok(())
}

/// Opens bins with the fixed seed, and again if that was refused.
fn opened_fixed(alloc: Global) -> Result<HashedBins, NoMemory> {
    match HashedBins::open(alloc, 1) {
        Ok(bins) => Ok(bins),
        Err(NoMemory) => HashedBins::open(alloc, 1),
    }
}

/// The 17th entry makes 16 bins of 8, the 33rd 32 and the 65th 64. Also if one request for memory is refused: a put
/// leaves the entries, and the next one enters; a bin that isn't added is not an error.
#[test]
fn a_refused_put_leaves_the_bins(rt: HostRuntime) -> Result<(), Fail> {
    let mut bins = opened_fixed(rt.alloc())?;
    for number in 0..70u8 {
        assert!(rt; enters(&mut bins, Crowd::Apart, number)?);
        assert!(rt; bins.bins() == wanted_bins(number + 1));
    }
    Ok(())
}

/// Also if one request for memory is refused: for the index, for the tree that takes its place, for a node of it, or for the
/// index that comes back when there are twice as many keys.
#[test]
fn a_refused_put_leaves_the_tree(rt: HostRuntime) -> Result<(), Fail> {
    let mut bins = opened::<HashedBins>(rt.alloc())?;
    for number in 0..70u8 {
        assert!(rt; enters(&mut bins, Crowd::OneBin, number)?);
    }
    Ok(())
}
