//! Keys and values of the lengths at which an entry needs a wider or a narrower row.

use super::*;

const KEY_LENGTHS: [usize; 4] = [0, 18, 19, 64];

const VALUE_LENGTHS: [usize; 14] = [
    0, 18, 19, 32, 33, 64, 65, 128, 129, 312, 313, 912, 913, 1_024,
];

/// Makes a value of this many bytes.
fn value_of(byte: u8, length: usize) -> Result<Value, Fail> {
    let bytes = [byte; 1_024];
    Ok(Value::from_slice(bytes.get(..length).unwrap_or(&[]))?)
}

/// Puts a value of this byte and length.
fn put_value<B: Bins>(bins: &mut B, name: &[u8], byte: u8, length: usize) -> Result<(), Fail> {
    let key = Key::from_slice(name)?;
    bins.put(&HashedKey::new(&key), &value_of(byte, length)?)?;
    Ok(())
}

/// Removes a key that has a value of this byte and length. Tells whether it was found and given back, and is then not
/// there.
fn is_taken<B: Bins>(bins: &mut B, name: &[u8], byte: u8, length: usize) -> Result<bool, Fail> {
    let key = Key::from_slice(name)?;
    let key = HashedKey::new(&key);
    let value = value_of(byte, length)?;
    let found = bins.find(&key) == Some(value.as_slice());
    let removed = bins.remove(&key) == Some(value);
    Ok(found && removed && bins.find(&key).is_none())
}

/// A key, and the byte and the length of its value.
type Row<'a> = (&'a [u8], u8, usize);

/// Puts the value of each row.
fn put_each<B: Bins>(bins: &mut B, rows: &[Row<'_>]) -> Result<(), Fail> {
    for (name, byte, length) in rows {
        put_value(bins, name, *byte, *length)?;
    }
    Ok(())
}

/// Removes the key of each row. Tells whether each had its value.
fn are_taken<B: Bins>(bins: &mut B, rows: &[Row<'_>]) -> Result<bool, Fail> {
    let mut right = true;
    for (name, byte, length) in rows {
        right &= is_taken(bins, name, *byte, *length)?;
    }
    Ok(right)
}

/// Puts a value of the one length and then one of the other on a key between two other entries, and removes all three.
/// Tells whether each entry had its last value.
fn is_replaced<B: Bins>(bins: &mut B, key: &[u8], lengths: (usize, usize)) -> Result<bool, Fail> {
    let (old, new) = lengths;
    put_each(
        bins,
        &[
            (b"first", 1, new),
            (key, 2, old),
            (b"last", 3, old),
            (key, 4, new),
        ],
    )?;
    are_taken(
        bins,
        &[(key, 4, new), (b"first", 1, new), (b"last", 3, old)],
    )
}

/// Replaces a value of this length by one of each.
fn are_replaced<B: Bins>(bins: &mut B, key: &[u8], length: usize) -> Result<bool, Fail> {
    let mut right = true;
    for other in VALUE_LENGTHS {
        right &= is_replaced(bins, key, (length, other))?;
    }
    Ok(right)
}

/// Replaces values of each length by those of each, on a key of this length.
fn fit_on_key<B: Bins>(bins: &mut B, length: usize) -> Result<bool, Fail> {
    let bytes = [7; 64];
    let key = bytes.get(..length).unwrap_or(&[]);
    let mut right = true;
    for length in VALUE_LENGTHS {
        right &= are_replaced(bins, key, length)?;
    }
    Ok(right)
}

/// Replaces values of each length on keys of each length. Tells whether none is left.
pub(super) fn fit_each_length<B: Bins + Drop>(alloc: Global) -> Result<bool, Fail> {
    let mut bins = B::open(alloc, 4)?;
    let mut right = true;
    for length in KEY_LENGTHS {
        right &= fit_on_key(&mut bins, length)?;
    }
    Ok(right && bins.count() == 0)
}
