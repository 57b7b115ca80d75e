//! Replacements of the values of all entries.
use super::*;
use crate::programs::{NINE, NOTHING, ONE, THREE, TWO, sizes, summing, verified};
use verifier::Verified;

/// Replaces values with this program and argument, which should find three entries. Tells whether it counted as expected and
/// left these.
fn is_made<B: Bins>(
    bins: &mut B,
    alloc: Global,
    program: &Verified,
    arg: &Option<Value>,
    wanted: (u64, u64),
) -> Result<bool, Fail> {
    let after: [(&[u8], &[u8]); 3] = [(b"a", &TWO), (b"b", &THREE), (b"c", &NINE)];
    let counts = bins.replace_each(program, arg);
    let counted = counts.scanned == 3 && (counts.given, counts.unfit) == wanted;
    Ok(counted && holds(bins, alloc, &after)?)
}

/// Makes one replacement after another over three entries, the one of `c` too long. Tells whether each gave the expected
/// counts and entries.
pub(super) fn are_replaced<B: Bins + Drop>(alloc: Global) -> Result<bool, Fail> {
    let sum = summing(alloc)?;
    let nothing = verified(alloc, NOTHING, sizes(64, 8, 8, 8))?;
    let one = Some(Value::from_slice(&ONE)?);
    let long = Some(Value::from_slice(&NINE)?);
    let mut bins = B::open(alloc, 1)?;
    put_all(&mut bins, &[(b"c", &NINE), (b"b", &TWO), (b"a", &ONE)])?;
    let mut same = is_made(&mut bins, alloc, &sum, &one, (2, 1))?;
    same &= is_made(&mut bins, alloc, &nothing, &one, (0, 1))?;
    same &= is_made(&mut bins, alloc, &sum, &None, (2, 1))?;
    same &= is_made(&mut bins, alloc, &sum, &long, (0, 3))?;
    Ok(same)
}
