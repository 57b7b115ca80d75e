//! Numbers of stripes, passes over a whole table, and refused memory.
use super::*;

/// Tells whether a table of this many stripes opens without an entry.
fn is_opened_empty(alloc: Global, stripes: u64) -> Result<bool, Fail> {
    let table = Striped::open(alloc, stripes)?;
    Ok(table.scan(alloc)?.is_empty())
}

/// Returns the number of the error if a table of this many stripes is refused, or 0 if it opens.
fn refusal(alloc: Global, stripes: u64) -> u8 {
    match Striped::open(alloc, stripes) {
        Ok(_) => 0,
        Err(fault) => fault.number(),
    }
}

#[test]
fn numbers_of_stripes(rt: HostRuntime) -> Result<(), Fail> {
    for stripes in [1, 2, 4, 8, 16, 32, 64] {
        assert!(rt; is_opened_empty(rt.alloc(), stripes)?, "of {stripes}");
    }
    for stripes in [0, 3, 63, 65, 128, u64::MAX] {
        assert!(rt; refusal(rt.alloc(), stripes) == 50, "of {stripes}");
    }
    Ok(())
}

/// Enters an entry.
fn enter(table: &mut Striped, name: &[u8], bytes: &[u8]) -> Result<(), Fail> {
    let key = &key(name)?;
    let value = &value(bytes)?;
    table.apply(&Call::Put { key, value })?;
    Ok(())
}

/// Opens a table of entries of 8 bytes, 8 bytes and 9 bytes.
fn three_entries(alloc: Global, stripes: u64) -> Result<Striped, Fail> {
    let mut table = Striped::open(alloc, stripes)?;
    enter(&mut table, b"c", &NINE)?;
    enter(&mut table, b"b", &TWO)?;
    enter(&mut table, b"a", &ONE)?;
    Ok(table)
}

/// Tells whether the key has this value.
fn has(table: &mut Striped, name: &[u8], bytes: &[u8]) -> Result<bool, Fail> {
    let key = &key(name)?;
    let reply = table.apply(&Call::Get { key })?;
    Ok(reply == Reply::Value(Some(value(bytes)?)))
}

/// Tells whether a replacement of the three values replaces the two that fit.
fn are_replaced(alloc: Global, sum: &Verified, stripes: u64) -> Result<bool, Fail> {
    let counted = Counts {
        scanned: 3,
        given: 2,
        unfit: 1,
    };
    let mut table = three_entries(alloc, stripes)?;
    let mut right = table.replace_each(sum, &Some(value(&ONE)?)) == counted;
    for (name, bytes) in [(b"a", TWO.as_slice()), (b"b", &THREE), (b"c", &NINE)] {
        right &= has(&mut table, name, bytes)?;
    }
    Ok(right)
}

#[test]
fn a_pass_replaces_what_fits(rt: HostRuntime) -> Result<(), Fail> {
    let sum = summing(rt.alloc())?;
    for stripes in [1, 4, 64] {
        assert!(rt; are_replaced(rt.alloc(), &sum, stripes)?, "of {stripes}");
    }
    Ok(())
}

/// This many keys are put and asked for.
const KEYS: u8 = 40;

/// Makes the key of one byte.
fn key_of(number: u8) -> Key {
    Key::from_slice(&[number]).unwrap()
}

/// Makes the value of each key.
fn new_value() -> Value {
    Value::from_slice(b"new").unwrap()
}

/// Tells whether each key of one byte below this one has its value, and no other key has one.
fn ends_before(table: &mut Striped, end: u8) -> Result<bool, NoMemory> {
    for number in 0..=KEYS {
        let key = &key_of(number);
        let wanted = if number < end {
            Some(new_value())
        } else {
            None
        };
        if table.apply(&Call::Get { key })? != Reply::Value(wanted) {
            return Ok(false);
        }
    }
    Ok(true)
}

/// Puts the key of one byte.
fn put(table: &mut Striped, number: u8) -> Result<Reply, NoMemory> {
    let key = &key_of(number);
    let value = &new_value();
    table.apply(&Call::Put { key, value })
}

/// Puts the keys below this one, each again if it was refused.
fn fill(table: &mut Striped, end: u8) -> Result<(), NoMemory> {
    for number in 0..end {
        if put(table, number).is_err() {
            put(table, number)?;
        }
    }
    Ok(())
}

/// Opens a table of this many stripes, and again if memory was refused.
fn opened(alloc: Global, stripes: u64) -> Result<Striped, OpenFault> {
    match Striped::open(alloc, stripes) {
        Err(OpenFault::NoMemory) => Striped::open(alloc, stripes),
        result => result,
    }
}

/// Also if one allocation fails. Each stripe asks for its bins: `tests/refused.sh` looks at the number of requests.
#[test]
fn a_refused_open_can_be_made_again(rt: HostRuntime) -> Result<(), Fail> {
    let table = opened(rt.alloc(), 64)?;
    assert!(rt; table.count() == 0);
    Ok(())
}

/// Puts the key, and again if it was refused. Tells whether the table then had exactly the keys before it.
fn is_refused_well(table: &mut Striped, number: u8) -> Result<bool, NoMemory> {
    if put(table, number).is_ok() {
        return Ok(true);
    }
    let left = ends_before(table, number)?;
    put(table, number)?;
    Ok(left)
}

/// Also if one allocation fails: that call leaves the table, and the same call again enters.
#[test]
fn a_refused_call_leaves_the_table(rt: HostRuntime) -> Result<(), Fail> {
    let mut table = opened(rt.alloc(), 4)?;
    for number in 0..KEYS {
        assert!(rt; is_refused_well(&mut table, number)?, "at {number}");
    }
    assert!(rt; ends_before(&mut table, KEYS)?);
    Ok(())
}

/// The nine keys that one run puts, and that are scanned.
const RUN: [u8; 9] = [0, 1, 2, 3, 4, 5, 6, 7, 8];

/// Puts nine keys in one run. Returns the replies to the calls that were made.
fn replies_of_run(alloc: Global, table: &mut Striped) -> Vec<Reply> {
    let value = &new_value();
    let keys = [
        key_of(0),
        key_of(1),
        key_of(2),
        key_of(3),
        key_of(4),
        key_of(5),
        key_of(6),
        key_of(7),
        key_of(8),
    ];
    let calls = keys.each_ref().map(|key| Call::Put { key, value });
    match table.run(alloc, &calls) {
        Ok(replies) => replies,
        Err(stopped) => stopped.replies,
    }
}

/// Counts the replies, if there are at most nine and each is that the key had no value.
fn count_of(replies: &[Reply]) -> Option<u8> {
    let mut count = 0u8;
    for reply in replies {
        if *reply != Reply::Value(None) || count >= 9 {
            return None;
        }
        count = count.wrapping_add(1);
    }
    Some(count)
}

/// Also if one allocation fails: exactly the calls with a reply were made.
#[test]
fn a_stopped_run_made_the_calls_that_were_replied_to(rt: HostRuntime) -> Result<(), Fail> {
    let mut table = opened(rt.alloc(), 4)?;
    let replies = replies_of_run(rt.alloc(), &mut table);
    let made = count_of(&replies).ok_or("a wrong reply")?;
    assert!(rt; ends_before(&mut table, made)?, "after {made}");
    Ok(())
}

/// Scans the table, and again if memory was refused.
fn scanned(alloc: Global, table: &Striped) -> Result<Vec<(Key, Value)>, NoMemory> {
    match table.scan(alloc) {
        Err(NoMemory) => table.scan(alloc),
        found => found,
    }
}

/// Tells whether these are the nine entries, in key order.
fn are_nine(found: &[(Key, Value)]) -> bool {
    let mut right = found.len() == RUN.len();
    for ((key, value), number) in found.iter().zip(&RUN) {
        right &= *key == key_of(*number) && *value == new_value();
    }
    right
}

/// Also if one allocation fails: a scan gives all entries, or none and can be made again.
#[test]
fn a_refused_scan_leaves_the_table(rt: HostRuntime) -> Result<(), Fail> {
    let mut table = opened(rt.alloc(), 4)?;
    fill(&mut table, 9)?;
    let found = scanned(rt.alloc(), &table)?;
    assert!(rt; are_nine(&found) && ends_before(&mut table, 9)?);
    Ok(())
}
