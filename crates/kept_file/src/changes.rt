//! Changes of entries, as the bytes of a batch.
//!
//! A change is the length of its key in one byte, a byte that says what the key has (0 nothing, 1 a value, 2 a value with a deadline),
//! the key, the deadline in eight bytes, the length of the value in four, and the value. The lowest byte of a number comes first.
ghost use Rattle.std.specs.Prelude.{◌≡◌, ◌<◌, ◌≤◌, [], ◌∷◌, ◌+◌, ◌++◌, ◌⊎◌, ◌↔◌, length, vec_len, vec_capacity, Some, None, Err, IfErr, IfOk, IsOk, OnErr, OnOk};
ghost use Rattle.std.specs.Int.{w32, w64, to_le_bytes};
ghost use Rattle.kept_file.specs.Changes.{BeginsWithLongEntry, BeginsWithLongValue, BeginsWithNoEntry, BeginsWithNoValue, BeginsWithNone, BeginsWithTooLong, IsWithin, change_bytes, change_of, entry_bytes, entry_of, mark_byte};

use crate::fault::KeepFault;
use bpf_model::limits::{KEY_BYTES, VALUE_BYTES};
use bpf_model::{Key, Value};
use std::alloc::Global;

/// The length of a key, and the byte that says what it has.
const HEAD_BYTES: usize = 2;

/// What a change that puts has beside its key and value: the head, the deadline, and the length of the value.
const PUT_BYTES: usize = HEAD_BYTES + 8 + 4;

/// What a key has since a change.
#[derive(Clone, Copy, Debug, PartialEq, Eq)]
pub enum Mark {
    /// Nothing.
    Gone,
    /// A value without a deadline.
    Lasting,
    /// A value with this deadline, in milliseconds since the epoch.
    Until(u64),
}

/// A change of an entry, to be read into.
#[derive(Debug, Drop)]
pub struct KeptChange {
    pub key: Key,
    /// The value, unless the key is removed.
    pub value: Value,
    pub mark: Mark,
}

impl KeptChange {
    /// Makes one that removes the empty key, to be read into.
    pub fn new() -> KeptChange {
        KeptChange {
            key: Key::from_slice(b"").unwrap(),
            value: Value::new(),
            mark: Mark::Gone,
        }
    }

    /// Reads the change with which these bytes begin, and returns the bytes after it. `TooLong` if they say that its key has more than 64
    /// bytes or its value more than 1,024; `Damaged` if they begin with none. After a fault `self` may hold part of a change.
    pub fn read<'a>(&mut self, bytes: &'a [u8]) -> Result<&'a [u8], KeepFault>
        ensures ok { IfOk result (λ rest. IsWithin (change_of self.new) × (bytes.now ≡ change_bytes (change_of self.new) ++ rest.now)) }
        ensures err { IfErr result (λ fault. BeginsWithNone bytes.now × ((fault ≡ KeepFault.Damaged) ⊎ (fault ≡ KeepFault.TooLong))) }
        ensures too_long { (result ≡ Err KeepFault.TooLong) ↔ BeginsWithTooLong bytes.now }
    {
        let (length, rest) = first_byte(bytes)?;
        let (mark, rest) = first_byte(rest)?;
        let length = usize::from(length);
        if length > KEY_BYTES {
            return Err(KeepFault::TooLong);
        }
        let (key, rest) = first_bytes(rest, length)?;
        self.key.set_from(key);
        self.read_entry(mark, rest)
    }

    /// Reads what the key has, after the key; `mark` is the byte that says what that is. `Damaged` if no mark has this byte or there are
    /// too few bytes; `TooLong` if the value has more than 1,024.
    fn read_entry<'a>(&mut self, mark: u8, bytes: &'a [u8]) -> Result<&'a [u8], KeepFault>
        requires { length self.now.key ≤ KEY_BYTES }
        ensures ok { IfOk result (λ rest. (self.new.key ≡ self.old.key) × IsWithin (change_of self.new)
            × (mark ≡ mark_byte (entry_of self.new.mark self.new.value))
            × (bytes.now ≡ entry_bytes (entry_of self.new.mark self.new.value) ++ rest.now)) }
        ensures err { IfErr result (λ fault. BeginsWithNoEntry mark bytes.now × ((fault ≡ KeepFault.Damaged) ⊎ (fault ≡ KeepFault.TooLong))) }
        ensures too_long { (result ≡ Err KeepFault.TooLong) ↔ BeginsWithLongEntry mark bytes.now }
    {
        match mark {
            0 => {
                self.mark = Mark::Gone;
                Ok(bytes)
            }
            1 => {
                self.mark = Mark::Lasting;
                read_value(&mut self.value, bytes)
            }
            2 => {
                let (deadline, rest) = first_u64(bytes)?;
                self.mark = Mark::Until(deadline);
                read_value(&mut self.value, rest)
            }
            _ => Err(KeepFault::Damaged),
        }
    }
}

/// Reads the length of a value and the value, and returns the bytes after them. `TooLong` if it has more than 1,024 bytes; `Damaged` if
/// there are too few bytes.
fn read_value<'a>(value: &mut Value, bytes: &'a [u8]) -> Result<&'a [u8], KeepFault>
    ensures ok { IfOk result (λ rest. (length value.new ≤ VALUE_BYTES)
        × (bytes.now ≡ (to_le_bytes w32 (length value.new) ++ value.new) ++ rest.now)) }
    ensures err { IfErr result (λ fault. BeginsWithNoValue bytes.now × ((fault ≡ KeepFault.Damaged) ⊎ (fault ≡ KeepFault.TooLong))) }
    ensures too_long { (result ≡ Err KeepFault.TooLong) ↔ BeginsWithLongValue bytes.now }
{
    let (length, rest) = first_u32(bytes)?;
    let length = length as usize;
    if length > VALUE_BYTES {
        return Err(KeepFault::TooLong);
    }
    let (read, rest) = first_bytes(rest, length)?;
    value.set_from(read);
    Ok(rest)
}

/// Splits off the first `count` bytes. `Damaged` if there are fewer.
fn first_bytes(bytes: &[u8], count: usize) -> Result<(&[u8], &[u8]), KeepFault>
    ensures ok { IfOk result (λ parts. (length parts.0.now ≡ count) × (bytes.now ≡ parts.0.now ++ parts.1.now)) }
    ensures err { IfErr result (λ fault. (fault ≡ KeepFault.Damaged) × (length bytes.now < count)) }
{
    bytes.split_at_checked(count).ok_or(KeepFault::Damaged)
}

/// Splits off a byte. `Damaged` if there is none.
fn first_byte(bytes: &[u8]) -> Result<(u8, &[u8]), KeepFault>
    ensures ok { IfOk result (λ parts. bytes.now ≡ parts.0 ∷ parts.1.now) }
    ensures err { IfErr result (λ fault. (fault ≡ KeepFault.Damaged) × (bytes.now ≡ [])) }
{
    match bytes.split_first() {
        Some((first, rest)) => Ok((*first, rest)),
        None => Err(KeepFault::Damaged),
    }
}

/// Splits off a number of 32 bits. `Damaged` if there are fewer than four bytes.
fn first_u32(bytes: &[u8]) -> Result<(u32, &[u8]), KeepFault>
    ensures ok { IfOk result (λ parts. bytes.now ≡ to_le_bytes w32 parts.0 ++ parts.1.now) }
    ensures err { IfErr result (λ fault. (fault ≡ KeepFault.Damaged) × (length bytes.now < 4)) }
{
    match bytes.split_first_chunk::<4>() {
        Some((first, rest)) => Ok((u32::from_le_bytes(*first), rest)),
        None => Err(KeepFault::Damaged),
    }
}

/// Splits off a number of 64 bits. `Damaged` if there are fewer than eight bytes.
fn first_u64(bytes: &[u8]) -> Result<(u64, &[u8]), KeepFault>
    ensures ok { IfOk result (λ parts. bytes.now ≡ to_le_bytes w64 parts.0 ++ parts.1.now) }
    ensures err { IfErr result (λ fault. (fault ≡ KeepFault.Damaged) × (length bytes.now < 8)) }
{
    match bytes.split_first_chunk::<8>() {
        Some((first, rest)) => Ok((u64::from_le_bytes(*first), rest)),
        None => Err(KeepFault::Damaged),
    }
}

/// Changes of one stripe, as the bytes of a batch.
#[derive(Drop)]
pub struct Batch {
    bytes: Vec<u8>,
}

impl Batch {
    /// Makes one without changes.
    pub fn new(alloc: Global) -> Batch
        ensures { result.bytes.items ≡ [] }
    {
        Batch {
            bytes: Vec::new(alloc),
        }
    }

    /// Takes all changes out.
    pub fn clear(&mut self)
        ensures { self.new.bytes.items ≡ [] }
    {
        self.bytes.clear();
    }

    /// Returns its bytes.
    pub fn as_slice(&self) -> &[u8]
        ensures { result.now ≡ self.now.bytes.items }
    {
        self.bytes.as_slice()
    }

    /// Appends a change after which the key has this value, with a deadline or none. `TooLong` if the key has more than 64 bytes or the
    /// value more than 1,024; `NoMemory` if a request for memory was refused. After a fault the batch is as it was.
    pub fn put(&mut self, key: &[u8], value: &[u8], deadline: Option<u64>) -> Result<(), KeepFault>
        ensures ok { OnOk result (IsWithin (key.now, Some (value.now, deadline))
            × (self.new.bytes.items ≡ self.old.bytes.items ++ change_bytes (key.now, Some (value.now, deadline)))) }
        ensures err { IfErr result (λ fault. (fault ≡ KeepFault.TooLong) ⊎ (fault ≡ KeepFault.NoMemory)) }
        ensures too_long { (result ≡ Err KeepFault.TooLong) ↔ ((KEY_BYTES < length key.now) ⊎ (VALUE_BYTES < length value.now)) }
        ensures unchanged { OnErr result (self.new.bytes.items ≡ self.old.bytes.items) }
    {
        let key_length = key_length(key)?;
        let value_length = value_length(value)?;
        // With this room no push fails.
        self.reserve(PUT_BYTES + key.len() + value.len())?;
        match deadline {
            None => self.push_key(key_length, 1, key)?,
            Some(deadline) => {
                self.push_key(key_length, 2, key)?;
                self.push(&deadline.to_le_bytes())?;
            }
        }
        self.push(&value_length.to_le_bytes())?;
        self.push(value)
    }

    /// Appends a change after which the key has nothing. `TooLong` if the key has more than 64 bytes; `NoMemory` if a request for
    /// memory was refused. After a fault the batch is as it was.
    pub fn remove(&mut self, key: &[u8]) -> Result<(), KeepFault>
        ensures ok { OnOk result (IsWithin (key.now, None) × (self.new.bytes.items ≡ self.old.bytes.items ++ change_bytes (key.now, None))) }
        ensures err { IfErr result (λ fault. (fault ≡ KeepFault.TooLong) ⊎ (fault ≡ KeepFault.NoMemory)) }
        ensures too_long { (result ≡ Err KeepFault.TooLong) ↔ (KEY_BYTES < length key.now) }
        ensures unchanged { OnErr result (self.new.bytes.items ≡ self.old.bytes.items) }
    {
        let key_length = key_length(key)?;
        // With this room the push does not fail.
        self.reserve(HEAD_BYTES + key.len())?;
        self.push_key(key_length, 0, key)
    }

    /// Appends the length of a key, a byte that says what it has, and the key. `NoMemory` if there is no room and a request for
    /// memory was refused.
    fn push_key(&mut self, key_length: u8, mark: u8, key: &[u8]) -> Result<(), KeepFault>
        ensures ok { OnOk result (self.new.bytes.items ≡ self.old.bytes.items ++ (key_length ∷ mark ∷ key.now)) }
        ensures err { IfErr result (λ fault. fault ≡ KeepFault.NoMemory) }
        ensures room { vec_len self.old.bytes + (HEAD_BYTES + length key.now) ≤ vec_capacity self.old.bytes → IsOk result }
        ensures capacity { vec_capacity self.old.bytes ≤ vec_capacity self.new.bytes }
    {
        self.push(&[key_length, mark])?;
        self.push(key)
    }

    /// Gets room for this many bytes more. `NoMemory` if a request for memory was refused.
    fn reserve(&mut self, count: usize) -> Result<(), KeepFault>
        ensures ok { OnOk result (vec_len self.new.bytes + count ≤ vec_capacity self.new.bytes) }
        ensures err { IfErr result (λ fault. fault ≡ KeepFault.NoMemory) }
        ensures same { self.new.bytes.items ≡ self.old.bytes.items }
    {
        self.bytes.reserve(count).map_err(|_| KeepFault::NoMemory)
    }

    /// Appends these bytes. `NoMemory` if there is no room and a request for memory was refused.
    fn push(&mut self, bytes: &[u8]) -> Result<(), KeepFault>
        ensures ok { OnOk result (self.new.bytes.items ≡ self.old.bytes.items ++ bytes.now) }
        ensures err { IfErr result (λ fault. fault ≡ KeepFault.NoMemory) }
        ensures room { vec_len self.old.bytes + length bytes.now ≤ vec_capacity self.old.bytes → IsOk result }
        ensures capacity { vec_capacity self.old.bytes ≤ vec_capacity self.new.bytes }
    {
        self.bytes
            .extend_from_slice(bytes)
            .map_err(|_| KeepFault::NoMemory)
    }
}

/// Returns the length of a key. `TooLong` if it has more than 64 bytes.
fn key_length(key: &[u8]) -> Result<u8, KeepFault>
    ensures ok { IfOk result (λ count. (count ≡ length key.now) × (length key.now ≤ KEY_BYTES)) }
    ensures err { IfErr result (λ fault. (fault ≡ KeepFault.TooLong) × (KEY_BYTES < length key.now)) }
{
    if key.len() > KEY_BYTES {
        return Err(KeepFault::TooLong);
    }
    Ok(key.len() as u8)
}

/// Returns the length of a value. `TooLong` if it has more than 1,024 bytes.
fn value_length(value: &[u8]) -> Result<u32, KeepFault>
    ensures ok { IfOk result (λ count. (count ≡ length value.now) × (length value.now ≤ VALUE_BYTES)) }
    ensures err { IfErr result (λ fault. (fault ≡ KeepFault.TooLong) × (VALUE_BYTES < length value.now)) }
{
    if value.len() > VALUE_BYTES {
        return Err(KeepFault::TooLong);
    }
    Ok(value.len() as u32)
}
