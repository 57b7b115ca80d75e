//! The rows of one width, side by side in segments. All segments but the last are full. A segment is memory of a fixed size for
//! rows of any one width. A row has the position whose location names it, and a key and its value, each after its length.
ghost use Rattle.std.specs.Prelude.{◌≡◌, ◌≢◌, ◌↔◌, IfSome, ℕ, ◌+◌, ◌-◌, ◌*◌, ◌/◌, ◌<◌, ◌≤◌, ◌^◌, ◌++◌, ◌∷◌, [], length, set, IsTrue, OnOk, vec_capacity, drop};
ghost use Rattle.std.specs.Int.{from_le_bytes, to_le_bytes, w64};
ghost use Rattle.std.specs.List.{swap_remove};
ghost use Rattle.bins.specs.KeptRows.{kept, nobody, row_at, HoldsRow, row_in, key_in, number, value_in, word_of};
ghost use Rattle.bins.specs.Segments.{AreFew, HoldRows, HoldsSlot, IsClosed, IsOpened, IsSameBut, KeptWidth, slot, KeepsAll, KeepsOthers, part};

use bpf_model::NoMemory;
use bpf_model::limits::{KEY_BYTES, VALUE_BYTES};
use byteorder::{ByteOrder, LittleEndian};
use std::alloc::Global;
use std::marker::Model;

/// Returns the segment of a row and the place of its bytes there.
#[inline(always)]
fn place_of(at: usize, shift: u32, stride: usize) -> (usize, usize)
    requires bounded { shift < 64 }
    requires shape { FRONT_BYTES + 2 ^ shift * stride ≤ SEGMENT_BYTES }
    ensures index { result.0 ≡ at / 2 ^ shift }
    ensures start { result.1 ≡ FRONT_BYTES + (at - at / 2 ^ shift * 2 ^ shift) * stride }
    ensures range { result.1 + stride ≤ SEGMENT_BYTES }
{
    let index = at >> shift;
    (index, FRONT_BYTES + (at - (index << shift)) * stride)
}

/// Returns the bytes of a row.
#[inline(always)]
fn slot_of(segments: &Vec<Segment>, at: usize, shift: u32, stride: usize) -> &[u8]
    requires bounded { shift < 64 }
    requires shape { FRONT_BYTES + 2 ^ shift * stride ≤ SEGMENT_BYTES }
    requires holds { HoldsSlot (slot segments.now.items (2 ^ shift) stride at) stride }
    ensures value { result.now ≡ slot segments.now.items (2 ^ shift) stride at }
{
    let (index, start) = place_of(at, shift, stride);
    let segment = &segments[index];
    segment.row(start, stride)
}

/// Copies the last row over another.
#[inline(always)]
fn copy_row(segments: &mut Vec<Segment>, last: usize, at: usize, shape: (u32, usize))
    requires bounded { shape.0 < 64 }
    requires shape { FRONT_BYTES + 2 ^ shape.0 * shape.1 ≤ SEGMENT_BYTES }
    requires before { at ≤ last }
    requires end { last / 2 ^ shape.0 + 1 ≡ length segments.old.items }
    requires holds { HoldRows segments.old.items (2 ^ shape.0) shape.1 (last + 1) }
    ensures many { length segments.new.items ≡ length segments.old.items }
    ensures room { vec_capacity segments.new ≡ vec_capacity segments.old }
    ensures row { slot segments.new.items (2 ^ shape.0) shape.1 at ≡ slot segments.old.items (2 ^ shape.0) shape.1 last }
    ensures others { (i : ℕ) → i < last → i ≢ at → slot segments.new.items (2 ^ shape.0) shape.1 i ≡ slot segments.old.items (2 ^ shape.0) shape.1 i }
{
    let (shift, stride) = shape;
    let (index, start) = place_of(at, shift, stride);
    let (_, from) = place_of(last, shift, stride);
    if let Some(mut end) = segments.pop() {
        if index == segments.len() {
            end.copy_within(from, start, stride);
        } else {
            let segment = &mut segments[index];
            segment.copy_from(start, end.row(from, stride));
        }
        segments.push_reserved(end);
    }
}

/// Makes sure that there is a segment for one more row: takes a free one if the others are full.
#[inline(always)]
fn open_slot(segments: &mut Vec<Segment>, free: &mut Vec<Segment>, many: usize, shift: u32)
    requires bounded { shift < 64 }
    requires spare { 0 < length free.old.items }
    requires enough { many ≤ length segments.old.items * 2 ^ shift }
    requires needed { length segments.old.items * 2 ^ shift < many + 2 ^ shift }
    requires limit { many < vec_capacity segments.old * 2 ^ shift }
    ensures opened { IsOpened segments.old.items segments.new.items (2 ^ shift) many }
    ensures total { length segments.new.items + length free.new.items ≡ length segments.old.items + length free.old.items }
    ensures room { vec_capacity segments.new ≡ vec_capacity segments.old }
    ensures list { vec_capacity free.new ≡ vec_capacity free.old }
{
    if many >> shift == segments.len() {
        if let Some(segment) = free.pop() {
            segments.push_reserved(segment);
        }
    }
}

/// Makes the last segment a free one if no row is left in it.
#[inline(always)]
fn close_slot(segments: &mut Vec<Segment>, free: &mut Vec<Segment>, last: usize, shift: u32)
    requires bounded { shift < 64 }
    requires list { length segments.old.items + length free.old.items ≤ vec_capacity free.old }
    requires enough { last < length segments.old.items * 2 ^ shift }
    requires needed { length segments.old.items * 2 ^ shift ≤ last + 2 ^ shift }
    ensures closed { IsClosed segments.old.items segments.new.items (2 ^ shift) last }
    ensures total { length segments.new.items + length free.new.items ≡ length segments.old.items + length free.old.items }
    ensures room { vec_capacity segments.new ≡ vec_capacity segments.old }
    ensures list { vec_capacity free.new ≡ vec_capacity free.old }
{
    if last == (last >> shift) << shift {
        if let Some(segment) = segments.pop() {
            free.push_reserved(segment);
        }
    }
}

/// Returns the word of eight bytes; none if there are more or fewer.
#[inline(always)]
fn whole_word(bytes: &[u8]) -> Option<u64>
    ensures word { IfSome result (λ word. word ≡ from_le_bytes w64 bytes.now) }
    ensures bytes { IfSome result (λ word. to_le_bytes w64 word ≡ bytes.now) }
{
    match <[u8; 8]>::try_from(bytes) {
        Ok(bytes) => Some(u64::from_le_bytes(bytes)),
        Err(_) => None,
    }
}

/// Returns whether these are the same bytes. It is separate, since a search compares at two places.
#[inline(never)]
fn are_same_bytes(one: &[u8], other: &[u8]) -> bool
    ensures { IsTrue result ↔ (one.now ≡ other.now) }
{
    one == other
}

/// Returns whether these are the same bytes. Eight are compared as one word, without a call.
#[inline(always)]
pub(crate) fn are_same(one: &[u8], other: &[u8]) -> bool
    ensures { IsTrue result ↔ (one.now ≡ other.now) }
{
    let Some(word) = whole_word(one) else {
        return are_same_bytes(one, other);
    };
    let Some(another) = whole_word(other) else {
        return are_same_bytes(one, other);
    };
    word == another
}

/// Rows of a width.
#[derive(Drop)]
pub struct WidthRows {
    least: usize,
    most: usize,
    stride: usize,
    shift: u32,
    many: usize,
    segments: Vec<Segment>,
}

impl Model for WidthRows {
    ghost use Rattle.std.specs.Prelude.{◌*◌, ◌^◌, length, vec_capacity};
    ghost use Rattle.bins.specs.Segments.{AreSegments, KeptWidth, rows_from};

    ghost Value = { KeptWidth };

    ghost view = { λ width. record {
      rows = rows_from width.segments.items (2 ^ width.shift) width.stride width.many;
      most = width.most;
      segments = length width.segments.items;
      limit = vec_capacity width.segments * 2 ^ width.shift;
    } };

    ghost invariant = { λ width. AreSegments width.segments.items width.shift width.most width.stride width.many };
}

impl WidthRows {
    /// Makes a list without rows, for keys and values that together take from `least` to `most` bytes. A segment holds two
    /// to the power of `shift` of these rows.
    pub(crate) fn new(alloc: Global, least: usize, most: usize, shift: u32) -> WidthRows
        requires small { 9 ≤ shift }
        requires bounded { shift < 64 }
        requires shape { FRONT_BYTES + 2 ^ shift * (HEAD_BYTES + most) ≤ SEGMENT_BYTES }
        ensures rows { result.rows ≡ [] }
        ensures most { result.most ≡ most }
        ensures segments { result.segments ≡ 0 }
    {
        WidthRows {
            least,
            most,
            stride: HEAD_BYTES + most,
            shift,
            many: 0,
            segments: Vec::new(alloc),
        }
    }

    /// Returns the number of rows.
    #[inline(always)]
    pub(crate) fn len(&self) -> usize
        ensures value { result ≡ length self.now.rows }
    {
        self.many
    }

    /// Returns the number of segments that they lie in.
    #[inline(always)]
    pub(crate) fn segments(&self) -> usize
        ensures value { result ≡ self.now.segments }
    {
        self.segments.len()
    }

    /// Returns whether a row has room for this many bytes.
    #[inline(always)]
    pub(crate) fn holds(&self, bytes: usize) -> bool
        ensures fit { IsTrue result → bytes ≤ self.now.most }
    {
        bytes <= self.most
    }

    /// Returns whether it is the narrowest width for this many bytes.
    #[inline(always)]
    pub(crate) fn suits(&self, bytes: usize) -> bool
        ensures fit { IsTrue result → bytes ≤ self.now.most }
    {
        self.least <= bytes && bytes <= self.most
    }

    /// Returns the key and the value of a row.
    #[inline(always)]
    pub(crate) fn entry(&self, at: usize) -> (&[u8], &[u8])
        requires { at < length self.now.rows }
        ensures key { result.0.now ≡ (row_at self.now.rows at).key }
        ensures value { result.1.now ≡ (row_at self.now.rows at).value }
        ensures key_fits { length result.0.now ≤ KEY_BYTES }
        ensures value_fits { length result.1.now ≤ VALUE_BYTES }
    {
        let row = slot_of(&self.segments, at, self.shift, self.stride);
        (key_of(row), value_of(row))
    }

    /// Returns the key of a row.
    #[inline(always)]
    pub(crate) fn key(&self, at: usize) -> &[u8]
        requires { at < length self.now.rows }
        ensures value { result.now ≡ (row_at self.now.rows at).key }
    {
        let row = slot_of(&self.segments, at, self.shift, self.stride);
        key_of(row)
    }

    /// Returns the position whose location names a row.
    #[inline(always)]
    pub(crate) fn owner(&self, at: usize) -> usize
        requires { at < length self.now.rows }
        ensures value { result ≡ (row_at self.now.rows at).owner }
    {
        let row = slot_of(&self.segments, at, self.shift, self.stride);
        owner_of(row)
    }

    /// Sets the value of a row.
    #[inline(always)]
    pub(crate) fn set_value(&mut self, at: usize, value: &[u8])
        requires range { at < length self.old.rows }
        requires fit { length (row_at self.old.rows at).key + length value.now ≤ self.old.most }
        requires value { length value.now ≤ VALUE_BYTES }
        ensures rows { self.new.rows ≡ set self.old.rows at (kept (row_at self.old.rows at).key value.now (row_at self.old.rows at).owner) }
        ensures rest { IsSameBut self.old self.new }
        ensures few { AreFew self.new }
    {
        let (index, start) = place_of(at, self.shift, self.stride);
        let segment = &mut self.segments[index];
        segment.set_value(start, self.stride, value);
    }

    /// Writes into a row which position's location names it.
    #[inline(always)]
    pub(crate) fn set_owner(&mut self, at: usize, owner: usize)
        requires range { at < length self.old.rows }
        ensures rows { self.new.rows ≡ set self.old.rows at (kept (row_at self.old.rows at).key (row_at self.old.rows at).value owner) }
        ensures rest { IsSameBut self.old self.new }
        ensures few { AreFew self.new }
    {
        let (index, start) = place_of(at, self.shift, self.stride);
        let segment = &mut self.segments[index];
        segment.set_owner(start, self.stride, owner);
    }

    /// Adds a row after the others. If the segments are full, takes a free one. Returns how many bytes it touched first.
    #[inline(always)]
    pub(crate) fn push(
        &mut self,
        free: &mut Vec<Segment>,
        owner: usize,
        key: &[u8],
        value: &[u8],
    ) -> usize
        requires spare { 0 < length free.old.items }
        requires near { length self.old.rows < 2 ^ 56 }
        requires limit { length self.old.rows < self.old.limit }
        requires fit { length key.now + length value.now ≤ self.old.most }
        requires key { length key.now ≤ KEY_BYTES }
        requires value { length value.now ≤ VALUE_BYTES }
        ensures rows { self.new.rows ≡ self.old.rows ++ kept key.now value.now owner ∷ [] }
        ensures most { self.new.most ≡ self.old.most }
        ensures limit { self.new.limit ≡ self.old.limit }
        ensures few { AreFew self.new }
        ensures segments { self.new.segments + length free.new.items ≡ self.old.segments + length free.old.items }
        ensures list { vec_capacity free.new ≡ vec_capacity free.old }
    {
        open_slot(&mut self.segments, free, self.many, self.shift);
        let (index, start) = place_of(self.many, self.shift, self.stride);
        let segment = &mut self.segments[index];
        let touched = segment.write(start, self.stride, owner, key, value);
        self.many += 1;
        touched
    }

    /// Returns how many bytes the next row would touch first.
    pub(crate) fn untouched(&self, free: &Vec<Segment>) -> usize {
        let (index, start) = place_of(self.many, self.shift, self.stride);
        let end = start + self.stride;
        if index < self.segments.len() {
            let segment = &self.segments[index];
            return segment.untouched(end);
        }
        match free.last() {
            Some(segment) => segment.untouched(end),
            None => end,
        }
    }

    /// Removes a row; the last one takes the gap. Returns the owner of the last one. If no row is left in a segment, it is
    /// free.
    pub(crate) fn swap_remove(&mut self, free: &mut Vec<Segment>, at: usize) -> usize
        requires range { at < length self.old.rows }
        requires list { self.old.segments + length free.old.items ≤ vec_capacity free.old }
        ensures owner { result ≡ (row_at self.old.rows (length self.old.rows - 1)).owner }
        ensures rows { self.new.rows ≡ swap_remove self.old.rows at nobody }
        ensures most { self.new.most ≡ self.old.most }
        ensures limit { self.new.limit ≡ self.old.limit }
        ensures few { AreFew self.new }
        ensures segments { self.new.segments + length free.new.items ≡ self.old.segments + length free.old.items }
        ensures list { vec_capacity free.new ≡ vec_capacity free.old }
    {
        let last = self.many - 1;
        let owner = owner_of(slot_of(&self.segments, last, self.shift, self.stride));
        copy_row(&mut self.segments, last, at, (self.shift, self.stride));
        self.many = last;
        close_slot(&mut self.segments, free, last, self.shift);
        owner
    }

    /// Makes room in the list for the segments of this many rows. Returns `NoMemory` if the request for it is refused.
    pub(crate) fn reserve(&mut self, rows: usize) -> Result<(), NoMemory>
        requires { rows ≤ 2 ^ 56 }
        ensures rows { self.new.rows ≡ self.old.rows }
        ensures most { self.new.most ≡ self.old.most }
        ensures segments { self.new.segments ≡ self.old.segments }
        ensures limit { self.old.limit ≤ self.new.limit }
        ensures ok { OnOk result (rows ≤ self.new.limit) }
    {
        let wanted = (rows >> self.shift) + 1;
        if self.segments.capacity() < wanted {
            self.segments.try_reserve(wanted - self.segments.len())?;
        }
        Ok(())
    }
}

/// A segment's rows begin after this many bytes. If the system maps memory for a segment, the allocator takes the first 16 bytes
/// of a page. So the first row begins at a line of the cache, and short rows, of 32 bytes, lie two in a line.
pub const FRONT_BYTES: usize = 48;
/// The number of bytes of a segment: those, and 512 of the longest rows.
pub const SEGMENT_BYTES: usize = 564_272;

/// Bytes with room for `SEGMENT_BYTES`. It is only as long as rows needed so far, so nothing beyond is touched.
#[derive(Drop)]
pub struct Segment {
    bytes: Vec<u8>,
}

impl Model for Segment {
    ghost use Rattle.std.specs.Prelude.{List, ℕ, ◌≤◌, vec_capacity};
    ghost use Rattle.bins.specs.declared.width_rows.TheConstants.{SEGMENT_BYTES};

    ghost Value = { List ℕ };

    ghost view = { λ segment. segment.bytes.items };

    ghost invariant = { λ segment. SEGMENT_BYTES ≤ vec_capacity segment.bytes };
}

impl Segment {
    /// Makes an empty segment. Returns `NoMemory` if the request for its memory is refused.
    pub(crate) fn new(alloc: Global) -> Result<Segment, NoMemory> {
        let bytes = Vec::with_capacity(alloc, SEGMENT_BYTES)?;
        Ok(Segment { bytes })
    }

    /// Returns some of its bytes.
    #[inline(always)]
    pub(crate) fn row(&self, start: usize, stride: usize) -> &[u8]
        requires { start + stride ≤ length self.now }
        ensures value { result.now ≡ part self.now start stride }
        ensures wide { length result.now ≡ stride }
    {
        &self.bytes[start..start + stride]
    }

    /// Returns how many of its bytes were touched so far.
    pub(crate) fn touched(&self) -> usize {
        self.bytes.len()
    }

    /// Returns how many bytes up to this end were not touched yet.
    pub(crate) fn untouched(&self, end: usize) -> usize {
        end.saturating_sub(self.bytes.len())
    }

    /// Makes it at least this many bytes long; new bytes are zero. Returns how many are new.
    #[inline(always)]
    fn reach(&mut self, end: usize) -> usize
        requires { end ≤ SEGMENT_BYTES }
        ensures enough { end ≤ length self.new }
        ensures all { KeepsAll self.old self.new }
    {
        let more = self.untouched(end);
        if self.bytes.len() < end {
            let grown = self.bytes.resize(end, 0);
            prove!(grown.is_ok());
        }
        more
    }

    /// Writes a row of this many bytes. Returns how many bytes of the segment it touched first.
    #[inline(always)]
    pub(crate) fn write(
        &mut self,
        start: usize,
        stride: usize,
        owner: usize,
        key: &[u8],
        value: &[u8],
    ) -> usize
        requires range { start + stride ≤ SEGMENT_BYTES }
        requires fit { HEAD_BYTES + length key.now + length value.now ≤ stride }
        requires key { length key.now ≤ KEY_BYTES }
        requires value { length value.now ≤ VALUE_BYTES }
        ensures holds { HoldsSlot (part self.new start stride) stride }
        ensures row { row_in (part self.new start stride) ≡ kept key.now value.now owner }
        ensures others { KeepsOthers start stride self.old self.new }
    {
        let touched = self.reach(start + stride);
        write(&mut self.bytes[start..start + stride], owner, key, value);
        touched
    }

    /// Sets the value of a row.
    #[inline(always)]
    pub(crate) fn set_value(&mut self, start: usize, stride: usize, value: &[u8])
        requires range { start + stride ≤ length self.old }
        requires old { HoldsRow (part self.old start stride) }
        requires fit { HEAD_BYTES + length (row_in (part self.old start stride)).key + length value.now ≤ stride }
        requires value { length value.now ≤ VALUE_BYTES }
        ensures holds { HoldsSlot (part self.new start stride) stride }
        ensures row { row_in (part self.new start stride) ≡ kept (row_in (part self.old start stride)).key value.now
            (row_in (part self.old start stride)).owner }
        ensures others { KeepsOthers start stride self.old self.new }
    {
        set_value(&mut self.bytes[start..start + stride], value);
    }

    /// Writes into a row which position's location names it.
    #[inline(always)]
    pub(crate) fn set_owner(&mut self, start: usize, stride: usize, owner: usize)
        requires range { start + stride ≤ length self.old }
        requires old { HoldsRow (part self.old start stride) }
        ensures holds { HoldsSlot (part self.new start stride) stride }
        ensures row { row_in (part self.new start stride) ≡ kept (row_in (part self.old start stride)).key
            (row_in (part self.old start stride)).value owner }
        ensures others { KeepsOthers start stride self.old self.new }
    {
        set_owner(&mut self.bytes[start..start + stride], owner);
    }

    /// Copies a row over another.
    #[inline(always)]
    pub(crate) fn copy_from(&mut self, start: usize, row: &[u8])
        requires range { start + length row.now ≤ length self.old }
        ensures row { part self.new start (length row.now) ≡ row.now }
        ensures others { KeepsOthers start (length row.now) self.old self.new }
    {
        self.bytes[start..start + row.len()].copy_from_slice(row);
    }

    /// Copies one of its own rows over another.
    #[inline(always)]
    pub(crate) fn copy_within(&mut self, from: usize, start: usize, stride: usize)
        requires range { start + stride ≤ length self.old }
        requires from { from + stride ≤ length self.old }
        ensures row { part self.new start stride ≡ part self.old from stride }
        ensures others { KeepsOthers start stride self.old self.new }
    {
        self.bytes.copy_within(from..from + stride, start);
    }
}

/// The bytes that a row takes beside its key and its value: eight for its owner, two for the key's length and four for the
/// value's.
pub const HEAD_BYTES: usize = 14;

/// Returns the length of a key, read from two bytes.
#[inline(always)]
#[tactic(auto, unfolding(crate::specs::KeptRows::number, crate::specs::KeptRows::word_of))]
fn key_length(bytes: &[u8]) -> usize
    requires { 2 ≤ length bytes.now }
    ensures value { result ≡ number 2 bytes.now }
{
    LittleEndian::read_u16(bytes) as usize
}

/// Writes the length of a key.
#[inline(always)]
#[tactic(auto, unfolding(crate::specs::KeptRows::number, crate::specs::KeptRows::word_of))]
fn put_key_length(bytes: &mut [u8], many: usize)
    requires range { 2 ≤ length bytes.old }
    requires small { many < 2 ^ 16 }
    ensures after { bytes.new ≡ word_of 2 many ++ drop 2 bytes.old }
{
    LittleEndian::write_u16(bytes, many as u16);
}

/// Returns the length of a value, read from four bytes.
#[inline(always)]
#[tactic(auto, unfolding(crate::specs::KeptRows::number, crate::specs::KeptRows::word_of))]
fn value_length(bytes: &[u8]) -> usize
    requires { 4 ≤ length bytes.now }
    ensures value { result ≡ number 4 bytes.now }
{
    LittleEndian::read_u32(bytes) as usize
}

/// Writes the length of a value.
#[inline(always)]
#[tactic(auto, unfolding(crate::specs::KeptRows::number, crate::specs::KeptRows::word_of))]
fn put_value_length(bytes: &mut [u8], many: usize)
    requires range { 4 ≤ length bytes.old }
    requires small { many < 2 ^ 32 }
    ensures after { bytes.new ≡ word_of 4 many ++ drop 4 bytes.old }
{
    LittleEndian::write_u32(bytes, many as u32);
}

/// Returns the owner of a row, read from eight bytes.
#[inline(always)]
#[tactic(auto, unfolding(crate::specs::KeptRows::number, crate::specs::KeptRows::word_of))]
fn owner_at(bytes: &[u8]) -> usize
    requires { 8 ≤ length bytes.now }
    ensures value { result ≡ number 8 bytes.now }
{
    LittleEndian::read_u64(bytes) as usize
}

/// Writes the owner of a row.
#[inline(always)]
#[tactic(auto, unfolding(crate::specs::KeptRows::number, crate::specs::KeptRows::word_of))]
fn put_owner(bytes: &mut [u8], owner: usize)
    requires { 8 ≤ length bytes.old }
    ensures after { bytes.new ≡ word_of 8 owner ++ drop 8 bytes.old }
{
    LittleEndian::write_u64(bytes, owner as u64);
}

/// Returns the key of a row.
#[inline(always)]
pub(crate) fn key_of(row: &[u8]) -> &[u8]
    requires { HoldsRow row.now }
    ensures value { result.now ≡ key_in row.now }
    ensures fits { length result.now ≤ KEY_BYTES }
{
    let len = key_length(&row[8..]);
    &row[10..10 + len]
}

/// Returns the value of a row.
#[inline(always)]
pub(crate) fn value_of(row: &[u8]) -> &[u8]
    requires { HoldsRow row.now }
    ensures value { result.now ≡ value_in row.now }
    ensures fits { length result.now ≤ VALUE_BYTES }
{
    let start = 10 + key_length(&row[8..]);
    let len = value_length(&row[start..]);
    &row[start + 4..start + 4 + len]
}

/// Returns the position whose location names the row.
#[inline(always)]
pub(crate) fn owner_of(row: &[u8]) -> usize
    requires { HoldsRow row.now }
    ensures value { result ≡ (row_in row.now).owner }
{
    owner_at(row)
}

/// Writes into a row which position's location names it.
#[inline(always)]
pub(crate) fn set_owner(row: &mut [u8], owner: usize)
    requires { HoldsRow row.old }
    ensures row { row_in row.new ≡ kept (row_in row.old).key (row_in row.old).value owner }
    ensures holds { HoldsRow row.new }
    ensures same { length row.new ≡ length row.old }
{
    put_owner(row, owner);
}

/// Writes a string at the start of these bytes. If it has eight bytes, as a number has, they are written as one word.
#[inline(always)]
fn put_bytes(rest: &mut [u8], bytes: &[u8])
    requires { length bytes.now ≤ length rest.old }
    ensures after { rest.new ≡ bytes.now ++ drop (length bytes.now) rest.old }
{
    match <[u8; 8]>::try_from(bytes) {
        Ok(number) => rest[..8].copy_from_slice(&number),
        Err(_) => rest[..bytes.len()].copy_from_slice(bytes),
    }
}

/// Writes a value at the start of these bytes, after its length.
#[inline(always)]
fn put_value(rest: &mut [u8], value: &[u8])
    requires range { 4 + length value.now ≤ length rest.old }
    requires fits { length value.now ≤ VALUE_BYTES }
    ensures after { rest.new ≡ word_of 4 (length value.now) ++ (value.now ++ drop (4 + length value.now) rest.old) }
{
    put_value_length(rest, value.len());
    put_bytes(&mut rest[4..], value);
}

/// Writes a key at the start of these bytes, after its length.
#[inline(always)]
fn put_key(rest: &mut [u8], key: &[u8])
    requires range { 2 + length key.now ≤ length rest.old }
    requires fits { length key.now ≤ KEY_BYTES }
    ensures after { rest.new ≡ word_of 2 (length key.now) ++ (key.now ++ drop (2 + length key.now) rest.old) }
{
    put_key_length(rest, key.len());
    put_bytes(&mut rest[2..], key);
}

/// Writes a key and a value at the start of these bytes, each after its length.
#[inline(always)]
fn put_strings(rest: &mut [u8], key: &[u8], value: &[u8])
    requires range { 6 + length key.now + length value.now ≤ length rest.old }
    requires key { length key.now ≤ KEY_BYTES }
    requires value { length value.now ≤ VALUE_BYTES }
    ensures after { rest.new ≡ word_of 2 (length key.now) ++ (key.now ++ (word_of 4 (length value.now) ++ (value.now ++ drop (6 + length key.now + length value.now) rest.old))) }
{
    put_key(rest, key);
    put_value(&mut rest[2 + key.len()..], value);
}

/// Writes a row.
#[inline(always)]
pub(crate) fn write(row: &mut [u8], owner: usize, key: &[u8], value: &[u8])
    requires range { HEAD_BYTES + length key.now + length value.now ≤ length row.old }
    requires key { length key.now ≤ KEY_BYTES }
    requires value { length value.now ≤ VALUE_BYTES }
    ensures row { row_in row.new ≡ kept key.now value.now owner }
    ensures holds { HoldsRow row.new }
    ensures same { length row.new ≡ length row.old }
{
    put_owner(row, owner);
    put_strings(&mut row[8..], key, value);
}

/// Sets the value of a row.
#[inline(always)]
pub(crate) fn set_value(row: &mut [u8], value: &[u8])
    requires holds { HoldsRow row.old }
    requires range { HEAD_BYTES + length (row_in row.old).key + length value.now ≤ length row.old }
    requires value { length value.now ≤ VALUE_BYTES }
    ensures row { row_in row.new ≡ kept (row_in row.old).key value.now (row_in row.old).owner }
    ensures holds { HoldsRow row.new }
    ensures same { length row.new ≡ length row.old }
{
    let start = 10 + key_length(&row[8..]);
    put_value(&mut row[start..], value);
}
