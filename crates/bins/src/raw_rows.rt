//! Rows in segments, and for each position the location of its row. A row names its position too. So when a row goes, the
//! last one of its width takes the gap, and the position of that last one gets the new location.
ghost use Rattle.std.specs.Prelude.{◌≡◌, ◌+◌, ◌-◌, ◌<◌, ◌≤◌, ◌++◌, [], ◌∷◌, length, set, IfSome, IfNone, IsTrue, OnOk, OnErr, ◌↔◌};
ghost use Rattle.std.specs.List.{swap_remove};
ghost use Rattle.bins.specs.KeptRows.{kept, nobody, location_at, row_at, string_at, with_rows};
ghost use Rattle.bins.specs.Rows.{AreIn, AreWidths, FitIn, IsKept, IsRoomy, keys_in, lists_in, rows_in, used, values_in, width_at};
ghost use Rattle.bins.specs.declared.locations.Location.TheVariants.{In, Vacant};

use crate::growth::{least_room, make_room_for};
use crate::locations::{Location, LocationWord, MOST_ROWS, Width};
use crate::pool::{
    SEGMENT_HEAD, WIDTHS, add_segments, count_used, open_widths, touched_past, wanted_for, widen,
};
use crate::width_rows::{Segment, WidthRows, are_same};
use bpf_model::limits::{KEY_BYTES, VALUE_BYTES};
use bpf_model::{Key, NoMemory};
use std::alloc::Global;

/// What room for a location takes, with its share of the lists of segments.
const LOCATION_BYTES: usize = 10;

/// The locations of rows, and the rows.
#[derive(Drop)]
pub(crate) struct RawRows {
    // The width of the row that was added last.
    latest: Width,
    locations: Vec<LocationWord>,
    widths: Vec<WidthRows>,
    free: Vec<Segment>,
    room: usize,
    // The bytes of segments that were touched so far, and a page for each segment.
    touched: usize,
}

impl RawRows {
    /// Makes a list without rows.
    pub(crate) fn new(alloc: Global) -> RawRows
        ensures kept { IsKept result }
        ensures keys { keys_in result ≡ [] }
        ensures values { values_in result ≡ [] }
    {
        RawRows {
            latest: Width { step: 0 },
            locations: Vec::new(alloc),
            widths: Vec::new(alloc),
            free: Vec::new(alloc),
            room: 0,
            touched: 0,
        }
    }

    /// Returns how many bytes were touched, or may be: the locations that have room, and those bytes of segments that were
    /// touched so far.
    pub(crate) fn bytes(&self) -> usize {
        let listed = self.room.saturating_mul(LOCATION_BYTES);
        self.touched.saturating_add(listed)
    }

    /// Returns how many bytes a new row of this many for key and value would touch first.
    pub(crate) fn untouched(&self, bytes: usize) -> usize
        requires room { IsRoomy self.now }
        requires fits { bytes ≤ KEY_BYTES + VALUE_BYTES }
    {
        if self.widths.is_empty() {
            return SEGMENT_HEAD;
        }
        let width = self.width_of(bytes);
        let rows = &self.widths[width.step];
        rows.untouched(&self.free)
    }

    /// Returns whether one more position has no room.
    #[inline(always)]
    pub(crate) fn is_full(&self) -> bool {
        self.locations.len() >= self.room
    }

    /// Returns the number of positions.
    #[inline(always)]
    pub(crate) fn len(&self) -> usize
        ensures value { result ≡ length self.now.locations.items }
    {
        self.locations.len()
    }

    /// Returns the key and the value of a row.
    #[inline(always)]
    fn entry_in(&self, width: Width, at: usize) -> (&[u8], &[u8])
        requires { at < length (rows_in self.now width) }
        ensures key { result.0.now ≡ (row_at (rows_in self.now width) at).key }
        ensures value { result.1.now ≡ (row_at (rows_in self.now width) at).value }
        ensures key_fits { length result.0.now ≤ KEY_BYTES }
        ensures value_fits { length result.1.now ≤ VALUE_BYTES }
    {
        let rows = &self.widths[width.step];
        rows.entry(at)
    }

    /// Sets the value of a row.
    #[inline(always)]
    fn set_value_in(&mut self, width: Width, at: usize, value: &[u8])
        requires room { IsRoomy self.old }
        requires range { at < length (rows_in self.old width) }
        requires fit { FitIn self.old width (length (row_at (rows_in self.old width) at).key) (length value.now) }
        ensures rows { lists_in self.new ≡ with_rows (lists_in self.old) width (set (rows_in self.old width) at
            (kept (row_at (rows_in self.old width) at).key value.now (row_at (rows_in self.old width) at).owner)) }
        ensures locations { self.new.locations ≡ self.old.locations }
        ensures room { IsRoomy self.new }
        ensures same { self.new.room ≡ self.old.room }
    {
        let rows = &mut self.widths[width.step];
        rows.set_value(at, value);
    }

    /// Writes into a row which position's location names it.
    #[inline(always)]
    fn move_in(&mut self, width: Width, at: usize, owner: usize)
        requires room { IsRoomy self.old }
        requires range { at < length (rows_in self.old width) }
        ensures rows { lists_in self.new ≡ with_rows (lists_in self.old) width (set (rows_in self.old width) at
            (kept (row_at (rows_in self.old width) at).key (row_at (rows_in self.old width) at).value owner)) }
        ensures locations { self.new.locations ≡ self.old.locations }
        ensures room { IsRoomy self.new }
        ensures same { self.new.room ≡ self.old.room }
    {
        let rows = &mut self.widths[width.step];
        rows.set_owner(at, owner);
    }

    /// Adds a row after the others of its width.
    #[inline(always)]
    fn add_in(&mut self, width: Width, owner: usize, key: &[u8], value: &[u8])
        requires room { IsRoomy self.old }
        requires range { width.step < length self.old.widths.items }
        requires spare { 0 < length self.old.free.items }
        requires few { length (rows_in self.old width) < self.old.room }
        requires fit { FitIn self.old width (length key.now) (length value.now) }
        requires key { length key.now ≤ KEY_BYTES }
        ensures rows { lists_in self.new ≡ with_rows (lists_in self.old) width
            (rows_in self.old width ++ kept key.now value.now owner ∷ []) }
        ensures locations { self.new.locations ≡ self.old.locations }
        ensures room { IsRoomy self.new }
        ensures same { self.new.room ≡ self.old.room }
    {
        let rows = &mut self.widths[width.step];
        let touched = rows.push(&mut self.free, owner, key, value);
        self.touched = self.touched.saturating_add(touched);
    }

    /// Removes a row; the last one of its width takes the gap. Returns the owner of the last one.
    #[inline(always)]
    fn remove_in(&mut self, width: Width, at: usize) -> usize
        requires room { IsRoomy self.old }
        requires range { at < length (rows_in self.old width) }
        ensures owner { result ≡ (row_at (rows_in self.old width) (length (rows_in self.old width) - 1)).owner }
        ensures rows { lists_in self.new ≡ with_rows (lists_in self.old) width (swap_remove (rows_in self.old width) at nobody) }
        ensures locations { self.new.locations ≡ self.old.locations }
        ensures room { IsRoomy self.new }
        ensures same { self.new.room ≡ self.old.room }
    {
        let rows = &mut self.widths[width.step];
        rows.swap_remove(&mut self.free, at)
    }

    /// Returns the number of rows of a width.
    #[inline(always)]
    fn len_in(&self, width: Width) -> usize
        requires { width.step < length self.now.widths.items }
        ensures value { result ≡ length (rows_in self.now width) }
    {
        let rows = &self.widths[width.step];
        rows.len()
    }

    /// Returns the owner of a row.
    #[inline(always)]
    fn owner_in(&self, width: Width, at: usize) -> usize
        requires { at < length (rows_in self.now width) }
        ensures value { result ≡ (row_at (rows_in self.now width) at).owner }
    {
        let rows = &self.widths[width.step];
        rows.owner(at)
    }

    /// Returns whether all rows have the width of the latest.
    #[inline(always)]
    fn has_line(&self) -> bool
        ensures all { IsTrue result → length (rows_in self.now self.now.latest) ≡ length self.now.locations.items }
    {
        let step = self.latest.step;
        if step >= self.widths.len() {
            return false;
        }
        let rows = &self.widths[step];
        rows.len() == self.locations.len()
    }

    /// Returns whether all rows have one width and this position owns the row at the same place among them.
    #[inline(always)]
    fn is_in_line(&self, position: usize) -> bool
        requires rows { AreIn self.now }
        requires range { position < length self.now.locations.items }
        ensures location { IsTrue result → location_at self.now.locations.items position ≡ In self.now.latest position }
    {
        self.has_line() && self.owner_in(self.latest, position) == position
    }

    /// Returns the location of a position. If all rows have one width, it mostly follows from the row itself. Then a search
    /// doesn't wait for the list of locations before it reads the row.
    #[inline(always)]
    fn location(&self, position: usize) -> Location
        requires rows { AreIn self.now }
        requires range { position < length self.now.locations.items }
        ensures value { result ≡ location_at self.now.locations.items position }
    {
        if self.is_in_line(position) {
            return Location::In(self.latest, position);
        }
        let word = &self.locations[position];
        word.get()
    }

    /// Returns the key and the value at a position.
    #[inline(always)]
    pub(crate) fn entry(&self, position: usize) -> (&[u8], &[u8])
        requires rows { AreIn self.now }
        requires range { position < length self.now.locations.items }
        ensures key { result.0.now ≡ string_at (keys_in self.now) position }
        ensures value { result.1.now ≡ string_at (values_in self.now) position }
        ensures key_fits { length result.0.now ≤ KEY_BYTES }
        ensures value_fits { length result.1.now ≤ VALUE_BYTES }
    {
        match self.location(position) {
            Location::Vacant => (&[], &[]),
            Location::In(width, at) => self.entry_in(width, at),
        }
    }

    /// Gives up the row of a position.
    fn vacate(&mut self, position: usize)
        requires rows { AreIn self.old }
        requires range { position < length self.old.locations.items }
        requires room { IsRoomy self.old }
        ensures rows { AreIn self.new }
        ensures keys { keys_in self.new ≡ set (keys_in self.old) position [] }
        ensures values { values_in self.new ≡ set (values_in self.old) position [] }
        ensures vacant { location_at self.new.locations.items position ≡ Vacant }
        ensures many { length self.new.locations.items ≡ length self.old.locations.items }
        ensures room { IsRoomy self.new }
        ensures same { self.new.room ≡ self.old.room }
    {
        if let Location::In(width, at) = self.location(position) {
            let owner = self.remove_in(width, at);
            self.locations[owner] = LocationWord::new(Location::In(width, at));
            self.locations[position] = LocationWord::new(Location::Vacant);
        }
    }

    /// Returns the narrowest width that has room for this many bytes.
    #[inline(always)]
    fn width_of(&self, bytes: usize) -> Width
        requires widths { AreWidths self.now.widths.items }
        requires fits { bytes ≤ KEY_BYTES + VALUE_BYTES }
        ensures range { result.step < WIDTHS }
        ensures fit { bytes ≤ (width_at self.now.widths.items result.step).most }
    {
        for step in 0..WIDTHS - 1 {
            let rows = &self.widths[step];
            if rows.holds(bytes) {
                return Width { step };
            }
        }
        Width { step: WIDTHS - 1 }
    }

    /// Writes a key and a value into a new row of a vacant position, in the narrowest width that has room for them.
    #[inline(always)]
    fn fill(&mut self, position: usize, key: &[u8], value: &[u8])
        requires rows { AreIn self.old }
        requires range { position < length self.old.locations.items }
        requires vacant { location_at self.old.locations.items position ≡ Vacant }
        requires room { IsRoomy self.old }
        requires key { length key.now ≤ KEY_BYTES }
        requires value { length value.now ≤ VALUE_BYTES }
        ensures rows { AreIn self.new }
        ensures keys { keys_in self.new ≡ set (keys_in self.old) position key.now }
        ensures values { values_in self.new ≡ set (values_in self.old) position value.now }
        ensures many { length self.new.locations.items ≡ length self.old.locations.items }
        ensures room { IsRoomy self.new }
        ensures same { self.new.room ≡ self.old.room }
    {
        let width = self.width_of(key.len() + value.len());
        let at = self.len_in(width);
        self.add_in(width, position, key, value);
        self.locations[position] = LocationWord::new(Location::In(width, at));
        self.latest = width;
    }

    /// Gives a position a new row, with the same key and this value.
    #[inline(never)]
    fn refill(&mut self, position: usize, bytes: &[u8])
        requires rows { AreIn self.old }
        requires range { position < length self.old.locations.items }
        requires room { IsRoomy self.old }
        requires fits { length bytes.now ≤ VALUE_BYTES }
        ensures rows { AreIn self.new }
        ensures keys { keys_in self.new ≡ keys_in self.old }
        ensures values { values_in self.new ≡ set (values_in self.old) position bytes.now }
        ensures room { IsRoomy self.new }
        ensures same { self.new.room ≡ self.old.room }
    {
        let key = Key::from_slice(self.entry(position).0);
        let key = key.unwrap();
        self.vacate(position);
        self.fill(position, key.as_slice(), bytes);
    }

    /// Returns whether a row's width is the narrowest with this value too.
    #[inline(always)]
    fn stays(&self, width: Width, at: usize, bytes: &[u8]) -> bool
        requires range { at < length (rows_in self.now width) }
        requires fits { length bytes.now ≤ VALUE_BYTES }
        ensures fit { IsTrue result → FitIn self.now width (length (row_at (rows_in self.now width) at).key) (length bytes.now) }
    {
        let rows = &self.widths[width.step];
        rows.suits(rows.entry(at).0.len() + bytes.len())
    }

    /// Returns whether a width is the narrowest for this many bytes of a key and a value.
    #[inline(always)]
    fn suits(&self, width: Width, bytes: usize) -> bool
        requires { width.step < length self.now.widths.items }
        ensures fit { IsTrue result → bytes ≤ (width_at self.now.widths.items width.step).most }
    {
        let rows = &self.widths[width.step];
        rows.suits(bytes)
    }

    /// Sets the value of a position. If its row stays as wide, the value is written in place.
    #[inline(always)]
    pub(crate) fn set_value(&mut self, position: usize, bytes: &[u8])
        requires rows { AreIn self.old }
        requires range { position < length self.old.locations.items }
        requires room { IsRoomy self.old }
        requires fits { length bytes.now ≤ VALUE_BYTES }
        ensures rows { AreIn self.new }
        ensures keys { keys_in self.new ≡ keys_in self.old }
        ensures values { values_in self.new ≡ set (values_in self.old) position bytes.now }
        ensures room { IsRoomy self.new }
        ensures same { self.new.room ≡ self.old.room }
    {
        match self.location(position) {
            Location::In(width, at) if self.stays(width, at, bytes) => {
                self.set_value_in(width, at, bytes);
            }
            _ => self.refill(position, bytes),
        }
    }

    /// Returns whether a row has this key.
    #[inline(always)]
    fn has_key(&self, width: Width, at: usize, key: &[u8]) -> bool
        requires { at < length (rows_in self.now width) }
        ensures exact { IsTrue result ↔ ((row_at (rows_in self.now width) at).key ≡ key.now) }
    {
        let rows = &self.widths[width.step];
        are_same(rows.key(at), key)
    }

    /// Sets the value of the row with this key if that stays as wide. Returns its position if it did.
    #[inline(always)]
    fn overwrite(&mut self, width: Width, at: usize, key: &[u8], bytes: &[u8]) -> Option<usize>
        requires rows { AreIn self.old }
        requires range { at < length (rows_in self.old width) }
        requires key { (row_at (rows_in self.old width) at).key ≡ key.now }
        requires room { IsRoomy self.old }
        requires fits { length bytes.now ≤ VALUE_BYTES }
        ensures rows { AreIn self.new }
        ensures room { IsRoomy self.new }
        ensures range { IfSome result (λ position. position < length self.old.locations.items) }
        ensures keys { keys_in self.new ≡ keys_in self.old }
        ensures key { IfSome result (λ position. string_at (keys_in self.old) position ≡ key.now) }
        ensures values { IfSome result (λ position. values_in self.new ≡ set (values_in self.old) position bytes.now) }
        ensures not { IfNone result (self.new ≡ self.old) }
    {
        if self.suits(width, key.len() + bytes.len()) {
            let position = self.owner_in(width, at);
            self.set_value_in(width, at, bytes);
            return Some(position);
        }
        None
    }

    /// Does what `rewrite` does, for the row that the location names.
    #[inline(never)]
    fn rewrite_listed(&mut self, position: usize, key: &[u8], bytes: &[u8]) -> Option<usize>
        requires rows { AreIn self.old }
        requires room { IsRoomy self.old }
        requires fits { length bytes.now ≤ VALUE_BYTES }
        ensures rows { AreIn self.new }
        ensures room { IsRoomy self.new }
        ensures range { IfSome result (λ found. found < length self.old.locations.items) }
        ensures keys { keys_in self.new ≡ keys_in self.old }
        ensures key { IfSome result (λ found. string_at (keys_in self.old) found ≡ key.now) }
        ensures values { IfSome result (λ found. values_in self.new ≡ set (values_in self.old) found bytes.now) }
        ensures not { IfNone result (self.new ≡ self.old) }
    {
        if position >= self.locations.len() {
            return None;
        }
        match self.location(position) {
            Location::In(width, at) if self.has_key(width, at, key) => {
                self.overwrite(width, at, key, bytes)
            }
            _ => None,
        }
    }

    /// Sets the value of a key if its row is found at once by this position, and stays as wide. Returns the key's position if it
    /// did.
    #[inline(always)]
    pub(crate) fn rewrite(&mut self, position: usize, key: &[u8], bytes: &[u8]) -> Option<usize>
        requires rows { AreIn self.old }
        requires room { IsRoomy self.old }
        requires fits { length bytes.now ≤ VALUE_BYTES }
        ensures rows { AreIn self.new }
        ensures room { IsRoomy self.new }
        ensures range { IfSome result (λ found. found < length self.old.locations.items) }
        ensures keys { keys_in self.new ≡ keys_in self.old }
        ensures key { IfSome result (λ found. string_at (keys_in self.old) found ≡ key.now) }
        ensures values { IfSome result (λ found. values_in self.new ≡ set (values_in self.old) found bytes.now) }
        ensures not { IfNone result (self.new ≡ self.old) }
    {
        if position < self.locations.len()
            && self.has_line()
            && self.has_key(self.latest, position, key)
        {
            return self.overwrite(self.latest, position, key, bytes);
        }
        self.rewrite_listed(position, key, bytes)
    }

    /// Adds a vacant position after the others.
    #[inline(always)]
    fn push_vacant(&mut self)
        requires rows { AreIn self.old }
        requires room { IsRoomy self.old }
        requires few { length self.old.locations.items < self.old.room }
        ensures rows { AreIn self.new }
        ensures keys { keys_in self.new ≡ keys_in self.old ++ [] ∷ [] }
        ensures values { values_in self.new ≡ values_in self.old ++ [] ∷ [] }
        ensures vacant { location_at self.new.locations.items (length self.old.locations.items) ≡ Vacant }
        ensures many { length self.new.locations.items ≡ length self.old.locations.items + 1 }
        ensures room { IsRoomy self.new }
        ensures same { self.new.room ≡ self.old.room }
    {
        self.locations
            .push_reserved(LocationWord::new(Location::Vacant));
    }

    /// Adds a key and a value after the others.
    pub(crate) fn push_reserved(&mut self, key: &[u8], value: &[u8])
        requires rows { AreIn self.old }
        requires room { IsRoomy self.old }
        requires few { length self.old.locations.items < self.old.room }
        requires key { length key.now ≤ KEY_BYTES }
        requires value { length value.now ≤ VALUE_BYTES }
        ensures rows { AreIn self.new }
        ensures keys { keys_in self.new ≡ keys_in self.old ++ key.now ∷ [] }
        ensures values { values_in self.new ≡ values_in self.old ++ value.now ∷ [] }
        ensures many { length self.new.locations.items ≡ length self.old.locations.items + 1 }
        ensures room { IsRoomy self.new }
        ensures same { self.new.room ≡ self.old.room }
    {
        let position = self.locations.len();
        self.push_vacant();
        self.fill(position, key, value);
    }

    /// Adds a copy of another list's row after the others.
    #[inline(always)]
    fn push_from(&mut self, other: &RawRows, position: usize)
        requires rows { AreIn self.old }
        requires other { AreIn other.now }
        requires range { position < length other.now.locations.items }
        requires room { IsRoomy self.old }
        requires few { length self.old.locations.items < self.old.room }
        ensures rows { AreIn self.new }
        ensures keys { keys_in self.new ≡ keys_in self.old ++ string_at (keys_in other.now) position ∷ [] }
        ensures values { values_in self.new ≡ values_in self.old ++ string_at (values_in other.now) position ∷ [] }
        ensures many { length self.new.locations.items ≡ length self.old.locations.items + 1 }
        ensures room { IsRoomy self.new }
        ensures same { self.new.room ≡ self.old.room }
    {
        let (key, value) = other.entry(position);
        self.push_reserved(key, value);
    }

    /// Adds copies of all of another list's rows after the others.
    pub(crate) fn push_all(&mut self, other: &RawRows)
        requires rows { AreIn self.old }
        requires other { AreIn other.now }
        requires room { IsRoomy self.old }
        requires few { length self.old.locations.items + length other.now.locations.items ≤ self.old.room }
        ensures rows { AreIn self.new }
        ensures keys { keys_in self.new ≡ keys_in self.old ++ keys_in other.now }
        ensures values { values_in self.new ≡ values_in self.old ++ values_in other.now }
        ensures many { length self.new.locations.items ≡ length self.old.locations.items + length other.now.locations.items }
        ensures room { IsRoomy self.new }
        ensures same { self.new.room ≡ self.old.room }
    {
        for position in 0..other.len() {
            self.push_from(other, position);
        }
    }

    /// Removes a vacant position; the last position takes the gap.
    fn take_vacant(&mut self, position: usize)
        requires rows { AreIn self.old }
        requires range { position < length self.old.locations.items }
        requires vacant { location_at self.old.locations.items position ≡ Vacant }
        requires room { IsRoomy self.old }
        ensures rows { AreIn self.new }
        ensures keys { keys_in self.new ≡ swap_remove (keys_in self.old) position [] }
        ensures values { values_in self.new ≡ swap_remove (values_in self.old) position [] }
        ensures many { length self.new.locations.items ≤ length self.old.locations.items }
        ensures room { IsRoomy self.new }
    {
        let last = &self.locations[self.locations.len() - 1];
        if let Location::In(width, at) = last.get() {
            self.move_in(width, at, position);
        }
        self.locations.swap_remove(position);
    }

    /// Removes a position with its row; the last position takes the gap. Gives back to the allocator what is no longer
    /// needed.
    pub(crate) fn swap_remove(&mut self, position: usize)
        requires rows { AreIn self.old }
        requires range { position < length self.old.locations.items }
        requires room { IsRoomy self.old }
        ensures rows { AreIn self.new }
        ensures keys { keys_in self.new ≡ swap_remove (keys_in self.old) position [] }
        ensures values { values_in self.new ≡ swap_remove (values_in self.old) position [] }
        ensures many { length self.new.locations.items ≤ length self.old.locations.items }
        ensures room { IsRoomy self.new }
    {
        self.vacate(position);
        self.take_vacant(position);
        self.give_back();
    }

    /// Makes room for this many more positions. Returns `NoMemory` if a request for it is refused.
    #[inline(always)]
    pub(crate) fn reserve(&mut self, more: usize) -> Result<(), NoMemory>
        requires room { IsRoomy self.old }
        requires few { length self.old.locations.items + more ≤ MOST_ROWS }
        ensures ok { OnOk result (length self.new.locations.items + more ≤ self.new.room) }
        ensures locations { self.new.locations.items ≡ self.old.locations.items }
        ensures rows { lists_in self.new ≡ lists_in self.old }
        ensures room { IsRoomy self.new }
    {
        let many = self.locations.len() + more;
        if many <= self.room {
            return Ok(());
        }
        self.grow_for(many)
    }

    /// Makes room for this many positions, and for an eighth more if that is granted.
    #[inline(never)]
    fn grow_for(&mut self, many: usize) -> Result<(), NoMemory>
        requires room { IsRoomy self.old }
        requires more { self.old.room < many }
        requires few { many ≤ MOST_ROWS }
        ensures ok { OnOk result (many ≤ self.new.room) }
        ensures locations { self.new.locations.items ≡ self.old.locations.items }
        ensures rows { lists_in self.new ≡ lists_in self.old }
        ensures room { IsRoomy self.new }
    {
        let further = (many + many / 8).min(MOST_ROWS);
        match self.grow(further) {
            Ok(()) => Ok(()),
            Err(_) => self.grow(many),
        }
    }

    /// Makes room for one more position if there is none, and for at most this many further ones. Returns `NoMemory` if a
    /// request for it is refused.
    pub(crate) fn reserve_some(&mut self, further: usize) -> Result<(), NoMemory>
        requires room { IsRoomy self.old }
        requires few { length self.old.locations.items < MOST_ROWS }
        ensures locations { self.new.locations.items ≡ self.old.locations.items }
        ensures rows { lists_in self.new ≡ lists_in self.old }
        ensures room { IsRoomy self.new }
    {
        let many = self.locations.len() + 1;
        if many <= self.room {
            return Ok(());
        }
        let more = further.min(many / 8);
        self.grow((many + more).min(MOST_ROWS))
    }

    /// Makes room for this many positions. Returns `NoMemory` if a request for it is refused.
    fn grow(&mut self, many: usize) -> Result<(), NoMemory>
        requires room { IsRoomy self.old }
        requires more { self.old.room < many }
        requires few { many ≤ MOST_ROWS }
        ensures ok { OnOk result (many ≤ self.new.room) }
        ensures err { OnErr result (self.new.room ≡ self.old.room) }
        ensures locations { self.new.locations.items ≡ self.old.locations.items }
        ensures rows { lists_in self.new ≡ lists_in self.old }
        ensures room { IsRoomy self.new }
    {
        self.open()?;
        let more = many - self.locations.len();
        make_room_for(&mut self.locations, more, size_of::<LocationWord>())?;
        widen(&mut self.widths, many)?;
        let used = count_used(&self.widths);
        let free = self.free.len();
        let added = add_segments(&mut self.free, used, wanted_for(many));
        let heads = (self.free.len() - free).saturating_mul(SEGMENT_HEAD);
        self.touched = self.touched.saturating_add(heads);
        added?;
        self.room = many;
        Ok(())
    }

    /// Makes lists for the rows of each width, if there are none yet. Returns `NoMemory` if a request for them is refused.
    fn open(&mut self) -> Result<(), NoMemory>
        requires room { IsRoomy self.old }
        ensures ok { OnOk result (AreWidths self.new.widths.items) }
        ensures locations { self.new.locations.items ≡ self.old.locations.items }
        ensures rows { lists_in self.new ≡ lists_in self.old }
        ensures room { IsRoomy self.new }
        ensures same { self.new.room ≡ self.old.room }
    {
        if self.widths.is_empty() {
            self.widths = open_widths(*self.widths.allocator())?;
        }
        Ok(())
    }

    /// Gives memory back to the allocator if there are few entries beside those that have room, or none.
    #[inline(always)]
    fn give_back(&mut self)
        requires rows { AreIn self.old }
        requires room { IsRoomy self.old }
        ensures locations { self.new.locations.items ≡ self.old.locations.items }
        ensures rows { lists_in self.new ≡ lists_in self.old }
        ensures room { IsRoomy self.new }
    {
        let few = self.locations.len();
        if self.room >= 16 && few == 0 {
            self.clear();
        } else if self.room >= 64 && few < self.room / 4 {
            self.shrink();
        }
    }

    /// Gives all memory back to the allocator, if there is no position. Small lists that stayed would keep the allocator from
    /// giving back what lies before them.
    #[inline(never)]
    fn clear(&mut self)
        requires rows { AreIn self.old }
        requires none { length self.old.locations.items ≡ 0 }
        ensures locations { self.new.locations.items ≡ self.old.locations.items }
        ensures rows { lists_in self.new ≡ lists_in self.old }
        ensures room { IsRoomy self.new }
    {
        *self = RawRows::new(*self.locations.allocator());
    }

    /// Gives back to the allocator what no position may come to need: free segments, and the end of the list of locations.
    #[inline(never)]
    fn shrink(&mut self)
        requires room { IsRoomy self.old }
        ensures locations { self.new.locations.items ≡ self.old.locations.items }
        ensures rows { lists_in self.new ≡ lists_in self.old }
        ensures room { IsRoomy self.new }
    {
        let few = self.locations.len();
        let room = (few + few / 8).min(self.room);
        let used = count_used(&self.widths);
        let kept = wanted_for(room).saturating_sub(used);
        self.touched = self.touched.saturating_sub(touched_past(&self.free, kept));
        self.free.truncate(kept);
        let least = least_room(size_of::<LocationWord>());
        self.locations.shrink_to(room.max(least));
        self.room = room;
    }
}
