//! The lists of rows of each width, and the segments for them. Any width may use a free segment.
ghost use Rattle.std.specs.Prelude.{◌≡◌, ℕ, ◌+◌, ◌<◌, ◌≤◌, ◌^◌, length, IfOk, OnOk, vec_capacity};
ghost use Rattle.bins.specs.Rows.{AreEmpty, AreWider, AreWidths, segments_for, used, width_at};

use crate::growth::make_room_for;
use crate::locations::MOST_ROWS;
use crate::width_rows::{Segment, WidthRows};
use bpf_model::NoMemory;
use std::alloc::Global;

/// The number of widths.
pub const WIDTHS: usize = 17;
/// What an untouched segment takes: the allocator writes before it, into one page.
pub(crate) const SEGMENT_HEAD: usize = 4_096;

/// Makes lists for the rows of each width. The numbers are the fewest and the most bytes of a key and a value together; a
/// segment holds two to the power of the last number of such rows. Returns `NoMemory` if the request for the list's memory
/// is refused.
pub(crate) fn open_widths(alloc: Global) -> Result<Vec<WidthRows>, NoMemory>
    ensures widths { IfOk result (λ widths. AreWidths widths.items) }
    ensures empty { IfOk result (λ widths. AreEmpty widths.items) }
{
    let mut widths = Vec::with_capacity(alloc, WIDTHS)?;
    widths.push_reserved(WidthRows::new(alloc, 0, 18, 14));
    widths.push_reserved(WidthRows::new(alloc, 19, 32, 13));
    widths.push_reserved(WidthRows::new(alloc, 33, 48, 13));
    widths.push_reserved(WidthRows::new(alloc, 49, 64, 12));
    widths.push_reserved(WidthRows::new(alloc, 65, 80, 12));
    widths.push_reserved(WidthRows::new(alloc, 81, 100, 12));
    widths.push_reserved(WidthRows::new(alloc, 101, 128, 11));
    widths.push_reserved(WidthRows::new(alloc, 129, 160, 11));
    widths.push_reserved(WidthRows::new(alloc, 161, 200, 11));
    widths.push_reserved(WidthRows::new(alloc, 201, 248, 11));
    widths.push_reserved(WidthRows::new(alloc, 249, 312, 10));
    widths.push_reserved(WidthRows::new(alloc, 313, 392, 10));
    widths.push_reserved(WidthRows::new(alloc, 393, 488, 10));
    widths.push_reserved(WidthRows::new(alloc, 489, 608, 9));
    widths.push_reserved(WidthRows::new(alloc, 609, 752, 9));
    widths.push_reserved(WidthRows::new(alloc, 753, 912, 9));
    widths.push_reserved(WidthRows::new(alloc, 913, 1_088, 9));
    Ok(widths)
}

/// Returns how many segments there are at least if this many positions have room. Rows of one width leave less than a segment
/// unused, and a segment holds 512 rows or more, so any mix of widths fits.
pub(crate) fn wanted_for(positions: usize) -> usize
    ensures value { result ≡ segments_for positions }
{
    positions.min(positions / 512 + (WIDTHS + 1))
}

/// Returns how many segments hold rows of a width.
#[inline(always)]
pub(crate) fn segments_at(widths: &Vec<WidthRows>, step: usize) -> usize
    ensures value { result ≡ (width_at widths.now.items step).segments }
{
    if step < widths.len() {
        let rows = &widths[step];
        return rows.segments();
    }
    0
}

/// Returns how many segments hold rows.
pub(crate) fn count_used(widths: &Vec<WidthRows>) -> usize
    requires bounded { used widths.now.items < 2 ^ 64 }
    ensures value { result ≡ used widths.now.items }
{
    let mut many = 0;
    for step in 0..WIDTHS {
        many += segments_at(widths, step);
    }
    many
}

/// Makes room in each list for the segments of this many rows. Returns `NoMemory` if a request for it is refused.
pub(crate) fn widen(widths: &mut Vec<WidthRows>, many: usize) -> Result<(), NoMemory>
    requires few { many ≤ MOST_ROWS }
    ensures wider { AreWider widths.old.items widths.new.items }
    ensures ok { OnOk result ((step : ℕ) → step < length widths.new.items → many ≤ (width_at widths.new.items step).limit) }
{
    for step in 0..widths.len() {
        let rows = &mut widths[step];
        rows.reserve(many)?;
    }
    Ok(())
}

/// Adds free segments at the end until there are `wanted` of them together with those that hold rows. Returns `NoMemory` if a
/// request is refused.
pub(crate) fn append_segments(
    free: &mut Vec<Segment>,
    used: usize,
    wanted: usize,
) -> Result<(), NoMemory>
    requires bounded { wanted ≤ MOST_ROWS }
    requires pool { used + length free.old.items ≤ vec_capacity free.old }
    ensures pool { used + length free.new.items ≤ vec_capacity free.new }
    ensures more { length free.old.items ≤ length free.new.items }
    ensures ok { OnOk result (wanted ≤ used + length free.new.items) }
{
    let alloc = *free.allocator();
    let many = used + free.len();
    if free.capacity() < wanted {
        make_room_for(free, wanted - free.len(), size_of::<Segment>())?;
    }
    for _count in many..wanted {
        free.push_reserved(Segment::new(alloc)?);
    }
    Ok(())
}

/// Does the same, but puts the new segments first: so rows take those that were touched before, which lie at the end.
pub(crate) fn add_segments(
    free: &mut Vec<Segment>,
    used: usize,
    wanted: usize,
) -> Result<(), NoMemory>
    requires bounded { wanted ≤ MOST_ROWS }
    requires pool { used + length free.old.items ≤ vec_capacity free.old }
    ensures pool { used + length free.new.items ≤ vec_capacity free.new }
    ensures more { length free.old.items ≤ length free.new.items }
    ensures ok { OnOk result (wanted ≤ used + length free.new.items) }
{
    let before = free.len();
    let added = append_segments(free, used, wanted);
    let new = free.len() - before;
    free.rotate_right(new);
    added
}

/// Returns what the segments after the first `kept` take.
pub(crate) fn touched_past(free: &[Segment], kept: usize) -> usize {
    let mut bytes: usize = 0;
    for at in kept..free.len() {
        let segment = &free[at];
        bytes = bytes
            .saturating_add(SEGMENT_HEAD)
            .saturating_add(segment.touched());
    }
    bytes
}
