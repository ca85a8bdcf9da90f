// The normal entries of an archive: written over the front of lent bytes, and compared with given ones, set by set in lattice order.
#![tactic(auto)]

ghost use Rattle.std.specs.Prelude.{◌≤◌, ◌<◌, length};
ghost use Rattle.lattice.specs.Sets.{full};
ghost use Rattle.fields.specs.Written.{Wrote};
ghost use Rattle.rows.specs.Slices.{held};
ghost use Rattle.archive_compare.specs.Matched.{Matched};
ghost use Rattle.archive_normals.specs.Grouped.{Grouped};
ghost use Rattle.archive_normals.specs.Normals.{shared_bytes, common_bytes, blank_bytes, normal_bytes};

use rows::RowSlice;
use rows_crowds::Slots;
use stops::Stop;

// Writes the normal entries of a set. Each `put_` has its `match_` below: one function for both, over a trait of what takes bytes, is longer with the trait, its laws and its two types.
fn put_shared(out: &mut [u8], rows: &RowSlice, set: u32, slots: &Slots) -> usize
    requires grouped { Grouped rows.now.dims rows.now.n rows.now.words.now slots.now.store.now slots.now.sizes.now × (set < full rows.now.dims) }
    requires set_in_bounds { length (shared_bytes rows.now.dims (held rows.now) set) ≤ length out.old }
    ensures { Wrote (shared_bytes rows.now.dims (held rows.now) set) out.old out.new result }
{
    let slot = slots.slot_of(set as usize);
    archive_groups::put_groups(out, rows, set, slot)
}

// Writes the normal entries of all sets. `call_expansion::put_expansion` is like it, of other sets: one loop over a closure that writes would ask of it what it writes and for how much room.
fn put_common(out: &mut [u8], rows: &RowSlice, slots: &Slots) -> usize
    requires grouped { Grouped rows.now.dims rows.now.n rows.now.words.now slots.now.store.now slots.now.sizes.now }
    requires rows_in_bounds { length (common_bytes rows.now.dims (held rows.now)) ≤ length out.old }
    ensures { Wrote (common_bytes rows.now.dims (held rows.now)) out.old out.new result }
{
    let all = lattice::sets_of(rows.dims as u32) - 1;
    let mut at = 0;
    for &set in lattice::in_order() {
        let set = u32::from(set);
        if all <= set {
            continue;
        }
        at += put_shared(&mut out[at..], rows, set, slots);
    }
    at
}

// Writes the normal entry of an empty table, where there are no rows.
fn put_blank(out: &mut [u8], n: usize, dims: usize) -> usize
    requires { (dims ≤ 8) × (length (blank_bytes dims n) ≤ length out.old) }
    ensures { Wrote (blank_bytes dims n) out.old out.new result }
{
    if n != 0 {
        return 0;
    }
    archive_cells::put_blank(out, dims)
}

// Writes the normal entries.
pub fn put_normals(out: &mut [u8], rows: &RowSlice, slots: &Slots) -> usize
    requires grouped { Grouped rows.now.dims rows.now.n rows.now.words.now slots.now.store.now slots.now.sizes.now }
    requires rows_in_bounds { length (normal_bytes rows.now.dims (held rows.now)) ≤ length out.old }
    ensures { Wrote (normal_bytes rows.now.dims (held rows.now)) out.old out.new result }
{
    let at = put_blank(out, rows.n, rows.dims);
    at + put_common(&mut out[at..], rows, slots)
}

// Whether the bytes s have the normal entries of a set from a place on.
fn match_shared(
    s: &[u8],
    at: usize,
    rows: &RowSlice,
    set: u32,
    slots: &Slots,
) -> Result<usize, Stop>
    requires { Grouped rows.now.dims rows.now.n rows.now.words.now slots.now.store.now slots.now.sizes.now × (set < full rows.now.dims) × (at ≤ length s.now) }
    ensures { Matched s.now at (shared_bytes rows.now.dims (held rows.now) set) result }
{
    let slot = slots.slot_of(set as usize);
    archive_groups::match_groups(s, at, rows, set, slot)
}

// Whether the bytes s have the normal entries of all sets from a place on.
fn match_common(s: &[u8], start: usize, rows: &RowSlice, slots: &Slots) -> Result<usize, Stop>
    requires { Grouped rows.now.dims rows.now.n rows.now.words.now slots.now.store.now slots.now.sizes.now × (start ≤ length s.now) }
    ensures { Matched s.now start (common_bytes rows.now.dims (held rows.now)) result }
{
    let all = lattice::sets_of(rows.dims as u32) - 1;
    let mut at = start;
    for &set in lattice::in_order() {
        let set = u32::from(set);
        if all <= set {
            continue;
        }
        at = match_shared(s, at, rows, set, slots)?;
    }
    Ok(at)
}

// Whether the bytes s have the normal entry of an empty table from a place on, where there are no rows.
fn match_blank(s: &[u8], at: usize, n: usize, dims: usize) -> Result<usize, Stop>
    requires { (dims ≤ 8) × (at ≤ length s.now) }
    ensures { Matched s.now at (blank_bytes dims n) result }
{
    if n != 0 {
        return Ok(at);
    }
    archive_compare::match_blank(s, at, dims)
}

// Whether the bytes s have the normal entries from a place on.
pub fn match_normals(s: &[u8], start: usize, rows: &RowSlice, slots: &Slots) -> Result<usize, Stop>
    requires { Grouped rows.now.dims rows.now.n rows.now.words.now slots.now.store.now slots.now.sizes.now × (start ≤ length s.now) }
    ensures { Matched s.now start (normal_bytes rows.now.dims (held rows.now)) result }
{
    let next = match_blank(s, start, rows.n, rows.dims)?;
    match_common(s, next, rows, slots)
}
