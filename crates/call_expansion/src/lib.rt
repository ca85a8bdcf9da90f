// The expansion as bytes: how long it is, and written over the front of lent bytes.
#![tactic(auto)]

ghost use Rattle.std.specs.Prelude.{◌≡◌, ◌+◌, ◌*◌, ◌^◌, ◌≤◌, ◌<◌, length};
ghost use mathlib.Core.List.{flat_map};
ghost use Rattle.fields.specs.Written.{Wrote};
ghost use Rattle.cube.specs.Measure.{sums as measure};
ghost use Rattle.cube.specs.Codes.{plain};
ghost use Rattle.cube.specs.Cube.{cells as cuboid};
ghost use Rattle.rows.specs.Slices.{codes, held};
ghost use Rattle.archive_entries.specs.Layout.{cell_bytes};
ghost use Rattle.rows_order.specs.Index.{key};
ghost use Rattle.rows_slots.specs.Slots.{crowds, packed};
ghost use Rattle.rows_ready.specs.Ready.{Ready};
ghost use Rattle.archive_cells.specs.Fitted.{Fitted};
ghost use Rattle.archive_normals.specs.Grouped.{Grouped};
ghost use Rattle.call_cuboids.specs.Cuboids.{cuboid_bytes, expansion_bytes};
ghost use Rattle.call_expansion.specs.Slotted.{Slotted, cell_count};

use rows::RowSlice;
use rows_crowds::Slots;

// How many cells a set has that exist, by its slot: an empty table has one, of the empty set.
fn count_cells(slot: &[u16], n: usize, set: u32) -> usize
    requires { length slot.now ≤ 1024 }
    ensures { result ≡ cell_count n set slot.now }
{
    if n != 0 {
        return rows_crowds::count_groups(slot);
    }
    usize::from(set == 0)
}

// The length of a listed cuboid.
fn cuboid_len(rows: &RowSlice, set: u32, slots: &Slots) -> usize
    requires { Slotted rows.now.dims rows.now.n rows.now.words.now slots.now.store.now slots.now.sizes.now × (set < 2 ^ rows.now.dims) }
    ensures value { result ≡ length (cuboid_bytes rows.now.dims (held rows.now) set) }
    ensures upper_bound { result ≤ 45060 }
{
    let slot = slots.slot_of(set as usize);
    let count = count_cells(slot, rows.n, set);
    4 + count * (4 * rows.dims + 12)
}

// The length of the expansion.
fn expansion_len(rows: &RowSlice, slots: &Slots) -> usize
    requires { Slotted rows.now.dims rows.now.n rows.now.words.now slots.now.store.now slots.now.sizes.now }
    ensures { result ≡ length (expansion_bytes rows.now.dims (held rows.now)) }
{
    let all = lattice::sets_of(rows.dims as u32);
    let mut len = 0;
    for &set in lattice::in_order() {
        let set = u32::from(set);
        if set < all {
            len += cuboid_len(rows, set, slots);
        }
    }
    len
}

// Writes the cells of a set that exist, by its slot.
fn put_existing(out: &mut [u8], rows: &RowSlice, set: u32, slot: &[u16]) -> usize
    requires ready { Ready rows.now.dims rows.now.n rows.now.words.now × (slot.now ≡ packed (crowds 1 (key set (codes rows.now)) rows.now.n)) }
    requires set_in_bounds { length (flat_map cell_bytes (cuboid (plain rows.now.dims) measure (held rows.now) set)) ≤ length out.old }
    ensures { Wrote (flat_map cell_bytes (cuboid (plain rows.now.dims) measure (held rows.now) set)) out.old out.new result }
{
    if rows.n != 0 {
        return archive_groups::put_groups(out, rows, set, slot);
    }
    if set != 0 {
        return 0;
    }
    archive_cells::put_blank(out, rows.dims)
}

// Writes the listed cuboid of a set.
fn put_cuboid(out: &mut [u8], rows: &RowSlice, set: u32, slots: &Slots) -> usize
    requires slotted { Slotted rows.now.dims rows.now.n rows.now.words.now slots.now.store.now slots.now.sizes.now × (set < 2 ^ rows.now.dims) }
    requires set_in_bounds { length (cuboid_bytes rows.now.dims (held rows.now) set) ≤ length out.old }
    ensures { Wrote (cuboid_bytes rows.now.dims (held rows.now) set) out.old out.new result }
{
    let slot = slots.slot_of(set as usize);
    let count = count_cells(slot, rows.n, set);
    let at = fields::put_word(out, count as u32);
    at + put_existing(&mut out[at..], rows, set, slot)
}

// Writes the expansion: the cuboids of all sets in lattice order.
fn put_expansion(out: &mut [u8], rows: &RowSlice, slots: &Slots) -> usize
    requires slotted { Slotted rows.now.dims rows.now.n rows.now.words.now slots.now.store.now slots.now.sizes.now }
    requires rows_in_bounds { length (expansion_bytes rows.now.dims (held rows.now)) ≤ length out.old }
    ensures { Wrote (expansion_bytes rows.now.dims (held rows.now)) out.old out.new result }
{
    let all = lattice::sets_of(rows.dims as u32);
    let mut at = 0;
    for &set in lattice::in_order() {
        let set = u32::from(set);
        if all <= set {
            continue;
        }
        at += put_cuboid(&mut out[at..], rows, set, slots);
    }
    at
}

// Writes the expansion where there is room for it; the slots that are lent have the groups of two rows or more. Returns how long it is.
pub fn write_expansion(
    out: &mut [u8],
    rows: &RowSlice,
    store: &mut [u16],
    used: &mut [usize],
) -> usize
    requires { Grouped rows.now.dims rows.now.n rows.now.words.now store.old used.old }
    ensures { Fitted (expansion_bytes rows.now.dims (held rows.now)) out.old out.new result }
{
    rows_complete::complete_slots(rows, store, used);
    let slots = Slots { store, sizes: used };
    let len = expansion_len(rows, &slots);
    if out.len() < len {
        return len;
    }
    put_expansion(out, rows, &slots)
}
