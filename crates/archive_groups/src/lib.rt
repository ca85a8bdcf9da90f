// The groups of a slot as cells with their totals: written over the front of lent bytes, and compared with given ones.
#![tactic(auto)]

ghost use Rattle.std.specs.Prelude.{◌≡◌, ◌+◌, ◌*◌, ◌≤◌, length, drop};
ghost use Rattle.fields.specs.Words.{words_bytes};
ghost use Rattle.fields.specs.Opening.{starts_with};
ghost use Rattle.fields.specs.Written.{Wrote};
ghost use Rattle.rows.specs.Slices.{codes, totals};
ghost use Rattle.rows_order.specs.Index.{key};
ghost use Rattle.archive_entries.specs.Layout.{cell_bytes};
ghost use Rattle.archive_compare.specs.Matched.{Matched};
ghost use Rattle.archive_groups.specs.Masks.{masked, Mask};
ghost use Rattle.archive_groups.specs.Groups.{Groupable, group_bytes};

use rows::RowSlice;
use stops::Stop;

// The mask of a set: ALL in the place of each dimension that it lacks. A loop, for what `array::from_fn` ensures does not tell that its closure keeps the set.
fn mask_of(set: u32) -> [u32; 8]
    ensures { Mask set result }
{
    let mut missing = [0u32; 8];
    for (d, mask) in missing.iter_mut().enumerate() {
        *mask = rows_runs::shown_code(set >> d, 0);
    }
    missing
}

// Writes the codes of a row under a mask. Each `put_` has its `match_` below: `put_group` writes where `match_group` first asks for the whole length, and one walk for the two loops over groups, with a trait, its laws and its two types, is longer than both.
fn put_shown(out: &mut [u8], mine: &[u32], missing: &[u32; 8]) -> usize
    requires { (length mine.now ≤ 8) × (4 * length mine.now ≤ length out.old) }
    ensures { Wrote (words_bytes (masked missing.now mine.now)) out.old out.new result }
{
    let mut at = 0;
    for (d, &code) in mine.iter().enumerate() {
        at += fields::put_word(&mut out[at..], code | missing[d]);
    }
    at
}

// Writes the codes of a row under a mask, with a total.
fn put_group(out: &mut [u8], mine: &[u32], missing: &[u32; 8], total: cube::Total) -> usize
    requires { (length mine.now ≤ 8) × (4 * length mine.now + 12 ≤ length out.old) }
    ensures { Wrote (cell_bytes (record { codes = masked missing.now mine.now; total = total })) out.old out.new result }
{
    let mut at = put_shown(out, mine, missing);
    at += fields_sums::put_sum(&mut out[at..], total.sum);
    at + fields::put_word(&mut out[at..], total.count)
}

// Writes the cells of the groups of a slot.
pub fn put_groups(out: &mut [u8], rows: &RowSlice, set: u32, slot: &[u16]) -> usize
    requires groupable { Groupable rows.now.dims rows.now.n rows.now.words.now slot.now }
    requires slot_in_bounds { length (group_bytes (totals rows.now) (key set (codes rows.now)) slot.now) ≤ length out.old }
    ensures { Wrote (group_bytes (totals rows.now) (key set (codes rows.now)) slot.now) out.old out.new result }
{
    let missing = mask_of(set);
    let mut at = 0;
    let mut total = cube::Total { sum: 0, count: 0 };
    for &e in slot {
        let row = rows_slots::row_in(e) as usize;
        total = rows_slots::add_row(rows, row, total);
        if rows_slots::end_in(e) == 0 {
            continue;
        }
        let mine = rows.codes_at(row);
        at += put_group(&mut out[at..], mine, &missing, total);
        total = cube::Total { sum: 0, count: 0 };
    }
    at
}

// Whether the codes of a row under a mask stand at a byte offset. No difference ends the loop, so that several codes are compared at once.
fn shown_is(s: &[u8], start: usize, mine: &[u32], missing: &[u32; 8]) -> bool
    requires { (length mine.now ≤ 8) × (start + 4 * length mine.now ≤ length s.now) }
    ensures { result ≡ starts_with (drop start s.now) (words_bytes (masked missing.now mine.now)) }
{
    // The place beside the dimension: `start + 4 * d` takes 7 % more instructions of an archive's comparison, and 2 % more time of a check.
    let mut at = start;
    let mut same = true;
    for (d, &code) in mine.iter().enumerate() {
        same &= fields::word_is(s, at, code | missing[d]);
        at += 4;
    }
    same
}

// Whether the bytes s have the codes of a row under a mask, with a total, from a place on.
fn match_group(
    s: &[u8],
    start: usize,
    mine: &[u32],
    missing: &[u32; 8],
    total: cube::Total,
) -> Result<usize, Stop>
    requires { (length mine.now ≤ 8) × (start ≤ length s.now) }
    ensures { Matched s.now start (cell_bytes (record { codes = masked missing.now mine.now; total = total })) result }
{
    let size = 4 * mine.len();
    if s.len() - start < size + 12 {
        return Err(Stop::Entries);
    }
    if !shown_is(s, start, mine, missing) {
        return Err(Stop::Entries);
    }
    let at = start + size;
    if !fields_sums::sum_is(s, at, total.sum) {
        return Err(Stop::Entries);
    }
    let next = at + 8;
    if !fields::word_is(s, next, total.count) {
        return Err(Stop::Entries);
    }
    Ok(next + 4)
}

// Whether the bytes s have the cells of the groups of a slot from a place on.
pub fn match_groups(
    s: &[u8],
    start: usize,
    rows: &RowSlice,
    set: u32,
    slot: &[u16],
) -> Result<usize, Stop>
    requires { Groupable rows.now.dims rows.now.n rows.now.words.now slot.now × (start ≤ length s.now) }
    ensures { Matched s.now start (group_bytes (totals rows.now) (key set (codes rows.now)) slot.now) result }
{
    let missing = mask_of(set);
    let mut at = start;
    let mut total = cube::Total { sum: 0, count: 0 };
    for &e in slot {
        let row = rows_slots::row_in(e) as usize;
        total = rows_slots::add_row(rows, row, total);
        if rows_slots::end_in(e) == 0 {
            continue;
        }
        let mine = rows.codes_at(row);
        at = match_group(s, at, mine, &missing, total)?;
        total = cube::Total { sum: 0, count: 0 };
    }
    Ok(at)
}
