// The base entries of an archive: how many sets they list, written over the front of lent bytes, and compared with given ones.
#![tactic(auto)]

ghost use Rattle.std.specs.Prelude.{◌≡◌, ℕ, ◌+◌, ◌*◌, ◌≤◌, length};
ghost use mathlib.Core.List.{flat_map};
ghost use Rattle.fields.specs.Written.{Wrote};
ghost use Rattle.rows.specs.Rows.{width};
ghost use Rattle.rows.specs.Slices.{held};
ghost use Rattle.archive_entries.specs.Layout.{base_bytes, sets_in};
ghost use Rattle.archive_compare.specs.Matched.{Matched};
ghost use Rattle.archive_bases.specs.Listed.{Listed, base_of, our_bases};

use rows::RowSlice;
use stops::Stop;

// How many sets the base entries list.
pub fn sets_in(rows: &RowSlice, lists: &[u8]) -> usize
    requires { Listed rows.now.dims rows.now.n rows.now.words.now lists.now }
    ensures value { result ≡ sets_in (our_bases rows.now.dims (held rows.now)) }
    ensures upper_bound { result ≤ 71680 }
{
    let mut all = 0;
    for list in lists.chunks_exact(71).take(rows.n) {
        all += usize::from(list[0]);
    }
    all
}

// Writes a base entry: the words of a row, and its list. A function of its own, since its parameter tells that each word is below 2^32, which a slice of rows does not.
// Each `put_` has its `match_` below: one function for both, over a trait of what takes bytes, is longer with the trait, its laws and its two types.
fn put_base(out: &mut [u8], mine: &[u32], list: &[u8]) -> usize
    requires { (length list.now ≤ 70) × (4 * length mine.now + 4 + 4 * length list.now ≤ length out.old) }
    ensures { (d : ℕ) → width d ≡ length mine.now → Wrote (base_bytes (base_of d mine.now list.now)) out.old out.new result }
{
    archive_cells::put_entry(out, mine, list)
}

// Writes the base entries.
pub fn put_bases(out: &mut [u8], rows: &RowSlice, lists: &[u8]) -> usize
    requires listed { Listed rows.now.dims rows.now.n rows.now.words.now lists.now }
    requires rows_in_bounds { length (flat_map base_bytes (our_bases rows.now.dims (held rows.now))) ≤ length out.old }
    ensures { Wrote (flat_map base_bytes (our_bases rows.now.dims (held rows.now))) out.old out.new result }
{
    let mut at = 0;
    // By number: a row's words and its list stand at the same one, and `words_at` and `list_of` tell what each is.
    for row in 0..rows.n {
        let mine = rows.words_at(row);
        let list = rows_lists::list_of(lists, rows.n, row);
        at += put_base(&mut out[at..], mine, list);
    }
    at
}

// Whether the bytes s have a base entry, the words of a row and its list, from a place on.
fn match_base(s: &[u8], at: usize, mine: &[u32], list: &[u8]) -> Result<usize, Stop>
    requires { (length list.now ≤ 70) × (at ≤ length s.now) }
    ensures { (d : ℕ) → width d ≡ length mine.now → Matched s.now at (base_bytes (base_of d mine.now list.now)) result }
{
    archive_compare::match_entry(s, at, mine, list)
}

// Whether the bytes s have the base entries from a place on.
pub fn match_bases(s: &[u8], start: usize, rows: &RowSlice, lists: &[u8]) -> Result<usize, Stop>
    requires { Listed rows.now.dims rows.now.n rows.now.words.now lists.now × (start ≤ length s.now) }
    ensures { Matched s.now start (flat_map base_bytes (our_bases rows.now.dims (held rows.now))) result }
{
    let mut at = start;
    // By number, as `put_bases`.
    for row in 0..rows.n {
        let mine = rows.words_at(row);
        let list = rows_lists::list_of(lists, rows.n, row);
        at = match_base(s, at, mine, list)?;
    }
    Ok(at)
}
