// Cells and base entries compared with bytes. Each has its `put_` in archive_cells, for the reason that stands in archive_bases.
#![tactic(auto)]

ghost use Rattle.std.specs.Prelude.{◌≡◌, ◌++◌, ℕ, ◌≤◌, length, replicate};
ghost use mathlib.Core.List.{map};
ghost use Rattle.fields.specs.Words.{word_bytes, words_bytes};
ghost use Rattle.cube.specs.Measure.{nothing};
ghost use Rattle.cube.specs.Codes.{ALL};
ghost use Rattle.archive_entries.specs.Layout.{cell_bytes};
ghost use Rattle.archive_cells.specs.ListBytes.{list_bytes};
ghost use Rattle.archive_compare.specs.Matched.{Matched};

use stops::Stop;

// Whether the bytes s have a word from a place on: the place behind it, or stop 12.
pub fn match_word(s: &[u8], at: usize, w: u32) -> Result<usize, Stop>
    requires { at ≤ length s.now }
    ensures { Matched s.now at (word_bytes w) result }
{
    if s.len() - at < 4 {
        return Err(Stop::Entries);
    }
    if fields::word_is(s, at, w) {
        return Ok(at + 4);
    }
    Err(Stop::Entries)
}

// Whether the bytes s have numbers, each as a word, from a place on.
fn match_words<T: Copy + Into<u32>>(s: &[u8], start: usize, xs: &[T]) -> Result<usize, Stop>
    requires { start ≤ length s.now }
    ensures { (word : T → ℕ) → ((x : T) (n : ℕ) → T.converts x n → n ≡ word x) → Matched s.now start (words_bytes (map word xs.now)) result }
{
    let mut at = start;
    for &x in xs {
        at = match_word(s, at, x.into())?;
    }
    Ok(at)
}

// Whether the bytes s have a base entry, the words of a row and its list, from a place on.
pub fn match_entry(s: &[u8], start: usize, row: &[u32], list: &[u8]) -> Result<usize, Stop>
    requires { (start ≤ length s.now) × (length list.now ≤ 70) }
    ensures { Matched s.now start (words_bytes row.now ++ list_bytes list.now) result }
{
    let at = match_words(s, start, row)?;
    let next = match_word(s, at, list.len() as u32)?;
    match_words(s, next, list)
}

// Whether the bytes s have the cell of an empty table from a place on.
pub fn match_blank(s: &[u8], at: usize, dims: usize) -> Result<usize, Stop>
    requires { (dims ≤ 8) × (at ≤ length s.now) }
    ensures { Matched s.now at (cell_bytes (record { codes = replicate dims ALL; total = nothing })) result }
{
    let blank = archive_cells::BLANK;
    let from = 8 - dims;
    match_words(s, at, &blank[from..])
}
