// Cells and base entries as bytes, written over the front of lent bytes.
#![tactic(auto)]

ghost use Rattle.std.specs.Prelude.{◌≡◌, ◌++◌, ℕ, ◌+◌, ◌*◌, ◌^◌, ◌≤◌, ◌<◌, length, replicate};
ghost use mathlib.Core.List.{map};
ghost use Rattle.fields.specs.Words.{words_bytes};
ghost use Rattle.fields.specs.Written.{Wrote};
ghost use Rattle.fields_walk.specs.Fields.{header_bytes};
ghost use Rattle.cube.specs.Measure.{nothing};
ghost use Rattle.cube.specs.Codes.{ALL};
ghost use Rattle.archive_entries.specs.Layout.{CUBE, cell_bytes};
ghost use Rattle.archive_cells.specs.ListBytes.{list_bytes};

// Writes numbers, each as a word.
fn put_words<T: Copy + Into<u32>>(out: &mut [u8], xs: &[T]) -> usize
    requires { 4 * length xs.now ≤ length out.old }
    ensures count { result ≡ 4 * length xs.now }
    ensures wrote { (word : T → ℕ) → ((x : T) (n : ℕ) → T.converts x n → n ≡ word x) → Wrote (words_bytes (map word xs.now)) out.old out.new result }
{
    let mut at = 0;
    for &x in xs {
        at += fields::put_word(&mut out[at..], x.into());
    }
    at
}

// Writes a list: how many numbers it has, then the numbers.
pub fn put_list(out: &mut [u8], list: &[u32]) -> usize
    requires { (length list.now < 2 ^ 32) × (4 + 4 * length list.now ≤ length out.old) }
    ensures { Wrote (list_bytes list.now) out.old out.new result }
{
    let at = fields::put_word(out, list.len() as u32);
    at + put_words(&mut out[at..], list)
}

// Writes the front of an archive: the opening, D and the sizes.
pub fn put_header(out: &mut [u8], sizes: &[u32]) -> usize
    requires { (length sizes.now ≤ 8) × (8 + 4 * length sizes.now ≤ length out.old) }
    ensures { Wrote (header_bytes CUBE sizes.now) out.old out.new result }
{
    let at = fields::put_opening(out, &archive_entries::CUBE);
    at + put_list(&mut out[at..], sizes)
}

// Writes a base entry: the words of a row, and its list.
pub fn put_entry(out: &mut [u8], row: &[u32], list: &[u8]) -> usize
    requires { (length list.now ≤ 70) × (4 * length row.now + 4 + 4 * length list.now ≤ length out.old) }
    ensures { Wrote (words_bytes row.now ++ list_bytes list.now) out.old out.new result }
{
    let mut at = put_words(out, row);
    at += fields::put_word(&mut out[at..], list.len() as u32);
    at + put_words(&mut out[at..], list)
}

// ALL in the place of a code.
const ALL: u32 = 65535;

// The words of the cell of an empty table of 8 dimensions: ALL in each place, sum 0 and count 0. Those of fewer dimensions are its end.
pub const BLANK: [u32; 11] = [ALL, ALL, ALL, ALL, ALL, ALL, ALL, ALL, 0, 0, 0];

// Writes the cell of an empty table.
pub fn put_blank(out: &mut [u8], dims: usize) -> usize
    requires { (dims ≤ 8) × (4 * dims + 12 ≤ length out.old) }
    ensures { Wrote (cell_bytes (record { codes = replicate dims ALL; total = nothing })) out.old out.new result }
{
    let blank = BLANK;
    let from = 8 - dims;
    put_words(out, &blank[from..])
}
