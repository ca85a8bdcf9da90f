// An archive's sections read from their bytes: the fields from the left, and at each its stops in document 01's order (1 to 11), then the base rows.
#![tactic(auto)]

ghost use Rattle.std.specs.Prelude.{◌≡◌, [], ◌∷◌, ◌++◌, ℕ, ◌+◌, ◌*◌, ◌≤◌, length, take, drop, Ok};
ghost use Rattle.lists.specs.Order.{earlier};
ghost use Rattle.fields.specs.Words.{words_at};
ghost use Rattle.fields_walk.specs.Walked.{Walked};
ghost use Rattle.cube.specs.Bounds.{most, can_make};
ghost use Rattle.rows.specs.Rows.{width, rows_of};
ghost use Rattle.archive_entries.specs.Places.{row_there, codes_before, Before};
ghost use Rattle.archive_entries.specs.Reading.{rising, amount, list, entry, entries, bases, cells, walk_archive, archive_answer, Stored};

use rows::RowSlice;
use stops::Stop;

// The opening bytes of an archive, 43 55 42 45.
pub const CUBE: [u8; 4] = *b"CUBE";

// What was read of an archive: D, the base count and the normal count.
#[derive(Clone, Copy)]
pub struct Shape {
    pub dims: u32,
    pub bases: u32,
    pub cells: u32,
}

impl Shape {
    // Its base rows, which stand in the front of words.
    pub fn rows_in<'a>(self, words: &'a [u32]) -> RowSlice<'a>
        requires { (self.dims ≤ 8) × (self.bases * width self.dims ≤ length words.now) }
        ensures { (result.words.now ≡ take (self.bases * width self.dims) words.now) × (result.n ≡ self.bases) × (result.dims ≡ self.dims) }
    {
        RowSlice::front(words, self.bases as usize, self.dims as usize)
    }
}

// Whether so many readings can make the sum.
fn can_make(count: u32, sum: i64) -> bool
    requires { count ≤ most }
    ensures { result ≡ can_make count sum }
{
    let n = i64::from(count);
    let low = -2147483648 * n;
    let high = 2147483647 * n;
    (low..=high).contains(&sum)
}

// Whether the n codes at q come strictly after the n codes at p.
fn is_after(s: &[u8], n: usize, p: usize, q: usize) -> bool
    requires { (n ≤ 8) × (p + 4 * n ≤ length s.now) × (q + 4 * n ≤ length s.now) }
    ensures { result ≡ earlier (words_at s.now n p) (words_at s.now n q) }
{
    let mut before = [0u32; 8];
    let mut mine = [0u32; 8];
    fields::read_words(s, p, &mut before[..n]);
    fields::read_words(s, q, &mut mine[..n]);
    before[..n] < mine[..n]
}

// The codes of a base entry, strictly after those of the entry before, if there is one.
fn check_rising(s: &[u8], sizes: &[u32], before: Option<usize>, at: usize) -> Result<usize, Stop>
    requires in_bounds { (1 ≤ length sizes.now) × (length sizes.now ≤ 8) × (at ≤ length s.now) }
    requires before_in_bounds { Before s.now (length sizes.now) before }
    ensures { Walked s.now (rising sizes.now (codes_before s.now (length sizes.now) before) (drop at s.now)) result }
{
    let next = fields_walk::check_codes(s, sizes, at)?;
    match before {
        None => Ok(next),
        Some(p) => {
            if is_after(s, sizes.len(), p, at) {
                Ok(next)
            } else {
                Err(Stop::Order)
            }
        }
    }
}

// A base entry's sum and count, where the counts before it have a total.
fn check_amount(s: &[u8], total: u32, at: usize) -> Result<usize, Stop>
    requires { (total ≤ most) × (at ≤ length s.now) }
    ensures { Walked s.now (amount total (drop at s.now)) result }
{
    let p = fields_walk::check_room(s, 8, at)?;
    let next = fields_walk::check_room(s, 4, p)?;
    let count = fields::word_at(s, p);
    if count == 0 {
        return Err(Stop::Amount);
    }
    if 1048576 - total < count {
        return Err(Stop::Amount);
    }
    if can_make(count, fields_sums::sum_at(s, at)) {
        Ok(next)
    } else {
        Err(Stop::Amount)
    }
}

// A base entry's list: set numbers of any value, so that only their length is asked for.
fn check_list(s: &[u8], at: usize) -> Result<usize, Stop>
    requires { at ≤ length s.now }
    ensures { Walked s.now (list (drop at s.now)) result }
{
    let next = fields_walk::check_field(s, 0, 71, at)?.ok_or(Stop::List)?;
    fields_walk::check_room(s, 4 * (fields::word_at(s, at) as usize), next)
}

// A base entry; `before` is the place of the entry before it, if there is one, and `total` the sum of the counts before it.
fn check_entry(
    s: &[u8],
    sizes: &[u32],
    before: Option<usize>,
    total: u32,
    at: usize,
) -> Result<usize, Stop>
    requires in_bounds { (1 ≤ length sizes.now) × (length sizes.now ≤ 8) × (at ≤ length s.now) × (total ≤ most) }
    requires before_in_bounds { Before s.now (length sizes.now) before }
    ensures { Walked s.now (entry sizes.now (codes_before s.now (length sizes.now) before) total (drop at s.now)) result }
{
    let q = check_rising(s, sizes, before, at)?;
    let next = check_amount(s, total, q)?;
    check_list(s, next)
}

// The base entries. Of the entry before it remembers the place, and of all before the total count.
fn check_entries(s: &[u8], sizes: &[u32], count: u32, start: usize) -> Result<usize, Stop>
    requires { (1 ≤ length sizes.now) × (length sizes.now ≤ 8) × (start ≤ length s.now) }
    ensures { Walked s.now (entries sizes.now count [] 0 (drop start s.now)) result }
{
    let mut before = None;
    let mut total: u32 = 0;
    let mut at = start;
    for _ in 0..count {
        let next = check_entry(s, sizes, before, total, at)?;
        total += fields::word_at(s, at + 4 * sizes.len() + 8);
        before = Some(at);
        at = next;
    }
    Ok(at)
}

// The base count and the base entries.
pub fn check_bases(s: &[u8], sizes: &[u32], at: usize) -> Result<usize, Stop>
    requires { (1 ≤ length sizes.now) × (length sizes.now ≤ 8) × (at ≤ length s.now) }
    ensures { Walked s.now (bases sizes.now (drop at s.now)) result }
{
    let next = fields_walk::check_field(s, 0, 1025, at)?.ok_or(Stop::Rows)?;
    check_entries(s, sizes, fields::word_at(s, at), next)
}

// The normal count and the normal entries: fields of any value, so that only their length is asked for.
pub fn check_cells(s: &[u8], dims: usize, at: usize) -> Result<usize, Stop>
    requires { (dims ≤ 8) × (at ≤ length s.now) }
    ensures { Walked s.now (cells dims (drop at s.now)) result }
{
    let next = fields_walk::check_room(s, 4, at)?;
    let count = fields::word_at(s, at) as usize;
    fields_walk::check_room(s, count * (4 * dims + 12), next)
}

// The row of the base entry at a place, stored as row i: its words are those of the file.
fn store_row(s: &[u8], dims: usize, at: usize, i: usize, rows: &mut [u32])
    requires { (at + 4 * width dims ≤ length s.now) × (i * width dims + width dims ≤ length rows.old) }
    ensures { rows_of dims (i + 1) rows.new ≡ rows_of dims i rows.old ++ row_there s.now dims at ∷ [] }
{
    fields::read_words(s, at, &mut rows[rows::places(dims, i)]);
}

// The base rows of an archive whose fields are right.
pub fn store_rows(s: &[u8], dims: u32, bases: u32, rows: &mut [u32])
    requires by_index { (n : ℕ) × (archive_answer (walk_archive s.now) ≡ Ok (record { dims = dims; bases = bases; cells = n })) }
    requires in_bounds { 11264 ≤ length rows.old }
    ensures { Stored (walk_archive s.now) rows.new }
{
    let d = dims as usize;
    let count = bases as usize;
    let mut at = 12 + 4 * d;
    // By number: after a loop over `chunks_exact_mut` a proof knows how long the rows are, and not what they hold.
    for i in 0..count {
        store_row(s, d, at, i, rows);
        let list = fields::word_at(s, at + 4 * d + 12) as usize;
        at += 4 * d + 16 + 4 * list;
    }
}
