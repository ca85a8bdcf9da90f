// Rows in one flat slice of words: row i of `dims` codes starts at i * (dims + 3); its codes, the low and the high word of its sum, its count.
#![tactic(auto)]

ghost use Rattle.std.specs.Prelude.{◌≡◌, ◌+◌, ◌*◌, ◌^◌, ◌<◌, ◌≤◌, length, take, drop};
ghost use Rattle.rows.specs.Rows.{width, row_of, row_at};

use cube::Total;
use std::ops::Range;

// How many words a total has.
pub const TOTAL_WORDS: usize = 3;

// How many words 1,024 rows of 8 codes have.
pub const ROOM: usize = 11264;

// Rows: their words, which end with the last row, how many rows there are, and how many codes each has.
#[derive(Drop)]
pub struct RowSlice<'a> {
    pub words: &'a [u32],
    pub n: usize,
    pub dims: usize,
    ghost whole: { n * width dims ≡ length words.now },
}

impl<'a> RowSlice<'a> {
    ghost use Rattle.rows.specs.Slices.{codes, totals};

    // The rows in the front of words.
    pub fn front(words: &'a [u32], n: usize, dims: usize) -> Self
        requires { (dims ≤ 8) × (n * width dims ≤ length words.now) }
        ensures { (result.words.now ≡ take (n * width dims) words.now) × (result.n ≡ n) × (result.dims ≡ dims) }
    {
        RowSlice {
            words: &words[..n * (dims + TOTAL_WORDS)],
            n,
            dims,
        }
    }

    // The words of a row.
    pub fn words_at(&self, row: usize) -> &'a [u32]
        requires { row < self.now.n }
        ensures { (result.now ≡ take (width self.now.dims) (drop (row * width self.now.dims) self.now.words.now)) × (length result.now ≡ width self.now.dims) }
    {
        &self.words[places(self.dims, row)]
    }

    // The codes of a row.
    pub fn codes_at(&self, row: usize) -> &'a [u32]
        requires { row < self.now.n }
        ensures { (result.now ≡ row_at (codes self.now) row) × (length result.now ≡ self.now.dims) }
    {
        let words = self.words_at(row);
        &words[..self.dims]
    }

    // The total of a row.
    pub fn total_at(&self, row: usize) -> Total
        requires { row < self.now.n }
        ensures { result ≡ totals self.now row }
    {
        let words = self.words_at(row);
        let sum = fields_sums::sum_of(words[self.dims], words[self.dims + 1]);
        let count = words[self.dims + 2];
        Total { sum, count }
    }
}

// The places that the words of a row have. A row to be written is cut out by its places: a function that lends a part to be written has no proof but one by hand.
pub fn places(dims: usize, row: usize) -> Range<usize>
    requires { row * width dims + width dims < 2 ^ 64 }
    ensures { (result.start ≡ row * width dims) × (result.end ≡ row * width dims + width dims) }
{
    let width = dims + TOTAL_WORDS;
    let from = row * width;
    from..from + width
}

// Writes a total behind the codes of a row.
pub fn put_total(row: &mut [u32], dims: usize, total: Total)
    requires { length row.old ≡ width dims }
    ensures { row_of dims row.new ≡ record { codes = take dims row.old; total = total } }
{
    let sum = total.sum;
    row[dims] = fields_sums::low_of(sum);
    row[dims + 1] = fields_sums::high_of(sum);
    row[dims + 2] = total.count;
}
