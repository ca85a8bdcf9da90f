// The base rows of a table: its rows stored, and folded by their codes.
#![tactic(auto)]

ghost use Rattle.std.specs.Prelude.{◌≡◌, [], ◌∷◌, ◌++◌, ◌+◌, ◌*◌, ◌≤◌, length};
ghost use Rattle.cube.specs.Measure.{sums as measure};
ghost use Rattle.cube.specs.Bounds.{Summable};
ghost use Rattle.cube.specs.Table.{Table, folded};
ghost use Rattle.rows.specs.Rows.{width, row_of, rows_of};
ghost use Rattle.stops.specs.Numbers.{numbered};
ghost use Rattle.table.specs.Reading.{read_table, record_there, rows_at, Rowed, table_answer, Stored};

use rows::RowSlice;
use stops::Stop;
use table::Folded;

// The row at a place as words: its codes, its reading as a sum, and a count of one.
fn fill_row(row: &mut [u32], s: &[u8], dims: usize, at: usize)
    requires { (length row.old ≡ width dims) × (at + (4 * dims + 4) ≤ length s.now) }
    ensures { row_of dims row.new ≡ record_there s.now dims at }
{
    fields::read_words(s, at, &mut row[..dims]);
    let sum = fields_sums::reading_at(s, at + 4 * dims);
    let count = 1;
    rows::put_total(row, dims, cube::Total { sum, count });
}

// The row at a place, stored as row i.
fn store_row(s: &[u8], dims: usize, at: usize, i: usize, rows: &mut [u32])
    requires { (at + (4 * dims + 4) ≤ length s.now) × (i * width dims + width dims ≤ length rows.old) }
    ensures { rows_of dims (i + 1) rows.new ≡ rows_of dims i rows.old ++ record_there s.now dims at ∷ [] }
{
    fill_row(&mut rows[rows::places(dims, i)], s, dims, at);
}

// The rows from a place on into the array that is lent.
fn store_rows(s: &[u8], dims: usize, count: usize, start: usize, rows: &mut [u32])
    requires { (start + count * (4 * dims + 4) ≤ length s.now) × (count * width dims ≤ length rows.old) }
    ensures { rows_of dims count rows.new ≡ rows_at s.now dims count start }
{
    let mut at = start;
    // By number: after a loop over `chunks_exact_mut` a proof knows how long the rows are, and not what they hold.
    for i in 0..count {
        store_row(s, dims, at, i, rows);
        at += 4 * dims + 4;
    }
}

// The base rows of the rows from a place on, which are first stored in a buffer of their own, into the array that is lent. Returns how many there are.
fn fold_rows(
    s: &[u8],
    dims: usize,
    count: usize,
    start: usize,
    own: &mut [u32],
    index: &mut [u32],
    rows: &mut [u32],
) -> usize
    requires dims_value { (count * width dims ≡ length own.old) × (length index.old ≡ count) × (count ≤ 1024) × (dims ≤ 8) }
    requires dims_in_bounds { (start + count * (4 * dims + 4) ≤ length s.now) × (11264 ≤ length rows.old) }
    requires table { Table dims (rows_at s.now dims count start) × Summable (rows_at s.now dims count start) }
    ensures rows_after { rows_of dims result rows.new ≡ folded measure dims (rows_at s.now dims count start) }
    ensures upper_bound { result ≤ count }
{
    store_rows(s, dims, count, start, own);
    let full = lattice::sets_of(dims as u32) - 1;
    let own = RowSlice {
        words: own,
        n: count,
        dims,
    };
    rows_runs::group_rows(&own, full, index, rows)
}

// The base rows of n rows of d codes behind the header. Returns how many there are.
fn fold_table(s: &[u8], d: usize, n: usize, rows: &mut [u32]) -> usize
    requires { Rowed s.now d n × (11264 ≤ length rows.old) }
    ensures rows_after { rows_of d result rows.new ≡ folded measure d (rows_at s.now d n (12 + 4 * d)) }
    ensures upper_bound { result ≤ n }
{
    let mut own = [0u32; rows::ROOM];
    let mut index = [0u32; 1024];
    let size = n * (d + rows::TOTAL_WORDS);
    let start = 12 + 4 * d;
    fold_rows(s, d, n, start, &mut own[..size], &mut index[..n], rows)
}

// Reads a table: its stops, and its base rows into the array that is lent.
pub fn read_table(s: &[u8], rows: &mut [u32; rows::ROOM]) -> Result<Folded, Stop>
    ensures value { numbered result ≡ table_answer (read_table s.now) }
    ensures stored { Stored (read_table s.now) rows.new }
{
    table::check_table(s)?;
    let dims = fields::word_at(s, 4);
    let d = dims as usize;
    let n = fields::word_at(s, 8 + 4 * d) as usize;
    let count = fold_table(s, d, n, rows);
    Ok(Folded {
        dims,
        rows: count as u32,
    })
}
