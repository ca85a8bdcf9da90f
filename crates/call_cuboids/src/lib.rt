// A listed cuboid as bytes: how long it is, and written over the front of lent bytes.
#![tactic(auto)]

ghost use Rattle.std.specs.Prelude.{◌≡◌, [], ◌+◌, ◌*◌, ◌≤◌, length};
ghost use Rattle.fields.specs.Written.{Wrote};
ghost use Rattle.cube.specs.Measure.{sums as measure};
ghost use Rattle.cube.specs.Codes.{plain};
ghost use Rattle.cube.specs.Cube.{cells as cuboid};
ghost use Rattle.rows.specs.Rows.{width, rows_of};
ghost use Rattle.rows.specs.Slices.{held};
ghost use Rattle.archive_entries.specs.Layout.{section, cell_bytes};
ghost use Rattle.rows_ready.specs.Ready.{Ready};
ghost use Rattle.archive_cells.specs.Fitted.{Fitted};
ghost use Rattle.call_cuboids.specs.Cuboids.{cuboid_bytes};

use rows::RowSlice;

// The cell of an empty table, if it is one of a set, into the array that is lent. Returns how many there are.
fn blank_cells(cells: &mut [u32], dims: usize, set: u32) -> usize
    requires { (dims ≤ 8) × (width dims ≤ length cells.old) }
    ensures { (result ≤ 1) × (rows_of dims result cells.new ≡ cuboid (plain dims) measure [] set) }
{
    if set != 0 {
        return 0;
    }
    let codes = [0u32; 8];
    let total = cube::Total { sum: 0, count: 0 };
    rows_runs::put_row(cells, 0, &codes[..dims], 0, total);
    1
}

// The cells of a set that exist, by codes, each with its total, into the array that is lent. Returns how many there are.
fn find_cells(rows: &RowSlice, set: u32, index: &mut [u32], cells: &mut [u32]) -> usize
    requires ready { Ready rows.now.dims rows.now.n rows.now.words.now × (length index.old ≡ rows.now.n) }
    requires in_bounds { 11264 ≤ length cells.old }
    ensures cells_after { rows_of rows.now.dims result cells.new ≡ cuboid (plain rows.now.dims) measure (held rows.now) set }
    ensures upper_bound { result ≤ 1024 }
{
    if rows.n == 0 {
        return blank_cells(cells, rows.dims, set);
    }
    rows_runs::group_rows(rows, set, index, cells)
}

// Writes a count, and so many cells: the words of the first rows of the array that is lent. It takes no `RowSlice`: that the words of a struct's slice fit 32 bits is not known, and their bytes ask it.
fn put_counted(out: &mut [u8], cells: &[u32], n: usize, dims: usize) -> usize
    requires { (dims ≤ 8) × (n ≤ 1024) × (n * width dims ≤ length cells.now) × (4 + n * (4 * dims + 12) ≤ length out.old) }
    ensures { Wrote (section cell_bytes (rows_of dims n cells.now)) out.old out.new result }
{
    let at = fields::put_word(out, n as u32);
    let size = n * (dims + rows::TOTAL_WORDS);
    at + fields::put_words(&mut out[at..], &cells[..size])
}

// Writes the listed cuboid of a set where there is room for it. Returns how long it is.
pub fn write_cuboid(out: &mut [u8], rows: &RowSlice, set: u32) -> usize
    requires { Ready rows.now.dims rows.now.n rows.now.words.now }
    ensures { Fitted (cuboid_bytes rows.now.dims (held rows.now) set) out.old out.new result }
{
    let mut index = [0u32; 1024];
    let mut cells = [0u32; rows::ROOM];
    let count = find_cells(rows, set, &mut index[..rows.n], &mut cells);
    let len = 4 + count * (4 * rows.dims + 12);
    if out.len() < len {
        return len;
    }
    put_counted(out, &cells, count, rows.dims)
}
