// Questions to an archive: whether one fits, and the entry that stands for its cell.
#![tactic(auto)]

ghost use Rattle.std.specs.Prelude.{◌≡◌, ◌+◌, ◌*◌, ◌≤◌, length};
ghost use Rattle.fields.specs.Words.{words_at};
ghost use Rattle.cube.specs.Measure.{sums as measure};
ghost use Rattle.cube.specs.Codes.{falls, plain};
ghost use Rattle.cube.specs.Condensed.{ours, lookup};
ghost use Rattle.rows.specs.Slices.{codes, held};
ghost use Rattle.rows_ready.specs.Ready.{Ready};
ghost use Rattle.call_questions.specs.Questions.{asks, looked, rowless, First, NormalsAt};

use rows::RowSlice;

// What a question is answered by: the sum and the count that an entry carries, and its number.
#[derive(Clone, Copy)]
pub struct Cell {
    pub sum: i64,
    pub count: u32,
    pub entry: u32,
}

// Whether a question has a code below its size, or ALL, for each dimension; the sizes stand in the archive.
pub fn fits(s: &[u8], dims: usize, question: &[u32]) -> bool
    requires { 8 + 4 * dims ≤ length s.now }
    ensures { result ≡ asks (words_at s.now dims 8) question.now }
{
    if question.len() != dims {
        return false;
    }
    for (&code, bytes) in question.iter().zip(s[8..8 + 4 * dims].chunks_exact(4)) {
        let size = fields::word_at(bytes, 0);
        if code >= size && code != 65535 {
            return false;
        }
    }
    true
}

// Whether a row falls in a cell.
fn falls_in(cell: &[u32], mine: &[u32]) -> bool
    requires { length cell.now ≡ length mine.now }
    ensures { result ≡ falls cell.now mine.now }
{
    cell.iter()
        .zip(mine)
        .all(|(&code, &x)| code == 65535 || code == x)
}

// The first row that falls in a cell.
fn first_row(rows: &RowSlice, cell: &[u32]) -> Option<usize>
    requires { length cell.now ≡ rows.now.dims }
    ensures { First cell.now (codes rows.now) result }
{
    (0..rows.n).find(|&i| falls_in(cell, rows.codes_at(i)))
}

// The answer for a cell that no row falls in: an empty table has all ALL, and its entry is the first.
fn without_rows(n: usize, cell: &[u32]) -> Option<Cell>
    requires { length cell.now ≤ 8 }
    ensures { result ≡ looked (rowless (length cell.now) n cell.now) }
{
    if n != 0 {
        return None;
    }
    if call_search::set_of(cell) != 0 {
        return None;
    }
    Some(Cell {
        sum: 0,
        count: 0,
        entry: 0,
    })
}

// The entry that stands for a cell: that of the one row that falls in it, or else the normal entry at the cell. The m normal entries stand in the bytes s from a place on.
pub fn answer(s: &[u8], at: usize, m: usize, rows: &RowSlice, cell: &[u32]) -> Option<Cell>
    requires ready { Ready rows.now.dims rows.now.n rows.now.words.now × (length cell.now ≡ rows.now.dims) }
    requires normals_at { NormalsAt s.now at m rows.now.dims (held rows.now) }
    ensures { result ≡ looked (lookup (plain rows.now.dims) cell.now (ours (plain rows.now.dims) measure (held rows.now))) }
{
    let Some(i) = first_row(rows, cell) else {
        return without_rows(rows.n, cell);
    };
    if rows_compare::is_single(rows, i, call_search::set_of(cell)) {
        let total = rows.total_at(i);
        return Some(Cell {
            sum: total.sum,
            count: total.count,
            entry: i as u32,
        });
    }
    let k = call_search::find_cell(s, at, m, cell);
    let place = at + k * (4 * rows.dims + 12) + 4 * rows.dims;
    let sum = fields_sums::sum_at(s, place);
    let count = fields::word_at(s, place + 8);
    let entry = (rows.n + k) as u32;
    Some(Cell { sum, count, entry })
}
