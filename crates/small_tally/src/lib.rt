// The small tables generated, their entries tallied, and the report.
#![tactic(auto)]

ghost use Rattle.std.specs.Prelude.{◌≡◌, map, suc, ◌+◌, ◌*◌, ◌/◌, ◌≤◌, length, take};
ghost use Rattle.lists.specs.Lists.{Distinct};
ghost use Rattle.fields.specs.Written.{Wrote};
ghost use Rattle.cube.specs.Codes.{plain};
ghost use Rattle.cube.specs.Condensed.{normals};
ghost use Rattle.rows.specs.Rows.{width, rows_of};
ghost use Rattle.rows.specs.Slices.{codes};
ghost use Rattle.small_model.specs.Small.{up_to, binary, table};
ghost use Rattle.small_model.specs.Tally.{entries, tally, most_entries};
ghost use Rattle.small_tally.specs.Flat.{flat_row, flat_rows, Coding, Zeros};
ghost use Rattle.small_lines.specs.Lines.{line, report};

use rows::RowSlice;

// Writes a number in binary, the highest digit first.
#[tactic(auto, using(crate::proofs::Rooms::digits_length))]
fn put_binary(out: &mut [u32], dims: usize, j: u32) -> usize
    requires { dims ≤ length out.old }
    ensures { Wrote (binary dims j) out.old out.new result }
{
    if dims == 0 {
        return 0;
    }
    let at = put_binary(out, dims - 1, j / 2);
    out[at] = j % 2;
    at + 1
}

// Writes a row: a number in binary, and the total of one reading, 1. Its sum is 1 and its count is 1.
#[tactic(auto, using(crate::proofs::Rooms::digits_length))]
fn put_row(out: &mut [u32], dims: usize, j: u32) -> usize
    requires { width dims ≤ length out.old }
    ensures { Wrote (flat_row dims j) out.old out.new result }
{
    let at = put_binary(out, dims, j);
    out[at] = 1;
    out[at + 1] = 0;
    out[at + 2] = 1;
    at + 3
}

// Writes the rows of table t: row j for each bit j that is set.
fn put_table(out: &mut [u32], dims: usize, t: u32) -> usize
    requires { (dims ≤ 8) × (length (flat_rows dims t) ≤ length out.old) }
    ensures wrote { Wrote (flat_rows dims t) out.old out.new result }
    ensures rows { rows_of dims (result / width dims) (take result out.new) ≡ table dims t }
{
    let mut at = 0;
    let mut rest = t;
    // By number: row j stands for bit j, and is j in binary.
    for j in 0..lattice::sets_of(dims as u32) {
        let odd = rest % 2;
        rest /= 2;
        if odd != 1 {
            continue;
        }
        at += put_row(&mut out[at..], dims, j);
    }
    at
}

// How many entries base rows have.
fn rows_entries(rows: &RowSlice) -> usize
    requires { (rows.now.dims ≤ 8) × (rows.now.n ≤ 8) × Distinct (codes rows.now) × Coding rows.now.dims (codes rows.now) }
    ensures { result ≡ rows.now.n + length (normals (plain rows.now.dims) (codes rows.now)) }
{
    let mut store = [0u16; 262144];
    let mut used = [0usize; 256];
    let mut lists = [0u8; 568];
    let normals = rows_condense::condense_rows(rows, &mut store, &mut used, &mut lists);
    rows.n + normals
}

// How many entries the archive of table t has.
fn entries_of(dims: usize, t: u32) -> usize
    requires { dims ≤ 3 }
    ensures { result ≡ entries dims (table dims t) }
{
    let mut rows = [0u32; 48];
    let size = put_table(&mut rows, dims, t);
    let n = size / (dims + rows::TOTAL_WORDS);
    rows_entries(&RowSlice::front(&rows, n, dims))
}

// Tallies how many of all tables have each number of entries.
#[tactic(auto, using(crate::proofs::Tallies::tallied_place, crate::proofs::Tallies::tallied_few))]
fn tally_tables(dims: usize, tallies: &mut [u32])
    requires { (dims ≤ 3) × (length tallies.old ≡ suc (most_entries dims)) × Zeros tallies.old }
    ensures { tallies.new ≡ map (tally dims) (up_to (suc (most_entries dims))) }
{
    let rows = lattice::sets_of(dims as u32);
    // By number: each number is a table.
    for t in 0..lattice::sets_of(rows) {
        let n = entries_of(dims, t);
        tallies[n] += 1;
    }
}

// Tallies the tables of D, and writes the line for D.
#[tactic(auto, using(crate::proofs::Rooms::line_length))]
fn put_tallied(out: &mut [u8], dims: usize, tallies: &mut [u32]) -> usize
    requires dims_bound { (dims ≤ 3) × (length tallies.old ≡ suc (most_entries dims)) × Zeros tallies.old }
    requires dims_in_bounds { length (line dims) ≤ length out.old }
    ensures { Wrote (line dims) out.old out.new result }
{
    tally_tables(dims, tallies);
    let mut at = text_decimals::put_decimal(out, dims as u64);
    at += small_lines::put_tallies(&mut out[at..], tallies);
    at + text_decimals::put_character(&mut out[at..], b'\n')
}

// Writes the line for D. No table has as many as 73 entries.
fn put_line(out: &mut [u8], dims: usize) -> usize
    requires { (dims ≤ 3) × (length (line dims) ≤ length out.old) }
    ensures { Wrote (line dims) out.old out.new result }
{
    let mut tallies = [0u32; 73];
    let rows = lattice::sets_of(dims as u32) as usize;
    let size = rows + rows * rows + 1;
    put_tallied(out, dims, &mut tallies[..size])
}

// Writes the lines for D of 1 to 3.
#[tactic(auto, using(crate::proofs::Rooms::report_length))]
pub fn put_report(out: &mut [u8]) -> usize
    requires { length report ≤ length out.old }
    ensures { Wrote report out.old out.new result }
{
    let mut at = put_line(out, 1);
    at += put_line(&mut out[at..], 2);
    at + put_line(&mut out[at..], 3)
}
