// A table read from its bytes: its stops.
#![tactic(auto)]

ghost use Rattle.std.specs.Prelude.{◌+◌, ◌*◌, ◌≤◌, length, drop};
ghost use Rattle.fields.specs.Words.{words_at};
ghost use Rattle.fields_walk.specs.Parsed.{many};
ghost use Rattle.fields_walk.specs.Walked.{Walked};
ghost use Rattle.table.specs.Reading.{row, body, read_table};

use stops::Stop;

// What was read of a table: D and the number of base rows.
#[derive(Clone, Copy)]
pub struct Folded {
    pub dims: u32,
    pub rows: u32,
}

// A row: its codes and a reading.
fn check_row(s: &[u8], sizes: &[u32], at: usize) -> Result<usize, Stop>
    requires { at ≤ length s.now }
    ensures { Walked s.now (row sizes.now (drop at s.now)) result }
{
    let next = fields_walk::check_codes(s, sizes, at)?;
    fields_walk::check_room(s, 4, next)
}

// The rows, so many.
fn check_rows(s: &[u8], sizes: &[u32], count: u32, start: usize) -> Result<usize, Stop>
    requires { start ≤ length s.now }
    ensures { Walked s.now (many count (row sizes.now) (drop start s.now)) result }
{
    let mut at = start;
    for _ in 0..count {
        at = check_row(s, sizes, at)?;
    }
    Ok(at)
}

// The row count, the rows and the check word.
fn check_body(s: &[u8], sizes: &[u32], at: usize) -> Result<usize, Stop>
    requires { at ≤ length s.now }
    ensures { Walked s.now (body s.now sizes.now (drop at s.now)) result }
{
    let next = fields_walk::check_field(s, 0, 1025, at)?.ok_or(Stop::Rows)?;
    let end = check_rows(s, sizes, fields::word_at(s, at), next)?;
    fields_walk::check_close(s, end)
}

// The sizes into the buffer that is lent, and what follows them.
fn check_sized(s: &[u8], sizes: &mut [u32], at: usize) -> Result<usize, Stop>
    requires { (8 + 4 * length sizes.old ≤ length s.now) × (at ≤ length s.now) }
    ensures { Walked s.now (body s.now (words_at s.now (length sizes.old) 8) (drop at s.now)) result }
{
    fields::read_words(s, 8, sizes);
    check_body(s, sizes, at)
}

// The stops of a table.
pub fn check_table(s: &[u8]) -> Result<usize, Stop>
    ensures { Walked s.now (read_table s.now) result }
{
    let at = fields_walk::check_header(s, b"FACT")?;
    let dims = fields::word_at(s, 4) as usize;
    let mut sizes = [0u32; 8];
    check_sized(s, &mut sizes[..dims], at)
}
