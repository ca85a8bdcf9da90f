// The archive built from a table.
#![tactic(auto)]

ghost use Rattle.std.specs.Prelude.{◌≡◌, ◌+◌, ◌*◌, ◌≤◌, length};
ghost use Rattle.rows.specs.Slices.{held};
ghost use Rattle.fields.specs.Words.{words_at};
ghost use Rattle.table.specs.Reading.{read_table, table_answer, Stored};
ghost use Rattle.archive_entries.specs.Layout.{archive_bytes, Limits};
ghost use Rattle.rows_ready.specs.Ready.{Ready};
ghost use Rattle.call_answers.specs.Answers.{bytes, Answered};
ghost use Rattle.call_answers.specs.Calls.{builds};

use rows::RowSlice;
use stops::Stop;
use table::Folded;

// Writes the archive of a table's base rows where there is room for it; the sizes, which stand in the table, go into the buffer that is lent.
fn write_sized(
    s: &[u8],
    sizes: &mut [u32],
    rows: &RowSlice,
    store: &mut [u16],
    out: &mut [u8],
) -> Result<usize, Stop>
    requires sizes_in_bounds { (8 + 4 * rows.now.dims ≤ length s.now) × Ready rows.now.dims rows.now.n rows.now.words.now × (length sizes.old ≡ rows.now.dims) × (262144 ≤ length store.old) }
    requires limits { Limits (words_at s.now rows.now.dims 8) (held rows.now) }
    ensures { Answered (bytes (archive_bytes (words_at s.now rows.now.dims 8) (held rows.now))) out.old out.new result }
{
    fields::read_words(s, 8, sizes);
    call_file::fit_archive(out, sizes, rows, store)
}

// Writes the archive of a table that was accepted; the array has its base rows.
fn build_read(s: &[u8], rows: &[u32], folded: Folded, out: &mut [u8]) -> Result<usize, Stop>
    requires s_value { table_answer (read_table s.now) ≡ Ok folded }
    requires in_bounds { (11264 ≤ length rows.now) × Stored (read_table s.now) rows.now }
    ensures { Answered (builds s.now) out.old out.new result }
{
    let d = folded.dims as usize;
    let rows = RowSlice::front(rows, folded.rows as usize, d);
    let mut sizes = [0u32; 8];
    let mut store = [0u16; 262144];
    write_sized(s, &mut sizes[..d], &rows, &mut store, out)
}

// Reads a table into the array that is lent, and builds its archive.
fn build_in(table: &[u8], rows: &mut [u32; rows::ROOM], out: &mut [u8]) -> Result<usize, Stop>
    ensures { Answered (builds table.now) out.old out.new result }
{
    let folded = table_rows::read_table(table, rows)?;
    build_read(table, rows, folded, out)
}

// Builds the archive of a table.
pub fn build(table: &[u8], out: &mut [u8]) -> Result<usize, Stop>
    ensures { Answered (builds table.now) out.old out.new result }
{
    let mut rows = [0u32; rows::ROOM];
    build_in(table, &mut rows, out)
}
