// One late reading: an archive with one record added.
// The call answers for whatever bytes, codes and reading it is lent, looks at the output last, and leaves every byte of it alone when it stops.
#![tactic(auto)]

ghost use Rattle.std.specs.Prelude.{◌≡◌, ◌+◌, ◌*◌, ◌≤◌, length};
ghost use Rattle.fields.specs.Words.{words_at};
ghost use Rattle.rows.specs.Slices.{held};
ghost use Rattle.call_answers.specs.Answers.{Answered};
ghost use Rattle.call_file.specs.Stores.{Store};
ghost use Rattle.call_add.specs.Adds.{coded, added, adds};

use call_ask::Accepted;
use cube::Total;
use rows::RowSlice;
use stops::Stop;

// How many words a row of 8 codes has.
const ROW: usize = 11;

// Whether codes are a row's for these sizes: one for each dimension, below its size.
fn codes_fit(sizes: &[u32], codes: &[u32]) -> bool
    ensures { result ≡ coded sizes.now codes.now }
{
    codes.len() == sizes.len() && codes.iter().zip(sizes).all(|(code, size)| code < size)
}

// Writes the archive of sizes and base rows with one record folded in, with a lent array for slots.
fn add_row(
    sizes: &[u32],
    rows: &RowSlice,
    codes: &[u32],
    reading: i32,
    store: &mut [u16],
    out: &mut [u8],
) -> Result<usize, Stop>
    requires { Store sizes.now rows.now.n rows.now.words.now × (rows.now.dims ≡ length sizes.now) × (262144 ≤ length store.old) }
    ensures { Answered (added sizes.now (held rows.now) codes.now reading) out.old out.new result }
{
    if !codes_fit(sizes, codes) {
        return Err(Stop::Question);
    }
    let sum = i64::from(reading);
    let mut late = [0u32; ROW];
    rows_runs::put_row(&mut late, 0, codes, 255, Total { sum, count: 1 });
    let late = RowSlice::front(&late, 1, codes.len());
    call_file::join_rows(sizes, rows, &late, store, out)
}

// The same for an archive's sizes, which go into the buffer that is lent.
fn add_sized(
    archive: &[u8],
    sizes: &mut [u32],
    rows: &RowSlice,
    codes: &[u32],
    reading: i32,
    store: &mut [u16],
    out: &mut [u8],
) -> Result<usize, Stop>
    requires { (8 + 4 * rows.now.dims ≤ length archive.now) × Store (words_at archive.now rows.now.dims 8) rows.now.n rows.now.words.now × (length sizes.old ≡ rows.now.dims) × (262144 ≤ length store.old) }
    ensures { Answered (added (words_at archive.now rows.now.dims 8) (held rows.now) codes.now reading) out.old out.new result }
{
    fields::read_words(archive, 8, sizes);
    add_row(sizes, rows, codes, reading, store, out)
}

// Adds a record to an archive that was accepted.
fn add_read(
    archive: &Accepted,
    codes: &[u32],
    reading: i32,
    store: &mut [u16],
    out: &mut [u8],
) -> Result<usize, Stop>
    requires { 262144 ≤ length store.old }
    ensures { Answered (adds archive.now.bytes.now codes.now reading) out.old out.new result }
{
    let rows = archive.rows();
    let mut sizes = [0u32; 8];
    add_sized(
        archive.bytes,
        &mut sizes[..rows.dims],
        &rows,
        codes,
        reading,
        store,
        out,
    )
}

// Reads an archive into the array that is lent, and adds a record. One array has the slots of the check and then those of the new archive.
fn add_in(
    archive: &[u8],
    rows: &mut [u32; rows::ROOM],
    store: &mut [u16; 262144],
    codes: &[u32],
    reading: i32,
    out: &mut [u8],
) -> Result<usize, Stop>
    ensures { Answered (adds archive.now codes.now reading) out.old out.new result }
{
    let shape = archive_read::read_lent(archive, rows, store)?;
    let archive = Accepted {
        bytes: archive,
        shape,
        words: rows,
    };
    add_read(&archive, codes, reading, store, out)
}

// Adds one record to an archive: the archive of its base rows with this record folded in.
pub fn add(archive: &[u8], codes: &[u32], reading: i32, out: &mut [u8]) -> Result<usize, Stop>
    ensures { Answered (adds archive.now codes.now reading) out.old out.new result }
{
    let mut rows = [0u32; rows::ROOM];
    let mut store = [0u16; 262144];
    add_in(archive, &mut rows, &mut store, codes, reading, out)
}
