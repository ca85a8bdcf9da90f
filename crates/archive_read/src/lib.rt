// An archive read with all its stops, 1 to 12: its fields checked, its base rows stored, and judged by them.
#![tactic(auto)]

ghost use Rattle.std.specs.Prelude.{◌≡◌, ◌*◌, ◌≤◌, length, take, Ok};
ghost use Rattle.rows.specs.Rows.{width};
ghost use Rattle.stops.specs.Numbers.{numbered};
ghost use Rattle.archive_entries.specs.Reading.{walk_archive, read_archive, archive_answer, Stored};
ghost use Rattle.archive_normals.specs.Grouped.{Grouped};
ghost use Rattle.archive_read.specs.Sharing.{Shares};

use archive_entries::Shape;
use stops::Stop;

// An archive whose fields are right (stops 1 to 11 have passed): its bytes, and what was read of it.
#[derive(Drop)]
pub struct Legible<'a> {
    pub bytes: &'a [u8],
    pub shape: Shape,
    ghost walked: { archive_answer (walk_archive bytes.now) ≡ Ok shape },
}

// What was read of an archive whose fields are right, or stop 12. The array has its base rows; their slots go into the buffers that are lent.
fn judge_read(
    archive: &Legible,
    rows: &[u32],
    store: &mut [u16],
    used: &mut [usize],
) -> Result<Shape, Stop>
    requires in_bounds { (11264 ≤ length rows.now) × Stored (walk_archive archive.now.bytes.now) rows.now }
    requires in_bounds_2 { (262144 ≤ length store.old) × (256 ≤ length used.old) }
    ensures value { numbered result ≡ archive_answer (read_archive archive.now.bytes.now) }
    ensures grouped { Grouped archive.now.shape.dims archive.now.shape.bases (take (archive.now.shape.bases * width archive.now.shape.dims) rows.now) store.new used.new }
{
    let rows = archive.shape.rows_in(rows);
    if archive_judge::is_required(archive.bytes, &rows, store, used) {
        Ok(archive.shape)
    } else {
        Err(Stop::Entries)
    }
}

// The base rows of an archive whose fields are right, and their slots, into the arrays that are lent; what was read of it, or stop 12.
pub fn read_judged(
    archive: &Legible,
    rows: &mut [u32; rows::ROOM],
    store: &mut [u16; 262144],
    used: &mut [usize; 256],
) -> Result<Shape, Stop>
    ensures value { numbered result ≡ archive_answer (read_archive archive.now.bytes.now) }
    ensures stored { Stored (read_archive archive.now.bytes.now) rows.new }
    ensures grouped { Grouped archive.now.shape.dims archive.now.shape.bases (take (archive.now.shape.bases * width archive.now.shape.dims) rows.new) store.new used.new }
{
    let shape = archive.shape;
    archive_entries::store_rows(archive.bytes, shape.dims, shape.bases, rows);
    judge_read(archive, rows, store, used)
}

// What was read of an archive whose fields are right, or stop 12. Its base rows are not asked for.
fn judge_fields(archive: &Legible) -> Result<Shape, Stop>
    ensures { numbered result ≡ archive_answer (read_archive archive.now.bytes.now) }
{
    let mut rows = [0u32; rows::ROOM];
    let mut store = [0u16; 262144];
    let mut used = [0usize; 256];
    read_judged(archive, &mut rows, &mut store, &mut used)
}

// All stops of an archive, 1 to 12. No array is declared before the first 11 are passed.
pub fn check_required(s: &[u8]) -> Result<Shape, Stop>
    ensures { numbered result ≡ archive_answer (read_archive s.now) }
{
    let shape = archive_reader::check_archive(s)?;
    judge_fields(&Legible { bytes: s, shape })
}

// The same as `read_judged`, with slots of its own: they tell how many rows share the cells of each set.
fn judge_sharing(
    archive: &Legible,
    rows: &mut [u32; rows::ROOM],
    used: &mut [usize; 256],
) -> Result<Shape, Stop>
    ensures value { numbered result ≡ archive_answer (read_archive archive.now.bytes.now) }
    ensures stored { Stored (read_archive archive.now.bytes.now) rows.new }
    ensures shares { Shares (read_archive archive.now.bytes.now) rows.new used.new }
{
    let mut store = [0u16; 262144];
    read_judged(archive, rows, &mut store, used)
}

// Reads an archive with all its stops, 1 to 12; its base rows into the array that is lent, and how many of them share the cells of each set but the full one.
pub fn read_sharing(
    s: &[u8],
    rows: &mut [u32; rows::ROOM],
    used: &mut [usize; 256],
) -> Result<Shape, Stop>
    ensures value { numbered result ≡ archive_answer (read_archive s.now) }
    ensures stored { Stored (read_archive s.now) rows.new }
    ensures shares { Shares (read_archive s.now) rows.new used.new }
{
    let shape = archive_reader::check_archive(s)?;
    judge_sharing(&Legible { bytes: s, shape }, rows, used)
}

// Reads an archive with all its stops, 1 to 12; its base rows into the array that is lent. The one for slots is lent too.
// An array stands in the frame of the function that declares it, so it is lent here and declared there.
pub fn read_lent(
    s: &[u8],
    rows: &mut [u32; rows::ROOM],
    store: &mut [u16; 262144],
) -> Result<Shape, Stop>
    ensures value { numbered result ≡ archive_answer (read_archive s.now) }
    ensures stored { Stored (read_archive s.now) rows.new }
{
    let mut used = [0usize; 256];
    let shape = archive_reader::check_archive(s)?;
    read_judged(&Legible { bytes: s, shape }, rows, store, &mut used)
}

// The same as `read_lent`, with slots of its own.
pub fn read_required(s: &[u8], rows: &mut [u32; rows::ROOM]) -> Result<Shape, Stop>
    ensures value { numbered result ≡ archive_answer (read_archive s.now) }
    ensures stored { Stored (read_archive s.now) rows.new }
{
    let mut used = [0usize; 256];
    read_sharing(s, rows, &mut used)
}
