// An archive checked, listed by cuboid, expanded.
// Every call answers for whatever bytes it is lent, looks at the output last, and leaves every byte of it alone when it stops.
#![tactic(auto)]

ghost use Rattle.std.specs.Prelude.{◌≡◌, ◌*◌, take};
ghost use Rattle.rows.specs.Rows.{width};
ghost use Rattle.rows.specs.Slices.{held};
ghost use Rattle.stops.specs.Numbers.{numbered};
ghost use Rattle.archive_entries.specs.Reading.{walk_archive, archive_answer};
ghost use Rattle.rows_ready.specs.Ready.{Ready};
ghost use Rattle.archive_normals.specs.Grouped.{Grouped};
ghost use Rattle.call_cuboids.specs.Cuboids.{cuboid_bytes, expansion_bytes};
ghost use Rattle.call_answers.specs.Answers.{bytes, Answered};
ghost use Rattle.call_answers.specs.Calls.{checks, lists_cuboid, expands};
ghost use Rattle.call_ask.specs.Accepts.{Accepts, accepts_prop};

use archive_entries::Shape;
use archive_read::Legible;
use call_answers::Counts;
use rows::RowSlice;
use stops::Stop;

// Checks an archive: all its stops, 1 to 12.
pub fn check(archive: &[u8]) -> Result<Counts, Stop>
    ensures { numbered result ≡ checks archive.now }
{
    let shape = archive_read::check_required(archive)?;
    Ok(Counts {
        bases: shape.bases,
        cells: shape.cells,
    })
}

// An archive that was accepted: its bytes, what was read of it, and words that have its base rows in front. Who reads an archive makes one by a literal: what a function for it would ensure, each would have to carry over.
#[derive(Drop)]
pub struct Accepted<'a> {
    pub bytes: &'a [u8],
    pub shape: Shape,
    pub words: &'a [u32],
    ghost accepts: { Accepts bytes.now words.now shape } by { accepts_prop bytes.now words.now shape },
}

impl<'a> Accepted<'a> {
    // Its base rows.
    pub fn rows(&self) -> RowSlice<'a>
        ensures { (result.words.now ≡ take (self.now.shape.bases * width self.now.shape.dims) self.now.words.now) × (result.n ≡ self.now.shape.bases) × (result.dims ≡ self.now.shape.dims) }
    {
        self.shape.rows_in(self.words)
    }
}

// Writes the cuboid of a set where there is room for it.
fn fit_cuboid(out: &mut [u8], rows: &RowSlice, set: u32) -> Result<usize, Stop>
    requires { Ready rows.now.dims rows.now.n rows.now.words.now }
    ensures { Answered (bytes (cuboid_bytes rows.now.dims (held rows.now) set)) out.old out.new result }
{
    let needed = call_cuboids::write_cuboid(out, rows, set);
    call_answers::fitting(needed, out.len())
}

// Lists the cuboid of a set of an archive that was accepted.
fn list_read(archive: &Accepted, set: u32, out: &mut [u8]) -> Result<usize, Stop>
    ensures { Answered (lists_cuboid archive.now.bytes.now set) out.old out.new result }
{
    if lattice::sets_of(archive.shape.dims) <= set {
        return Err(Stop::Set);
    }
    fit_cuboid(out, &archive.rows(), set)
}

// Reads an archive into the array that is lent, and lists the cuboid of a set.
fn list_in(s: &[u8], rows: &mut [u32; rows::ROOM], set: u32, out: &mut [u8]) -> Result<usize, Stop>
    ensures { Answered (lists_cuboid s.now set) out.old out.new result }
{
    let shape = archive_read::read_required(s, rows)?;
    let archive = Accepted {
        bytes: s,
        shape,
        words: rows,
    };
    list_read(&archive, set, out)
}

// Lists the cuboid of a set.
pub fn list_cuboid(archive: &[u8], set: u32, out: &mut [u8]) -> Result<usize, Stop>
    ensures { Answered (lists_cuboid archive.now set) out.old out.new result }
{
    let mut rows = [0u32; rows::ROOM];
    list_in(archive, &mut rows, set, out)
}

// Writes the expansion where there is room for it, by the slots that are lent.
fn fit_expansion(
    out: &mut [u8],
    rows: &RowSlice,
    store: &mut [u16],
    used: &mut [usize],
) -> Result<usize, Stop>
    requires { Grouped rows.now.dims rows.now.n rows.now.words.now store.old used.old }
    ensures { Answered (bytes (expansion_bytes rows.now.dims (held rows.now))) out.old out.new result }
{
    let needed = call_expansion::write_expansion(out, rows, store, used);
    call_answers::fitting(needed, out.len())
}

// Expands an archive that was accepted; the slots that are lent are those of its base rows.
fn expand_read(
    archive: &Accepted,
    store: &mut [u16],
    used: &mut [usize],
    out: &mut [u8],
) -> Result<usize, Stop>
    requires { Grouped archive.now.shape.dims archive.now.shape.bases (take (archive.now.shape.bases * width archive.now.shape.dims) archive.now.words.now) store.old used.old }
    ensures { Answered (expands archive.now.bytes.now) out.old out.new result }
{
    fit_expansion(out, &archive.rows(), store, used)
}

// Reads the base rows of an archive whose fields are right into the array that is lent, and expands it.
fn expand_in(
    archive: &Legible,
    rows: &mut [u32; rows::ROOM],
    store: &mut [u16; 262144],
    used: &mut [usize; 256],
    out: &mut [u8],
) -> Result<usize, Stop>
    ensures { Answered (expands archive.now.bytes.now) out.old out.new result }
{
    let shape = archive_read::read_judged(archive, rows, store, used)?;
    let archive = Accepted {
        bytes: archive.bytes,
        shape,
        words: rows,
    };
    expand_read(&archive, store, used, out)
}

// Expands an archive whose fields are right. The slots of the check are completed for the expansion.
fn expand_fields(archive: &Legible, out: &mut [u8]) -> Result<usize, Stop>
    ensures { Answered (expands archive.now.bytes.now) out.old out.new result }
{
    let mut rows = [0u32; rows::ROOM];
    let mut store = [0u16; 262144];
    let mut used = [0usize; 256];
    expand_in(archive, &mut rows, &mut store, &mut used, out)
}

// Expands an archive to the complete cube. No array is declared before the first 11 stops are passed.
pub fn expand(archive: &[u8], out: &mut [u8]) -> Result<usize, Stop>
    ensures { Answered (expands archive.now) out.old out.new result }
{
    let shape = archive_reader::check_archive(archive)?;
    let archive = Legible {
        bytes: archive,
        shape,
    };
    expand_fields(&archive, out)
}
