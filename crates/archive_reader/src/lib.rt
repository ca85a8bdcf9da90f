// An archive read from its bytes by a reader, which steps along the archive's fields and remembers only its place.
// The functions on a slice and a place (crate `archive_sections`) do the work. Those of `Reader` take it apart and call them.
#![tactic(auto)]

ghost use Rattle.std.specs.Prelude.{◌≡◌, drop};
ghost use Rattle.stops.specs.Numbers.{numbered};
ghost use Rattle.fields_walk.specs.Fields.{header, close};
ghost use Rattle.fields_walk.specs.Walked.{Walked};
ghost use Rattle.archive_entries.specs.Layout.{CUBE};
ghost use Rattle.archive_entries.specs.Reading.{walk_archive, archive_answer};
ghost use Rattle.archive_sections.specs.Sections.{word_there, bases_from, cells_from};
ghost use Rattle.archive_reader.specs.Place.{reader_at};

use archive_entries::Shape;
use stops::Stop;

#[derive(Clone, Copy)]
pub struct Reader<'a> {
    src: &'a [u8],
    at: usize,
}

impl<'a> Reader<'a> {
    // A reader at the first byte.
    fn start(src: &'a [u8]) -> Reader<'a>
        ensures { result ≡ reader_at src.entry 0 }
    {
        Reader { src, at: 0 }
    }

    // The reader at another place.
    fn moved(self, place: usize) -> Reader<'a>
        ensures { result ≡ reader_at self.entry.src place }
    {
        Reader { at: place, ..self }
    }

    // The word at the reader's place.
    fn word(self) -> u32
        ensures { result ≡ word_there self.entry.src.now self.entry.at }
    {
        archive_sections::word_there(self.src, self.at)
    }

    // The sections from the reader's place on: a stop, or the place behind the section.
    fn header(self) -> Result<usize, Stop>
        ensures { Walked self.entry.src.now (header CUBE (drop self.entry.at self.entry.src.now)) result }
    {
        archive_sections::header_at(self.src, self.at)
    }

    fn bases(self) -> Result<usize, Stop>
        ensures { Walked self.entry.src.now (bases_from self.entry.src.now self.entry.at) result }
    {
        archive_sections::bases_at(self.src, self.at)
    }

    fn cells(self) -> Result<usize, Stop>
        ensures { Walked self.entry.src.now (cells_from self.entry.src.now self.entry.at) result }
    {
        archive_sections::cells_at(self.src, self.at)
    }

    fn close(self) -> Result<usize, Stop>
        ensures { Walked self.entry.src.now (close self.entry.src.now (drop self.entry.at self.entry.src.now)) result }
    {
        archive_sections::close_at(self.src, self.at)
    }
}

// All fields of an archive, stops 1 to 11: the reader steps from section to section, up to the first stop.
pub fn check_archive(s: &[u8]) -> Result<Shape, Stop>
    ensures { numbered result ≡ archive_answer (walk_archive s.now) }
{
    let r = Reader::start(s);
    let base = r.moved(r.header()?);
    let normal = base.moved(base.bases()?);
    let check = normal.moved(normal.cells()?);
    check.close()?;
    Ok(Shape {
        dims: r.moved(4).word(),
        bases: base.word(),
        cells: normal.word(),
    })
}
