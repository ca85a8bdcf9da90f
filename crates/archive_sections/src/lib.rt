// The sections of an archive, each from a place on: a stop, or the place behind it.
#![tactic(auto)]

ghost use Rattle.std.specs.Prelude.{◌≡◌, drop};
ghost use Rattle.fields_walk.specs.Fields.{header, close};
ghost use Rattle.fields_walk.specs.Walked.{Walked};
ghost use Rattle.archive_entries.specs.Layout.{CUBE};
ghost use Rattle.archive_sections.specs.Sections.{word_there, bases_from, cells_from};

use stops::Stop;

// The word at a place, 0 where the input ends before it: a reader asks for one behind sections that are right, where it never does. By its clause it cannot fail, so it answers no `Option`.
pub fn word_there(s: &[u8], at: usize) -> u32
    ensures { result ≡ word_there s.now at }
{
    if s.len() < 4 {
        return 0;
    }
    if s.len() - 4 < at {
        return 0;
    }
    fields::word_at(s, at)
}

// The header from a place on.
pub fn header_at(s: &[u8], at: usize) -> Result<usize, Stop>
    ensures { Walked s.now (header CUBE (drop at s.now)) result }
{
    if s.len() < at {
        return Err(Stop::Opening);
    }
    let width = fields_walk::check_header(&s[at..], &archive_entries::CUBE)?;
    Ok(at + width)
}

// The base count and the base entries at a place, with the sizes of the header.
pub fn bases_at(s: &[u8], at: usize) -> Result<usize, Stop>
    ensures { Walked s.now (bases_from s.now at) result }
{
    fields_walk::check_header(s, &archive_entries::CUBE)?;
    if s.len() < at {
        return Err(Stop::Cut);
    }
    let d = fields::word_at(s, 4) as usize;
    let mut sizes = [0u32; 8];
    fields::read_words(s, 8, &mut sizes[..d]);
    archive_entries::check_bases(s, &sizes[..d], at)
}

// The normal count and the normal entries at a place, with the header's number of dimensions.
pub fn cells_at(s: &[u8], at: usize) -> Result<usize, Stop>
    ensures { Walked s.now (cells_from s.now at) result }
{
    fields_walk::check_header(s, &archive_entries::CUBE)?;
    if s.len() < at {
        return Err(Stop::Cut);
    }
    archive_entries::check_cells(s, fields::word_at(s, 4) as usize, at)
}

// The check word at a place, which ends the archive.
pub fn close_at(s: &[u8], at: usize) -> Result<usize, Stop>
    ensures { Walked s.now (close s.now (drop at s.now)) result }
{
    if s.len() < at {
        return Err(Stop::Cut);
    }
    fields_walk::check_close(s, at)
}
