// An archive asked for a cell.
// The call answers for whatever bytes and question it is lent, and writes nothing.
#![tactic(auto)]

ghost use Rattle.std.specs.Prelude.{◌≡◌};
ghost use Rattle.stops.specs.Numbers.{numbered};
ghost use Rattle.call_answers.specs.Calls.{looks_up};

use call_ask::Accepted;
use call_questions::Cell;
use stops::Stop;

// Answers a question to an archive that was accepted.
pub fn look_read(archive: &Accepted, question: &[u32]) -> Result<Option<Cell>, Stop>
    ensures { numbered result ≡ looks_up archive.now.bytes.now question.now }
{
    let s = archive.bytes;
    let d = archive.shape.dims as usize;
    if !call_questions::fits(s, d, question) {
        return Err(Stop::Question);
    }
    let m = archive.shape.cells as usize;
    let at = s.len() - 4 - m * (4 * d + 12);
    let rows = archive.rows();
    Ok(call_questions::answer(s, at, m, &rows, question))
}

// Reads an archive into the array that is lent, and looks up a cell.
fn look_in(s: &[u8], rows: &mut [u32; rows::ROOM], question: &[u32]) -> Result<Option<Cell>, Stop>
    ensures { numbered result ≡ looks_up s.now question.now }
{
    let shape = archive_read::read_required(s, rows)?;
    let archive = Accepted {
        bytes: s,
        shape,
        words: rows,
    };
    look_read(&archive, question)
}

// Looks up a cell: a code or ALL (65,535) for each dimension.
pub fn look_up(archive: &[u8], question: &[u32]) -> Result<Option<Cell>, Stop>
    ensures { numbered result ≡ looks_up archive.now question.now }
{
    let mut rows = [0u32; rows::ROOM];
    look_in(archive, &mut rows, question)
}
