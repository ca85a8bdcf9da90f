// An archive asked through a window: a dimension and a code, which every question must carry there.
// The call answers for whatever bytes, window and question it is lent, and writes nothing. Of an accepted archive the answer tells of the rows in the window alone.
#![tactic(auto)]

ghost use Rattle.std.specs.Prelude.{◌≡◌};
ghost use Rattle.stops.specs.Numbers.{numbered};
ghost use Rattle.call_window.specs.Windows.{asks_window};

use call_ask::Accepted;
use cube::Total;
use stops::Stop;

// Answers a question to an archive that was accepted: the cell's sum and count, or none for 'no record', and no entry's number, which would tell of rows outside.
fn window_read(
    archive: &Accepted,
    dimension: u32,
    code: u32,
    question: &[u32],
) -> Result<Option<Total>, Stop>
    ensures { numbered result ≡ asks_window archive.now.bytes.now dimension code question.now }
{
    let shape = archive.shape;
    if dimension == 0 {
        return Err(Stop::Dimension);
    }
    if shape.dims < dimension {
        return Err(Stop::Dimension);
    }
    let i = dimension as usize - 1;
    if fields::word_at(archive.bytes, 8 + 4 * i) <= code {
        return Err(Stop::Question);
    }
    if !call_questions::fits(archive.bytes, shape.dims as usize, question) {
        return Err(Stop::Question);
    }
    if question[i] != code {
        return Err(Stop::Window);
    }
    let found = call_look::look_read(archive, question)?;
    Ok(found.map(|cell| Total {
        sum: cell.sum,
        count: cell.count,
    }))
}

// Reads an archive into the array that is lent, and answers a question through a window.
fn window_in(
    archive: &[u8],
    rows: &mut [u32; rows::ROOM],
    dimension: u32,
    code: u32,
    question: &[u32],
) -> Result<Option<Total>, Stop>
    ensures { numbered result ≡ asks_window archive.now dimension code question.now }
{
    let shape = archive_read::read_required(archive, rows)?;
    let archive = Accepted {
        bytes: archive,
        shape,
        words: rows,
    };
    window_read(&archive, dimension, code, question)
}

// Looks up a cell through the window of a dimension, counted from 1, and a code: the question has this code there.
pub fn window(
    archive: &[u8],
    dimension: u32,
    code: u32,
    question: &[u32],
) -> Result<Option<Total>, Stop>
    ensures { numbered result ≡ asks_window archive.now dimension code question.now }
{
    let mut rows = [0u32; rows::ROOM];
    window_in(archive, &mut rows, dimension, code, question)
}
