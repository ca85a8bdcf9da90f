// Two archives into one.
// The call answers for whatever bytes it is lent, looks at the output last, and leaves every byte of it alone when it stops.
#![tactic(auto)]

ghost use Rattle.std.specs.Prelude.{◌≡◌, ◌+◌, ◌*◌, ◌≤◌, length};
ghost use Rattle.lists.specs.Order.{same};
ghost use Rattle.fields.specs.Words.{words_at};
ghost use Rattle.call_answers.specs.Answers.{Answered};
ghost use Rattle.call_answers.specs.Joins.{joins};

use call_ask::Accepted;
use stops::Stop;

// Whether two archives of the same dimensions have the same sizes. The buffers that are lent have them afterwards.
fn same_sizes(first: &[u8], second: &[u8], sizes: &mut [u32], others: &mut [u32]) -> bool
    requires sizes_len_bound { (length sizes.old ≤ 8) × (length others.old ≡ length sizes.old) }
    requires sizes_in_bounds { (8 + 4 * length sizes.old ≤ length first.now) × (8 + 4 * length sizes.old ≤ length second.now) }
    ensures { (sizes.new ≡ words_at first.now (length sizes.old) 8) × (result ≡ same (words_at first.now (length sizes.old) 8) (words_at second.now (length sizes.old) 8)) }
{
    fields::read_words(first, 8, sizes);
    fields::read_words(second, 8, others);
    *sizes == *others
}

// Joins two archives that were accepted.
fn join_read(
    first: &Accepted,
    second: &Accepted,
    store: &mut [u16],
    out: &mut [u8],
) -> Result<usize, Stop>
    requires { 262144 ≤ length store.old }
    ensures { Answered (joins first.now.bytes.now second.now.bytes.now) out.old out.new result }
{
    if first.shape.dims != second.shape.dims {
        return Err(Stop::Sizes);
    }
    let d = first.shape.dims as usize;
    let mut sizes = [0u32; 8];
    let mut others = [0u32; 8];
    if same_sizes(first.bytes, second.bytes, &mut sizes[..d], &mut others[..d]) {
        let rows1 = first.rows();
        let rows2 = second.rows();
        call_file::join_rows(&sizes[..d], &rows1, &rows2, store, out)
    } else {
        Err(Stop::Sizes)
    }
}

// Reads both archives into the arrays that are lent, the first whole before the second, and joins them. One array has the slots of both checks and then those of the new archive.
fn join_in(
    first: &[u8],
    rows1: &mut [u32; rows::ROOM],
    second: &[u8],
    rows2: &mut [u32; rows::ROOM],
    store: &mut [u16; 262144],
    out: &mut [u8],
) -> Result<usize, Stop>
    ensures { Answered (joins first.now second.now) out.old out.new result }
{
    let shape1 = archive_read::read_lent(first, rows1, store)?;
    let shape2 = archive_read::read_lent(second, rows2, store)?;
    let first = Accepted {
        bytes: first,
        shape: shape1,
        words: rows1,
    };
    let second = Accepted {
        bytes: second,
        shape: shape2,
        words: rows2,
    };
    join_read(&first, &second, store, out)
}

// Joins two archives of the same dimensions and sizes: the archive of both lists of base rows, folded.
pub fn join(first: &[u8], second: &[u8], out: &mut [u8]) -> Result<usize, Stop>
    ensures { Answered (joins first.now second.now) out.old out.new result }
{
    let mut rows1 = [0u32; rows::ROOM];
    let mut rows2 = [0u32; rows::ROOM];
    let mut store = [0u16; 262144];
    join_in(first, &mut rows1, second, &mut rows2, &mut store, out)
}
