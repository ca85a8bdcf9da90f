// A fee shared over the cells of a set of an archive.
// The call answers for whatever bytes it is lent, looks at the output last, and leaves every byte of it alone when it stops.
#![tactic(auto)]

ghost use Rattle.std.specs.Prelude.{◌≡◌, map, ◌*◌, ◌^◌, ◌≤◌, ◌<◌, length, take};
ghost use Rattle.lists.specs.Lists.{sum};
ghost use Rattle.cube.specs.Bounds.{count_of};
ghost use Rattle.rows.specs.Slices.{held};
ghost use Rattle.rows_ready.specs.Ready.{Ready};
ghost use Rattle.call_answers.specs.Answers.{bytes, Answered};
ghost use Rattle.fee_list.specs.Listed.{fee_bytes};
ghost use Rattle.call_fee.specs.Fees.{count_in, weights, shares_fee};

use call_ask::Accepted;
use fee_shares::Fee;
use rows::RowSlice;
use stops::Stop;

// Copies the counts of rows over the front of a lent list.
fn copy_counts(rows: &RowSlice, counts: &mut [u32])
    requires { rows.now.n ≤ length counts.old }
    ensures { take rows.now.n counts.new ≡ map count_in (held rows.now) }
{
    for (i, count) in counts[..rows.n].iter_mut().enumerate() {
        *count = rows.total_at(i).count;
    }
}

// The counts of the cells of a set, over the front of a lent list. Returns how many there are.
fn cell_counts(rows: &RowSlice, set: u32, tallies: &mut [u32]) -> usize
    requires { Ready rows.now.dims rows.now.n rows.now.words.now × (0 < rows.now.n) × (rows.now.n ≤ length tallies.old) }
    ensures { (take result tallies.new ≡ weights rows.now.dims (held rows.now) set) × (result ≤ rows.now.n) }
{
    let mut index = [0u32; 1024];
    let mut cells = [0u32; rows::ROOM];
    let count = rows_runs::group_rows(rows, set, &mut index[..rows.n], &mut cells);
    copy_counts(&RowSlice::front(&cells, count, rows.dims), tallies);
    count
}

// Writes the shares of a fee by counts where there is room for them.
fn fit_fee(out: &mut [u8], fee: &Fee) -> Result<usize, Stop>
    ensures { Answered (bytes (fee_bytes fee.now.cents fee.now.counts.now)) out.old out.new result }
{
    call_answers::fitting(4 + 4 * fee.counts.len(), out.len())?;
    Ok(fee_list::put_fee(out, fee))
}

// Shares a fee over the cells of a set, by base rows with at least one reading in all.
fn share_rows(out: &mut [u8], rows: &RowSlice, set: u32, fee: u64) -> Result<usize, Stop>
    requires { Ready rows.now.dims rows.now.n rows.now.words.now × (set < 2 ^ rows.now.dims) × (fee ≤ 1000000000) × (0 < count_of (held rows.now)) }
    ensures { Answered (bytes (fee_bytes fee (weights rows.now.dims (held rows.now) set))) out.old out.new result }
{
    let mut tallies = [0u32; 1024];
    let count = cell_counts(rows, set, &mut tallies);
    let fee = Fee {
        cents: fee,
        counts: &tallies[..count],
    };
    fit_fee(out, &fee)
}

// Shares a fee over the cells of a set of an archive that was accepted.
fn share_read(archive: &Accepted, fee: u64, set: u32, out: &mut [u8]) -> Result<usize, Stop>
    ensures { Answered (shares_fee archive.now.bytes.now fee set) out.old out.new result }
{
    let shape = archive.shape;
    if lattice::sets_of(shape.dims) <= set {
        return Err(Stop::Set);
    }
    if 1000000000 < fee {
        return Err(Stop::Fee);
    }
    if shape.bases == 0 {
        return Err(Stop::NoRows);
    }
    share_rows(out, &archive.rows(), set, fee)
}

// Reads an archive into the array that is lent, and shares a fee over the cells of a set.
fn share_in(
    s: &[u8],
    rows: &mut [u32; rows::ROOM],
    fee: u64,
    set: u32,
    out: &mut [u8],
) -> Result<usize, Stop>
    ensures { Answered (shares_fee s.now fee set) out.old out.new result }
{
    let shape = archive_read::read_required(s, rows)?;
    let archive = Accepted {
        bytes: s,
        shape,
        words: rows,
    };
    share_read(&archive, fee, set, out)
}

// Shares a fee in cents over the cells of a set: the number of cells, then each cell's whole cents.
pub fn share_fee(archive: &[u8], fee: u32, set: u32, out: &mut [u8]) -> Result<usize, Stop>
    ensures { Answered (shares_fee archive.now fee set) out.old out.new result }
{
    let mut rows = [0u32; rows::ROOM];
    share_in(archive, &mut rows, u64::from(fee), set, out)
}
