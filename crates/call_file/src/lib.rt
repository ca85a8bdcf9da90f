// Base rows filed: the archive of a list of them, and of two lists as one.
// A function looks at the output last, and leaves every byte of it alone when it stops.
#![tactic(auto)]

ghost use Rattle.std.specs.Prelude.{◌≡◌, ◌≤◌, length};
ghost use Rattle.cube.specs.Measure.{sums as totals};
ghost use Rattle.rows.specs.Slices.{held};
ghost use Rattle.rows_ready.specs.Ready.{Ready};
ghost use Rattle.rows_merge.specs.United.{united};
ghost use Rattle.archive_entries.specs.Layout.{archive_bytes, Limits};
ghost use Rattle.call_answers.specs.Answers.{bytes, Answered};
ghost use Rattle.call_answers.specs.Joins.{filed};
ghost use Rattle.call_file.specs.Stores.{Store};

use rows::RowSlice;
use stops::Stop;

// Writes the archive of sizes and base rows where there is room for it, with a lent array for slots.
pub fn fit_archive(
    out: &mut [u8],
    sizes: &[u32],
    rows: &RowSlice,
    store: &mut [u16],
) -> Result<usize, Stop>
    requires ready { Ready rows.now.dims rows.now.n rows.now.words.now × (rows.now.dims ≡ length sizes.now) × Limits sizes.now (held rows.now) }
    requires room { 262144 ≤ length store.old }
    ensures { Answered (bytes (archive_bytes sizes.now (held rows.now))) out.old out.new result }
{
    let needed = archive_write::write_archive(out, sizes, rows, store);
    call_answers::fitting(needed, out.len())
}

// Writes the archive of two lists of base rows, of the same sizes, as one, with a lent array for slots.
pub fn join_rows(
    sizes: &[u32],
    first: &RowSlice,
    second: &RowSlice,
    store: &mut [u16],
    out: &mut [u8],
) -> Result<usize, Stop>
    requires stores { Store sizes.now first.now.n first.now.words.now × Store sizes.now second.now.n second.now.words.now }
    requires dims { (first.now.dims ≡ length sizes.now) × (second.now.dims ≡ length sizes.now) × (262144 ≤ length store.old) }
    ensures { Answered (filed sizes.now (united totals (length sizes.now) (held first.now) (held second.now))) out.old out.new result }
{
    let many = 1048576 < rows_merge::readings_in(first) + rows_merge::readings_in(second);
    if many {
        return Err(Stop::Many);
    }
    let mut rows = [0u32; rows::ROOM];
    let k = rows_merge::merge_rows(first, second, &mut rows).ok_or(Stop::Many)?;
    let rows = RowSlice::front(&rows, k, sizes.len());
    fit_archive(out, sizes, &rows, store)
}
