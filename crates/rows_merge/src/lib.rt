// Base rows of two archives as one list: one pass over both lists, which rise strictly by codes.
#![tactic(auto)]

ghost use Rattle.std.specs.Prelude.{◌≡◌, ◌+◌, ◌*◌, ◌≤◌, ◌<◌, length, drop};
ghost use Rattle.cube.specs.Measure.{sums as totals};
ghost use Rattle.cube.specs.Bounds.{most, count_of};
ghost use Rattle.rows.specs.Rows.{rows_of};
ghost use Rattle.rows.specs.Slices.{codes, held};
ghost use Rattle.rows_merge.specs.United.{merged};
ghost use Rattle.rows_merge.specs.Turns.{turn};
ghost use Rattle.rows_merge.specs.Pass.{Pair, Passed, Collected};

use rows::RowSlice;
use std::cmp::Ordering;

// How many rows an archive has room for.
const MOST_ROWS: usize = 1024;

// Whose row comes next: the first list's, the second's, or one of each with equal codes.
#[derive(Clone, Copy)]
enum Turn {
    First,
    Second,
    Both,
}

// How many rows of each list are done.
#[derive(Clone, Copy)]
struct Places {
    first: usize,
    second: usize,
}

// Whose row comes next, by the codes of the rows behind those that are done.
fn next_turn(first: &RowSlice, second: &RowSlice, done: Places) -> Turn
    requires { (done.first ≤ first.now.n) × (done.second ≤ second.now.n) }
    ensures { result ≡ turn (drop done.first (codes first.now)) (drop done.second (codes second.now)) }
{
    if done.first == first.n {
        return Turn::Second;
    }
    if done.second == second.n {
        return Turn::First;
    }
    let mine = first.codes_at(done.first);
    let other = second.codes_at(done.second);
    match mine.cmp(other) {
        Ordering::Less => Turn::First,
        Ordering::Equal => Turn::Both,
        Ordering::Greater => Turn::Second,
    }
}

// One row of the merge: the next one of both lists, behind those that are done, as row k of the array that is lent.
fn merge_row(
    first: &RowSlice,
    second: &RowSlice,
    done: Places,
    rows: &mut [u32],
    k: usize,
) -> Places
    requires pair { Pair first.now.dims first.now.n first.now.words.now second.now.n second.now.words.now × (second.now.dims ≡ first.now.dims) × (done.first + done.second < first.now.n + second.now.n) }
    requires in_bounds { (11264 ≤ length rows.old) × (k < 1024) }
    requires passed { Passed first.now.dims first.now.n first.now.words.now second.now.n second.now.words.now done.first done.second (rows_of first.now.dims k rows.old) }
    ensures passed_2 { Passed first.now.dims first.now.n first.now.words.now second.now.n second.now.words.now result.first result.second (rows_of first.now.dims (k + 1) rows.new) }
    ensures j_bound { done.first + done.second < result.first + result.second }
{
    let i = done.first;
    let j = done.second;
    match next_turn(first, second, done) {
        Turn::First => {
            rows_runs::put_row(rows, k, first.codes_at(i), 255, first.total_at(i));
            Places {
                first: i + 1,
                second: j,
            }
        }
        Turn::Second => {
            rows_runs::put_row(rows, k, second.codes_at(j), 255, second.total_at(j));
            Places {
                first: i,
                second: j + 1,
            }
        }
        Turn::Both => {
            let sum = first.total_at(i).plus(second.total_at(j));
            rows_runs::put_row(rows, k, first.codes_at(i), 255, sum);
            Places {
                first: i + 1,
                second: j + 1,
            }
        }
    }
}

// Merges two lists of base rows into the array that is lent. Returns how many rows there are, or none where they are more than 1,024, for which there is no room.
pub fn merge_rows(first: &RowSlice, second: &RowSlice, rows: &mut [u32]) -> Option<usize>
    requires { Pair first.now.dims first.now.n first.now.words.now second.now.n second.now.words.now × (second.now.dims ≡ first.now.dims) × (11264 ≤ length rows.old) }
    ensures { Collected 1024 (merged totals (held first.now) (held second.now)) first.now.dims result rows.new }
{
    let mut done = Places {
        first: 0,
        second: 0,
    };
    let mut k = 0;
    // A `while`: the pass ends where both lists are done, and how many rows that takes is what it finds out.
    while done.first + done.second < first.n + second.n {
        if k == MOST_ROWS {
            return None;
        }
        done = merge_row(first, second, done, rows, k);
        k += 1;
    }
    Some(k)
}

// How many readings rows have.
pub fn readings_in(rows: &RowSlice) -> u32
    requires { count_of (held rows.now) ≤ most }
    ensures { result ≡ count_of (held rows.now) }
{
    // A loop: its start, 0, is written here, where a wrong one is refused, and not in `sum`. The proof of `fold` did not close.
    let mut all = 0;
    for row in 0..rows.n {
        all += rows.total_at(row).count;
    }
    all
}
