// The smallest keys of an archive.
// The call answers for whatever bytes it is lent, looks at the output last, and leaves every byte of it alone when it stops.
#![tactic(auto)]

ghost use Rattle.std.specs.Prelude.{◌≡◌, ◌^◌, ◌≤◌, ◌<◌, length, take};
ghost use Rattle.lists.specs.Lists.{some};
ghost use Rattle.lattice.specs.Sets.{holds};
ghost use Rattle.archive_entries.specs.Reading.{read_archive};
ghost use Rattle.archive_read.specs.Sharing.{Shares};
ghost use Rattle.archive_cells.specs.ListBytes.{list_bytes};
ghost use Rattle.call_answers.specs.Answers.{bytes, Answered};
ghost use Rattle.call_answers.specs.Keys.{lists_keys};
ghost use Rattle.call_keys.specs.Bare.{bare, least_bare};

use call_ask::Accepted;
use stops::Stop;

// Whether no cell of a set is shared.
fn is_bare(dims: usize, used: &[usize], set: u32) -> bool
    requires { (dims ≤ 8) × (256 ≤ length used.now) × (set < 2 ^ dims) }
    ensures { result ≡ bare dims used.now set }
{
    if set == lattice::sets_of(dims as u32) - 1 {
        return true;
    }
    used[set as usize] == 0
}

// Whether a set holds one that is listed.
fn holds_listed(set: u32, list: &[u32]) -> bool
    ensures { result ≡ some (holds 32 set) list.now }
{
    list.iter().any(|&listed| lattice::holds_set(set, listed))
}

// The smallest sets of which no cell is shared, over the front of a lent list. Returns how many there are.
fn list_bare(dims: usize, used: &[usize], list: &mut [u32]) -> usize
    requires { (dims ≤ 8) × (256 ≤ length used.now) × (length (least_bare dims used.now) ≤ 70) × (70 ≤ length list.old) }
    ensures { (take result list.new ≡ least_bare dims used.now) × (result ≤ 70) }
{
    let all = lattice::sets_of(dims as u32);
    let mut n = 0;
    for &set in lattice::in_order() {
        let set = u32::from(set);
        if all <= set {
            continue;
        }
        if holds_listed(set, &list[..n]) {
            continue;
        }
        if !is_bare(dims, used, set) {
            continue;
        }
        list[n] = set;
        n += 1;
    }
    n
}

// Writes a list where there is room for it.
fn fit_list(out: &mut [u8], list: &[u32]) -> Result<usize, Stop>
    requires { length list.now ≤ 70 }
    ensures { Answered (bytes (list_bytes list.now)) out.old out.new result }
{
    call_answers::fitting(4 + 4 * list.len(), out.len())?;
    Ok(archive_cells::put_list(out, list))
}

// Lists the smallest sets of which no cell is shared.
fn fit_bare(out: &mut [u8], dims: usize, used: &[usize]) -> Result<usize, Stop>
    requires { (dims ≤ 8) × (256 ≤ length used.now) × (length (least_bare dims used.now) ≤ 70) }
    ensures { Answered (bytes (list_bytes (least_bare dims used.now))) out.old out.new result }
{
    let mut list = [0u32; 70];
    let n = list_bare(dims, used, &mut list);
    fit_list(out, &list[..n])
}

// Lists the smallest keys of an archive that was accepted: the smallest sets of which its base rows share no cell.
fn keys_read(archive: &Accepted, used: &[usize], out: &mut [u8]) -> Result<usize, Stop>
    requires { Shares (read_archive archive.now.bytes.now) archive.now.words.now used.now }
    ensures { Answered (lists_keys archive.now.bytes.now) out.old out.new result }
{
    fit_bare(out, archive.shape.dims as usize, used)
}

// Reads an archive into the arrays that are lent, and lists its smallest keys.
fn keys_in(
    s: &[u8],
    rows: &mut [u32; rows::ROOM],
    used: &mut [usize; 256],
    out: &mut [u8],
) -> Result<usize, Stop>
    ensures { Answered (lists_keys s.now) out.old out.new result }
{
    let shape = archive_read::read_sharing(s, rows, used)?;
    let archive = Accepted {
        bytes: s,
        shape,
        words: rows,
    };
    keys_read(&archive, used, out)
}

// Lists the smallest keys of an archive: how many there are, then their set numbers in lattice order.
pub fn smallest_keys(archive: &[u8], out: &mut [u8]) -> Result<usize, Stop>
    ensures { Answered (lists_keys archive.now) out.old out.new result }
{
    let mut rows = [0u32; rows::ROOM];
    let mut used = [0usize; 256];
    keys_in(archive, &mut rows, &mut used, out)
}
