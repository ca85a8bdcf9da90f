// Whether a set fixes a dimension in an archive.
// The call answers for whatever bytes it is lent, and writes nothing.
#![tactic(auto)]

ghost use Rattle.std.specs.Prelude.{◌≡◌, ◌*◌, ◌≤◌, ◌<◌, length};
ghost use Rattle.cube.specs.Codes.{agree, plain};
ghost use Rattle.cube.specs.Keys.{fixes as fixing};
ghost use Rattle.rows_order.specs.Index.{Valid};
ghost use Rattle.rows.specs.Rows.{row_at};
ghost use Rattle.rows.specs.Slices.{codes};
ghost use Rattle.archive_entries.specs.Reading.{read_archive};
ghost use Rattle.archive_read.specs.Sharing.{Shares};
ghost use Rattle.stops.specs.Numbers.{numbered};
ghost use Rattle.call_answers.specs.Keys.{tells_fixed};
ghost use Rattle.call_keys.specs.Laid.{Laid, follows};

use call_ask::Accepted;
use rows::RowSlice;
use stops::Stop;

// Whether two rows agree on a set.
fn agrees(mine: &[u32], other: &[u32], set: u32) -> bool
    requires { length mine.now ≡ length other.now }
    ensures { result ≡ agree set mine.now other.now }
{
    rows_compare::compare(mine, other, set).is_equal()
}

// Whether rows i and j agree on a set of `fixed` dimensions if they agree on a set.
fn pair_fixes(rows: &RowSlice, set: u32, fixed: u32, i: usize, j: usize) -> bool
    requires { (i < rows.now.n) × (j < rows.now.n) }
    ensures { result ≡ follows set fixed (row_at (codes rows.now) i) (row_at (codes rows.now) j) }
{
    let mine = rows.codes_at(i);
    let other = rows.codes_at(j);
    if !agrees(mine, other, set) {
        return true;
    }
    agrees(mine, other, fixed)
}

// Whether rows that agree on a set agree on a set of `fixed` dimensions. In the order of the set, which the index takes, rows that agree on it stand side by side,
// so neighbours tell.
fn neighbours_fix(rows: &RowSlice, set: u32, fixed: u32, index: &mut [u32]) -> bool
    requires { (length index.old ≡ rows.now.n) × (rows.now.n ≤ 1024) × Valid rows.now.dims (codes rows.now) }
    ensures { result ≡ fixing (plain rows.now.dims) (codes rows.now) set fixed }
{
    rows_arrange::order_rows(rows, set, index);
    (1..rows.n).all(|k| pair_fixes(rows, set, fixed, index[k - 1] as usize, index[k] as usize))
}

// Whether rows that agree on a set agree on a set of `fixed` dimensions.
fn rows_fix(rows: &RowSlice, set: u32, fixed: u32) -> bool
    requires { Laid rows.now.dims rows.now.n rows.now.words.now }
    ensures { result ≡ fixing (plain rows.now.dims) (codes rows.now) set fixed }
{
    let mut index = [0u32; 1024];
    neighbours_fix(rows, set, fixed, &mut index[..rows.n])
}

// Tells whether a set fixes a dimension in an archive that was accepted: a key fixes each, and otherwise the rows tell.
fn fixes_read(archive: &Accepted, used: &[usize], set: u32, dimension: u32) -> Result<bool, Stop>
    requires { Shares (read_archive archive.now.bytes.now) archive.now.words.now used.now }
    ensures { numbered result ≡ tells_fixed archive.now.bytes.now set dimension }
{
    let shape = archive.shape;
    if lattice::sets_of(shape.dims) <= set {
        return Err(Stop::Set);
    }
    if dimension == 0 {
        return Err(Stop::Dimension);
    }
    if shape.dims < dimension {
        return Err(Stop::Dimension);
    }
    let bare = used[set as usize] == 0;
    if bare {
        return Ok(true);
    }
    let fixed = lattice::sets_of(dimension - 1);
    Ok(rows_fix(&archive.rows(), set, fixed))
}

// Reads an archive into the arrays that are lent, and tells whether a set fixes a dimension.
fn fixes_in(
    s: &[u8],
    rows: &mut [u32; rows::ROOM],
    used: &mut [usize; 256],
    set: u32,
    dimension: u32,
) -> Result<bool, Stop>
    ensures { numbered result ≡ tells_fixed s.now set dimension }
{
    let shape = archive_read::read_sharing(s, rows, used)?;
    let archive = Accepted {
        bytes: s,
        shape,
        words: rows,
    };
    fixes_read(&archive, used, set, dimension)
}

// Whether a set fixes a dimension, counted from 1: base rows that agree on the set agree on the dimension too.
pub fn fixes(archive: &[u8], set: u32, dimension: u32) -> Result<bool, Stop>
    ensures { numbered result ≡ tells_fixed archive.now set dimension }
{
    let mut rows = [0u32; rows::ROOM];
    let mut used = [0usize; 256];
    fixes_in(archive, &mut rows, &mut used, set, dimension)
}
