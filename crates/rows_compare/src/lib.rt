// Two rows compared under a set, and whether a row is single.
#![tactic(auto)]

ghost use Rattle.std.specs.Prelude.{◌≡◌, ◌<◌, length};
ghost use Rattle.lists.specs.Lists.{Distinct};
ghost use Rattle.cube.specs.Codes.{plain};
ghost use Rattle.cube.specs.Condensed.{single};
ghost use Rattle.rows.specs.Rows.{row_at};
ghost use Rattle.rows.specs.Slices.{codes};
ghost use Rattle.rows_compare.specs.Compare.{compared, is_before, is_equal};

use rows::RowSlice;

// Whether no other row agrees with `row` on a set: the first other row that agrees settles it.
// Nested loops, left by label: the form that document 01 names.
pub fn is_single(rows: &RowSlice, row: usize, set: u32) -> bool
    requires { (row < rows.now.n) × Distinct (codes rows.now) }
    ensures { result ≡ single (plain rows.now.dims) (codes rows.now) set (row_at (codes rows.now) row) }
{
    let mine = rows.codes_at(row);
    let mut alone = true;
    'rows: for i in 0..rows.n {
        if i == row {
            continue;
        }
        let other = rows.codes_at(i);
        let mut rest = set;
        for d in 0..rows.dims {
            if rest % 2 == 1 && mine[d] != other[d] {
                continue 'rows;
            }
            rest /= 2;
        }
        alone = false;
        break 'rows;
    }
    alone
}

// How two rows are ordered under a set: before or after at a dimension, counted from 1, or equal.
#[derive(Clone, Copy)]
pub enum Order {
    Before(usize),
    Equal,
    After(usize),
}

impl Order {
    // Whether the first of the two rows comes before the second.
    pub fn is_before(self) -> bool
        ensures { result ≡ is_before self }
    {
        matches!(self, Order::Before(_))
    }

    // Whether the two rows agree.
    pub fn is_equal(self) -> bool
        ensures { result ≡ is_equal self }
    {
        matches!(self, Order::Equal)
    }
}

// The order of two rows under a set: the first dimension of the set at which they differ decides, and is named.
// By index and `<`: a loop over `zip` takes 1.1 to 1.3 times as long, and `cmp` forms an answer before the branch.
pub fn compare(mine: &[u32], other: &[u32], set: u32) -> Order
    requires { length mine.now ≡ length other.now }
    ensures { result ≡ compared set mine.now other.now }
{
    let mut rest = set;
    for d in 0..mine.len() {
        let x = mine[d];
        let y = other[d];
        if rest % 2 == 1 {
            if x < y {
                return Order::Before(d + 1);
            }
            if y < x {
                return Order::After(d + 1);
            }
        }
        rest /= 2;
    }
    Order::Equal
}
