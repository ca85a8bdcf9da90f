// The lists of sets of rows in one flat slice: that of row i starts at 71 * i with how many sets it has, then its sets.
#![tactic(auto)]

ghost use Rattle.std.specs.Prelude.{◌≡◌, [], ◌∷◌, ◌++◌, ◌*◌, ◌≤◌, ◌<◌, length, get_or, set as put};
ghost use Rattle.rows_deals.specs.Deals.{Names};
ghost use Rattle.rows_lists.specs.Lists.{lists_of, Short, Empty, Fit, noted};

// The list of a row.
// In `list_of`, `note_at` and `note_lone`, `n` is there for the contract alone. No ghost value can stand for it: a caller picks one from the other arguments, and these do not tell it. A struct of a list and `n` would hold a `&mut` in three of these four functions (DECISIONS 170).
#[tactic(auto, using(crate::proofs::Lists::lists_at))]
pub fn list_of(lists: &[u8], n: usize, row: usize) -> &[u8]
    requires { (n * 71 ≤ length lists.now) × (row < n) × Short n lists.now }
    ensures { result.now ≡ get_or (lists_of n lists.now) row [] }
{
    let at = row * 71;
    let from = at + 1;
    let to = from + usize::from(lists[at]);
    &lists[from..to]
}

// Puts a set behind the list of a row.
fn note_at(lists: &mut [u8], n: usize, row: usize, set: u8)
    requires { (n * 71 ≤ length lists.old) × (row < n) × Short n lists.old × (get_or lists.old (row * 71) 0 < 70) }
    ensures lists_after { lists_of n lists.new ≡ put (lists_of n lists.old) row (get_or (lists_of n lists.old) row [] ++ set ∷ []) }
    ensures short { Short n lists.new }
{
    let at = row * 71;
    let len = lists[at];
    lists[at + 1 + usize::from(len)] = set;
    lists[at] = len + 1;
}

// Puts a set behind the lists of the rows in `lone`.
pub fn note_lone(lone: &[u32], set: u8, lists: &mut [u8], n: usize)
    requires n_in_bounds { (n * 71 ≤ length lists.old) × Short n lists.old × Names lone.now n }
    requires fit { Fit (noted set lone.now (lists_of n lists.old)) }
    ensures lists_after { lists_of n lists.new ≡ noted set lone.now (lists_of n lists.old) }
    ensures short { Short n lists.new }
{
    for &row in lone {
        note_at(lists, n, row as usize, set);
    }
}

// Makes the lists of n rows empty.
pub fn clear_lists(lists: &mut [u8], n: usize)
    requires { n * 71 ≤ length lists.old }
    ensures { Empty n lists.new }
{
    lists[..n * 71].fill(0);
}
