// The slots of all sets completed: those that have the groups of two rows or more have every group afterwards.
#![tactic(auto)]

ghost use Rattle.std.specs.Prelude.{◌≡◌, ◌*◌, ◌^◌, ◌≤◌, length};
ghost use Rattle.lattice.specs.Sets.{full};
ghost use Rattle.rows.specs.Slices.{codes};
ghost use Rattle.rows_order.specs.Index.{Valid};
ghost use Rattle.rows_crowds.specs.Crowds.{AllHold};

use rows::RowSlice;

// Completes the slots: those of all sets but the full one have the groups of two rows or more, and afterwards all have every group. A slot that has every row is left as it is.
pub fn complete_slots(rows: &RowSlice, store: &mut [u16], sizes: &mut [usize])
    requires n_bound { (rows.now.n ≤ 1024) × (rows.now.dims ≤ 8) × Valid rows.now.dims (codes rows.now) }
    requires in_bounds { (262144 ≤ length store.old) × (256 ≤ length sizes.old) × AllHold 2 rows.now.dims rows.now.n rows.now.words.now store.old sizes.old (full rows.now.dims) }
    ensures { AllHold 1 rows.now.dims rows.now.n rows.now.words.now store.new sizes.new (2 ^ rows.now.dims) }
{
    let mut columns = [0u32; 16384];
    let mut order = [0u32; 1024];
    let mut marks = [0u32; 1024];
    let mut lone = [0u32; 1026];
    let passed = [0u32; 32];
    rows_columns::read_columns(rows, &mut columns);
    let all = lattice::sets_of(rows.dims as u32) - 1;
    for &set in lattice::in_order() {
        let set = u32::from(set);
        if all <= set {
            continue;
        }
        if sizes[set as usize] == rows.n {
            continue;
        }
        rows_crowds::fill_set(
            rows.words, rows.n, rows.dims, &columns, 1, set, &passed, store, sizes, &mut order,
            &mut marks, &mut lone,
        );
    }
    rows_crowds::fill_set(
        rows.words, rows.n, rows.dims, &columns, 1, all, &passed, store, sizes, &mut order,
        &mut marks, &mut lone,
    );
}
