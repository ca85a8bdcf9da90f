// Base rows condensed: the groups that they form under each set, and our list of each row.
#![tactic(auto)]

ghost use Rattle.std.specs.Prelude.{◌≡◌, ◌*◌, ◌^◌, ◌≤◌, ◌<◌, length};
ghost use Rattle.lists.specs.Lists.{keep};
ghost use Rattle.lattice.specs.Sets.{full};
ghost use Rattle.cube.specs.Codes.{plain};
ghost use Rattle.cube.specs.Condensed.{normals, Base};
ghost use Rattle.rows.specs.Slices.{codes};
ghost use Rattle.rows_order.specs.Index.{key, Valid};
ghost use Rattle.rows_slots.specs.Slots.{crowds, packed};
ghost use Rattle.rows_columns.specs.Columns.{Columns};
ghost use Rattle.rows_crowds.specs.Crowds.{shorter, left_out, Holds, AllHold, Filled, ends};
ghost use Rattle.rows_lists.specs.Lists.{lists_of, Short, Fit, noted, our_lists};
ghost use Rattle.rows_alone.specs.Alone.{is_new, Lower, Told};

use rows::RowSlice;
use rows_crowds::Slots;

// One set more: its slot is filled, and it is put behind the lists of the rows that come out alone there and on no smaller set. Returns how many cells of it rows share. Eleven parameters: the rows, their lists, and work arrays that are lent once a call.
#[tactic(auto, using(rows_crowds::proofs::Filling::below_all))]
fn list_set(
    rows: &RowSlice,
    columns: &[u32],
    set: u32,
    alone: &mut [u32],
    passed: &mut [u32],
    store: &mut [u16],
    sizes: &mut [usize],
    order: &mut [u32],
    marks: &mut [u32],
    lone: &mut [u32],
    lists: &mut [u8],
) -> usize
    requires n_bound { (rows.now.n ≤ 1024) × Valid rows.now.dims (codes rows.now) × (rows.now.dims ≤ 8) × Columns rows.now.dims rows.now.n rows.now.words.now columns.now × (set < 2 ^ rows.now.dims) × (1 ≤ set → Holds 2 rows.now.dims rows.now.n rows.now.words.now store.old sizes.old (shorter set)) }
    requires in_bounds { (262144 ≤ length store.old) × (256 ≤ length sizes.old) × (length order.old ≡ 1024) × (length marks.old ≡ 1024) × (length lone.old ≡ 1026) }
    requires in_bounds_2 { (8192 ≤ length alone.old) × (length passed.old ≡ 32) × Lower rows.now.dims rows.now.n rows.now.words.now alone.old set }
    requires n_in_bounds { (rows.now.n * 71 ≤ length lists.old) × Short rows.now.n lists.old × Fit (noted set (keep (is_new alone.old set) (left_out 2 (codes rows.now) rows.now.n set)) (lists_of rows.now.n lists.old)) }
    ensures filled { Filled 2 rows.now.dims rows.now.n rows.now.words.now store.old sizes.old store.new sizes.new set }
    ensures told { Told rows.now.dims rows.now.n rows.now.words.now alone.old alone.new set }
    ensures lists_after { (lists_of rows.now.n lists.new ≡ noted set (keep (is_new alone.old set) (left_out 2 (codes rows.now) rows.now.n set)) (lists_of rows.now.n lists.old)) × Short rows.now.n lists.new }
    ensures value { result ≡ ends (packed (crowds 2 (key set (codes rows.now)) rows.now.n)) }
{
    rows_alone::pass_rows(alone, set, passed);
    let left = rows_crowds::fill_set(
        rows.words, rows.n, rows.dims, columns, 2, set, passed, store, sizes, order, marks, lone,
    );
    let new = &lone[..left];
    rows_lists::note_lone(new, set as u8, lists, rows.n);
    rows_alone::add_rows(new, passed);
    rows_alone::put_words(passed, set as usize, alone);
    let slot = Slots { store, sizes }.slot_of(set as usize);
    rows_crowds::count_groups(slot)
}

// Condenses base rows: the groups that they form under all sets but the full one, into slots, and our list of each row. Returns how many normal entries there are.
pub fn condense_rows(
    rows: &RowSlice,
    store: &mut [u16],
    sizes: &mut [usize],
    lists: &mut [u8],
) -> usize
    requires n_bound { (rows.now.n ≤ 1024) × (rows.now.dims ≤ 8) × Base (plain rows.now.dims) (codes rows.now) }
    requires in_bounds { (262144 ≤ length store.old) × (256 ≤ length sizes.old) × (rows.now.n * 71 ≤ length lists.old) }
    ensures all_hold { AllHold 2 rows.now.dims rows.now.n rows.now.words.now store.new sizes.new (full rows.now.dims) }
    ensures lists_after { (lists_of rows.now.n lists.new ≡ our_lists rows.now.dims (codes rows.now)) × Short rows.now.n lists.new }
    ensures value { result ≡ length (normals (plain rows.now.dims) (codes rows.now)) }
{
    let mut columns = [0u32; 16384];
    let mut alone = [0u32; 8192];
    let mut passed = [0u32; 32];
    let mut order = [0u32; 1024];
    let mut marks = [0u32; 1024];
    let mut lone = [0u32; 1026];
    rows_lists::clear_lists(lists, rows.n);
    rows_columns::read_columns(rows, &mut columns);
    let all = lattice::sets_of(rows.dims as u32) - 1;
    let mut cells = 0;
    for &set in lattice::in_order() {
        let set = u32::from(set);
        if all <= set {
            continue;
        }
        cells += list_set(
            rows,
            &columns,
            set,
            &mut alone,
            &mut passed,
            store,
            sizes,
            &mut order,
            &mut marks,
            &mut lone,
            lists,
        );
    }
    rows_ready::blanks(rows.n) + cells
}
