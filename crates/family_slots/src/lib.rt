// Rows grouped by the nodes of families, one node after the other by falling number. The groups of a node stand in one of nine slots of 1024 entries; `at` names the slot for each dimension.
#![tactic(auto)]

ghost use Rattle.std.specs.Prelude.{◌≡◌, true, ℕ, suc, ◌+◌, ◌*◌, ◌<◌, ◌≤◌, length, get_or, take};
ghost use Rattle.lists.specs.Lists.{◌∈◌, keep};
ghost use Rattle.rows_deals.specs.Deals.{Names};
ghost use Rattle.rows_bits.specs.Rowsets.{stays};
ghost use Rattle.rows_slots.specs.Slots.{code_in, slot_from, lone_from, lone_rows, shares};
ghost use Rattle.rows_columns.specs.Columns.{part};
ghost use Rattle.family_nodes.specs.Nodes.{node_count};
ghost use Rattle.family_slots.specs.Turns.{Heights, turn_at, turn_column, parent};
ghost use Rattle.family_slots.specs.Slots.{node_key, Stack, Started, Put, Pointed, Small};

// A dimension whose level falls, and the column of the level to which it falls.
#[derive(Clone, Copy)]
pub struct Turn {
    pub dim: usize,
    pub column: usize,
}

// The dimension whose level falls from a node to the next.
pub fn turn_at(heights: &[u32], node: u32) -> Turn
    requires { (length heights.now ≤ 8) × ((h : ℕ) → h ∈ heights.now → 2 ≤ h) }
    ensures { (result.dim ≡ turn_at heights.now node) × (result.column ≡ turn_column 0 heights.now node) }
{
    let mut rest = node;
    let mut column = 0usize;
    for (dim, &h) in heights.iter().enumerate() {
        let level = rest % h;
        if level != 0 {
            return Turn {
                dim,
                column: column + (level as usize - 1),
            };
        }
        rest /= h;
        column += 4;
    }
    Turn {
        dim: heights.len(),
        column,
    }
}

// The codes of the rows in a column.
pub fn column_at<'a>(columns: &'a [u32], n: usize, c: usize) -> &'a [u32]
    requires { (c * 1024 + n ≤ length columns.now) × (c < 32) × (n ≤ 1024) }
    ensures { result.now ≡ part c n columns.now }
{
    &columns[c * 1024..][..n]
}

// A slot.
pub fn slot_at<'a>(store: &'a [u16], sizes: &[usize], k: usize) -> &'a [u16]
    requires { (9216 ≤ length store.now) × (9 ≤ length sizes.now) × (k < 9) × (get_or sizes.now k 0 ≤ 1024) }
    ensures { result.now ≡ part k (get_or sizes.now k 0) store.now }
{
    &store[k * 1024..][..sizes[k]]
}

// Names a slot for each dimension up to its own.
fn point_to(at: &mut [usize], k: usize)
    requires { (k < length at.old) × (k < 9) }
    ensures { Pointed at.old at.new k }
{
    at[..k + 1].fill(k);
}

// Packs the groups of rows, which stand in order, into a slot. Returns how many rows are left out; they are in `lone`.
fn fill_slot(
    order: &[u32],
    marks: &[u32],
    least: usize,
    k: usize,
    store: &mut [u16],
    sizes: &mut [usize],
    lone: &mut [u32],
) -> usize
    requires order_len_bound { (length order.now ≤ 1024) × Names order.now (length marks.now) × Names order.now 1024 × (k < 9) }
    requires in_bounds { (9216 ≤ length store.old) × (9 ≤ length sizes.old) × (1024 ≤ length lone.old) }
    ensures put { Put (slot_from (code_in marks.now) least true order.now) store.old sizes.old store.new sizes.new k }
    ensures lone_after { (take result lone.new ≡ lone_from (code_in marks.now) least true order.now) × (result ≤ length order.now) }
{
    let from = k * 1024;
    let to = from + 1024;
    let done = rows_slots::pack_groups(order, marks, least, &mut store[from..to], lone);
    sizes[k] = done.len;
    done.alone
}

// Starts at the node of the highest number: all rows are one group. Returns how many rows are left out; they are in `lone`.
pub fn first_node(
    n: usize,
    heights: &[u32],
    least: usize,
    store: &mut [u16],
    sizes: &mut [usize],
    at: &mut [usize],
    order: &mut [u32],
    marks: &mut [u32],
    lone: &mut [u32],
) -> usize
    requires n_bound { (n ≤ 1024) × (1 ≤ least) × (least ≤ 2) × Heights heights.now }
    requires in_bounds { (9216 ≤ length store.old) × (9 ≤ length sizes.old) × (9 ≤ length at.old) × (length order.old ≡ 1024) × (length marks.old ≡ 1024) × (1024 ≤ length lone.old) }
    ensures { Started least n heights.now store.new sizes.new at.new lone.new result × (result ≤ n) }
{
    let dims = heights.len();
    rows_order::number_rows(&mut order[..n]);
    rows_deals::clear(&mut marks[..n]);
    let left = fill_slot(&order[..n], &marks[..n], least, dims, store, sizes, lone);
    point_to(at, dims);
    left
}

// Goes to the next node: the groups of one slot are carried over to another; rows that share no cell there may be passed over. Returns how many other rows are left out; they are in `lone`. Twelve parameters: the columns of the rows, the node, and work arrays that are lent once a call.
pub fn next_node(
    columns: &[u32],
    n: usize,
    heights: &[u32],
    least: usize,
    node: u32,
    passed: &[u32],
    store: &mut [u16],
    sizes: &mut [usize],
    at: &mut [usize],
    order: &mut [u32],
    marks: &mut [u32],
    lone: &mut [u32],
) -> usize
    requires n_bound { (n ≤ 1024) × (1 ≤ least) × (least ≤ 2) × Heights heights.now × (suc node < node_count heights.now) × (32768 ≤ length columns.now) × Small columns.now × (length passed.now ≡ 32) }
    requires in_bounds { (9216 ≤ length store.old) × (9 ≤ length sizes.old) × (9 ≤ length at.old) × (length order.old ≡ 1024) × (length marks.old ≡ 1024) × (1024 ≤ length lone.old) }
    requires stack { Stack least n columns.now heights.now (suc node) store.old sizes.old at.old × ((x : ℕ) → x < n → shares least (node_key columns.now n heights.now node) n x ≡ true → stays passed.now x ≡ true) }
    ensures stack_2 { Stack least n columns.now heights.now node store.new sizes.new at.new }
    ensures lone_after { (take result lone.new ≡ keep (stays passed.now) (lone_rows least (node_key columns.now n heights.now (parent heights.now node)) (node_key columns.now n heights.now node) n)) × (result ≤ n) }
{
    let turn = turn_at(heights, node + 1);
    let old = slot_at(store, sizes, at[turn.dim + 1]);
    let column = column_at(columns, n, turn.column);
    let staying = rows_carry::carry_groups(old, column, passed, order, &mut marks[..n], lone);
    let left = fill_slot(
        &order[..staying],
        &marks[..n],
        least,
        turn.dim,
        store,
        sizes,
        lone,
    );
    point_to(at, turn.dim);
    left
}

// The slot of the node that was gone to.
pub fn node_slot<'a>(store: &'a [u16], sizes: &[usize], at: &[usize]) -> &'a [u16]
    requires { (9216 ≤ length store.now) × (9 ≤ length sizes.now) × (1 ≤ length at.now) × (get_or at.now 0 0 < 9) × (get_or sizes.now (get_or at.now 0 0) 0 ≤ 1024) }
    ensures { result.now ≡ part (get_or at.now 0 0) (get_or sizes.now (get_or at.now 0 0) 0) store.now }
{
    slot_at(store, sizes, at[0])
}
