// Rows condensed by nodes: our list of each row, and how many cells they share.
#![tactic(auto)]

ghost use Rattle.std.specs.Prelude.{◌≡◌, ℕ, suc, ◌≤◌, ◌<◌, length, get_or};
ghost use Rattle.lists.specs.Lists.{keep};
ghost use Rattle.rows_deals.specs.Deals.{Names, Zeros};
ghost use Rattle.rows_columns.specs.Columns.{part};
ghost use Rattle.rows_crowds.specs.Crowds.{ends};
ghost use Rattle.family_nodes.specs.Nodes.{node_count};
ghost use Rattle.family_slots.specs.Turns.{Heights};
ghost use Rattle.family_slots.specs.Slots.{Stack, Small};
ghost use Rattle.family_lists.specs.Lists.{nodes_of};
ghost use Rattle.family_condense.specs.Ends.{groups_of, groups_in, proper, ends_at, Coarsens, Known, Lists, TakenIn};

// How many nodes there are.
pub fn count_nodes(heights: &[u32]) -> u32
    requires { Heights heights.now }
    ensures { result ≡ node_count heights.now }
{
    let mut nodes = 1u32;
    for &h in heights {
        nodes *= h;
    }
    nodes
}

// How many groups the slot of the node in hand has.
fn count_here(store: &[u16], sizes: &[usize], at: &[usize]) -> usize
    requires { (9216 ≤ length store.now) × (9 ≤ length sizes.now) × (1 ≤ length at.now) × (get_or at.now 0 0 < 9) × (get_or sizes.now (get_or at.now 0 0) 0 ≤ 1024) }
    ensures { result ≡ ends (part (get_or at.now 0 0) (get_or sizes.now (get_or at.now 0 0) 0) store.now) }
{
    let slot = family_slots::node_slot(store, sizes, at);
    rows_crowds::count_groups(slot)
}

// Takes in the rows that come out alone at a node: it is noted for them, and they are kept with those that were passed over.
fn take_in(new: &[u32], node: u32, passed: &mut [u32], alone: &mut [u32], listed: &mut [u32])
    requires { Names new.now 1024 × (node < 4096) × (length passed.old ≡ 32) × (131072 ≤ length alone.old) × (131072 ≤ length listed.old) }
    ensures { TakenIn new.now passed.old node alone.old alone.new listed.old listed.new }
{
    family_lists::note_rows(new, node, listed);
    rows_alone::add_rows(new, passed);
    family_alone::keep_rows(passed, node as usize, alone);
}

// Starts at the node of the highest number. Returns how many cells of it rows share. Thirteen parameters: the columns of the rows, their lists, and work arrays that are lent once a call.
fn start_nodes(
    columns: &[u32],
    n: usize,
    heights: &[u32],
    node: u32,
    alone: &mut [u32],
    passed: &mut [u32],
    store: &mut [u16],
    sizes: &mut [usize],
    at: &mut [usize],
    order: &mut [u32],
    marks: &mut [u32],
    lone: &mut [u32],
    listed: &mut [u32],
) -> usize
    requires n_bound { (n ≤ 1024) × Heights heights.now × (suc node ≡ node_count heights.now) }
    requires in_bounds { (9216 ≤ length store.old) × (9 ≤ length sizes.old) × (9 ≤ length at.old) × (length order.old ≡ 1024) × (length marks.old ≡ 1024) × (length lone.old ≡ 1024) }
    requires in_bounds_2 { (131072 ≤ length alone.old) × (length passed.old ≡ 32) × (131072 ≤ length listed.old) × Zeros listed.old }
    ensures stack { Stack 2 n columns.now heights.now node store.new sizes.new at.new }
    ensures known { Known columns.now n heights.now alone.new node × Lists columns.now n heights.now listed.new node × (result ≡ groups_of columns.now n heights.now node) }
{
    rows_deals::clear(passed);
    let left = family_slots::first_node(n, heights, 2, store, sizes, at, order, marks, lone);
    take_in(&lone[..left], node, passed, alone, listed);
    count_here(store, sizes, at)
}

// One node more: its slot is filled, and the rows that come out alone there and at no coarser node are taken in. Returns how many cells of it rows share. Thirteen parameters, as `start_nodes`.
fn list_node(
    columns: &[u32],
    n: usize,
    heights: &[u32],
    node: u32,
    alone: &mut [u32],
    passed: &mut [u32],
    store: &mut [u16],
    sizes: &mut [usize],
    at: &mut [usize],
    order: &mut [u32],
    marks: &mut [u32],
    lone: &mut [u32],
    listed: &mut [u32],
) -> usize
    requires n_bound { (n ≤ 1024) × Heights heights.now × (suc node < node_count heights.now) × (32768 ≤ length columns.now) × Small columns.now × Coarsens columns.now n heights.now }
    requires in_bounds { (9216 ≤ length store.old) × (9 ≤ length sizes.old) × (9 ≤ length at.old) × (length order.old ≡ 1024) × (length marks.old ≡ 1024) × (length lone.old ≡ 1024) }
    requires in_bounds_2 { (131072 ≤ length alone.old) × (length passed.old ≡ 32) × (131072 ≤ length listed.old) }
    requires stack { Stack 2 n columns.now heights.now (suc node) store.old sizes.old at.old × Known columns.now n heights.now alone.old (suc node) × Lists columns.now n heights.now listed.old (suc node) }
    ensures stack_2 { Stack 2 n columns.now heights.now node store.new sizes.new at.new }
    ensures known { Known columns.now n heights.now alone.new node × Lists columns.now n heights.now listed.new node × (result ≡ groups_of columns.now n heights.now node) }
{
    family_alone::pass_over(alone, heights, node, passed);
    let left = family_slots::next_node(
        columns, n, heights, 2, node, passed, store, sizes, at, order, marks, lone,
    );
    take_in(&lone[..left], node, passed, alone, listed);
    count_here(store, sizes, at)
}

// Condenses rows by the nodes of families: the nodes of our lists are noted. Returns how many cells two or more rows share, at all nodes but node 0.
pub fn condense_nodes(columns: &[u32], n: usize, heights: &[u32], listed: &mut [u32]) -> usize
    requires { (n ≤ 1024) × Heights heights.now × (2 ≤ node_count heights.now) × (32768 ≤ length columns.now) × Small columns.now × Coarsens columns.now n heights.now × (131072 ≤ length listed.old) }
    ensures { ((x : ℕ) → x < n → nodes_of listed.new x (node_count heights.now) ≡ keep (λ m. ends_at columns.now n heights.now m x) (proper (node_count heights.now))) × (result ≡ groups_in columns.now n heights.now (proper (node_count heights.now))) }
{
    let mut alone = [0u32; 131072];
    let mut passed = [0u32; 32];
    let mut store = [0u16; 9216];
    let mut sizes = [0usize; 9];
    let mut at = [0usize; 9];
    let mut order = [0u32; 1024];
    let mut marks = [0u32; 1024];
    let mut lone = [0u32; 1024];
    rows_deals::clear(listed);
    let last = count_nodes(heights) - 1;
    let mut cells = start_nodes(
        columns,
        n,
        heights,
        last,
        &mut alone,
        &mut passed,
        &mut store,
        &mut sizes,
        &mut at,
        &mut order,
        &mut marks,
        &mut lone,
        listed,
    );
    for node in (1..last).rev() {
        cells += list_node(
            columns,
            n,
            heights,
            node,
            &mut alone,
            &mut passed,
            &mut store,
            &mut sizes,
            &mut at,
            &mut order,
            &mut marks,
            &mut lone,
            listed,
        );
    }
    cells
}
