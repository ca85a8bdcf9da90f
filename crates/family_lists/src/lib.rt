// The lists of nodes of rows, as bits: 128 words a row.
#![tactic(auto)]

ghost use Rattle.std.specs.Prelude.{◌≡◌, true, false, [], ◌∷◌, ℕ, ◌-◌, ◌≤◌, ◌<◌, length, take};
ghost use Rattle.rows_deals.specs.Deals.{Names};
ghost use Rattle.family_lists.specs.Lists.{has_node, nodes_of, Noted};

// Notes a node for a row.
fn note_node(listed: &mut [u32], row: u32, node: u32)
    requires { (131072 ≤ length listed.old) × (row < 1024) × (node < 4096) }
    ensures { Noted (row ∷ []) node listed.old listed.new }
{
    let from = (row * 4 + node / 1024) as usize * 32;
    let to = from + 32;
    rows_bits::add(&mut listed[from..to], node % 1024);
}

// Notes a node for rows.
pub fn note_rows(rows: &[u32], node: u32, listed: &mut [u32])
    requires { (131072 ≤ length listed.old) × Names rows.now 1024 × (node < 4096) }
    ensures { Noted rows.now node listed.old listed.new }
{
    for &row in rows {
        note_node(listed, row, node);
    }
}

// Whether a row has a node.
fn has_node(listed: &[u32], row: usize, node: u32) -> bool
    requires { (131072 ≤ length listed.now) × (row < 1024) × (node < 4096) }
    ensures { result ≡ has_node listed.now row node }
{
    let word = listed[row * 128 + (node / 32) as usize];
    (word >> (node % 32)) % 2 == 1
}

// Whether it is seen by one word that a row has none of the 32 nodes below a number.
fn has_none(listed: &[u32], row: usize, node: u32) -> bool
    requires { (131072 ≤ length listed.now) × (row < 1024) × (1 ≤ node) × (node ≤ 4096) }
    ensures { result ≡ true → (32 ≤ node) × ((i : ℕ) → node - 32 ≤ i → i < node → has_node listed.now row i ≡ false) }
{
    if node % 32 != 0 {
        return false;
    }
    listed[row * 128 + (node / 32) as usize - 1] == 0
}

// The list of a row: its nodes below a number, by falling number, over the front of the list that is lent. Returns how many there are.
pub fn list_nodes(listed: &[u32], row: usize, nodes: u32, list: &mut [u32]) -> usize
    requires { (131072 ≤ length listed.now) × (row < 1024) × (nodes ≤ 4096) × (nodes ≤ length list.old) }
    ensures { (take result list.new ≡ nodes_of listed.now row nodes) × (result ≤ nodes) }
{
    let mut len = 0usize;
    let mut node = nodes;
    // Steps of one node or of 32.
    while 0 < node {
        if has_none(listed, row, node) {
            node -= 32;
            continue;
        }
        node -= 1;
        if !has_node(listed, row, node) {
            continue;
        }
        list[len] = node;
        len += 1;
    }
    len
}
