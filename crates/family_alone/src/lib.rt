// The rows that are single on each node, as bits: 32 words a node.
#![tactic(auto)]

ghost use Rattle.std.specs.Prelude.{◌≡◌, ℕ, ◌+◌, ◌*◌, ◌≤◌, ◌<◌, length};
ghost use Rattle.rows_bits.specs.Rowsets.{has as has_row};
ghost use Rattle.rows_alone.specs.Alone.{words_of};
ghost use Rattle.family_nodes.specs.Nodes.{node_count};
ghost use Rattle.family_slots.specs.Turns.{Heights};
ghost use Rattle.family_alone.specs.Alone.{passed_over, Kept};

// The words of a node.
pub fn words_at<'a>(alone: &'a [u32], node: usize) -> &'a [u32]
    requires { (131072 ≤ length alone.now) × (node < 4096) }
    ensures { result.now ≡ words_of alone.now node }
{
    let from = node * 32;
    let to = from + 32;
    &alone[from..to]
}

// The rows that are passed over at a node: those that are single on a node one level coarser.
pub fn pass_over(alone: &[u32], heights: &[u32], node: u32, passed: &mut [u32])
    requires { (131072 ≤ length alone.now) × Heights heights.now × (node < node_count heights.now) × (length passed.old ≡ 32) }
    ensures { (length passed.new ≡ 32) × ((x : ℕ) → has_row passed.new x ≡ passed_over alone.now heights.now node x) }
{
    rows_deals::clear(passed);
    let mut factor = 1u32;
    let mut rest = node;
    for &h in heights {
        let level = rest % h;
        let up = node + factor;
        rest /= h;
        factor *= h;
        if h <= level + 1 {
            continue;
        }
        rows_bits::join(passed, words_at(alone, up as usize));
    }
}

// Puts a set of rows into the words of a node.
pub fn keep_rows(rows: &[u32], node: usize, alone: &mut [u32])
    requires { (length rows.now ≡ 32) × (131072 ≤ length alone.old) × (node < 4096) }
    ensures { Kept rows.now alone.old alone.new node }
{
    let from = node * 32;
    let to = from + 32;
    alone[from..to].copy_from_slice(rows);
}
