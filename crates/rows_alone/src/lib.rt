// The rows that are single on each set, as bits: 32 words a set.
#![tactic(auto)]

ghost use Rattle.std.specs.Prelude.{◌≡◌, ◌||◌, ℕ, ◌≤◌, ◌<◌, eqb, length};
ghost use Rattle.lists.specs.Lists.{some};
ghost use Rattle.rows_bits.specs.Rowsets.{has as has_row};
ghost use Rattle.rows_deals.specs.Deals.{Names};
ghost use Rattle.rows_alone.specs.Alone.{words_of, passes, Stored};

// The words of a set.
fn words_of<'a>(alone: &'a [u32], set: usize) -> &'a [u32]
    requires { (8192 ≤ length alone.now) × (set < 256) }
    ensures { result.now ≡ words_of alone.now set }
{
    let from = set * 32;
    let to = from + 32;
    &alone[from..to]
}

// The rows that are passed over at a set: those that are single on the set without one of its dimensions.
pub fn pass_rows(alone: &[u32], set: u32, passed: &mut [u32])
    requires { (8192 ≤ length alone.now) × (set < 256) × (length passed.old ≡ 32) }
    ensures { (length passed.new ≡ 32) × ((x : ℕ) → has_row passed.new x ≡ passes 8 alone.now set x) }
{
    rows_deals::clear(passed);
    // By number: dimension d adds 2 to the power d.
    for d in 0..8 {
        let one = lattice::sets_of(d);
        if !lattice::holds_set(set, one) {
            continue;
        }
        rows_bits::join(passed, words_of(alone, (set - one) as usize));
    }
}

// Adds rows to a set of rows.
pub fn add_rows(rows: &[u32], words: &mut [u32])
    requires { Names rows.now 1024 × (length words.old ≡ 32) }
    ensures { (length words.new ≡ 32) × ((x : ℕ) → has_row words.new x ≡ some (eqb x) rows.now || has_row words.old x) }
{
    for &row in rows {
        rows_bits::add(words, row);
    }
}

// Puts words into those of a set.
pub fn put_words(words: &[u32], set: usize, alone: &mut [u32])
    requires { (length words.now ≡ 32) × (set < 256) × (8192 ≤ length alone.old) }
    ensures { Stored words.now alone.old alone.new set }
{
    let from = set * 32;
    let to = from + 32;
    alone[from..to].copy_from_slice(words);
}
