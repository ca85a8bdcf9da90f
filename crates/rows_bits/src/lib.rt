// Sets of rows, as bits: 32 words of 32 rows.
#![tactic(auto)]

ghost use Rattle.std.specs.Prelude.{◌≡◌, ◌||◌, ℕ, ◌<◌, eqb, length};
ghost use Rattle.rows_bits.specs.Rowsets.{has as has_row, empty};

// Whether a row is in a set of rows.
pub fn has(words: &[u32], row: u32) -> bool
    requires { (length words.now ≡ 32) × (row < 1024) }
    ensures { result ≡ has_row words.now row }
{
    let word = words[(row / 32) as usize];
    (word >> (row % 32)) % 2 == 1
}

// Adds a row to a set of rows.
pub fn add(words: &mut [u32], row: u32)
    requires { (length words.old ≡ 32) × (row < 1024) }
    ensures { (length words.new ≡ 32) × ((x : ℕ) → has_row words.new x ≡ eqb row x || has_row words.old x) }
{
    let i = (row / 32) as usize;
    words[i] |= 1 << (row % 32);
}

// Adds the rows of another set.
pub fn join(words: &mut [u32], others: &[u32])
    requires { (length words.old ≡ 32) × (length others.now ≡ 32) }
    ensures { (length words.new ≡ 32) × ((x : ℕ) → has_row words.new x ≡ has_row words.old x || has_row others.now x) }
{
    for (i, word) in words.iter_mut().enumerate() {
        *word |= others[i];
    }
}

// Whether a set has no row: one test for all words, which is faster than one for each.
pub fn is_empty(words: &[u32]) -> bool
    ensures { result ≡ empty words.now }
{
    words.iter().fold(0, |any, word| any | word) == 0
}
