// Base rows as the functions over them take them, and the cell of an empty table.
#![tactic(auto)]

ghost use Rattle.std.specs.Prelude.{◌≡◌};
ghost use Rattle.rows_ready.specs.Blank.{blanks};

// How many cells a table of so many base rows has that no row falls in: an empty one has one.
pub fn blanks(n: usize) -> usize
    ensures { result ≡ blanks n }
{
    if n == 0 {
        return 1;
    }
    0
}
