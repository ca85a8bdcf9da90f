// A cell searched among the normal entries.
#![tactic(auto)]

ghost use Rattle.std.specs.Prelude.{◌≡◌, ◌+◌, ◌*◌, ◌≤◌, length};
ghost use Rattle.lists.specs.Order.{earlier};
ghost use Rattle.lists.specs.Search.{Between};
ghost use Rattle.fields.specs.Words.{words_at};
ghost use Rattle.cube.specs.Codes.{set-of, keys};
ghost use Rattle.call_search.specs.Search.{entry_before};

// The set of a cell: the dimensions that are not ALL.
pub fn set_of(cell: &[u32]) -> u32
    requires { length cell.now ≤ 8 }
    ensures { result ≡ set-of cell.now }
{
    let mut set = 0;
    for &code in cell.iter().rev() {
        set = 2 * set + u32::from(code != 65535);
    }
    set
}

// Whether a cell is listed before another: fewer dimensions first, then the smaller set number, then the codes.
fn cell_before(mine: &[u32], cell: &[u32]) -> bool
    requires { (length mine.now ≡ length cell.now) × (length cell.now ≤ 8) }
    ensures { result ≡ earlier (keys mine.now) (keys cell.now) }
{
    let set = set_of(mine);
    let other = set_of(cell);
    (lattice::size_of_set(set), set, mine) < (lattice::size_of_set(other), other, cell)
}

// Whether the entry at a place is listed before a cell.
fn entry_before(s: &[u8], at: usize, cell: &[u32]) -> bool
    requires { (length cell.now ≤ 8) × (at + 4 * length cell.now ≤ length s.now) }
    ensures { result ≡ earlier (keys (words_at s.now (length cell.now) at)) (keys cell.now) }
{
    let dims = cell.len();
    let mut mine = [0u32; 8];
    fields::read_words(s, at, &mut mine[..dims]);
    cell_before(&mine[..dims], cell)
}

// The place of a cell among n entries from a place on, by halving, since entries in bytes are no slice to search: the entry straight before it is listed before the cell, and the entry at it is not.
pub fn find_cell(s: &[u8], at: usize, n: usize, cell: &[u32]) -> usize
    requires { (length cell.now ≤ 8) × (at + n * (4 * length cell.now + 12) ≤ length s.now) }
    ensures { Between (entry_before s.now at cell.now) n result result }
{
    let width = 4 * cell.len() + 12;
    let mut low = 0;
    let mut high = n;
    while low < high {
        let mid = low + (high - low) / 2;
        if entry_before(s, at + mid * width, cell) {
            low = mid + 1;
        } else {
            high = mid;
        }
    }
    low
}
