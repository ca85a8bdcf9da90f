// The codes of rows at each level, column by column: those of level 0 from the rows, those of each next level by its table in the file's bytes.
#![tactic(auto)]

ghost use Rattle.std.specs.Prelude.{◌≡◌, List, ℕ, ◌+◌, ◌*◌, ◌≤◌, ◌<◌, length, get_or};
ghost use Rattle.lists.specs.Lists.{◌∈◌};
ghost use Rattle.rows.specs.Slices.{codes as codesIn};
ghost use Rattle.rows_order.specs.Index.{code_at};
ghost use Rattle.fields_walk.specs.Limits.{Below};
ghost use Rattle.family_cells.specs.Levelled.{Levelled};
ghost use Rattle.family_fields.specs.Places.{tables, levels_at, Stands, AllStand};
ghost use Rattle.family_slots.specs.Slots.{Small};
ghost use Rattle.family_columns.specs.Raised.{raised, PutInto, Dimension};

use rows::RowSlice;

// Raises codes to the next level, whose table of z entries stands at a place.
fn raise_codes(s: &[u8], z: u32, at: usize, codes: &mut [u32])
    requires { (at + 4 * z ≤ length s.now) × ((k : ℕ) → k < length codes.old → get_or codes.old k 0 < z) }
    ensures { codes.new ≡ raised s.now z at codes.old }
{
    for code in codes.iter_mut() {
        *code = fields::word_at(s, at + 4 * *code as usize);
    }
}

// Puts codes into a column.
fn put_column(codes: &[u32], c: usize, columns: &mut [u32])
    requires { (length codes.now ≤ 1024) × (c < 32) × (32768 ≤ length columns.old) }
    ensures { PutInto codes.now columns.old columns.new c }
{
    let from = c * 1024;
    let to = from + codes.len();
    columns[from..to].copy_from_slice(codes);
}

// Fills the columns of dimension d, which has z codes, and whose next levels begin at these places. `work` is a work array, with room for a code of each row.
fn fill_dimension(
    s: &[u8],
    rows: &RowSlice,
    d: usize,
    z: u32,
    places: &[usize],
    work: &mut [u32],
    columns: &mut [u32],
)
    requires dims_value { (d < rows.now.dims) × (rows.now.dims ≤ 8) × (rows.now.n ≤ 1024) × (length work.old ≡ rows.now.n) × (32768 ≤ length columns.old) × Small columns.old }
    requires places_len_bound { (length places.now ≤ 3) × (z ≤ 65535) × Stands s.now z places.now × ((x : List ℕ) → x ∈ codesIn rows.now → code_at d x < z) }
    ensures { Dimension s.now z places.now d (codesIn rows.now) columns.old columns.new (length places.now) }
{
    rows_order::read_column(rows, d, work);
    put_column(work, d * 4, columns);
    let mut below = z;
    for (l, &at) in places.iter().enumerate() {
        raise_codes(s, below, at + 4, work);
        below = fields::word_at(s, at);
        put_column(work, d * 4 + l + 1, columns);
    }
}

// Fills the columns of all dimensions, from the rows and from the tables of their next levels, which begin at these places. `work` as in `fill_dimension`.
pub fn fill_columns(
    s: &[u8],
    rows: &RowSlice,
    sizes: &[u32],
    counts: &[u32],
    places: &[usize],
    work: &mut [u32],
    columns: &mut [u32],
)
    requires sizes_value { (rows.now.dims ≡ length sizes.now) × (length sizes.now ≤ 8) × (rows.now.n ≤ 1024) × (length work.old ≡ rows.now.n) × (32768 ≤ length columns.old) × Small columns.old }
    requires counts_len { (length counts.now ≡ length sizes.now) × ((m : ℕ) → m ∈ counts.now → (1 ≤ m) × (m ≤ 4)) × ((z : ℕ) → z ∈ sizes.now → z ≤ 65535) × (tables counts.now ≡ length places.now) × AllStand s.now sizes.now counts.now places.now × ((x : List ℕ) → x ∈ codesIn rows.now → Below sizes.now x) }
    ensures { Levelled (levels_at s.now sizes.now counts.now places.now) (codesIn rows.now) columns.new × Small columns.new }
{
    let mut len = 0usize;
    // By number: it says where the columns of a dimension stand, and finds its level count.
    for (d, &size) in sizes.iter().enumerate() {
        let to = len + (counts[d] - 1) as usize;
        fill_dimension(s, rows, d, size, &places[len..to], work, columns);
        len = to;
    }
}
