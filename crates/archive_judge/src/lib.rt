// An archive judged by its base rows: whether its lists, its normal count and its normal entries are what they require (stop 12).
#![tactic(auto)]

ghost use Rattle.std.specs.Prelude.{◌≡◌, ◌*◌, ◌≤◌, length};
ghost use Rattle.lists.specs.Order.{same};
ghost use Rattle.fields.specs.Words.{words_at};
ghost use Rattle.cube.specs.Codes.{plain};
ghost use Rattle.cube.specs.Condensed.{normals};
ghost use Rattle.rows.specs.Slices.{codes, held};
ghost use Rattle.archive_entries.specs.Layout.{archive_bytes};
ghost use Rattle.archive_compare.specs.Matched.{Matched};
ghost use Rattle.archive_bases.specs.Listed.{Listed};
ghost use Rattle.archive_normals.specs.Grouped.{Grouped};
ghost use Rattle.archive_judge.specs.Read.{Read, sections};

use rows::RowSlice;
use rows_crowds::Slots;
use stops::Stop;

// Whether the bytes s have the sections that base rows require from a place on.
fn match_sections(
    s: &[u8],
    start: usize,
    rows: &RowSlice,
    lists: &[u8],
    slots: &Slots,
    cells: usize,
) -> Result<usize, Stop>
    requires listed { Listed rows.now.dims rows.now.n rows.now.words.now lists.now × Grouped rows.now.dims rows.now.n rows.now.words.now slots.now.store.now slots.now.sizes.now × (start ≤ length s.now) }
    requires cells_value { cells ≡ length (normals (plain rows.now.dims) (codes rows.now)) }
    ensures { Matched s.now start (sections rows.now.dims (held rows.now)) result }
{
    let at = archive_compare::match_word(s, start, rows.n as u32)?;
    let end = archive_bases::match_bases(s, at, rows, lists)?;
    let next = archive_compare::match_word(s, end, cells as u32)?;
    archive_normals::match_normals(s, next, rows, slots)
}

// Whether an archive whose fields are right is the one that its base rows require; their lists and slots go into the buffers that are lent.
fn judge(s: &[u8], rows: &RowSlice, lists: &mut [u8], store: &mut [u16], used: &mut [usize]) -> bool
    requires { Read s.now rows.now.dims rows.now.n rows.now.words.now × (rows.now.n * 71 ≤ length lists.old) × (262144 ≤ length store.old) × (256 ≤ length used.old) }
    ensures value { result ≡ same s.now (archive_bytes (words_at s.now rows.now.dims 8) (held rows.now)) }
    ensures grouped { Grouped rows.now.dims rows.now.n rows.now.words.now store.new used.new }
{
    let cells = rows_condense::condense_rows(rows, store, used, lists);
    let start = 8 + 4 * rows.dims;
    let slots = Slots { store, sizes: used };
    match match_sections(s, start, rows, lists, &slots, cells) {
        Ok(end) => s.len() - end == 4,
        Err(_) => false,
    }
}

// Whether an archive whose fields are right is the one that its base rows require; their slots go into the buffers that are lent.
pub fn is_required(s: &[u8], rows: &RowSlice, store: &mut [u16], used: &mut [usize]) -> bool
    requires { Read s.now rows.now.dims rows.now.n rows.now.words.now × (262144 ≤ length store.old) × (256 ≤ length used.old) }
    ensures value { result ≡ same s.now (archive_bytes (words_at s.now rows.now.dims 8) (held rows.now)) }
    ensures grouped { Grouped rows.now.dims rows.now.n rows.now.words.now store.new used.new }
{
    let mut lists = [0u8; 72704];
    judge(s, rows, &mut lists, store, used)
}
