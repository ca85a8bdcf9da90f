// An archive written from its sizes and base rows: how long it is, and its sections one straight after the other.
#![tactic(auto)]

ghost use Rattle.std.specs.Prelude.{◌≡◌, ◌≤◌, length};
ghost use Rattle.fields.specs.Written.{Wrote};
ghost use Rattle.cube.specs.Codes.{plain};
ghost use Rattle.cube.specs.Condensed.{normals};
ghost use Rattle.rows.specs.Slices.{codes, held};
ghost use Rattle.archive_entries.specs.Layout.{archive_bytes, Limits};
ghost use Rattle.rows_ready.specs.Ready.{Ready};
ghost use Rattle.archive_bases.specs.Listed.{Listed};
ghost use Rattle.archive_normals.specs.Grouped.{Grouped};
ghost use Rattle.archive_cells.specs.Fitted.{Fitted};

use rows::RowSlice;
use rows_crowds::Slots;

// The length of the archive, by how many normal entries it has.
fn archive_len(sizes: &[u32], rows: &RowSlice, lists: &[u8], cells: usize) -> usize
    requires listed { Listed rows.now.dims rows.now.n rows.now.words.now lists.now × (cells ≡ length (normals (plain rows.now.dims) (codes rows.now))) }
    requires limits { (rows.now.dims ≡ length sizes.now) × Limits sizes.now (held rows.now) }
    ensures { result ≡ length (archive_bytes sizes.now (held rows.now)) }
{
    let dims = sizes.len();
    let listed = archive_bases::sets_in(rows, lists);
    20 + 4 * dims + rows.n * (4 * dims + 16) + 4 * listed + cells * (4 * dims + 12)
}

// Writes the archive: header, base count, base entries, normal count, normal entries, check word.
fn put_archive(
    out: &mut [u8],
    sizes: &[u32],
    rows: &RowSlice,
    lists: &[u8],
    slots: &Slots,
    cells: usize,
) -> usize
    requires listed { Listed rows.now.dims rows.now.n rows.now.words.now lists.now × Grouped rows.now.dims rows.now.n rows.now.words.now slots.now.store.now slots.now.sizes.now × (cells ≡ length (normals (plain rows.now.dims) (codes rows.now))) }
    requires rows_in_bounds { (rows.now.dims ≡ length sizes.now) × (length (archive_bytes sizes.now (held rows.now)) ≤ length out.old) }
    ensures { Wrote (archive_bytes sizes.now (held rows.now)) out.old out.new result }
{
    let mut at = archive_cells::put_header(out, sizes);
    at += fields::put_word(&mut out[at..], rows.n as u32);
    at += archive_bases::put_bases(&mut out[at..], rows, lists);
    at += fields::put_word(&mut out[at..], cells as u32);
    at += archive_normals::put_normals(&mut out[at..], rows, slots);
    fields_check::put_check(out, at)
}

// Writes the archive where there is room for it, with a lent array for slots. Returns how long it is.
pub fn write_archive(out: &mut [u8], sizes: &[u32], rows: &RowSlice, store: &mut [u16]) -> usize
    requires ready { Ready rows.now.dims rows.now.n rows.now.words.now × (rows.now.dims ≡ length sizes.now) × Limits sizes.now (held rows.now) }
    requires room { 262144 ≤ length store.old }
    ensures { Fitted (archive_bytes sizes.now (held rows.now)) out.old out.new result }
{
    let mut used = [0usize; 256];
    let mut lists = [0u8; 72704];
    let cells = rows_condense::condense_rows(rows, store, &mut used, &mut lists);
    let len = archive_len(sizes, rows, &lists, cells);
    if len <= out.len() {
        let slots = Slots {
            store,
            sizes: &used,
        };
        put_archive(out, sizes, rows, &lists, &slots, cells)
    } else {
        len
    }
}
