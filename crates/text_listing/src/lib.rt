// An archive as text: the first line, a line for each base entry, a line for each normal entry.
#![tactic(auto)]

ghost use mathlib.Core.List.{flat_map};
ghost use Rattle.std.specs.Prelude.{ℕ, ◌≤◌, length};
ghost use Rattle.fields.specs.Written.{Wrote};
ghost use Rattle.archive_entries.specs.Reading.{read_archive};
ghost use Rattle.text_lines.specs.Lines.{base_text, cell_text};
ghost use Rattle.text_listing.specs.Listing.{listing, held_by, Accepted};

use archive_entries::Shape;

// Writes the lines of the base entries of an accepted archive.
fn put_bases(out: &mut [u8], s: &[u8], dims: usize, bases: usize) -> usize
    requires by_index { (m : ℕ) × Accepted s.now dims bases m }
    requires s_in_bounds { length (flat_map base_text (held_by (read_archive s.now)).bases) ≤ length out.old }
    ensures { Wrote (flat_map base_text (held_by (read_archive s.now)).bases) out.old out.new result }
{
    let mut done = 0;
    let mut at = 12 + 4 * dims;
    // From entry to entry: each is as long as its list makes it.
    for _ in 0..bases {
        done += text_lines::put_base(&mut out[done..], s, at, dims);
        let sets = fields::word_at(s, at + 4 * dims + 12) as usize;
        at += 4 * dims + 16 + 4 * sets;
    }
    done
}

// Writes the lines of the normal entries of an accepted archive.
fn put_cells(out: &mut [u8], s: &[u8], dims: usize, cells: usize) -> usize
    requires by_index { (n : ℕ) × Accepted s.now dims n cells }
    requires s_in_bounds { length (flat_map cell_text (held_by (read_archive s.now)).cells) ≤ length out.old }
    ensures { Wrote (flat_map cell_text (held_by (read_archive s.now)).cells) out.old out.new result }
{
    let width = 4 * dims + 12;
    let end = s.len() - 4;
    let mut done = 0;
    for bytes in s[end - cells * width..end].chunks_exact(width) {
        done += text_lines::put_cell(&mut out[done..], bytes, 0, dims);
    }
    done
}

// Writes the text of an accepted archive, of which the two counts are known.
pub fn put_listing(out: &mut [u8], s: &[u8], bases: u32, cells: u32) -> usize
    requires by_index { (d : ℕ) × Accepted s.now d bases cells }
    requires s_in_bounds { length (listing (held_by (read_archive s.now))) ≤ length out.old }
    ensures { Wrote (listing (held_by (read_archive s.now))) out.old out.new result }
{
    let dims = fields::word_at(s, 4);
    let mut done = text_lines::put_head(out, Shape { dims, bases, cells });
    done += put_bases(&mut out[done..], s, dims as usize, bases as usize);
    done + put_cells(&mut out[done..], s, dims as usize, cells as usize)
}
