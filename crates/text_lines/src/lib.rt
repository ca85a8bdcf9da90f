// The lister's lines, written over the front of lent bytes.
#![tactic(auto)]

ghost use mathlib.Core.List.{List, [], ◌∷◌, ◌++◌, flat_map};
ghost use Rattle.std.specs.Prelude.{ℕ, ◌+◌, ◌*◌, ◌≤◌, length};
ghost use Rattle.fields.specs.Written.{Wrote};
ghost use Rattle.text_decimals.specs.Decimals.{decimal};
ghost use Rattle.fields.specs.Words.{words_at};
ghost use Rattle.archive_entries.specs.Places.{row_there, base_there, width_there};
ghost use Rattle.text_lines.specs.Lines.{code_text, row_text, set_text, base_text, cell_text, head_text};

use archive_entries::Shape;

// Writes a number, and the character that ends it.
fn put_number(out: &mut [u8], n: u32, end: u8) -> usize
    requires { length (decimal n) + 1 ≤ length out.old }
    ensures { Wrote (decimal n ++ end ∷ []) out.old out.new result }
{
    let done = text_decimals::put_decimal(out, u64::from(n));
    done + text_decimals::put_character(&mut out[done..], end)
}

// Writes a code or `*`, and a space.
#[tactic(auto, using(crate::proofs::Texts::star_length, crate::proofs::Texts::code_length))]
fn put_code(out: &mut [u8], c: u32) -> usize
    requires { length (code_text c) ≤ length out.old }
    ensures { Wrote (code_text c) out.old out.new result }
{
    if c == 65535 {
        let done = text_decimals::put_character(out, b'*');
        return done + text_decimals::put_character(&mut out[done..], b' ');
    }
    put_number(out, c, b' ')
}

// Writes a space and a set's number.
#[tactic(auto, using(crate::proofs::Texts::set_text_is))]
fn put_set(out: &mut [u8], set: u32) -> usize
    requires { length (set_text set) ≤ length out.old }
    ensures { Wrote (set_text set) out.old out.new result }
{
    let done = text_decimals::put_character(out, b' ');
    done + text_decimals::put_decimal(&mut out[done..], u64::from(set))
}

// How a word is written as text: as a code or as a set's number.
trait Text {
    ghost text: { ℕ → List ℕ };

    fn put(out: &mut [u8], word: u32) -> usize
        requires { length (text word) ≤ length out.old }
        ensures { Wrote (text word) out.old out.new result };
}

struct Codes;

impl Text for Codes {
    ghost text = { code_text };

    fn put(out: &mut [u8], word: u32) -> usize {
        put_code(out, word)
    }
}

struct Sets;

impl Text for Sets {
    ghost text = { set_text };

    fn put(out: &mut [u8], word: u32) -> usize {
        put_set(out, word)
    }
}

// Writes the n words from a place on.
fn put_words<T: Text>(out: &mut [u8], s: &[u8], at: usize, n: usize) -> usize
    requires n_in_bounds { at + 4 * n ≤ length s.now }
    requires at_in_bounds { length (flat_map T.text (words_at s.now n at)) ≤ length out.old }
    ensures { Wrote (flat_map T.text (words_at s.now n at)) out.old out.new result }
{
    let words = &s[at..at + 4 * n];
    let mut done = 0;
    for bytes in words.chunks_exact(4) {
        let word = fields::word_at(bytes, 0);
        done += T::put(&mut out[done..], word);
    }
    done
}

// Writes the codes, the sum and the count of the entry at a place.
#[tactic(auto, using(crate::proofs::Texts::row_text_length))]
fn put_row(out: &mut [u8], s: &[u8], at: usize, dims: usize) -> usize
    requires dims_in_bounds { at + 4 * dims + 12 ≤ length s.now }
    requires at_in_bounds { length (row_text (row_there s.now dims at)) ≤ length out.old }
    ensures { Wrote (row_text (row_there s.now dims at)) out.old out.new result }
{
    let sum = fields_sums::sum_at(s, at + 4 * dims);
    let count = fields::word_at(s, at + 4 * dims + 8);
    let mut done = put_words::<Codes>(out, s, at, dims);
    done += text_decimals::put_integer(&mut out[done..], sum);
    done += text_decimals::put_character(&mut out[done..], b' ');
    done + text_decimals::put_decimal(&mut out[done..], u64::from(count))
}

// Writes the line of the base entry at a place.
#[tactic(auto, using(crate::proofs::Texts::base_text_length))]
pub fn put_base(out: &mut [u8], s: &[u8], at: usize, dims: usize) -> usize
    requires at_in_bounds { at + width_there s.now dims at ≤ length s.now }
    requires at_in_bounds_2 { length (base_text (base_there s.now dims at)) ≤ length out.old }
    ensures { Wrote (base_text (base_there s.now dims at)) out.old out.new result }
{
    let n = fields::word_at(s, at + 4 * dims + 12) as usize;
    let mut done = put_row(out, s, at, dims);
    done += text_decimals::put_character(&mut out[done..], b' ');
    done += text_decimals::put_character(&mut out[done..], b':');
    done += put_words::<Sets>(&mut out[done..], s, at + 4 * dims + 16, n);
    done + text_decimals::put_character(&mut out[done..], b'\n')
}

// Writes the line of the normal entry at a place.
#[tactic(auto, using(crate::proofs::Texts::cell_text_length))]
pub fn put_cell(out: &mut [u8], s: &[u8], at: usize, dims: usize) -> usize
    requires dims_in_bounds { at + 4 * dims + 12 ≤ length s.now }
    requires at_in_bounds { length (cell_text (row_there s.now dims at)) ≤ length out.old }
    ensures { Wrote (cell_text (row_there s.now dims at)) out.old out.new result }
{
    let done = put_row(out, s, at, dims);
    done + text_decimals::put_character(&mut out[done..], b'\n')
}

// Writes the first line: D, the base count, the normal count.
#[tactic(auto, using(crate::proofs::Texts::head_text_length, crate::proofs::Texts::number_length))]
pub fn put_head(out: &mut [u8], shape: Shape) -> usize
    requires { length (head_text shape.dims shape.bases shape.cells) ≤ length out.old }
    ensures { Wrote (head_text shape.dims shape.bases shape.cells) out.old out.new result }
{
    let mut done = put_number(out, shape.dims, b' ');
    done += put_number(&mut out[done..], shape.bases, b' ');
    done + put_number(&mut out[done..], shape.cells, b'\n')
}
