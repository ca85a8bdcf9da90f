// Tallies as text: those that occur, each behind its number of entries.
#![tactic(auto)]

ghost use Rattle.std.specs.Prelude.{◌≤◌, length};
ghost use Rattle.fields.specs.Written.{Wrote};
ghost use Rattle.small_model.specs.Tally.{tally};
ghost use Rattle.small_lines.specs.Lines.{gap, pair_text, text_from};

// Writes a space and a number. `text_lines::put_set` is like it, of a set: one function below both would bring a third definition beside `gap` and `set_text`.
#[tactic(auto, using(crate::proofs::Texts::gap_length))]
fn put_gap(out: &mut [u8], n: u64) -> usize
    requires { length (gap n) ≤ length out.old }
    ensures { Wrote (gap n) out.old out.new result }
{
    let at = text_decimals::put_character(out, b' ');
    at + text_decimals::put_decimal(&mut out[at..], n)
}

// Writes a number of entries and its tally.
#[tactic(auto, using(crate::proofs::Texts::pair_length))]
fn put_pair(out: &mut [u8], n: u64, tally: u64) -> usize
    requires { length (pair_text n tally) ≤ length out.old }
    ensures { Wrote (pair_text n tally) out.old out.new result }
{
    let at = put_gap(out, n);
    at + put_gap(&mut out[at..], tally)
}

// Writes the numbers of entries that occur, with their tallies.
pub fn put_tallies(out: &mut [u8], tallies: &[u32]) -> usize
    requires { length (text_from 0 tallies.now) ≤ length out.old }
    ensures { Wrote (text_from 0 tallies.now) out.old out.new result }
{
    let mut at = 0;
    for (n, &tally) in tallies.iter().enumerate() {
        if tally == 0 {
            continue;
        }
        at += put_pair(&mut out[at..], n as u64, u64::from(tally));
    }
    at
}
