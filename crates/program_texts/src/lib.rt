// What the two programs print for their input, written over the front of the bytes that are lent.
#![tactic(auto)]

ghost use Rattle.std.specs.Prelude.{◌≡◌, ◌≤◌, length};
ghost use Rattle.text_decimals.specs.Decimals.{ascii};
ghost use Rattle.fields.specs.Written.{Wrote};
ghost use Rattle.stops.specs.Numbers.{number};
ghost use Rattle.program_texts.specs.Programs.{refused, builder, lister};

use stops::Stop;

// The most bytes that a program reads.
const LONGEST: usize = 65536;

// Writes the line of a stop.
fn put_refused(out: &mut [u8], stop: Stop) -> usize
    requires { 19 ≤ length out.old }
    ensures { Wrote (refused (number stop)) out.old out.new result }
{
    let mut done = fields::put_bytes(out, b"refused ");
    done += text_decimals::put_decimal(&mut out[done..], u64::from(stop.number()));
    done + text_decimals::put_character(&mut out[done..], b'\n')
}

// Writes the line for an input that is too long.
fn put_too_long(out: &mut [u8]) -> usize
    requires { 9 ≤ length out.old }
    ensures { Wrote (ascii "too long\n") out.old out.new result }
{
    fields::put_bytes(out, b"too long\n")
}

// Writes what the builder prints. The call is lent the whole output.
pub fn build_text(input: &[u8], out: &mut [u8]) -> usize
    requires { length out.old ≡ 65536 }
    ensures { Wrote (builder input.now) out.old out.new result }
{
    if input.len() > LONGEST {
        return put_too_long(out);
    }
    match call_build::build(input, out) {
        Ok(n) => n,
        Err(stop) => put_refused(out, stop),
    }
}

// Writes what the lister prints: at most 11 bytes for each of 16,384 words.
pub fn list_text(input: &[u8], out: &mut [u8]) -> usize
    requires { 180224 ≤ length out.old }
    ensures { Wrote (lister input.now) out.old out.new result }
{
    if input.len() > LONGEST {
        return put_too_long(out);
    }
    match call_ask::check(input) {
        Ok(counts) => text_listing::put_listing(out, input, counts.bases, counts.cells),
        Err(stop) => put_refused(out, stop),
    }
}
