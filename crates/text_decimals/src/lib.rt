// Numbers as text, written over the front of lent bytes.
#![tactic(auto)]

ghost use Rattle.std.specs.Prelude.{[], ◌∷◌, ◌≤◌, length};
ghost use Rattle.fields.specs.Written.{Wrote};
ghost use Rattle.text_decimals.specs.Decimals.{decimal, integer};

// Writes one character.
pub fn put_character(out: &mut [u8], c: u8) -> usize
    requires { 1 ≤ length out.old }
    ensures { Wrote (c ∷ []) out.old out.new result }
{
    out[0] = c;
    1
}

// Writes a number: the digits of its tenth part, then its last digit. By hand: what `Display` writes is told of a `String` alone, which needs a heap.
#[tactic(auto, using(crate::proofs::Digits::length_more))]
pub fn put_decimal(out: &mut [u8], n: u64) -> usize
    requires { length (decimal n) ≤ length out.old }
    ensures { Wrote (decimal n) out.old out.new result }
{
    if n < 10 {
        return put_character(out, b'0' + n as u8);
    }
    let at = put_decimal(out, n / 10);
    at + put_character(&mut out[at..], b'0' + (n % 10) as u8)
}

// Writes an integer.
pub fn put_integer(out: &mut [u8], z: i64) -> usize
    requires { length (integer z) ≤ length out.old }
    ensures { Wrote (integer z) out.old out.new result }
{
    let n = z.unsigned_abs();
    if z < 0 {
        let at = put_character(out, b'-');
        return at + put_decimal(&mut out[at..], n);
    }
    put_decimal(out, n)
}
