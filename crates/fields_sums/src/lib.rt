// Sums and readings: two words, and one, in two's complement, read from and written to lent bytes.
#![tactic(auto)]

ghost use Rattle.std.specs.Prelude.{◌≡◌, ◌+◌, ◌≤◌, length, drop};
ghost use Rattle.fields_sums.specs.Twos.{sum_of, low_of, high_of, sum_at, sum_bytes, reading_at};
ghost use Rattle.fields.specs.Opening.{starts_with};
ghost use Rattle.fields.specs.Written.{Wrote};

// The sum of two words.
pub fn sum_of(low: u32, high: u32) -> i64
    ensures { result ≡ sum_of low high }
{
    (u64::from(low) + 0x1_0000_0000 * u64::from(high)).cast_signed()
}

// The low word of a sum.
pub fn low_of(sum: i64) -> u32
    ensures { result ≡ low_of sum }
{
    (sum.cast_unsigned() % 0x1_0000_0000) as u32
}

// The high word of a sum.
pub fn high_of(sum: i64) -> u32
    ensures { result ≡ high_of sum }
{
    (sum.cast_unsigned() / 0x1_0000_0000) as u32
}

// The sum at a byte offset.
pub fn sum_at(s: &[u8], at: usize) -> i64
    requires { at + 8 ≤ length s.now }
    ensures { result ≡ sum_at s.now at }
{
    sum_of(fields::word_at(s, at), fields::word_at(s, at + 4))
}

// Writes a sum over the front of out.
pub fn put_sum(out: &mut [u8], sum: i64) -> usize
    requires { 8 ≤ length out.old }
    ensures { Wrote (sum_bytes sum) out.old out.new result }
{
    let at = fields::put_word(out, low_of(sum));
    at + fields::put_word(&mut out[at..], high_of(sum))
}

// Whether a sum stands at a byte offset.
pub fn sum_is(s: &[u8], at: usize, sum: i64) -> bool
    requires { at + 8 ≤ length s.now }
    ensures { result ≡ starts_with (drop at s.now) (sum_bytes sum) }
{
    fields::word_is(s, at, low_of(sum)) && fields::word_is(s, at + 4, high_of(sum))
}

// The reading at a byte offset.
pub fn reading_at(s: &[u8], at: usize) -> i64
    requires { at + 4 ≤ length s.now }
    ensures { result ≡ reading_at s.now at }
{
    i64::from(fields::word_at(s, at).cast_signed())
}
