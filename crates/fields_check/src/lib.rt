// The check word of the two files: the sum of all words before it, found and written.
#![tactic(auto)]

ghost use Rattle.std.specs.Prelude.{◌≡◌, ◌+◌, ◌*◌, ◌<◌, ◌≤◌, length, take};
ghost use Rattle.fields.specs.Words.{word_bytes};
ghost use Rattle.fields_check.specs.Check.{check_of};
ghost use Rattle.fields.specs.Written.{written_at};

// The sum of the words of s, modulo 2^32, a word at each step.
fn sum_words(s: &[u8]) -> u32
    ensures { result ≡ check_of s.now }
{
    let mut sum: u32 = 0;
    for word in s.chunks_exact(4) {
        sum = sum.wrapping_add(fields::word_at(word, 0));
    }
    sum
}

// The check word of the bytes s: the sum of their words, modulo 2^32. Blocks of 1,024 bytes, a length that the compiler unrolls, and the words behind the last block.
pub fn check_word(s: &[u8]) -> u32
    ensures { result ≡ check_of s.now }
{
    let (front, behind) = s.split_at(s.len() / 1024 * 1024);
    let mut sum: u32 = 0;
    for block in front.chunks_exact(1024) {
        sum = sum.wrapping_add(sum_words(block));
    }
    sum.wrapping_add(sum_words(behind))
}

// Writes the check word of the first at bytes of out straight after them.
pub fn put_check(out: &mut [u8], at: usize) -> usize
    requires { at + 4 ≤ length out.old }
    ensures { (result ≡ at + 4) × (out.new ≡ written_at at (word_bytes (check_of (take at out.old))) out.old) }
{
    let check = check_word(&out[..at]);
    at + fields::put_word(&mut out[at..], check)
}
