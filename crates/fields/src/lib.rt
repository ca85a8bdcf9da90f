// The fields of the two files: words and the opening bytes, read from and written to lent bytes.
// A writer writes over the front of what it is lent and returns how much it wrote.
#![tactic(auto)]

ghost use Rattle.std.specs.Prelude.{◌≡◌, ◌+◌, ◌*◌, ◌≤◌, length, drop};
ghost use Rattle.fields.specs.Words.{word_at, words_at, word_bytes, words_bytes};
ghost use Rattle.fields.specs.Opening.{starts_with};
ghost use Rattle.fields.specs.Written.{Wrote};

// The 32-bit word at a byte offset.
pub fn word_at(s: &[u8], at: usize) -> u32
    requires { at + 4 ≤ length s.now }
    ensures { result ≡ word_at s.now at }
{
    u32::from_le_bytes([s[at], s[at + 1], s[at + 2], s[at + 3]])
}

// Whether a word stands at a byte offset.
pub fn word_is(s: &[u8], at: usize, w: u32) -> bool
    requires { at + 4 ≤ length s.now }
    ensures { result ≡ starts_with (drop at s.now) (word_bytes w) }
{
    word_at(s, at) == w
}

// The words from a byte offset on, as many as out has room for.
pub fn read_words(s: &[u8], at: usize, out: &mut [u32])
    requires { at + 4 * length out.old ≤ length s.now }
    ensures { out.new ≡ words_at s.now (length out.old) at }
{
    for (i, w) in out.iter_mut().enumerate() {
        *w = word_at(s, at + 4 * i);
    }
}

// Writes a word over the front of out.
pub fn put_word(out: &mut [u8], w: u32) -> usize
    requires { 4 ≤ length out.old }
    ensures { Wrote (word_bytes w) out.old out.new result }
{
    out[..4].copy_from_slice(&w.to_le_bytes());
    4
}

// Writes the words ws over the front of out. `archive_cells::put_words` writes bytes as words too; this one is for words alone: the contract over elements of any type is longer for each caller.
pub fn put_words(out: &mut [u8], ws: &[u32]) -> usize
    requires { length (words_bytes ws.now) ≤ length out.old }
    ensures { Wrote (words_bytes ws.now) out.old out.new result }
{
    let mut at = 0;
    for w in ws {
        at += put_word(&mut out[at..], *w);
    }
    at
}

// Whether s begins with the bytes xs.
#[tactic(auto, using(crate::proofs::Stands::starts_slice))]
pub fn begins(s: &[u8], xs: &[u8]) -> bool
    ensures { result ≡ starts_with s.now xs.now }
{
    s.starts_with(xs)
}

// Whether s begins with the opening bytes, of which there are four.
pub fn opening_is(s: &[u8], opening: &[u8; 4]) -> bool
    ensures value { result ≡ starts_with s.now opening.now }
    ensures opening_len { length opening.now ≡ 4 }
{
    begins(s, opening)
}

// Writes given bytes over the front of out.
pub fn put_bytes(out: &mut [u8], xs: &[u8]) -> usize
    requires { length xs.now ≤ length out.old }
    ensures { Wrote xs.now out.old out.new result }
{
    out[..xs.len()].copy_from_slice(xs);
    xs.len()
}

// Writes the opening bytes over the front of out.
pub fn put_opening(out: &mut [u8], opening: &[u8; 4]) -> usize
    requires { 4 ≤ length out.old }
    ensures { Wrote opening.now out.old out.new result }
{
    put_bytes(out, opening)
}
