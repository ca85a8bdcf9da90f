// The walk over the fields that tables and archives share: from the left, and at each field its stops in document 01's order.
// A function answers the place behind the last field that it looked at, or the first stop.
#![tactic(auto)]

ghost use Rattle.std.specs.Prelude.{ℕ, ◌≤◌, length, drop};
ghost use Rattle.fields_walk.specs.Fields.{room, field, sizes, header, codes, close};
ghost use Rattle.fields_walk.specs.Walked.{Walked, Tested};

use stops::Stop;

// Bytes of any value, so many.
pub fn check_room(s: &[u8], width: usize, at: usize) -> Result<usize, Stop>
    requires { at ≤ length s.now }
    ensures { Walked s.now (room width (drop at s.now)) result }
{
    if s.len() - at < width {
        return Err(Stop::Cut);
    }
    Ok(at + width)
}

// The place behind a field whose value is at least low and below limit; none where the value is another, for which the caller names the stop.
pub fn check_field(s: &[u8], low: u32, limit: u32, at: usize) -> Result<Option<usize>, Stop>
    requires { at ≤ length s.now }
    ensures { (n : ℕ) → Tested s.now n (field low limit n (drop at s.now)) result }
{
    let next = check_room(s, 4, at)?;
    let w = fields::word_at(s, at);
    if w < low {
        return Ok(None);
    }
    if w < limit { Ok(Some(next)) } else { Ok(None) }
}

// The sizes.
fn check_sizes(s: &[u8], dims: u32, start: usize) -> Result<usize, Stop>
    requires { start ≤ length s.now }
    ensures { Walked s.now (sizes dims (drop start s.now)) result }
{
    let mut at = start;
    for _ in 0..dims {
        at = check_field(s, 1, 65536, at)?.ok_or(Stop::Size)?;
    }
    Ok(at)
}

// The opening, D and the sizes.
pub fn check_header(s: &[u8], opening: &[u8; 4]) -> Result<usize, Stop>
    ensures { Walked s.now (header opening.now s.now) result }
{
    if !fields::opening_is(s, opening) {
        return Err(Stop::Opening);
    }
    let next = check_field(s, 1, 9, 4)?.ok_or(Stop::Dimensions)?;
    check_sizes(s, fields::word_at(s, 4), next)
}

// A row's codes, each below its size.
pub fn check_codes(s: &[u8], sizes: &[u32], start: usize) -> Result<usize, Stop>
    requires { start ≤ length s.now }
    ensures { Walked s.now (codes sizes.now (drop start s.now)) result }
{
    let mut at = start;
    for &size in sizes {
        at = check_field(s, 0, size, at)?.ok_or(Stop::Code)?;
    }
    Ok(at)
}

// The check word, which ends the file.
pub fn check_close(s: &[u8], at: usize) -> Result<usize, Stop>
    requires { at ≤ length s.now }
    ensures { Walked s.now (close s.now (drop at s.now)) result }
{
    let next = check_room(s, 4, at)?;
    if next < s.len() {
        return Err(Stop::Trailing);
    }
    let sum = fields_check::check_word(&s[..at]);
    if fields::word_at(s, at) == sum {
        Ok(next)
    } else {
        Err(Stop::CheckWord)
    }
}
