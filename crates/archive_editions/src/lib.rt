// Archives of either edition: their bytes, their stops, and what is proved of them. The code so far is the walk over what edition two adds to a base entry.
#![tactic(auto)]

ghost use Rattle.std.specs.Prelude.{◌≡◌, ℕ, ◌+◌, ◌^◌, ◌≤◌, ◌<◌, length, drop};
ghost use Rattle.std.specs.Int.Signed.{mag};
ghost use Rattle.fields.specs.Words.{word_at};
ghost use Rattle.fields_walk.specs.Walked.{Tested};
ghost use Rattle.cube.specs.Bounds.{most, suits};
ghost use Rattle.archive_editions.specs.Edition.{sound_extremes, edition_two};
ghost use Rattle.archive_editions.specs.Reading.{extremes};

use cube::Total;
use stops::Stop;

// Whether a least and a greatest reading suit a sum and a count.
fn do_suit(sums: Total, least: i64, greatest: i64) -> bool
    requires counted { (1 ≤ sums.count) × (sums.count ≤ most) }
    requires readings { (mag least < 2 ^ 31) × (mag greatest < 2 ^ 31) }
    ensures { result ≡ suits sums least greatest }
{
    if greatest < least {
        return false;
    }
    let n = i64::from(sums.count - 1);
    let low = greatest + n * least;
    let high = least + n * greatest;
    (low..=high).contains(&sums.sum)
}

// Whether the three words at a place may stand beside a sum and a count: known or not, least, greatest.
fn are_sound(s: &[u8], sums: Total, at: usize) -> bool
    requires counted { (1 ≤ sums.count) × (sums.count ≤ most) }
    requires in_bounds { at + 12 ≤ length s.now }
    ensures { result ≡ sound_extremes sums (word_at s.now at) (word_at s.now (at + 4)) (word_at s.now (at + 8)) }
{
    match fields::word_at(s, at) {
        0 => fields::word_at(s, at + 4) == 0 && fields::word_at(s, at + 8) == 0,
        1 => do_suit(
            sums,
            fields_sums::reading_at(s, at + 4),
            fields_sums::reading_at(s, at + 8),
        ),
        _ => false,
    }
}

// The place behind the extremes of a base entry with this sum and count; none where stop 19 holds.
pub fn check_extremes(s: &[u8], sums: Total, at: usize) -> Result<Option<usize>, Stop>
    requires counted { (1 ≤ sums.count) × (sums.count ≤ most) }
    requires in_bounds { at ≤ length s.now }
    ensures { Tested s.now 19 (extremes edition_two sums (drop at s.now)) result }
{
    let next = fields_walk::check_room(s, 12, at)?;
    if are_sound(s, sums, at) {
        Ok(Some(next))
    } else {
        Ok(None)
    }
}
