// What the calls answer.
#![tactic(auto)]

ghost use Rattle.std.specs.Prelude.{◌≡◌, cond, leb, Ok, Err};

use stops::Stop;

// What a check answers: the base count and the normal count.
#[derive(Clone, Copy)]
pub struct Counts {
    pub bases: u32,
    pub cells: u32,
}

// The length of a result, or stop 15 where it is longer than the output.
pub fn fitting(needed: usize, room: usize) -> Result<usize, Stop>
    ensures { result ≡ cond (leb needed room) (Ok needed) (Err Stop.Output) }
{
    if room < needed {
        return Err(Stop::Output);
    }
    Ok(needed)
}
