// The two readers of a time of day, on the rule in crates/time: one of bytes that begin with it, one of bytes that are it as a whole.
#![tactic(auto)]

ghost use Rattle.parser.specs.Reading.{got};
ghost use Rattle.parser.specs.Answer.{Rest, refused, ended};
ghost use Rattle.time.specs.Rules.{time};
ghost use Rattle.times.specs.Answer.{time_reads, time_parses};

use parser::answer::{Answer, Read, begun, rest, whole};
use types::{Choices, Time};

// Reads the time that the bytes begin with.
#[tactic(auto, using(time::proofs::Laws::time_begins))]
pub fn time(s: &[u8], choices: Choices) -> Read<Time>
    ensures { time_reads choices s.now result }
{
    begun(time::plain::time_begun(s, choices))
}

// The bytes that `time` leaves: those after the time, or all of them where there is none.
pub fn time_rest(s: &[u8], choices: Choices) -> &[u8]
    ensures { Rest (time choices) s.now result.now }
{
    rest(time::time_at(s, 0, choices), s)
}

// Reads bytes that are one time from the first to the last.
pub fn parse_time(s: &[u8], choices: Choices) -> Answer<Time>
    ensures { time_parses choices s.now result }
{
    whole(time::time_at(s, 0, choices), s.len())
}
