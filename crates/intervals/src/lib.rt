// The two readers of an interval, on the rule in crates/interval: one of bytes that begin with it, one of bytes that are it as a whole.
#![tactic(auto)]

ghost use Rattle.parser.specs.Answer.{Rest};
ghost use Rattle.interval.specs.Once.{interval};
ghost use Rattle.intervals.specs.Answer.{interval_reads, interval_parses};

use parser::answer::{Answer, Read, begun, rest, whole};
use types::{Choices, Interval};

// Reads the interval that the bytes begin with: two date-times, a duration and a date-time, a date-time and a duration, with a `/` between
// them, or a duration alone; `R/` or `R5/` may stand in front.
pub fn interval(s: &[u8], choices: Choices) -> Read<Interval>
    ensures { interval_reads choices s.now result }
{
    begun(interval::interval_at(s, 0, choices))
}

// The bytes that `interval` leaves: those after the interval, or all of them where it refuses.
pub fn interval_rest(s: &[u8], choices: Choices) -> &[u8]
    ensures { Rest (interval choices) s.now result.now }
{
    rest(interval::interval_at(s, 0, choices), s)
}

// Reads bytes that are one interval from the first to the last.
pub fn parse_interval(s: &[u8], choices: Choices) -> Answer<Interval>
    ensures { interval_parses choices s.now result }
{
    whole(interval::interval_at(s, 0, choices), s.len())
}
