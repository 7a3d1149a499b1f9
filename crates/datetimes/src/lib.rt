// The two readers of a date-time, on the rule in crates/datetime: one of bytes that begin with it, one of bytes that are it as a whole.
#![tactic(auto)]

ghost use Rattle.parser.specs.Answer.{Rest};
ghost use Rattle.datetime.specs.Rules.{date_time};
ghost use Rattle.datetimes.specs.Answer.{date_time_reads, date_time_parses};

use parser::answer::{Answer, Read, begun, rest, whole};
use types::{Choices, DateTime};

// Reads the date-time that the bytes begin with.
#[tactic(auto, using(datetime::proofs::Laws::datetime_begins))]
pub fn datetime(s: &[u8], choices: Choices) -> Read<DateTime>
    ensures { date_time_reads choices s.now result }
{
    begun(datetime::plain::datetime_begun(s, choices))
}

// The bytes that `datetime` leaves: those after the date-time, or all of them where there is none.
pub fn datetime_rest(s: &[u8], choices: Choices) -> &[u8]
    ensures { Rest (date_time choices) s.now result.now }
{
    rest(datetime::datetime_at(s, 0, choices), s)
}

// Reads bytes that are one date-time from the first to the last.
pub fn parse_datetime(s: &[u8], choices: Choices) -> Answer<DateTime>
    ensures { date_time_parses choices s.now result }
{
    whole(datetime::datetime_at(s, 0, choices), s.len())
}
