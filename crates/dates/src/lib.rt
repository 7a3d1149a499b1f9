// The two readers of a date, on the rule in crates/date: one of bytes that begin with it, one of bytes that are it as a whole.
#![tactic(auto)]

ghost use Rattle.parser.specs.Answer.{Rest};
ghost use Rattle.date.specs.Rules.{date};
ghost use Rattle.dates.specs.Answer.{date_reads, date_parses};

use parser::answer::{Answer, Read, begun, rest, whole};
use types::Date;

// Reads the date that the bytes begin with.
#[tactic(auto, using(date::proofs::Laws::date_begins))]
pub fn date(s: &[u8]) -> Read<Date>
    ensures { date_reads s.now result }
{
    begun(date::plain::date_begun(s))
}

// The bytes that `date` leaves: those after the date, or all of them where there is none.
pub fn date_rest(s: &[u8]) -> &[u8]
    ensures { Rest date s.now result.now }
{
    rest(date::date_at(s, 0), s)
}

// Reads bytes that are one date from the first to the last.
pub fn parse_date(s: &[u8]) -> Answer<Date>
    ensures { date_parses s.now result }
{
    whole(date::date_at(s, 0), s.len())
}
