// One face over the six kinds: a kind as a value, and the two readers and the rest of the kind that is named. Each does what the
// kind's own function does; who knows the kind calls that, and is served faster.
#![tactic(auto)]

ghost use Rattle.std.specs.Prelude.{◌≡◌};
ghost use Rattle.parser.specs.Answer.{Rest};
ghost use Rattle.kinds.specs.Kinds.{rule_of, letter_of, SameBy, Reads, Parses};

use crate::answer::{Answer, Kind, Read, Record};
use parser::answer::Counted;
use types::Choices;

pub mod answer;

// The kind that a letter names, under the choices.
pub fn kind_of(letter: u8, choices: Choices) -> Option<Kind>
    ensures { result ≡ letter_of choices letter }
{
    match letter {
        b'd' => Some(Kind::Date),
        b't' => Some(Kind::Time(choices)),
        b'o' => Some(Kind::Offset),
        b's' => Some(Kind::Stamp(choices)),
        b'p' => Some(Kind::Duration),
        b'i' => Some(Kind::Interval(choices)),
        _ => None,
    }
}

// An answer of one kind, its record put among those of any kind.
#[inline(always)]
fn any_answer<T: Into<Record> + Copy>(answer: parser::answer::Answer<T>) -> Answer
    ensures { SameBy T.converts answer result }
{
    let found = answer?;
    Ok(Counted {
        value: found.value.into(),
        count: found.count,
    })
}

#[inline(always)]
fn any_read<T: Into<Record> + Copy>(read: parser::answer::Read<T>) -> Read
    ensures answer { SameBy T.converts read.answer result.answer }
    ensures verdict { result.verdict ≡ read.verdict }
{
    Read {
        answer: any_answer(read.answer),
        verdict: read.verdict,
    }
}

// Reads the record of a kind that the bytes begin with.
#[inline(always)]
pub fn read(kind: Kind, s: &[u8]) -> Read
    ensures { Reads kind s.now result }
{
    match kind {
        Kind::Date => any_read(dates::date(s)),
        Kind::Time(choices) => any_read(times::time(s, choices)),
        Kind::Offset => any_read(offsets::offset(s)),
        Kind::Stamp(choices) => any_read(datetimes::datetime(s, choices)),
        Kind::Duration => any_read(durations::duration(s)),
        Kind::Interval(choices) => any_read(intervals::interval(s, choices)),
    }
}

// The bytes that `read` leaves: those after the record, or all of them where there is none.
#[tactic(auto, using(crate::proofs::As::leaves_as))]
pub fn rest(kind: Kind, s: &[u8]) -> &[u8]
    ensures { Rest (rule_of kind) s.now result.now }
{
    match kind {
        Kind::Date => dates::date_rest(s),
        Kind::Time(choices) => times::time_rest(s, choices),
        Kind::Offset => offsets::offset_rest(s),
        Kind::Stamp(choices) => datetimes::datetime_rest(s, choices),
        Kind::Duration => durations::duration_rest(s),
        Kind::Interval(choices) => intervals::interval_rest(s, choices),
    }
}

// Reads bytes that are one record of a kind from the first to the last.
#[tactic(auto, unfolding(parser::specs::Reading::map), using(crate::proofs::As::told_same, crate::proofs::As::ended_as))]
pub fn parse(kind: Kind, s: &[u8]) -> Answer
    ensures { Parses kind s.now result }
{
    match kind {
        Kind::Date => any_answer(dates::parse_date(s)),
        Kind::Time(choices) => any_answer(times::parse_time(s, choices)),
        Kind::Offset => any_answer(offsets::parse_offset(s)),
        Kind::Stamp(choices) => any_answer(datetimes::parse_datetime(s, choices)),
        Kind::Duration => any_answer(durations::parse_duration(s)),
        Kind::Interval(choices) => any_answer(intervals::parse_interval(s, choices)),
    }
}
