// A kind as a value, and what its readers answer.
ghost use Rattle.std.specs.Prelude.{◌≡◌};
ghost use Rattle.kinds.specs.Kinds.{choices_in, among_five};

use types::{Choices, Date, DateTime, Duration, Interval, Offset, Time};

// A kind, and where its rule has choices, the caller's.
#[derive(Clone, Copy)]
pub enum Kind {
    Date,
    Time(Choices),
    Offset,
    Stamp(Choices),
    Duration,
    Interval(Choices),
}

impl Kind {
    // The choices that it was named with; document 01's where its rule has none.
    pub fn choices(self) -> Choices
        ensures { result ≡ choices_in self }
    {
        match self {
            Kind::Time(choices) | Kind::Stamp(choices) | Kind::Interval(choices) => choices,
            Kind::Date | Kind::Offset | Kind::Duration => Choices::DOCUMENT_01,
        }
    }
}

// What a letter says, where intervals have no letter.
pub fn among_five(kind: Option<Kind>) -> Option<Kind>
    ensures { result ≡ among_five kind }
{
    match kind {
        Some(Kind::Interval(_)) => None,
        _ => kind,
    }
}

// A record of any kind.
#[derive(Clone, Copy)]
pub enum Record {
    Date(Date),
    Time(Time),
    Offset(Offset),
    Stamp(DateTime),
    Duration(Duration),
    Interval(Interval),
}

// What the readers of a kind answer, of any kind.
pub type Answer = parser::answer::Answer<Record>;

pub type Read = parser::answer::Read<Record>;

impl From<Date> for Record {
    ghost use Rattle.kinds.specs.declared.answer.Record.TheVariants as record_of;

    ghost from_gives = { λ date r. r ≡ record_of.Date date };

    fn from(date: Date) -> Record {
        Record::Date(date)
    }
}

impl From<Time> for Record {
    ghost use Rattle.kinds.specs.declared.answer.Record.TheVariants as record_of;

    ghost from_gives = { λ time r. r ≡ record_of.Time time };

    fn from(time: Time) -> Record {
        Record::Time(time)
    }
}

impl From<Offset> for Record {
    ghost use Rattle.kinds.specs.declared.answer.Record.TheVariants as record_of;

    ghost from_gives = { λ offset r. r ≡ record_of.Offset offset };

    fn from(offset: Offset) -> Record {
        Record::Offset(offset)
    }
}

impl From<DateTime> for Record {
    ghost use Rattle.kinds.specs.declared.answer.Record.TheVariants as record_of;

    ghost from_gives = { λ stamp r. r ≡ record_of.Stamp stamp };

    fn from(stamp: DateTime) -> Record {
        Record::Stamp(stamp)
    }
}

impl From<Duration> for Record {
    ghost use Rattle.kinds.specs.declared.answer.Record.TheVariants as record_of;

    ghost from_gives = { λ duration r. r ≡ record_of.Duration duration };

    fn from(duration: Duration) -> Record {
        Record::Duration(duration)
    }
}

impl From<Interval> for Record {
    ghost use Rattle.kinds.specs.declared.answer.Record.TheVariants as record_of;

    ghost from_gives = { λ interval r. r ≡ record_of.Interval interval };

    fn from(interval: Interval) -> Record {
        Record::Interval(interval)
    }
}
