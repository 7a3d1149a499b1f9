// The records that the readers make, the refusals and the verdict, and the small sums over them (types.rs).
#![tactic(auto)]

ghost use Rattle.std.specs.Prelude.{◌≡◌, ◌*◌};
ghost use Rattle.types.specs.Sums.{with_sign, minutes_in_all, in_range, made, plus, both, in_seconds, is_zero, has_time};
ghost use Rattle.types.specs.Numbers.{number_of, sum_number};

// Whether a longer input could still get another answer.
#[derive(Clone, Copy)]
pub enum Verdict {
    Settled,
    Open,
}

// Why no record is given.
#[derive(Clone, Copy)]
pub enum Refusal {
    NoForm,
    TooBig,
    LeftOver,
}

// The edition of ISO 8601 that a time is read by and written for: 2004 has an hour 24, the end of a day.
#[derive(Clone, Copy)]
pub enum Edition {
    E2004,
    E2019,
}

// What a fraction counts as where no second was written. Old: a fraction of a second, as in document 01. Standard: a fraction of the
// smallest unit written, as in ISO 8601, and then it may follow the hour too.
#[derive(Clone, Copy)]
pub enum Reading {
    Old,
    Standard,
}

// What a caller chooses for times and date-times.
#[derive(Clone, Copy)]
pub struct Choices {
    pub edition: Edition,
    pub reading: Reading,
}

impl Choices {
    // Document 01 as it stands.
    pub const DOCUMENT_01: Choices = Choices {
        edition: Edition::E2019,
        reading: Reading::Old,
    };
}

// A calendar, week or ordinal date. A year before 0 is negative.
#[derive(Clone, Copy)]
pub enum Date {
    YMD { year: i32, month: u32, day: u32 },
    Week { year: i32, week: u32, day: u32 },
    Ordinal { year: i32, day: u32 },
}

// A shift from UTC. Hours and minutes carry the same sign, or are zero.
#[derive(Clone, Copy)]
pub struct Offset {
    pub hours: i32,
    pub minutes: i32,
}

// A fraction in billionths, which are nanoseconds of a second, and how many of its digits were written, more than nine as 9.
#[derive(Clone, Copy)]
pub struct Fraction {
    pub nanosecond: u32,
    pub digits: u32,
}

impl Fraction {
    // That of a time without one.
    pub const NONE: Fraction = Fraction {
        nanosecond: 0,
        digits: 0,
    };
}

// A time of day. `digits`: how many digits of its fraction were written, more than nine as 9; where a fraction of a minute or an hour was counted,
// 9, or 0 if no nanosecond is left.
#[derive(Clone, Copy)]
pub struct Time {
    pub hour: u32,
    pub minute: u32,
    pub second: u32,
    pub nanosecond: u32,
    pub digits: u32,
    // absent is not zero
    pub offset: Option<Offset>,
}

#[derive(Clone, Copy)]
pub struct DateTime {
    pub date: Date,
    pub time: Time,
}

#[derive(Clone, Copy)]
pub struct Duration {
    pub years: u64,
    pub months: u64,
    pub weeks: u64,
    pub days: u64,
    pub hours: u64,
    pub minutes: u64,
    pub seconds: u64,
}

// How often an interval repeats: `Once` where no `R` was written; `Unlimited` for `R/`, which says no number; `Times` for `R5/`.
#[derive(Clone, Copy)]
pub enum Repetitions {
    Once,
    Unlimited,
    Times(u32),
}

// What an interval spans: from one date-time to another; so long until a date-time; from a date-time on so long; or so long, and no more is said.
#[derive(Clone, Copy)]
pub enum IntervalRange {
    Closed { start: DateTime, end: DateTime },
    ClosedEnd { duration: Duration, end: DateTime },
    ClosedStart { start: DateTime, duration: Duration },
    Open { duration: Duration },
}

#[derive(Clone, Copy)]
pub struct Interval {
    pub repetitions: Repetitions,
    pub range: IntervalRange,
}

impl Refusal {
    // The paper's number.
    pub fn number(self) -> u32
        ensures { result ≡ number_of self }
    {
        match self {
            Refusal::NoForm => 1,
            Refusal::TooBig => 2,
            Refusal::LeftOver => 3,
        }
    }
}

// The number, negated where `minus` is set.
pub fn with_sign(minus: bool, n: u16) -> i32
    ensures { result ≡ with_sign minus n }
{
    let up = n as i32;
    if minus { 0 - up } else { up }
}

impl Offset {
    // The ends of the range of an offset's minutes in all, and the offset of `Z`.
    pub const MIN_MINUTES: i64 = -1439;

    pub const MAX_MINUTES: i64 = 1439;

    pub const ZERO: Offset = Offset {
        hours: 0,
        minutes: 0,
    };

    // The offset of a sign, hours 0 to 23 and minutes 0 to 59; there is none of anything else.
    #[tactic(auto, unfolding(crate::specs::Sums::made))]
    pub fn new(minus: bool, hours: u32, minutes: u32) -> Option<Offset>
        ensures { result ≡ made minus hours minutes }
    {
        if 23 < hours || 59 < minutes {
            return None;
        }
        Some(Offset {
            hours: with_sign(minus, hours as u16),
            minutes: with_sign(minus, minutes as u16),
        })
    }

    // Sixty times the hours plus the minutes, of every offset: one that `new` made lies between the ends.
    pub fn minutes_in_all(self) -> i64
        ensures { result ≡ minutes_in_all self }
    {
        let h = self.hours as i64;
        let m = self.minutes as i64;
        h * 60 + m
    }

    // Whether the minutes in all lie between the ends, both included.
    #[tactic(auto, unfolding(crate::specs::Sums::in_range))]
    pub fn in_range(self) -> bool
        ensures { result ≡ in_range self }
    {
        let all = self.minutes_in_all();
        Offset::MIN_MINUTES <= all && all <= Offset::MAX_MINUTES
    }
}

impl Duration {
    // Whether all seven fields are 0.
    #[tactic(auto, unfolding(crate::specs::Sums::is_zero))]
    pub fn is_zero(self) -> bool
        ensures { result ≡ is_zero self }
    {
        self.years == 0
            && self.months == 0
            && self.weeks == 0
            && self.days == 0
            && self.hours == 0
            && self.minutes == 0
            && self.seconds == 0
    }

    // Whether days, hours, minutes and seconds are all above 0: the original's meaning, odd as it is.
    #[tactic(auto, unfolding(crate::specs::Sums::has_time))]
    pub fn has_time(self) -> bool
        ensures { result ≡ has_time self }
    {
        0 < self.days && 0 < self.hours && 0 < self.minutes && 0 < self.seconds
    }

    // The seconds in all, with years of 365 days and months of 30: exact, or none where they are more than 64 bits hold.
    pub fn in_seconds(self) -> Option<u64>
        ensures { result ≡ in_seconds self }
    {
        let sum = plus(Some(0), self.years, 31536000);
        let sum = plus(sum, self.months, 2592000);
        let sum = plus(sum, self.weeks, 604800);
        let sum = plus(sum, self.days, 86400);
        let sum = plus(sum, self.hours, 3600);
        let sum = plus(sum, self.minutes, 60);
        plus(sum, self.seconds, 1)
    }
}

// So many times a unit more.
fn plus(sum: Option<u64>, n: u64, unit: u64) -> Option<u64>
    ensures { result ≡ plus sum (n * unit) }
{
    sum?.checked_add(n.checked_mul(unit)?)
}

// Both sums together: exact, or none where one was, or where they are more than 64 bits hold.
pub fn both(sum: Option<u64>, more: Option<u64>) -> Option<u64>
    ensures { result ≡ both sum more }
{
    plus(sum, more?, 1)
}

// 0 or 7, the paper's number of a sum.
pub fn sum_number(sum: Option<u64>) -> u32
    ensures { result ≡ sum_number sum }
{
    match sum {
        Some(_) => 0,
        None => 7,
    }
}
