// Times of day (time.rs).
#![tactic(auto)]

ghost use Rattle.std.specs.Prelude.{◌≡◌, true, ◌≤◌};
ghost use Rattle.parser.specs.Reading.{Says, SaysOn, no, lack, map_found};
ghost use Rattle.parser.specs.Digits.{field};
ghost use Rattle.parser.specs.Fields.{either, preceded_by};
ghost use Rattle.parser.specs.Read.{exact_found, exact_more, got_found, got_more, or_value};
ghost use Rattle.fields.specs.Read.{number_read};
ghost use Rattle.time.specs.Rules.{hour_of, ends_day, zero_if, fraction_if, whole_clock, unit_of, digits_counted, sum_of, clock_of, time_fraction, millisecond, second_millisecond, minute_second_millisecond, behind_hour, time_offset, after_hour, base_time, time};
ghost use Rattle.time.specs.Plain.{time_with};

use parser::{Exact, Found, Got, Miss};
use types::{Choices, Edition, Fraction, Offset, Reading, Refusal, Time};

// What is read at one go, before the rule is asked.
pub mod plain;

// What stands behind an hour.
#[derive(Clone, Copy)]
pub struct Clock {
    pub minute: u32,
    pub second: u32,
    pub fraction: Fraction,
}

impl Clock {
    // That of an hour with nothing behind it.
    pub const WHOLE_HOUR: Clock = Clock {
        minute: 0,
        second: 0,
        fraction: Fraction::NONE,
    };

    // So many nanoseconds past a minute.
    #[tactic(auto, unfolding(crate::specs::Rules::sum_of))]
    fn past(minute: u32, nanoseconds: u64) -> Clock
        requires { minute ≤ 59 }
        ensures { result ≡ sum_of minute nanoseconds }
    {
        let nanosecond = (nanoseconds % 1_000_000_000) as u32;
        Clock {
            minute: minute + (nanoseconds / 60_000_000_000) as u32,
            second: (nanoseconds / 1_000_000_000 % 60) as u32,
            fraction: Fraction {
                nanosecond,
                digits: digits_counted(nanosecond),
            },
        }
    }

    // The time that it is at an hour. An absent offset is not zero.
    fn time_of(self, hour: u32, offset: Option<Offset>) -> Time
        ensures { result ≡ time_with hour self.minute self.second self.fraction offset }
    {
        Time {
            hour,
            minute: self.minute,
            second: self.second,
            nanosecond: self.fraction.nanosecond,
            digits: self.fraction.digits,
            offset,
        }
    }
}

// What a fraction is a fraction of.
#[derive(Clone, Copy)]
pub enum TimeUnit {
    Hour,
    Minute,
    Second,
}

// What stands before a fraction, and what it is a fraction of.
#[derive(Clone, Copy)]
struct Whole {
    minute: u32,
    second: u32,
    unit: TimeUnit,
}

impl Whole {
    // An hour alone.
    const HOUR: Whole = Whole {
        minute: 0,
        second: 0,
        unit: TimeUnit::Hour,
    };

    // The clock without a fraction.
    fn clock(self) -> Clock
        ensures { result ≡ whole_clock self.minute self.second }
    {
        Clock {
            minute: self.minute,
            second: self.second,
            fraction: Fraction::NONE,
        }
    }

    // The clock with a fraction of the unit; one of a second stays as it was written.
    fn with(self, fraction: Fraction) -> Clock
        requires { self.minute ≤ 59 }
        ensures { result ≡ clock_of self.unit self.minute self.second fraction }
    {
        let nanosecond = u64::from(fraction.nanosecond);
        match self.unit {
            TimeUnit::Hour => Clock::past(self.minute, 3600 * nanosecond),
            TimeUnit::Minute => Clock::past(self.minute, 60 * nanosecond),
            TimeUnit::Second => Clock {
                fraction,
                ..self.clock()
            },
        }
    }
}

// How many digits are stored of nanoseconds that were counted, and not written.
fn digits_counted(nanosecond: u32) -> u32
    ensures { result ≡ digits_counted nanosecond }
{
    if nanosecond == 0 { 0 } else { 9 }
}

// Whether the hour ends the day: 24, which only 2004 has.
fn ends_day(edition: Edition, hour: u32) -> bool
    ensures { result ≡ ends_day edition hour }
{
    match edition {
        Edition::E2004 => hour == 24,
        Edition::E2019 => false,
    }
}

// The digits behind a comma or point, a run in billionths. `zero`: all have to be 0.
fn fraction_at(s: &[u8], at: usize, zero: bool) -> Found<Fraction>
    ensures { Says (fraction_if zero) s.now at (got_found result) (got_more result) }
{
    if zero {
        runs::take_zeros(s, at)
    } else {
        runs::fraction_nanosecond(s, at)
    }
}

// (,|.)(m*), a fraction of the unit
fn time_fraction(s: &[u8], at: usize, whole: Whole, zero: bool) -> Found<Clock>
    requires { whole.minute ≤ 59 }
    ensures { Says (time_fraction whole.unit zero whole.minute whole.second) s.now at (got_found result) (got_more result) }
{
    let from = parser::one_of(s, at, b',', b'.')?;
    let fraction = fraction_at(s, from, zero)?;
    Ok(Got {
        value: whole.with(fraction.value),
        next: fraction.next,
        more: fraction.more,
    })
}

// [(,|.)(m*)]; `more`: what came before was left open, and then no comma or point stands here
fn time_millisecond(s: &[u8], at: usize, whole: Whole, more: bool, zero: bool) -> Found<Clock>
    requires minute_bound { whole.minute ≤ 59 }
    requires at_value { more ≡ true → (either 44 46).reads s.now at ≡ no }
    ensures { SaysOn more (millisecond whole.unit zero whole.minute whole.second) s.now at (got_found result) (got_more result) }
{
    let fraction = time_fraction(s, at, whole, zero);
    let clock = parser::or_absent(at, fraction, whole.clock())?;
    Ok(Got {
        more: parser::either_open(more, clock.more),
        ..clock
    })
}

// What a fraction behind a minute is one of, by the second that was looked for.
fn unit_of(reading: Reading, second: Result<Exact<u32>, Miss>) -> TimeUnit
    ensures { result ≡ unit_of reading (number_read second) }
{
    match (reading, second) {
        (Reading::Standard, Err(_)) => TimeUnit::Minute,
        _ => TimeUnit::Second,
    }
}

// [:]NN, from 00 to `hi`; `zero`: what is read has to be 0, and else the reading stops
fn after_colon(s: &[u8], at: usize, hi: u32, zero: bool) -> Result<Exact<u32>, Miss>
    ensures { Says (preceded_by 58 (zero_if zero (field 2 0 hi))) s.now at (exact_found result) (exact_more result) }
{
    let number = fields::after_colon(s, at, hi)?;
    if zero && number.value != 0 {
        return Err(Miss::Stopped(Refusal::NoForm));
    }
    Ok(number)
}

// [[:]SS][(,|.)(m*)]
fn time_second_millisecond(
    s: &[u8],
    at: usize,
    minute: u32,
    zero: bool,
    reading: Reading,
) -> Found<Clock>
    requires { minute ≤ 59 }
    ensures { Says (second_millisecond reading zero minute) s.now at (got_found result) (got_more result) }
{
    let found = after_colon(s, at, 60, zero);
    let second = parser::optional(at, found, 0)?;
    let whole = Whole {
        minute,
        second: second.value,
        unit: unit_of(reading, found),
    };
    time_millisecond(s, second.next, whole, second.more, zero)
}

// [:]MM[[:]SS][(,|.)(m*)]; `zero`: what is read has to be 0
pub fn time_minute_second_millisecond(
    s: &[u8],
    at: usize,
    zero: bool,
    reading: Reading,
) -> Found<Clock>
    ensures { Says (minute_second_millisecond reading zero) s.now at (got_found result) (got_more result) }
{
    let minute = after_colon(s, at, 59, zero)?;
    time_second_millisecond(s, minute.next, minute.value, zero, reading)
}

// What may stand between the hour and the offset: in the standard reading also (,|.)(m*), in place of minutes.
fn time_behind_hour(s: &[u8], at: usize, zero: bool, reading: Reading) -> Found<Clock>
    ensures { Says (behind_hour reading zero) s.now at (got_found result) (got_more result) }
{
    let clock = time_minute_second_millisecond(s, at, zero, reading);
    match (reading, clock) {
        (Reading::Standard, Err(Miss::Wrong)) => time_fraction(s, at, Whole::HOUR, zero),
        _ => clock,
    }
}

// [(Z|+...|-...)], behind a clock. An offset that is refused leaves the time standing.
fn time_offset(s: &[u8], hour: u32, clock: Got<Clock>) -> Found<Time>
    ensures { SaysOn clock.more (time_offset hour clock.value) s.now clock.next (got_found result) (got_more result) }
{
    let at = clock.next;
    let (offset, next, more) = match offset::offset_at(s, at) {
        Ok(offset) => (Some(offset.value), offset.next, offset.more),
        Err(miss) => (None, at, miss.is_cut()),
    };
    Ok(Got {
        value: clock.value.time_of(hour, offset),
        next,
        more: parser::either_open(clock.more, more),
    })
}

// What follows the hour. `zero`: it ends the day.
fn time_after_hour(s: &[u8], at: usize, hour: u32, zero: bool, reading: Reading) -> Found<Time>
    ensures { Says (after_hour reading zero hour) s.now at (got_found result) (got_more result) }
{
    let found = time_behind_hour(s, at, zero, reading);
    let clock = parser::or_absent(at, found, Clock::WHOLE_HOUR)?;
    time_offset(s, hour, clock)
}

// HH
fn time_hour(s: &[u8], at: usize, edition: Edition) -> Result<Exact<u32>, Miss>
    ensures { Says (hour_of edition) s.now at (exact_found result) (exact_more result) }
{
    let last = match edition {
        Edition::E2004 => 24,
        Edition::E2019 => 23,
    };
    fields::take_digits_in_range(s, at, 2, 0, last)
}

// HH[[:]MM[[:]SS][(,|.)(m*)]][(Z|+...|-...)]; in the standard reading also HH(,|.)(m*)[(Z|+...|-...)]
pub fn base_time(s: &[u8], at: usize, choices: Choices) -> Found<Time>
    ensures { Says (base_time choices) s.now at (got_found result) (got_more result) }
{
    let hour = time_hour(s, at, choices.edition)?;
    let zero = ends_day(choices.edition, hour.value);
    // Field by field: what is copied as one is read in other pieces than it was written in, and waits for them.
    let Got { value, next, more } = time_after_hour(
        s,
        hour.next,
        hour.value,
        zero,
        choices.reading,
    )?;
    Ok(Got { value, next, more })
}

// [T]HH...
pub fn time_at(s: &[u8], at: usize, choices: Choices) -> Found<Time>
    ensures { Says (time choices) s.now at (got_found result) (got_more result) }
{
    base_time(s, parser::past(s, at, b'T'), choices)
}
