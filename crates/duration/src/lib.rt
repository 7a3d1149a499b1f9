// Durations (duration.rs). A duration whose runs have one digit or two is read by the bytes where their letters stand; any other is read
// again from its beginning, run by run.
#![tactic(auto)]

ghost use Rattle.std.specs.Prelude.{◌≡◌, ◌+◌, ◌<◌, ◌≤◌, length, ◌≢◌, slice_index, nat_lt};
ghost use Rattle.parser.specs.Reading.{no, got, pick, Says};
ghost use Rattle.parser.specs.Read.{got_found, got_more};
ghost use Rattle.duration.specs.Rules.{duration_base_time, duration_time, duration};
ghost use Rattle.parts.specs.Items.{item_at};
ghost use Rattle.duration.specs.Items.{is_cut, unless_too_big, time_of, time_parts, behind_p, record_of, all_parts};
ghost use Rattle.duration.specs.Looks.{long_run, Looks, Short, Starts, DateAt};

use parser::{Found, Got, Miss};
use parts::{Item, Part};
use types::Duration;

// Hour, minute and second parts of a duration's time portion
#[derive(Clone, Copy)]
pub struct DurationTimeParts {
    pub hours: u64,
    pub minutes: u64,
    pub seconds: u64,
}

// The parts Y, M, W and D, each tried at the place that the one before it left.
#[derive(Clone, Copy)]
struct DateParts {
    years: Part,
    months: Part,
    weeks: Part,
    days: Part,
}

// The parts H, M and S, likewise.
#[derive(Clone, Copy)]
struct ClockParts {
    hours: Part,
    minutes: Part,
    seconds: Part,
}

// What parts from a place on make, by the place behind them: at least one is there, and so they end further on.
fn found_parts<T: Copy>(at: usize, next: usize, value: T, more: bool) -> Found<T>
    ensures found { got_found result ≡ pick (nat_lt at next) (got value next) no }
    ensures more { got_more result ≡ more }
{
    if at < next {
        return Ok(Got { value, next, more });
    }
    Err(if more { Miss::Cut } else { Miss::Wrong })
}

// The time of the parts; an absent one is 0.
fn time_of(clock: ClockParts) -> DurationTimeParts
    ensures { result ≡ time_of clock }
{
    DurationTimeParts {
        hours: clock.hours.value,
        minutes: clock.minutes.value,
        seconds: clock.seconds.value,
    }
}

// What the parts of a time from a place on make.
fn some_time(at: usize, clock: ClockParts, more: bool) -> Found<DurationTimeParts>
    ensures found { got_found result ≡ time_parts at clock }
    ensures more { got_more result ≡ more }
{
    found_parts(at, clock.seconds.next, time_of(clock), more)
}

// The same, by what stands where S was tried.
fn time_parts(at: usize, clock: ClockParts, last: Result<Item, Miss>) -> Found<DurationTimeParts>
    ensures found { got_found result ≡ unless_too_big last (time_parts at clock) }
    ensures more { got_more result ≡ is_cut last }
{
    match last {
        Ok(_) => some_time(at, clock, false),
        Err(Miss::Stopped(too_big)) => Err(Miss::Stopped(too_big)),
        Err(miss) => some_time(at, clock, miss.is_cut()),
    }
}

// [H][M][S], where it is known what stands at the place
fn duration_base_time(s: &[u8], at: usize, item: Result<Item, Miss>) -> Found<DurationTimeParts>
    requires { item ≡ item_at s.now at }
    ensures { Says duration_base_time s.now at (got_found result) (got_more result) }
{
    let hours = parts::duration_part(s, at, b'H', item);
    let minutes = parts::duration_part(s, hours.part.next, b'M', hours.item);
    let seconds = parts::duration_part(s, minutes.part.next, b'S', minutes.item);
    let clock = ClockParts {
        hours: hours.part,
        minutes: minutes.part,
        seconds: seconds.part,
    };
    time_parts(at, clock, minutes.item)
}

// What stands where a time starts, by what stands where its `T` may.
fn time_item(s: &[u8], at: usize, item: Result<Item, Miss>, from: usize) -> Result<Item, Miss>
    requires { item ≡ item_at s.now at }
    ensures { result ≡ item_at s.now from }
{
    if from == at {
        item
    } else {
        parts::duration_item(s, from)
    }
}

// [T][H][M][S]: parses time portion of a duration
fn duration_time(s: &[u8], at: usize, item: Result<Item, Miss>) -> Found<DurationTimeParts>
    requires { item ≡ item_at s.now at }
    ensures { Says duration_time s.now at (got_found result) (got_more result) }
{
    let from = parser::past(s, at, b'T');
    duration_base_time(s, from, time_item(s, at, item, from))
}

// The record of the parts; an absent one is 0.
fn record_of(date: DateParts, time: DurationTimeParts) -> Duration
    ensures { result ≡ record_of date time }
{
    Duration {
        years: date.years.value,
        months: date.months.value,
        weeks: date.weeks.value,
        days: date.days.value,
        hours: time.hours,
        minutes: time.minutes,
        seconds: time.seconds,
    }
}

// What the parts Y, M, W and D from a place on make without a time.
fn date_parts(at: usize, date: DateParts, more: bool) -> Found<Duration>
    ensures found { got_found result ≡ all_parts at date no }
    ensures more { got_more result ≡ more }
{
    let time = DurationTimeParts {
        hours: 0,
        minutes: 0,
        seconds: 0,
    };
    found_parts(at, date.days.next, record_of(date, time), more)
}

// What the parts Y, M, W and D from a place on make with what was found of a time behind them.
fn all_parts(at: usize, date: DateParts, time: Found<DurationTimeParts>) -> Found<Duration>
    ensures found { got_found result ≡ all_parts at date (got_found time) }
    ensures more { got_more result ≡ got_more time }
{
    match time {
        Ok(time) => Ok(Got {
            value: record_of(date, time.value),
            next: time.next,
            more: time.more,
        }),
        Err(Miss::Stopped(why)) => Err(Miss::Stopped(why)),
        Err(miss) => date_parts(at, date, miss.is_cut()),
    }
}

// [Y][M][W][D][[T][H][M][S]], with runs of any length
fn long_parts(s: &[u8], at: usize) -> Found<Duration>
    ensures { Says behind_p s.now at (got_found result) (got_more result) }
{
    let years = parts::duration_part(s, at, b'Y', parts::duration_item(s, at));
    let months = parts::duration_part(s, years.part.next, b'M', years.item);
    let weeks = parts::duration_part(s, months.part.next, b'W', months.item);
    let days = parts::duration_part(s, weeks.part.next, b'D', weeks.item);
    let date = DateParts {
        years: years.part,
        months: months.part,
        weeks: weeks.part,
        days: days.part,
    };
    all_parts(at, date, duration_time(s, days.part.next, days.item))
}

// A look at a place tells of the part there in one number: the second byte, where that is no digit (the first may be none either); 256 more
// than the third, behind two digits; LONG, where three digits stand; NONE, where no part does, or not yet.
// Kept: numbers and no enum, since a part then compares its letter with the look at once; the bar is 200 instructions for `P1Y2M3DT4H5M6S`.
const LONG: u32 = 512;

const NONE: u32 = 513;

// A part that was tried by a look, and the look at the place after it.
#[derive(Clone, Copy)]
struct Looked {
    part: Part,
    look: u32,
}

// The look where the second byte may be a digit.
fn later_look(s: &[u8], at: usize) -> u32
    requires { (at + 2 ≤ length s.now) × (slice_index s.now (at + 1) ≤ 57) }
    ensures { Looks s.now at result }
{
    if !s[at].is_ascii_digit() {
        return NONE;
    }
    let second = s[at + 1];
    if second < b'0' {
        return u32::from(second);
    }
    if s.len() - 2 <= at {
        return NONE;
    }
    let third = s[at + 2];
    if !third.is_ascii_digit() {
        return u32::from(third) + 256;
    }
    LONG
}

// The look at a place of an input that has two bytes or more.
fn look_at(s: &[u8], at: usize) -> u32
    requires { 2 ≤ length s.now }
    ensures { Looks s.now at result }
{
    if s.len() - 2 < at {
        return NONE;
    }
    let second = s[at + 1];
    if b'9' < second {
        return u32::from(second);
    }
    later_look(s, at)
}

// The same of any input.
fn first_look(s: &[u8], at: usize) -> u32
    ensures { Looks s.now at result }
{
    if s.len() < 2 {
        return NONE;
    }
    look_at(s, at)
}

// The part of a letter, by the look at its place.
fn short_part(s: &[u8], at: usize, letter: u8, look: u32) -> Looked
    requires { Looks s.now at look }
    ensures { Short s.now at letter look result }
{
    let letter = u32::from(letter);
    if look == letter {
        // what is below `0` wraps, so that one compare tells a digit
        let digit = u64::from(s[at]).wrapping_sub(48);
        if digit <= 9 {
            let next = at + 2;
            return Looked {
                part: Part { value: digit, next },
                look: look_at(s, next),
            };
        }
    } else if look == letter + 256 {
        let value = u64::from(s[at]) * 10 + u64::from(s[at + 1]) - 528; // 528 at `00`
        let next = at + 3;
        return Looked {
            part: Part { value, next },
            look: look_at(s, next),
        };
    }
    Looked {
        part: Part { value: 0, next: at },
        look,
    }
}

// Where a time starts, behind its `T` if there is one, and the look there.
#[derive(Clone, Copy)]
struct Start {
    next: usize,
    look: u32,
}

fn time_start(s: &[u8], at: usize, look: u32) -> Start
    requires { Looks s.now at look }
    ensures { Starts s.now at look result }
{
    if at < s.len() && s[at] == b'T' {
        let next = at + 1;
        return Start {
            next,
            look: first_look(s, next),
        };
    }
    Start { next: at, look }
}

// Whether the input ended where a part could still be written, by the look there.
fn is_open(s: &[u8], at: usize, look: u32) -> bool
    requires { (Looks s.now at look) × (look ≢ long_run) }
    ensures { result ≡ is_cut (item_at s.now at) }
{
    if look != NONE {
        return false;
    }
    let Some(byte) = s.get(at) else {
        return true;
    };
    byte.is_ascii_digit()
}

// What Y, M, W and D make with the time behind them, by the look there.
fn with_time(s: &[u8], at: usize, date: DateParts, look: u32) -> Found<Duration>
    requires { (Looks s.now date.days.next look) × ((look ≢ long_run) → DateAt s.now at date) }
    ensures { Says behind_p s.now at (got_found result) (got_more result) }
{
    let start = time_start(s, date.days.next, look);
    // no part of a time: the same as below, sooner
    if start.look == NONE {
        return date_parts(at, date, is_open(s, start.next, NONE));
    }
    let hours = short_part(s, start.next, b'H', start.look);
    let minutes = short_part(s, hours.part.next, b'M', hours.look);
    let seconds = short_part(s, minutes.part.next, b'S', minutes.look);
    let clock = ClockParts {
        hours: hours.part,
        minutes: minutes.part,
        seconds: seconds.part,
    };
    // with S: likewise
    if minutes.part.next < seconds.part.next {
        return Ok(Got {
            value: record_of(date, time_of(clock)),
            next: seconds.part.next,
            more: false,
        });
    }
    if minutes.look == LONG {
        return long_parts(s, at);
    }
    let more = is_open(s, minutes.part.next, minutes.look);
    all_parts(at, date, some_time(start.next, clock, more))
}

// [Y][M][W][D][[T][H][M][S]]
fn duration_parts(s: &[u8], at: usize) -> Found<Duration>
    ensures { Says behind_p s.now at (got_found result) (got_more result) }
{
    let years = short_part(s, at, b'Y', first_look(s, at));
    let months = short_part(s, years.part.next, b'M', years.look);
    let weeks = short_part(s, months.part.next, b'W', months.look);
    let days = short_part(s, weeks.part.next, b'D', weeks.look);
    let date = DateParts {
        years: years.part,
        months: months.part,
        weeks: weeks.part,
        days: days.part,
    };
    with_time(s, at, date, days.look)
}

// P[Y][M][W][D][[T][H][M][S]]
pub fn duration_at(s: &[u8], at: usize) -> Found<Duration>
    ensures { Says duration s.now at (got_found result) (got_more result) }
{
    let next = parser::literal(s, at, b'P')?;
    duration_parts(s, next)
}
