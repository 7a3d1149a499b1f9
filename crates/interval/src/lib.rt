// Intervals (interval.rs), by request W12: a repeat that may be absent, and date-times and durations, two with a `/` between them or a
// duration alone. A date-time that stands first in two alternatives is read once, and so is a duration.
#![tactic(auto)]

ghost use Rattle.std.specs.Prelude.{true, false, not, ◌≡◌};
ghost use Rattle.parser.specs.Reading.{Says, SaysOn, lit, seq, map, and, no, stop};
ghost use Rattle.parser.specs.Read.{exact_found, exact_more, got_found, got_more};
ghost use Rattle.types.specs.declared.IntervalRange.TheVariants as range;
ghost use Rattle.datetime.specs.Rules.{date_time};
ghost use Rattle.duration.specs.Rules.{duration};
ghost use Rattle.interval.specs.Rules.{digits_and_slash, repeated, no_form_fails, stamp, interval_of};
ghost use Rattle.interval.specs.Followed.{not_zero, held_at, held_by};
ghost use Rattle.interval.specs.Once.{after_start, stamp_first, after_duration, duration_first, range_once, interval};

use parser::{Exact, Found, Got, Miss};
use types::{Choices, DateTime, Duration, Interval, IntervalRange, Refusal, Repetitions};

// The largest number of times.
const MOST: u64 = 4294967295;

// The `/` behind an `R` and its digits.
fn repeat_end(s: &[u8], at: usize, value: Repetitions) -> Result<Exact<Repetitions>, Miss>
    ensures { Says (map (λ _. value) (lit 47)) s.now at (exact_found result) (exact_more result) }
{
    let next = parser::literal(s, at, b'/')?;
    Ok(Exact { value, next })
}

// [digits]/
fn repeat_digits(s: &[u8], at: usize) -> Result<Exact<Repetitions>, Miss>
    ensures { Says digits_and_slash s.now at (exact_found result) (exact_more result) }
{
    match runs::take_digits(s, at) {
        Ok(run) if run.value <= MOST => {
            let times = Repetitions::Times(run.value as u32);
            repeat_end(s, run.next, times)
        }
        Ok(_) => Err(Miss::Stopped(Refusal::TooBig)),
        Err(Miss::Wrong) => repeat_end(s, at, Repetitions::Unlimited),
        Err(miss) => Err(miss),
    }
}

// R[digits]/
fn interval_repetitions(s: &[u8], at: usize) -> Result<Exact<Repetitions>, Miss>
    ensures { Says repeated s.now at (exact_found result) (exact_more result) }
{
    let next = parser::literal(s, at, b'R')?;
    repeat_digits(s, next)
}

// Nothing here: for good, or where the input ended too early.
fn no_range(more: bool) -> Found<IntervalRange>
    ensures found { got_found result ≡ no }
    ensures more { got_more result ≡ more }
{
    Err(if more { Miss::Cut } else { Miss::Wrong })
}

// What ends the reading of a date-time as no form fails here, as any other no form does.
#[inline(always)]
fn no_form_fails(found: Found<DateTime>) -> Found<DateTime>
    ensures found { got_found result ≡ no_form_fails (got_found found) }
    ensures more { got_more result ≡ got_more found }
{
    match found {
        Err(Miss::Stopped(Refusal::NoForm)) => Err(Miss::Wrong),
        _ => found,
    }
}

// The date-time of a side. One that is no form leaves nothing open.
fn stamp_at(s: &[u8], at: usize, choices: Choices) -> Found<DateTime>
    ensures read { Says (stamp choices) s.now at (got_found result) (got_more result) }
    ensures no_form { (date_time choices).reads s.now at ≡ stop 1 → got_more result ≡ false }
{
    no_form_fails(datetime::datetime_at(s, at, choices))
}

// The date-time behind another and its `/`.
fn second_stamp(s: &[u8], at: usize, start: DateTime, choices: Choices) -> Found<IntervalRange>
    ensures { Says (map (range.Closed start) (stamp choices)) s.now at (got_found result) (got_more result) }
{
    stamp_at(s, at, choices).map(|end| Got {
        value: IntervalRange::Closed {
            start,
            end: end.value,
        },
        next: end.next,
        more: end.more,
    })
}

// The duration behind a date-time and its `/`.
fn second_duration(s: &[u8], at: usize, start: DateTime) -> Found<IntervalRange>
    ensures { Says (map (range.ClosedStart start) duration) s.now at (got_found result) (got_more result) }
{
    // a number that is too big ends the reading, though another side stands before it
    duration::duration_at(s, at).map(|length| Got {
        value: IntervalRange::ClosedStart {
            start,
            duration: length.value,
        },
        next: length.next,
        more: length.more,
    })
}

// Behind a date-time and its `/`: another, or a duration, by the first byte.
fn after_start(s: &[u8], at: usize, start: DateTime, choices: Choices) -> Found<IntervalRange>
    ensures { Says (after_start choices start) s.now at (got_found result) (got_more result) }
{
    match s.get(at) {
        Some(b'P') => second_duration(s, at, start),
        Some(_) => second_stamp(s, at, start, choices),
        None => Err(Miss::Cut),
    }
}

// A digit other than 0 stands at a place.
fn not_zero(s: &[u8], at: usize) -> bool
    ensures { result ≡ not_zero s.now at }
{
    matches!(s.get(at), Some(b'1'..=b'9'))
}

// Such a digit, or a colon and such a digit: behind the hour that ends the day nothing but what is no form can come of it.
fn is_held(s: &[u8], at: usize) -> bool
    ensures { result ≡ held_at s.now at }
{
    match s.get(at) {
        Some(b':') => not_zero(s, at + 1),
        _ => not_zero(s, at),
    }
}

// Whether a date-time that no `/` follows can still come right. `more`: it was left open.
fn goes_on(s: &[u8], at: usize, start: DateTime, more: bool) -> bool
    ensures { result ≡ and more (not (held_by s.now start at)) }
{
    let time = start.time;
    let held = time.hour == 24 && time.offset.is_none() && is_held(s, at);
    more && !held
}

// A date-time, `/`, and another or a duration.
fn stamp_first(s: &[u8], at: usize, choices: Choices) -> Found<IntervalRange>
    ensures { Says (stamp_first choices) s.now at (got_found result) (got_more result) }
{
    let start = stamp_at(s, at, choices)?;
    match parser::literal(s, start.next, b'/') {
        Ok(next) => after_start(s, next, start.value, choices),
        Err(Miss::Wrong) => no_range(goes_on(s, start.next, start.value, start.more)),
        Err(miss) => Err(miss),
    }
}

// `/` and a date-time.
fn end_at(s: &[u8], at: usize, choices: Choices) -> Found<DateTime>
    ensures { Says (seq (lit 47) (λ _. stamp choices)) s.now at (got_found result) (got_more result) }
{
    let next = parser::literal(s, at, b'/')?;
    stamp_at(s, next, choices)
}

// `/` and a date-time behind a duration, or nothing. `more`: the duration was left open, and then no `/` stands here.
fn after_duration(
    s: &[u8],
    at: usize,
    duration: Duration,
    more: bool,
    choices: Choices,
) -> Found<IntervalRange>
    requires { more ≡ true → (lit 47).reads s.now at ≡ no }
    ensures { SaysOn more (after_duration choices duration) s.now at (got_found result) (got_more result) }
{
    match end_at(s, at, choices) {
        Ok(found) => {
            let end = found.value;
            Ok(Got {
                value: IntervalRange::ClosedEnd { duration, end },
                next: found.next, // past the date-time
                more: found.more, // the date-time's: behind a / the duration is settled
            })
        }
        Err(Miss::Stopped(why)) => Err(Miss::Stopped(why)),
        Err(miss) => Ok(Got {
            value: IntervalRange::Open { duration },
            next: at,
            more: more || miss.is_cut(),
        }),
    }
}

// A duration, `/` and a date-time; or a duration alone.
fn duration_first(s: &[u8], at: usize, choices: Choices) -> Found<IntervalRange>
    ensures { Says (duration_first choices) s.now at (got_found result) (got_more result) }
{
    let length = duration::duration_at(s, at)?;
    after_duration(s, length.next, length.value, length.more, choices)
}

// The sides, by the first byte.
fn range_at(s: &[u8], at: usize, choices: Choices) -> Found<IntervalRange>
    ensures { Says (range_once choices) s.now at (got_found result) (got_more result) }
{
    match s.get(at) {
        Some(b'P') => duration_first(s, at, choices),
        Some(_) => stamp_first(s, at, choices),
        None => Err(Miss::Cut),
    }
}

// The interval of a repeat and its sides.
fn with_range(s: &[u8], at: usize, repetitions: Repetitions, choices: Choices) -> Found<Interval>
    ensures { Says (map (interval_of repetitions) (range_once choices)) s.now at (got_found result) (got_more result) }
{
    range_at(s, at, choices).map(|range| Got {
        value: Interval {
            repetitions,
            range: range.value,
        },
        next: range.next,
        more: range.more,
    })
}

// An interval from a place on.
#[inline(always)]
pub fn interval_at(s: &[u8], at: usize, choices: Choices) -> Found<Interval>
    ensures { Says (interval choices) s.now at (got_found result) (got_more result) }
{
    match interval_repetitions(s, at) {
        Ok(repeat) => with_range(s, repeat.next, repeat.value, choices),
        Err(Miss::Wrong) => with_range(s, at, Repetitions::Once, choices),
        Err(miss) => Err(miss),
    }
}
