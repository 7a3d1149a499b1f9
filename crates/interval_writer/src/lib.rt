// The writer of intervals: how often one repeats, and its sides with `/` between them.
#![tactic(auto)]

ghost use Rattle.std.specs.Prelude.{◌≤◌, true, ◌≡◌, length};
ghost use Rattle.types.specs.declared.Choices.{Choices};
ghost use Rattle.interval.specs.Once.{interval};
ghost use Rattle.text.specs.Text.{Puts};
ghost use Rattle.writing.specs.Spelling.{repetitions_spelling, range_spelling, interval_spelling};
ghost use Rattle.writing.specs.Writing.{measure, Measures, Writes};
ghost use Rattle.interval_writer.specs.Ranges.{repetitions_given, range_given};
ghost use Rattle.interval_writer.specs.Sides.{side_given, side_spelling, sides_given, sides_spelling};

use datetime_writer::{datetime_length, put_datetime};
use duration_writer::{duration_length, put_duration};
use text::{put, put_byte, put_decimal};
use types::{Choices, DateTime, Duration, Interval, IntervalRange, Repetitions};
use writing::{Unwritten, decimal_length, room_for};

// A side of an interval.
#[derive(Clone, Copy)]
enum Side {
    Stamp(DateTime),
    Span(Duration),
}

// The sides of a range: one, or two with `/` between them.
#[tactic(auto, unfolding(crate::specs::Ranges::range_given, writing::specs::Spelling::range_spelling))]
fn sides_of(range: IntervalRange) -> (Side, Option<Side>)
    ensures given { (c : Choices) → sides_given c result.0 result.1 ≡ range_given c range }
    ensures spelled { sides_spelling result.0 result.1 ≡ range_spelling range }
{
    match range {
        IntervalRange::Closed { start, end } => (Side::Stamp(start), Some(Side::Stamp(end))),
        IntervalRange::ClosedEnd { duration, end } => (
            Side::Span(duration),
            Some(Side::Stamp(end)),
        ),
        IntervalRange::ClosedStart { start, duration } => (
            Side::Stamp(start),
            Some(Side::Span(duration)),
        ),
        IntervalRange::Open { duration } => (Side::Span(duration), None),
    }
}

// The length of what says how often. Some reader gives every number of 32 bits.
#[tactic(auto, unfolding(crate::specs::Ranges::repetitions_given, writing::specs::Spelling::repetitions_spelling), using(crate::proofs::Lengths::times_size))]
fn repetitions_length(r: Repetitions) -> usize
    ensures size { result ≡ length (repetitions_spelling r) }
    ensures given { repetitions_given r ≡ true }
{
    match r {
        Repetitions::Once => 0,
        Repetitions::Unlimited => 2,
        Repetitions::Times(times) => decimal_length(times as u64) + 2,
    }
}

// The length of a side's spelling, where some reader gives the side.
fn side_length(side: Side, choices: Choices) -> Option<usize>
    ensures { result ≡ measure (side_given choices side) (length (side_spelling side)) }
{
    match side {
        Side::Stamp(x) => datetime_length(x, choices),
        Side::Span(d) => Some(duration_length(d)),
    }
}

// That of a range, where some reader gives all its sides.
#[tactic(auto, using(crate::proofs::Lengths::side_measured))]
fn range_length(range: IntervalRange, choices: Choices) -> Option<usize>
    ensures { result ≡ measure (range_given choices range) (length (range_spelling range)) }
{
    let (first, second) = sides_of(range);
    let front = side_length(first, choices)?;
    match second {
        None => Some(front),
        Some(second) => Some(front + 1 + side_length(second, choices)?),
    }
}

// The length of the interval's spelling, where some reader gives the interval.
#[tactic(auto, using(crate::proofs::Laws::no_range_measures, crate::proofs::Laws::parts_measure, crate::proofs::Lengths::repetitions_most, crate::proofs::Lengths::range_measured))]
pub fn interval_length(x: Interval, choices: Choices) -> Option<usize>
    ensures { Measures (interval choices) x (interval_spelling x) result }
{
    let front = repetitions_length(x.repetitions);
    let behind = range_length(x.range, choices)?;
    Some(front + behind)
}

// Puts how often: nothing for once.
#[tactic(auto, unfolding(writing::specs::Spelling::repetitions_spelling), using(text::proofs::Laws::puts_nothing))]
fn put_repetitions(out: &mut [u8], at: usize, r: Repetitions) -> usize
    ensures { Puts (repetitions_spelling r) out.old at out.new result }
{
    match r {
        Repetitions::Once => at,
        Repetitions::Unlimited => put(out, at, b"R/"),
        Repetitions::Times(times) => {
            let letter = put_byte(out, at, b'R');
            let digits = put_decimal(out, letter, times as u64);
            put_byte(out, digits, b'/')
        }
    }
}

// Puts a side: the writer of date-times is lent what lies behind the place.
fn put_side(out: &mut [u8], at: usize, side: Side) -> usize
    requires { at ≤ length out.old }
    ensures { Puts (side_spelling side) out.old at out.new result }
{
    match side {
        Side::Stamp(x) => at + put_datetime(&mut out[at..], x),
        Side::Span(d) => put_duration(out, at, d),
    }
}

// Puts all sides of a range.
fn put_range(out: &mut [u8], at: usize, range: IntervalRange) -> usize
    requires { at ≤ length out.old }
    ensures { Puts (range_spelling range) out.old at out.new result }
{
    let (first, second) = sides_of(range);
    let next = put_side(out, at, first);
    match second {
        None => next,
        Some(second) => {
            let next = put_byte(out, next, b'/');
            put_side(out, next, second)
        }
    }
}

// Puts the interval's spelling at the front.
fn put_interval(out: &mut [u8], x: Interval) -> usize
    ensures { Puts (interval_spelling x) out.old 0 out.new result }
{
    let next = put_repetitions(out, 0, x.repetitions);
    put_range(out, next, x.range)
}

// Writes the interval's spelling to the front of the buffer, for the edition that the caller names.
pub fn write_interval(x: Interval, choices: Choices, buffer: &mut [u8]) -> Result<usize, Unwritten>
    ensures { Writes (interval choices) x (interval_spelling x) buffer.old buffer.new result }
{
    let count = room_for(interval_length(x, choices), buffer)?;
    put_interval(buffer, x);
    Ok(count)
}
