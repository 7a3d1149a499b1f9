// Times of a plain form: a clock, its milliseconds or none, and what stands behind them.
ghost use Rattle.std.specs.Prelude.{◌≡◌, ◌+◌};
ghost use Rattle.parser.specs.Reading.{Says};
ghost use Rattle.parser.specs.Read.{got_found, got_more};
ghost use Rattle.looks.specs.Clock.{plain_millisecond};
ghost use Rattle.time.specs.Rules.{time};
ghost use Rattle.time.specs.Plain.{plain_time, with_millisecond, plain_at};

use crate::{Clock, time_at};
use looks::{PlainClock, PlainOffset};
use parser::{Found, Got};
use types::{Choices, Fraction, Time};

// A clock and its fraction, with what stands behind them at `at`: the end of the input, or an offset.
#[inline(always)]
fn plain_time(s: &[u8], at: usize, hands: PlainClock, fraction: Fraction) -> Option<Got<Time>>
    ensures { result ≡ plain_time s.now at hands fraction }
{
    let clock = Clock {
        minute: hands.minute,
        second: hands.second,
        fraction,
    };
    match looks::plain_offset(s, at) {
        PlainOffset::End => Some(Got {
            value: clock.time_of(hands.hour, None),
            next: at,
            more: true,
        }),
        PlainOffset::Got { value, next } => Some(Got {
            value: clock.time_of(hands.hour, Some(value)),
            next,
            more: false,
        }),
        PlainOffset::Other => None,
    }
}

// A clock with the milliseconds at `at`.
#[tactic(auto, using(crate::proofs::plain::Laws::millisecond_room, crate::proofs::plain::Laws::millisecond_small))]
#[inline(always)]
fn with_millisecond(s: &[u8], at: usize, hands: PlainClock) -> Option<Got<Time>>
    ensures { result ≡ with_millisecond s.now (at + 4) hands (plain_millisecond s.now at) }
{
    let millisecond = looks::plain_millisecond(s, at)?;
    let fraction = Fraction {
        nanosecond: millisecond * 1_000_000,
        digits: 3,
    };
    plain_time(s, at + 4, hands, fraction)
}

// A time of the plain form HH:MM:SS.mmm or HH:MM:SS, alone or with an offset.
#[tactic(auto, using(crate::proofs::plain::Laws::clock_room))]
#[inline(always)]
pub fn plain_at(s: &[u8], at: usize) -> Option<Got<Time>>
    ensures { result ≡ plain_at s.now at }
{
    let hands = looks::plain_clock(s, at)?;
    match with_millisecond(s, at + 8, hands) {
        Some(exact) => Some(exact),
        None => plain_time(s, at + 8, hands, Fraction::NONE),
    }
}

// A time at the very beginning. The plain forms are tried before the rule.
#[inline(always)]
pub fn time_begun(s: &[u8], choices: Choices) -> Found<Time>
    ensures { Says (time choices) s.now 0 (got_found result) (got_more result) }
{
    match plain_at(s, 0) {
        Some(read) => Ok(read),
        None => time_at(s, 0, choices),
    }
}
