// The moment of a date-time, and how far two are apart. Seconds are counted from far back, so that none is negative before two are subtracted.
#![tactic(auto)]

ghost use Rattle.std.specs.Prelude.{◌≡◌, ◌<◌, pos, ◌+ℤ◌, ◌-ℤ◌};
ghost use Rattle.types.specs.Sums.{minutes_in_all};
ghost use Rattle.calendar.specs.Far.{far_day};
ghost use Rattle.moments.specs.Moments.{seconds_of, moment_of, Exactly, Between, fault_number, apart_number};
ghost use Rattle.moments.specs.Far.{far_second, counted, Near, InstantOf};

use types::{DateTime, Offset, Refusal, Time};

// Why there is no moment: the text is no date-time; its month or year lacks the day; it has no offset.
#[derive(Clone, Copy)]
pub enum Fault {
    Text(Refusal),
    NoDay,
    NoOffset,
}

// How far the second lies behind the first: so many seconds, below zero where it lies before it, and 0 to 999,999,999 nanoseconds more.
#[derive(Clone, Copy)]
pub struct Apart {
    pub seconds: i64,
    pub nanoseconds: u32,
}

// Which of the two has no moment, and why.
#[derive(Clone, Copy)]
pub enum Faulty {
    First(Fault),
    Second(Fault),
}

// A moment, counted from far back.
#[derive(Clone, Copy)]
struct Instant {
    seconds: u64,
    nanosecond: u32,
}

// More minutes than any offset has, and the seconds of twice as many.
const MINUTES: i64 = 1000000000000;

const AHEAD: u64 = 120000000000000;

// As many nanoseconds as make each difference of two positive.
const FIVE_SECONDS: u64 = 5000000000;

const SECOND: u64 = 1000000000;

// The minutes of an offset, counted from far below zero.
fn minutes_up(o: Offset) -> u64
    ensures { (pos result ≡ minutes_in_all o +ℤ pos 1000000000000) × (result < 2000000000000) }
{
    let up = o.minutes_in_all() + MINUTES;
    up as u64
}

// The seconds of a time at an offset, on a day.
#[tactic(auto, using(crate::proofs::Laws::seconds_from))]
fn seconds_at(day: u64, t: Time, o: Offset) -> u64
    requires { day < 1700000000000 }
    ensures { (seconds_of (pos day -ℤ pos far_day) t o ≡ counted result) × (result < 150000000000000000) }
{
    let local = day * 86400 + (t.hour as u64) * 3600 + (t.minute as u64) * 60 + t.second as u64;
    local + AHEAD - minutes_up(o) * 60
}

fn instant_of(x: DateTime) -> Result<Instant, Fault>
    ensures { InstantOf (moment_of x) result }
{
    let day = calendar::day_of(x.date).ok_or(Fault::NoDay)?;
    let offset = x.time.offset.ok_or(Fault::NoOffset)?;
    Ok(Instant {
        seconds: seconds_at(day, x.time, offset),
        nanosecond: x.time.nanosecond,
    })
}

// The second less the first, with the nanoseconds counted up: what they are in seconds is taken off again.
fn subtract(from: Instant, to: Instant) -> Apart
    requires { Near from × Near to }
    ensures { Exactly (counted from.seconds) from.nanosecond (counted to.seconds) to.nanosecond result }
{
    let nanoseconds = to.nanosecond as u64 + FIVE_SECONDS - from.nanosecond as u64;
    let up = to.seconds + nanoseconds / SECOND;
    let down = from.seconds + 5;
    Apart {
        seconds: up as i64 - down as i64,
        nanoseconds: (nanoseconds % SECOND) as u32,
    }
}

// How far the second lies behind the first, of any two date-times.
pub fn between(first: DateTime, second: DateTime) -> Result<Apart, Faulty>
    ensures { Between (moment_of first) (moment_of second) result }
{
    let from = instant_of(first).map_err(Faulty::First)?;
    let to = instant_of(second).map_err(Faulty::Second)?;
    Ok(subtract(from, to))
}

impl Fault {
    // The paper's number.
    pub fn number(self) -> u32
        ensures { result ≡ fault_number self }
    {
        match self {
            Fault::Text(why) => why.number(),
            Fault::NoDay => 8,
            Fault::NoOffset => 9,
        }
    }
}

// 0, or the number of the refusal.
pub fn number(apart: Result<Apart, Faulty>) -> u32
    ensures { result ≡ apart_number apart }
{
    match apart {
        Ok(_) => 0,
        Err(Faulty::First(fault) | Faulty::Second(fault)) => fault.number(),
    }
}
