// What is read at one go: digits at fixed places, looked at before the rule is asked. A look knows no rule. It says what it saw as
// an equation of the bytes, and the kind proves that the rule reads the same there (`proofs/plain/Laws.antt` in each).
#![tactic(auto)]

ghost use Rattle.std.specs.Prelude.{◌≡◌, ◌≤◌};
ghost use Rattle.looks.specs.Digits.{two_digits};
ghost use Rattle.looks.specs.Date.{plain_date};
ghost use Rattle.looks.specs.Clock.{plain_clock, plain_millisecond};
ghost use Rattle.looks.specs.Offset.{plain_shift, plain_signed, plain_offset};

use types::{Date, Offset};

// The number of two digits, from `lo` to `hi`. `both` is 528 at `00` and 627 at `99`, and where the second byte is a digit, it lies
// between these only if the first is one too.
#[tactic(auto, unfolding(crate::specs::Digits::two_digits))]
pub fn two_digits(a: u8, b: u8, lo: u32, hi: u32) -> Option<u32>
    ensures { result ≡ two_digits a b lo hi }
{
    if b < b'0' || b'9' < b {
        return None;
    }
    let both = (a as u64) * 10 + (b as u64);
    if both < (lo as u64) + 528 || (hi as u64) + 528 < both || 627 < both {
        return None;
    }
    Some((both - 528) as u32)
}

// YYYY-MM-DD at the very beginning, its digits read at one go.
#[tactic(auto, unfolding(crate::specs::Date::plain_date))]
#[inline(always)]
pub fn plain_date(s: &[u8]) -> Option<Date>
    ensures { result ≡ plain_date s.now }
{
    if s.len() < 10 || s[4] != b'-' || s[7] != b'-' {
        return None;
    }
    let century = two_digits(s[0], s[1], 1, 99)?;
    let rest = two_digits(s[2], s[3], 0, 99)?;
    let month = two_digits(s[5], s[6], 1, 12)?;
    let day = two_digits(s[8], s[9], 1, 31)?;
    Some(Date::YMD {
        year: types::with_sign(false, (century * 100 + rest) as u16),
        month,
        day,
    })
}

// A clock of the plain form.
#[derive(Clone, Copy)]
pub struct PlainClock {
    pub hour: u32,
    pub minute: u32,
    pub second: u32,
}

// HH:MM:SS, its digits read at one go
#[tactic(auto, unfolding(crate::specs::Clock::plain_clock))]
pub fn plain_clock(s: &[u8], at: usize) -> Option<PlainClock>
    ensures { result ≡ plain_clock s.now at }
{
    if s.len() < 8 || s.len() - 8 < at || s[at + 2] != b':' || s[at + 5] != b':' {
        return None;
    }
    let hour = two_digits(s[at], s[at + 1], 0, 23)?;
    let minute = two_digits(s[at + 3], s[at + 4], 0, 59)?;
    let second = two_digits(s[at + 6], s[at + 7], 0, 60)?;
    Some(PlainClock {
        hour,
        minute,
        second,
    })
}

// .mmm; a fourth digit is for whoever reads on to see
#[tactic(auto, unfolding(crate::specs::Clock::plain_millisecond))]
pub fn plain_millisecond(s: &[u8], at: usize) -> Option<u32>
    ensures { result ≡ plain_millisecond s.now at }
{
    if s.len() < 4 || s.len() - 4 < at || s[at] != b'.' {
        return None;
    }
    let tenths = two_digits(b'0', s[at + 1], 0, 9)?;
    let rest = two_digits(s[at + 2], s[at + 3], 0, 99)?;
    Some(tenths * 100 + rest)
}

// What stands at a place where an offset may: the end of the input, an offset of a plain form, or something for the rule to tell.
#[derive(Clone, Copy)]
pub enum PlainOffset {
    End,
    Got { value: Offset, next: usize },
    Other,
}

// The offset of a sign, an hour and a minute. Minus zero is left to the rule.
#[inline(always)]
fn plain_shift(minus: bool, hour: u32, minute: u32, next: usize) -> PlainOffset
    requires { (hour ≤ 255) × (minute ≤ 255) }
    ensures { result ≡ plain_shift minus hour minute next }
{
    if minus && hour == 0 && minute == 0 {
        return PlainOffset::Other;
    }
    PlainOffset::Got {
        value: Offset {
            hours: types::with_sign(minus, hour as u16),
            minutes: types::with_sign(minus, minute as u16),
        },
        next,
    }
}

// HH:MM after the sign at `at`, the digits read at one go
#[tactic(auto, unfolding(crate::specs::Offset::plain_signed))]
#[inline(always)]
fn plain_signed(s: &[u8], at: usize, minus: bool) -> PlainOffset
    ensures { result ≡ plain_signed minus s.now at }
{
    if s.len() < 6 || s.len() - 6 < at || s[at + 3] != b':' {
        return PlainOffset::Other;
    }
    let hour = two_digits(s[at + 1], s[at + 2], 0, 23);
    let minute = two_digits(s[at + 4], s[at + 5], 0, 59);
    match (hour, minute) {
        (Some(hour), Some(minute)) => plain_shift(minus, hour, minute, at + 6),
        _ => PlainOffset::Other,
    }
}

// Z or (+|-)HH:MM
#[tactic(auto, unfolding(crate::specs::Offset::plain_offset))]
#[inline(always)]
pub fn plain_offset(s: &[u8], at: usize) -> PlainOffset
    ensures { result ≡ plain_offset s.now at }
{
    if s.len() <= at {
        return PlainOffset::End;
    }
    match s[at] {
        b'+' => plain_signed(s, at, false),
        b'-' => plain_signed(s, at, true),
        b'Z' => PlainOffset::Got {
            value: Offset::ZERO,
            next: at + 1,
        },
        _ => PlainOffset::Other,
    }
}
