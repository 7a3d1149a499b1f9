// The writer of times: `HH:MM:SS`, the digits of the fraction that were written, and the offset.
#![tactic(auto)]

ghost use Rattle.std.specs.Prelude.{ℕ, ◌-◌, ◌/◌, ◌^◌, ◌≤◌, ◌≡◌, length};
ghost use Rattle.parser.specs.Digits.{up_to_nine};
ghost use Rattle.time.specs.Rules.{time};
ghost use Rattle.text.specs.Text.{Puts};
ghost use Rattle.writing.specs.Spelling.{padded, clock_spelling, fraction_spelling, time_offset_spelling, time_spelling};
ghost use Rattle.writing.specs.Writing.{measure, Measures, Writes};
ghost use Rattle.time_writer.specs.Ranges.{time_offset_given, fraction_given, behind_given, clock_given};

use offset_writer::{offset_length, put_offset};
use text::put_byte;
use types::{Choices, Edition, Offset, Time};
use writing::{Unwritten, last_digit, put_three, put_two, room_for};

// Puts the first digits of nine.
#[tactic(auto, using(text::proofs::Laws::puts_append, text::proofs::Laws::puts_nothing, crate::proofs::Nine::digits_turn, crate::proofs::Nine::tenth, crate::proofs::Nine::a_digit), unfolding(writing::specs::Spelling::padded))]
fn put_digits(out: &mut [u8], at: usize, nanosecond: u32, width: usize) -> usize
    requires { width ≤ 9 }
    ensures { Puts (padded width (nanosecond / 10 ^ (9 - width))) out.old at out.new result }
{
    let mut next = at;
    let mut unit = 1000000000;
    for _ in 0..width {
        unit /= 10;
        next = put_byte(out, next, last_digit(nanosecond / unit));
    }
    next
}

// So many of nine digits; more are all of them.
fn width(digits: u32) -> usize
    ensures { result ≡ up_to_nine digits }
{
    runs::digits_stored(digits as usize) as usize
}

// Puts a point and so many digits, nothing where there are none.
#[tactic(auto, using(text::proofs::Laws::puts_append, crate::proofs::Nine::first_of_nine), unfolding(text::specs::Text::puts, writing::specs::Spelling::fraction_spelling))]
fn put_fraction(out: &mut [u8], at: usize, digits: u32, nanosecond: u32) -> usize
    ensures { Puts (fraction_spelling digits nanosecond) out.old at out.new result }
{
    if digits == 0 {
        return at;
    }
    let next = put_byte(out, at, b'.');
    if digits == 3 {
        return put_three(out, next, nanosecond / 1000000);
    }
    put_digits(out, next, nanosecond, width(digits))
}

// The length of that, whatever the digits are.
#[tactic(auto, using(crate::proofs::Lengths::fraction_none, crate::proofs::Lengths::fraction_some, crate::proofs::Nine::nine_most))]
fn fraction_length(digits: u32) -> usize
    ensures size { (n : ℕ) → result ≡ length (fraction_spelling digits n) }
    ensures most { result ≤ 10 }
{
    if 0 < digits { width(digits) + 1 } else { 0 }
}

// HH:MM:SS
#[tactic(auto, using(text::proofs::Laws::puts_append), unfolding(text::specs::Text::puts, writing::specs::Spelling::clock_spelling))]
fn put_clock(out: &mut [u8], at: usize, hour: u32, minute: u32, second: u32) -> usize
    ensures { Puts (clock_spelling hour minute second) out.old at out.new result }
{
    let next = put_two(out, at, hour);
    let next = put_byte(out, next, b':');
    let next = put_two(out, next, minute);
    let next = put_byte(out, next, b':');
    put_two(out, next, second)
}

// Nothing where the offset is absent.
#[tactic(auto, using(text::proofs::Laws::puts_nothing), unfolding(writing::specs::Spelling::time_offset_spelling))]
fn put_time_offset(out: &mut [u8], at: usize, o: Option<Offset>) -> usize
    ensures { Puts (time_offset_spelling o) out.old at out.new result }
{
    match o {
        None => at,
        Some(offset) => put_offset(out, at, offset),
    }
}

// Puts the time's spelling at the front.
#[tactic(auto, using(text::proofs::Laws::puts_append), unfolding(text::specs::Text::puts, writing::specs::Spelling::time_spelling))]
pub fn put_time(out: &mut [u8], t: Time) -> usize
    ensures { Puts (time_spelling t) out.old 0 out.new result }
{
    let next = put_clock(out, 0, t.hour, t.minute, t.second);
    let next = put_fraction(out, next, t.digits, t.nanosecond);
    put_time_offset(out, next, t.offset)
}

// The length of an offset's spelling, 0 where it is absent.
#[tactic(auto, using(crate::proofs::Lengths::offset_measured), unfolding(crate::specs::Ranges::time_offset_given, writing::specs::Spelling::time_offset_spelling))]
fn time_offset_length(o: Option<Offset>) -> Option<usize>
    ensures { result ≡ measure (time_offset_given o) (length (time_offset_spelling o)) }
{
    match o {
        None => Some(0),
        Some(offset) => offset_length(offset),
    }
}

// Whether a nanosecond fits so many digits, at most nine: it has only zeros behind them.
#[tactic(auto, using(crate::proofs::Nine::unit_some), unfolding(crate::specs::Ranges::fraction_given))]
fn fraction_given(digits: u32, nanosecond: u32) -> bool
    ensures { result ≡ fraction_given digits nanosecond }
{
    digits <= 9 && nanosecond % runs::unit(digits as usize) == 0
}

// Whether the fields between the hour and the offset are at most these, and the fraction fits its digits.
fn behind_given(t: Time, minute: u32, second: u32, nanosecond: u32) -> bool
    ensures { result ≡ behind_given minute second nanosecond t }
{
    t.minute <= minute
        && t.second <= second
        && t.nanosecond <= nanosecond
        && fraction_given(t.digits, t.nanosecond)
}

// Whether the fields but the offset lie in their ranges. Hour 24 ends the day: only 2004 has it, and minute, second and
// nanosecond behind it are 0.
#[tactic(auto, using(crate::proofs::Within::in_day, crate::proofs::Within::end_of_day, crate::proofs::Within::past_last))]
fn clock_given(t: Time, choices: Choices) -> bool
    ensures { result ≡ clock_given choices.edition t }
{
    if t.hour < 24 {
        return behind_given(t, 59, 60, 999999999);
    }
    match choices.edition {
        Edition::E2004 => t.hour == 24 && behind_given(t, 0, 0, 0),
        Edition::E2019 => false,
    }
}

// The length of the time's spelling, where some reader gives the time.
#[tactic(auto, using(crate::proofs::Laws::no_clock_measures, crate::proofs::Laws::no_offset_measures, crate::proofs::Laws::parts_measure, crate::proofs::Lengths::zone_most))]
pub fn time_length(t: Time, choices: Choices) -> Option<usize>
    ensures { Measures (time choices) t (time_spelling t) result }
{
    if !clock_given(t, choices) {
        return None;
    }
    let offset = time_offset_length(t.offset)?;
    Some(8 + fraction_length(t.digits) + offset)
}

// Writes the time's spelling to the front of the buffer, for the edition that the caller names.
#[tactic(auto, using(writing::proofs::Laws::refused_writes))]
pub fn write_time(t: Time, choices: Choices, buffer: &mut [u8]) -> Result<usize, Unwritten>
    ensures { Writes (time choices) t (time_spelling t) buffer.old buffer.new result }
{
    let count = room_for(time_length(t, choices), buffer)?;
    put_time(buffer, t);
    Ok(count)
}
