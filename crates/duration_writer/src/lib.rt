// The writer of durations: `P` and the parts that are not 0, with `T` before time parts; `PT0S` where all are 0.
#![tactic(auto)]

ghost use Rattle.std.specs.Prelude.{ℕ, ◌≤◌, ◌≡◌, length};
ghost use Rattle.duration.specs.Rules.{duration};
ghost use Rattle.text.specs.Text.{Puts, decimal};
ghost use Rattle.writing.specs.Spelling.{part_spelling, behind_t, date_parts, time_parts, duration_spelling};
ghost use Rattle.writing.specs.Writing.{Writes};
ghost use Rattle.duration_writer.specs.Ranges.{timeless};

use text::{put, put_byte, put_decimal};
use types::Duration;
use writing::{Unwritten, decimal_length, room_for};

// The spelling of a duration whose parts are all 0.
const ZERO: &[u8] = b"PT0S";

// The length of a part, whatever its letter: none where the number is 0, or its digits and the letter.
#[tactic(auto, unfolding(writing::specs::Spelling::part_spelling))]
fn part_length(n: u64) -> usize
    ensures size { (letter : ℕ) → result ≡ length (part_spelling n letter) }
    ensures most { result ≤ 21 }
{
    if n == 0 { 0 } else { decimal_length(n) + 1 }
}

// Puts a number's decimal digits. Most numbers have one digit, and these go by themselves.
#[tactic(auto, using(writing::proofs::Digits::one_digit))]
fn put_number(out: &mut [u8], at: usize, n: u64) -> usize
    ensures { Puts (decimal n) out.old at out.new result }
{
    if n < 10 {
        put_byte(out, at, b'0' + n as u8)
    } else {
        put_decimal(out, at, n)
    }
}

// Puts a part: nothing where the number is 0.
#[tactic(auto, unfolding(writing::specs::Spelling::part_spelling), using(text::proofs::Laws::puts_nothing))]
fn put_part(out: &mut [u8], at: usize, n: u64, letter: u8) -> usize
    ensures { Puts (part_spelling n letter) out.old at out.new result }
{
    if n == 0 {
        return at;
    }
    let next = put_number(out, at, n);
    put_byte(out, next, letter)
}

// No time part is there.
fn is_timeless(d: Duration) -> bool
    ensures { result ≡ timeless d }
{
    d.hours == 0 && d.minutes == 0 && d.seconds == 0
}

// The length of the date parts, and that of the time parts without their `T`.
#[tactic(auto, using(crate::proofs::Sizes::date_size))]
fn date_length(d: Duration) -> usize
    ensures size { result ≡ length (date_parts d) }
    ensures most { result ≤ 84 }
{
    part_length(d.years) + part_length(d.months) + part_length(d.weeks) + part_length(d.days)
}

#[tactic(auto, using(crate::proofs::Sizes::time_size))]
fn time_length(d: Duration) -> usize
    ensures size { result ≡ length (time_parts d) }
    ensures most { result ≤ 63 }
{
    part_length(d.hours) + part_length(d.minutes) + part_length(d.seconds)
}

// The length of the duration's spelling.
#[tactic(auto, using(crate::proofs::Sizes::duration_size))]
pub fn duration_length(d: Duration) -> usize
    ensures { result ≡ length (duration_spelling d) }
{
    if d.is_zero() {
        ZERO.len()
    } else if is_timeless(d) {
        1 + date_length(d)
    } else {
        2 + date_length(d) + time_length(d)
    }
}

// Puts the date parts.
fn put_date(out: &mut [u8], at: usize, d: Duration) -> usize
    ensures { Puts (date_parts d) out.old at out.new result }
{
    let next = put_part(out, at, d.years, b'Y');
    let next = put_part(out, next, d.months, b'M');
    let next = put_part(out, next, d.weeks, b'W');
    put_part(out, next, d.days, b'D')
}

// Puts the time parts behind their `T`, or nothing where there are none.
#[tactic(auto, using(crate::proofs::Sizes::behind_t_lem, text::proofs::Laws::puts_nothing))]
fn put_time(out: &mut [u8], at: usize, d: Duration) -> usize
    ensures { Puts (behind_t (time_parts d)) out.old at out.new result }
{
    if is_timeless(d) {
        return at;
    }
    let next = put_byte(out, at, b'T');
    let next = put_part(out, next, d.hours, b'H');
    let next = put_part(out, next, d.minutes, b'M');
    put_part(out, next, d.seconds, b'S')
}

// Puts the duration's spelling.
#[tactic(auto, unfolding(writing::specs::Spelling::duration_spelling))]
pub fn put_duration(out: &mut [u8], at: usize, d: Duration) -> usize
    ensures { Puts (duration_spelling d) out.old at out.new result }
{
    if d.is_zero() {
        return put(out, at, ZERO);
    }
    let next = put_byte(out, at, b'P');
    let next = put_date(out, next, d);
    put_time(out, next, d)
}

// Writes the duration's spelling to the front of the buffer. Some reader gives every duration, so that only a short buffer is refused.
pub fn write_duration(d: Duration, buffer: &mut [u8]) -> Result<usize, Unwritten>
    ensures { Writes duration d (duration_spelling d) buffer.old buffer.new result }
{
    let count = room_for(Some(duration_length(d)), buffer)?;
    put_duration(buffer, 0, d);
    Ok(count)
}
