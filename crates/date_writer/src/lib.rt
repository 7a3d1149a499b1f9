// The writer of dates: `YYYY-MM-DD`, `YYYY-Www-D` or `YYYY-DDD`, with `-` in front of a negative year.
#![tactic(auto)]

ghost use Rattle.std.specs.Prelude.{◌≡◌, length};
ghost use Rattle.parser.specs.Reading.{within};
ghost use Rattle.date.specs.Rules.{date};
ghost use Rattle.text.specs.Text.{Puts};
ghost use Rattle.writing.specs.Spelling.{padded, negative, year_sign, year_spelling, date_spelling};
ghost use Rattle.writing.specs.Writing.{Measures, Writes};
ghost use Rattle.date_writer.specs.Ranges.{year_given, date_given};

use text::put_byte;
use types::Date;
use writing::{Unwritten, last_digit, put_three, put_two, room_for};

fn within(lo: u32, hi: u32, n: u32) -> bool
    ensures { result ≡ within lo hi n }
{
    (lo..=hi).contains(&n)
}

fn year_given(year: i32) -> bool
    ensures { result ≡ year_given year }
{
    within(100, 9999, year.unsigned_abs())
}

// Whether some reader gives the date.
#[tactic(auto, unfolding(crate::specs::Ranges::date_given))]
fn date_given(d: Date) -> bool
    ensures { result ≡ date_given d }
{
    match d {
        Date::YMD { year, month, day } => {
            within(1, 12, month) && within(1, 31, day) && year_given(year)
        }
        Date::Week { year, week, day } => {
            within(1, 52, week) && within(1, 7, day) && year_given(year)
        }
        Date::Ordinal { year, day } => within(1, 366, day) && year_given(year),
    }
}

#[tactic(auto, using(crate::proofs::Lengths::year_size))]
fn year_length(year: i32) -> usize
    ensures { result ≡ length (year_spelling year) }
{
    if year < 0 { 5 } else { 4 }
}

#[tactic(auto, using(crate::proofs::Lengths::calendar_size, crate::proofs::Lengths::week_size, crate::proofs::Lengths::ordinal_size, crate::proofs::Lengths::year_short))]
fn spelled_length(d: Date) -> usize
    ensures { result ≡ length (date_spelling d) }
{
    match d {
        Date::YMD { year, .. } => year_length(year) + 6,
        Date::Week { year, .. } => year_length(year) + 6,
        Date::Ordinal { year, .. } => year_length(year) + 4,
    }
}

// The length of the date's spelling, where some reader gives the date.
#[tactic(auto, using(crate::proofs::Laws::date_measures))]
pub fn date_length(d: Date) -> Option<usize>
    ensures { Measures date d (date_spelling d) result }
{
    date_given(d).then_some(spelled_length(d))
}

// Puts a number's last four decimal digits.
#[tactic(auto, using(text::proofs::Laws::puts_append, writing::proofs::Digits::padded_four))]
fn put_four(out: &mut [u8], at: usize, n: u32) -> usize
    ensures { Puts (padded 4 n) out.old at out.new result }
{
    let next = put_two(out, at, n / 100);
    put_two(out, next, n % 100)
}

#[tactic(auto, using(text::proofs::Laws::puts_nothing))]
fn put_sign(out: &mut [u8], year: i32) -> usize
    ensures { Puts (year_sign (negative year)) out.old 0 out.new result }
{
    if year < 0 { put_byte(out, 0, b'-') } else { 0 }
}

#[tactic(auto, using(text::proofs::Laws::puts_append), unfolding(text::specs::Text::puts, writing::specs::Spelling::year_spelling))]
fn put_year(out: &mut [u8], year: i32) -> usize
    ensures { Puts (year_spelling year) out.old 0 out.new result }
{
    let next = put_sign(out, year);
    put_four(out, next, year.unsigned_abs())
}

// Puts the date's spelling at the front.
#[tactic(auto, using(text::proofs::Laws::puts_append), unfolding(text::specs::Text::puts, writing::specs::Spelling::date_spelling, writing::specs::Spelling::padded))]
pub fn put_date(out: &mut [u8], d: Date) -> usize
    ensures { Puts (date_spelling d) out.old 0 out.new result }
{
    match d {
        Date::YMD { year, month, day } => {
            let next = put_year(out, year);
            let next = put_byte(out, next, b'-');
            let next = put_two(out, next, month);
            let next = put_byte(out, next, b'-');
            put_two(out, next, day)
        }
        Date::Week { year, week, day } => {
            let next = put_year(out, year);
            let next = put_byte(out, next, b'-');
            let next = put_byte(out, next, b'W');
            let next = put_two(out, next, week);
            let next = put_byte(out, next, b'-');
            put_byte(out, next, last_digit(day))
        }
        Date::Ordinal { year, day } => {
            let next = put_year(out, year);
            let next = put_byte(out, next, b'-');
            put_three(out, next, day)
        }
    }
}

// Writes the date's spelling to the front of the buffer.
#[tactic(auto, using(writing::proofs::Laws::refused_writes))]
pub fn write_date(d: Date, buffer: &mut [u8]) -> Result<usize, Unwritten>
    ensures { Writes date d (date_spelling d) buffer.old buffer.new result }
{
    let count = room_for(date_length(d), buffer)?;
    put_date(buffer, d);
    Ok(count)
}
