// Dates (date.rs): calendar, week and ordinal dates, each read from a place of the input. The year and the dash after it are read
// once for the four alternatives, and each of these starts at the place after them.
#![tactic(auto)]

ghost use Rattle.std.specs.Prelude.{◌≡◌, ℕ, true};
ghost use Rattle.parser.specs.Reading.{alt, stop, Says};
ghost use Rattle.parser.specs.Read.{exact_found, exact_more, got_found, got_more, place_after};
ghost use Rattle.date.specs.Rules.{digits_of_year, year, dash, week_of_year, week, day_of_week, week_and_day, md_numeric, day_of_year, ordinal, month_and_day, date};
ghost use Rattle.date.specs.Answer.{after_year, dashed_day, dashed_day_of_month, month_and_dashed_day};

use parser::{Exact, Found, Got, Miss};
use types::Date;

// What is read at one go, before the rule is asked.
pub mod plain;

// [-]: the place after a separator, where there is one.
fn past_sep(s: &[u8], at: usize) -> usize
    ensures { result ≡ place_after at (dash.reads s.now at) }
{
    parser::past(s, at, b'-')
}

// YYYY
fn digits_of_year(s: &[u8], at: usize, minus: bool) -> Result<Exact<i32>, Miss>
    ensures { Says (digits_of_year minus) s.now at (exact_found result) (exact_more result) }
{
    let number = fields::take_digits_in_range(s, at, 4, 100, 9999)?;
    Ok(Exact {
        value: types::with_sign(minus, number.value as u16),
        next: number.next,
    })
}

// [+/-]YYYY
fn date_year(s: &[u8], at: usize) -> Result<Exact<i32>, Miss>
    ensures { Says year s.now at (exact_found result) (exact_more result) }
{
    match parser::sign(s, at) {
        Ok(minus) => digits_of_year(s, minus.next, minus.value),
        Err(Miss::Wrong) => digits_of_year(s, at, false),
        Err(miss) => Err(miss),
    }
}

// WW
fn week_of_year(s: &[u8], at: usize) -> Result<Exact<u32>, Miss>
    ensures { Says week_of_year s.now at (exact_found result) (exact_more result) }
{
    fields::take_digits_in_range(s, at, 2, 1, 52)
}

// Www
fn date_week(s: &[u8], at: usize) -> Result<Exact<u32>, Miss>
    ensures { Says week s.now at (exact_found result) (exact_more result) }
{
    let next = parser::literal(s, at, b'W')?;
    week_of_year(s, next)
}

// [[-]D], day 1 where absent
fn day_of_week(s: &[u8], at: usize) -> Found<u32>
    ensures { Says day_of_week s.now at (got_found result) (got_more result) }
{
    let from = past_sep(s, at);
    let day = parser::optional(at, fields::digit_1(s, from), 1)?;
    if (1..=7).contains(&day.value) {
        Ok(day)
    } else {
        Err(Miss::Wrong)
    }
}

// Www[[-]D]
fn date_ywd(s: &[u8], at: usize, year: i32) -> Found<Date>
    ensures { Says (week_and_day year) s.now at (got_found result) (got_more result) }
{
    let week = date_week(s, at)?;
    let day = day_of_week(s, week.next)?;
    Ok(Got {
        value: Date::Week {
            year,
            week: week.value,
            day: day.value,
        },
        next: day.next,
        more: day.more,
    })
}

// MMDD
fn date_ymd_numeric(s: &[u8], at: usize, year: i32) -> Found<Date>
    ensures { Says (md_numeric year) s.now at (got_found result) (got_more result) }
{
    let month = fields::date_month(s, at)?;
    let day = fields::date_day(s, month.next)?; // `2015113` is open, though it has an ordinal day
    Ok(Got {
        value: Date::YMD {
            year,
            month: month.value,
            day: day.value,
        },
        next: day.next,
        more: false,
    })
}

// DDD
fn date_day_of_year(s: &[u8], at: usize) -> Result<Exact<u32>, Miss>
    ensures { Says day_of_year s.now at (exact_found result) (exact_more result) }
{
    fields::take_digits_in_range(s, at, 3, 1, 366)
}

// DDD
#[inline(always)]
fn date_yddd(s: &[u8], at: usize, year: i32) -> Found<Date>
    ensures { Says (ordinal year) s.now at (got_found result) (got_more result) }
{
    let day = date_day_of_year(s, at)?;
    Ok(Got {
        value: Date::Ordinal {
            year,
            day: day.value,
        },
        next: day.next,
        more: false,
    })
}

// -DD
#[inline(always)]
fn dashed_day(s: &[u8], at: usize) -> Result<Exact<u32>, Miss>
    ensures { Says dashed_day s.now at (exact_found result) (exact_more result) }
{
    let next = parser::literal(s, at, b'-')?;
    fields::date_day(s, next)
}

// [-DD], day 1 where absent
#[inline(always)]
fn day_of_month(s: &[u8], at: usize) -> Found<u32>
    ensures { Says dashed_day_of_month s.now at (got_found result) (got_more result) }
{
    let day = dashed_day(s, at);
    parser::optional(at, day, 1) // so `2015-11-32` is 2015-11-01, with three bytes left
}

// MM[-DD]: with no dash before the day, alternative 3 has taken the month and one digit more
#[inline(always)]
fn date_ymd(s: &[u8], at: usize, year: i32) -> Found<Date>
    ensures { Says (month_and_dashed_day year) s.now at (got_found result) (got_more result) }
{
    let month = fields::date_month(s, at)?;
    let day = day_of_month(s, month.next)?;
    Ok(Got {
        value: Date::YMD {
            year,
            month: month.value,
            day: day.value,
        },
        next: day.next,
        more: day.more,
    })
}

// What a later alternative finds where the end of the input cut an earlier one short: a longer input could still bring that one
// right, so it is open in any case. What stops all reading is left as it is; nothing in a date does.
#[inline(always)]
fn opened(found: Found<Date>) -> Found<Date>
    ensures found { got_found result ≡ got_found found }
    ensures more { ((r : ℕ) → got_found found ≡ stop r → ⊥) → got_more result ≡ true }
{
    match found {
        Ok(date) => Ok(Got { more: true, ..date }),
        Err(Miss::Wrong | Miss::Cut) => Err(Miss::Cut),
        stopped => stopped,
    }
}

// What follows the year and a dash: alternative 3, then 4.
fn after_dash(s: &[u8], at: usize, year: i32) -> Found<Date>
    ensures { Says (alt (ordinal year) (month_and_day year)) s.now at (got_found result) (got_more result) }
{
    match date_yddd(s, at, year) {
        Err(Miss::Wrong) => date_ymd(s, at, year),
        Err(Miss::Cut) => opened(date_ymd(s, at, year)),
        found => found,
    }
}

// What follows the year and no dash: alternative 2, then 3.
fn no_dash(s: &[u8], at: usize, year: i32) -> Found<Date>
    ensures { Says (alt (md_numeric year) (ordinal year)) s.now at (got_found result) (got_more result) }
{
    match date_ymd_numeric(s, at, year) {
        Err(Miss::Wrong) => date_yddd(s, at, year),
        Err(Miss::Cut) => opened(date_yddd(s, at, year)),
        found => found,
    }
}

// What follows the year, by the first of the four alternatives that succeeds. The dash is read once for all: alternative 2 has
// none, and 4 must have one. A week that is cut short leaves no digit to the others.
fn after_year(s: &[u8], at: usize, year: i32) -> Found<Date>
    ensures { Says (after_year year) s.now at (got_found result) (got_more result) }
{
    let from = past_sep(s, at);
    match date_ywd(s, from, year) {
        Err(Miss::Wrong) if at < from => after_dash(s, from, year),
        Err(Miss::Wrong) => no_dash(s, from, year),
        found => found,
    }
}

// A date from a place on.
pub fn date_at(s: &[u8], at: usize) -> Found<Date>
    ensures { Says date s.now at (got_found result) (got_more result) }
{
    let year = date_year(s, at)?;
    after_year(s, year.next, year.value)
}
