// The day of a date, by closed forms. Days are counted from 1 January of the year -2,147,484,000, so that no number is negative; the calendar
// itself stands in specs/Calendar.antt, by counting.
#![tactic(auto)]

ghost use Rattle.std.specs.Prelude.{◌≡◌, ◌+◌, ◌≤◌, ◌<◌, pos, ◌+ℤ◌, take};
ghost use Rattle.calendar.specs.Calendar.{months, sum};
ghost use Rattle.types.specs.declared.Date.TheVariants.{YMD, Week, Ordinal};
ghost use Rattle.calendar.specs.Far.{leap_from, before, Begins, DayOf};

use types::Date;

// The first day of a year, and whether it is a leap year.
#[derive(Clone, Copy)]
struct Year {
    first: u64,
    leap: bool,
}

// The days before each month of a year that is no leap year; month 0 has none, and the last number is the year's.
const BEFORE: [u32; 14] = [
    0, 0, 31, 59, 90, 120, 151, 181, 212, 243, 273, 304, 334, 365,
];

// The number of a year, counted from the first.
fn from_the_first(year: i32) -> u64
    ensures { (pos result ≡ year +ℤ pos 2147484000) × (result < 4294967648) × (352 ≤ result) }
{
    let up = year as i64 + 2147484000;
    up as u64
}

fn is_leap(year: u64) -> bool
    ensures { result ≡ leap_from year }
{
    year % 4 == 0 && (year % 100 != 0 || year % 400 == 0)
}

// The days of so many years: 365 each, and one for each fourth, but not for a hundredth unless it is a four hundredth.
#[tactic(auto, using(crate::proofs::Years::by_quotients))]
fn days_of_years(years: u64) -> u64
    requires { years < 4294967648 }
    ensures { result ≡ before years }
{
    years * 365 + (years + 3) / 4 - (years + 99) / 100 + (years + 399) / 400
}

fn year_of(year: i32) -> Year
    ensures { Begins year result }
{
    let years = from_the_first(year);
    Year {
        first: days_of_years(years),
        leap: is_leap(years),
    }
}

// The days of a year that lie before a month; of all of it before month 13.
#[tactic(auto, using(crate::proofs::Months::table_at, crate::proofs::Months::later_in_leap, crate::proofs::Months::before_in_leap))]
fn before_month(leap: bool, month: u32) -> u32
    requires { month ≤ 13 }
    ensures { result ≡ sum (take month (months leap)) }
{
    let days = BEFORE[month as usize];
    if leap && 3 <= month { days + 1 } else { days }
}

// The day of a month of a year, where the month has it.
#[tactic(auto, using(crate::proofs::Months::one_more))]
fn calendar_day(year: i32, month: u32, day: u32) -> Option<u64>
    ensures { DayOf (YMD year month day) result }
{
    if 12 < month || day == 0 {
        return None;
    }
    let y = year_of(year);
    let from = before_month(y.leap, month);
    let to = before_month(y.leap, month + 1);
    if to - from < day {
        return None;
    }
    Some(y.first + (from + (day - 1)) as u64)
}

// The day of a year, where the year has it.
fn ordinal_day(year: i32, day: u32) -> Option<u64>
    ensures { DayOf (Ordinal year day) result }
{
    let y = year_of(year);
    if day == 0 || before_month(y.leap, 13) < day {
        return None;
    }
    Some(y.first + (day - 1) as u64)
}

// The first day of all is a Saturday, five days after a Monday.
fn week_day(year: i32, week: u32, day: u32) -> Option<u64>
    ensures { DayOf (Week year week day) result }
{
    let y = year_of(year);
    let fourth = y.first + 3;
    let monday = fourth - (fourth + 5) % 7;
    Some(monday + (week as u64) * 7 + day as u64 - 8)
}

// The day of a date of any form, counted from the first; none where its month or year lacks it.
pub fn day_of(date: Date) -> Option<u64>
    ensures { DayOf date result }
{
    match date {
        Date::YMD { year, month, day } => calendar_day(year, month, day),
        Date::Week { year, week, day } => week_day(year, week, day),
        Date::Ordinal { year, day } => ordinal_day(year, day),
    }
}
