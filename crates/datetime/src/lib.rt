// Date-times (datetime.rs): a date, one `T`, a time.
#![tactic(auto)]

ghost use Rattle.std.specs.Prelude.{◌≡◌, true};
ghost use Rattle.parser.specs.Reading.{Says, SaysOn, lit, no};
ghost use Rattle.parser.specs.Read.{got_found, got_more};
ghost use Rattle.datetime.specs.Rules.{time_of, after_date, date_time};

use parser::{Found, Got, Miss};
use types::{Choices, Date, DateTime};

// What is read at one go, before the rule is asked.
pub mod plain;

// The time of a date.
#[inline(always)]
fn time_of(s: &[u8], at: usize, date: Date, choices: Choices) -> Found<DateTime>
    ensures { Says (time_of choices date) s.now at (got_found result) (got_more result) }
{
    let time = time::base_time(s, at, choices)?;
    Ok(Got {
        value: DateTime {
            date,
            time: time.value,
        },
        next: time.next, // past the time, not past the date
        more: time.more, // the time's: behind a T the date is settled
    })
}

// T and the time of a date. Where the date was left open no T stands behind it, and what is found stays open.
#[inline(always)]
fn after_date(s: &[u8], date: Got<Date>, choices: Choices) -> Found<DateTime>
    requires { date.more ≡ true → (lit 84).reads s.now date.next ≡ no }
    ensures { SaysOn date.more (after_date choices date.value) s.now date.next (got_found result) (got_more result) }
{
    match parser::literal(s, date.next, b'T') {
        Ok(from) => time_of(s, from, date.value, choices),
        Err(_) if date.more => Err(Miss::Cut),
        Err(miss) => Err(miss),
    }
}

// A date-time from a place on.
#[inline(always)]
pub fn datetime_at(s: &[u8], at: usize, choices: Choices) -> Found<DateTime>
    ensures { Says (date_time choices) s.now at (got_found result) (got_more result) }
{
    let date = date::date_at(s, at)?;
    after_date(s, date, choices)
}
