// Date-times of the plain form: a plain date, `T` and a plain time.
ghost use Rattle.std.specs.Prelude.{◌≡◌};
ghost use Rattle.parser.specs.Reading.{Says};
ghost use Rattle.parser.specs.Read.{got_found, got_more};
ghost use Rattle.datetime.specs.Rules.{date_time};
ghost use Rattle.datetime.specs.Plain.{date_of_stamp, plain_stamp};

use crate::datetime_at;
use parser::{Found, Got};
use types::{Choices, Date, DateTime};

// YYYY-MM-DDT, where a clock has room behind it
#[tactic(auto, unfolding(crate::specs::Plain::date_of_stamp))]
#[inline(always)]
fn date_of_stamp(s: &[u8]) -> Option<Date>
    ensures { result ≡ date_of_stamp s.now }
{
    if s.len() < 19 || s[10] != b'T' {
        return None;
    }
    looks::plain_date(s)
}

// YYYY-MM-DDTHH:MM:SS[.mmm], alone or with an offset
#[inline(always)]
fn plain_stamp(s: &[u8]) -> Option<Got<DateTime>>
    ensures { result ≡ plain_stamp s.now }
{
    let date = date_of_stamp(s)?;
    let time = time::plain::plain_at(s, 11)?;
    Some(Got {
        value: DateTime {
            date,
            time: time.value,
        },
        next: time.next,
        more: time.more,
    })
}

// A date-time at the very beginning. The plain form is tried before the rule.
#[inline(always)]
pub fn datetime_begun(s: &[u8], choices: Choices) -> Found<DateTime>
    ensures { Says (date_time choices) s.now 0 (got_found result) (got_more result) }
{
    match plain_stamp(s) {
        Some(read) => Ok(read),
        None => datetime_at(s, 0, choices),
    }
}
