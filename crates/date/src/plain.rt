// Dates of the plain form.
ghost use Rattle.parser.specs.Reading.{Says};
ghost use Rattle.parser.specs.Read.{got_found, got_more};
ghost use Rattle.date.specs.Rules.{date};

use crate::date_at;
use parser::{Found, Got};
use types::Date;

// A date at the very beginning. The plain form is tried before the rule.
#[inline(always)]
pub fn date_begun(s: &[u8]) -> Found<Date>
    ensures { Says date s.now 0 (got_found result) (got_more result) }
{
    match looks::plain_date(s) {
        Some(value) => Ok(Got {
            value,
            next: 10,
            more: false,
        }),
        None => date_at(s, 0),
    }
}
