// How far apart two stamps are, from their texts.
#![tactic(auto)]

ghost use Rattle.datetimes.specs.Answer.{date_time_parses};
ghost use Rattle.gaps.specs.Gaps.{Tells};

use moments::{Apart, Fault, Faulty};
use parser::answer::{Answer, Refused};
use types::{Choices, DateTime, Refusal};

// Reads a text whole, by the reader of a beginning, which takes a plain stamp at one go, and from its count (docs/DECISIONS.md).
fn whole(s: &[u8], choices: Choices) -> Answer<DateTime>
    ensures { date_time_parses choices s.now result }
{
    let read = datetimes::datetime(s, choices).answer?;
    if read.count < s.len() {
        return Err(Refused {
            why: Refusal::LeftOver,
            count: read.count,
        });
    }
    Ok(read)
}

// How far the second text's date-time lies behind the first's: both texts are read whole, under one edition and in one reading.
pub fn apart(first: &[u8], second: &[u8], choices: Choices) -> Result<Apart, Faulty>
    ensures { Tells choices first.now second.now result }
{
    let from = whole(first, choices).map_err(|refused| Faulty::First(Fault::Text(refused.why)))?;
    let to = whole(second, choices).map_err(|refused| Faulty::Second(Fault::Text(refused.why)))?;
    moments::between(from.value, to.value)
}
