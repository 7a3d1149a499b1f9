// The writer of date-times: the date, `T`, and the time in the part of the buffer that begins behind them.
#![tactic(auto)]

ghost use Rattle.datetime.specs.Rules.{date_time};
ghost use Rattle.text.specs.Text.{Puts};
ghost use Rattle.writing.specs.Spelling.{date_time_spelling};
ghost use Rattle.writing.specs.Writing.{Measures, Writes};

use date_writer::{date_length, put_date};
use text::put_byte;
use time_writer::{put_time, time_length};
use types::{Choices, DateTime};
use writing::{Unwritten, room_for};

// The length of the date-time's spelling, where some reader gives the date-time.
#[tactic(auto, using(crate::proofs::Laws::no_date_measures, crate::proofs::Laws::no_time_measures, crate::proofs::Laws::parts_measure, crate::proofs::Laws::date_most, crate::proofs::Laws::time_most))]
pub fn datetime_length(x: DateTime, choices: Choices) -> Option<usize>
    ensures { Measures (date_time choices) x (date_time_spelling x) result }
{
    let date = date_length(x.date)?;
    let time = time_length(x.time, choices)?;
    Some(date + 1 + time)
}

// Puts the date-time's spelling at the front. The time's writer is lent what lies behind the date and its `T`.
pub fn put_datetime(out: &mut [u8], x: DateTime) -> usize
    ensures { Puts (date_time_spelling x) out.old 0 out.new result }
{
    let next = put_date(out, x.date);
    let next = put_byte(out, next, b'T');
    next + put_time(&mut out[next..], x.time)
}

// Writes the date-time's spelling to the front of the buffer, for the edition that the caller names.
#[tactic(auto, using(writing::proofs::Laws::refused_writes))]
pub fn write_datetime(x: DateTime, choices: Choices, buffer: &mut [u8]) -> Result<usize, Unwritten>
    ensures { Writes (date_time choices) x (date_time_spelling x) buffer.old buffer.new result }
{
    let count = room_for(datetime_length(x, choices), buffer)?;
    put_datetime(buffer, x);
    Ok(count)
}
