// The readers into slots: each takes the bytes and an array of slots, fills the slots and returns the paper's number. The layout of the
// slots stands in slots' specs/Slots.antt.
#![tactic(auto, using(crate::proofs::Laws::filled))]

ghost use Rattle.std.specs.Prelude.{◌<◌, ◌≤◌, length};
ghost use Rattle.parser.specs.Told.{told};
ghost use Rattle.offset.specs.Rules.{offset};
ghost use Rattle.time.specs.Rules.{time};
ghost use Rattle.date.specs.Rules.{date};
ghost use Rattle.datetime.specs.Rules.{date_time};
ghost use Rattle.duration.specs.Rules.{duration};
ghost use Rattle.slots.specs.Slots.{verdict_slot, no_verdict, Untouched, PutIn, offset_slots, time_slots, date_slots, date_time_slots, duration_slots};
ghost use Rattle.slot_readers.specs.Promises.{BeginsIn, EndsIn};

use parser::answer::{Answer, Read};
use slots::{InSlots, TOO_FEW};
use types::Choices;

// The verdict slot of a whole reader, which gives none.
pub const NO_VERDICT: i64 = -1;

// Fills the slots by what a beginning reader answers, which is asked only where there are slots enough.
fn fill<T: InSlots + Copy, F: FnOnce() -> Read<T>>(slots: &mut [i64], read: F) -> u32
    requires { F.IsAlwaysCallable read }
    ensures few { length slots.old < T.ROOM → Untouched slots.old slots.new result }
    ensures room { T.ROOM ≤ length slots.old → (x : _) × (F.post read x × PutIn T.ROOM T.layout (verdict_slot x.verdict) (told x.answer) slots.old slots.new result) }
{
    if slots.len() < T::ROOM {
        return TOO_FEW;
    }
    let read = read();
    slots::put_answer(slots, slots::verdict_slot(read.verdict), read.answer)
}

// The same of a whole reader.
fn fill_whole<T: InSlots + Copy, F: FnOnce() -> Answer<T>>(slots: &mut [i64], read: F) -> u32
    requires { F.IsAlwaysCallable read }
    ensures few { length slots.old < T.ROOM → Untouched slots.old slots.new result }
    ensures room { T.ROOM ≤ length slots.old → (x : _) × (F.post read x × PutIn T.ROOM T.layout no_verdict (told x) slots.old slots.new result) }
{
    if slots.len() < T::ROOM {
        return TOO_FEW;
    }
    slots::put_answer(slots, NO_VERDICT, read())
}

// Reads the offset that the bytes begin with.
pub fn offset(s: &[u8], slots: &mut [i64]) -> u32
    ensures { BeginsIn 4 2 offset offset_slots s.now slots.old slots.new result }
{
    fill(slots, || offsets::offset(s))
}

// Reads bytes that are one offset from the first to the last.
pub fn parse_offset(s: &[u8], slots: &mut [i64]) -> u32
    ensures { EndsIn 4 offset offset_slots s.now slots.old slots.new result }
{
    fill_whole(slots, || offsets::parse_offset(s))
}

// Reads the time that the bytes begin with.
pub fn time(s: &[u8], slots: &mut [i64], choices: Choices) -> u32
    ensures { BeginsIn 10 2 (time choices) time_slots s.now slots.old slots.new result }
{
    fill(slots, || times::time(s, choices))
}

// Reads bytes that are one time from the first to the last.
pub fn parse_time(s: &[u8], slots: &mut [i64], choices: Choices) -> u32
    ensures { EndsIn 10 (time choices) time_slots s.now slots.old slots.new result }
{
    fill_whole(slots, || times::parse_time(s, choices))
}

// Reads the date that the bytes begin with.
pub fn date(s: &[u8], slots: &mut [i64]) -> u32
    ensures { BeginsIn 6 7 date date_slots s.now slots.old slots.new result }
{
    fill(slots, || dates::date(s))
}

// Reads bytes that are one date from the first to the last.
pub fn parse_date(s: &[u8], slots: &mut [i64]) -> u32
    ensures { EndsIn 6 date date_slots s.now slots.old slots.new result }
{
    fill_whole(slots, || dates::parse_date(s))
}

// Reads the date-time that the bytes begin with.
pub fn datetime(s: &[u8], slots: &mut [i64], choices: Choices) -> u32
    ensures { BeginsIn 14 10 (date_time choices) date_time_slots s.now slots.old slots.new result }
{
    fill(slots, || datetimes::datetime(s, choices))
}

// Reads bytes that are one date-time from the first to the last.
pub fn parse_datetime(s: &[u8], slots: &mut [i64], choices: Choices) -> u32
    ensures { EndsIn 14 (date_time choices) date_time_slots s.now slots.old slots.new result }
{
    fill_whole(slots, || datetimes::parse_datetime(s, choices))
}

// Reads the duration that the bytes begin with.
pub fn duration(s: &[u8], slots: &mut [i64]) -> u32
    ensures { BeginsIn 9 3 duration duration_slots s.now slots.old slots.new result }
{
    fill(slots, || durations::duration(s))
}

// Reads bytes that are one duration from the first to the last.
pub fn parse_duration(s: &[u8], slots: &mut [i64]) -> u32
    ensures { EndsIn 9 duration duration_slots s.now slots.old slots.new result }
{
    fill_whole(slots, || durations::parse_duration(s))
}
