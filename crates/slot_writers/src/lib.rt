// The writers of what slots hold. Each takes the record from slot 2 on, where a reader leaves it, puts its spelling to the front of a
// buffer, and leaves the count in slot 0. The layout of the slots stands in slots' specs/Slots.antt.
#![tactic(auto)]

ghost use Rattle.std.specs.Prelude.{◌<◌, ◌≤◌, ◌^◌, length};
ghost use Rattle.offset.specs.Rules.{offset};
ghost use Rattle.time.specs.Rules.{time};
ghost use Rattle.date.specs.Rules.{date};
ghost use Rattle.datetime.specs.Rules.{date_time};
ghost use Rattle.duration.specs.Rules.{duration};
ghost use Rattle.slots.specs.Slots.{offset_slots, time_slots, date_slots, date_time_slots, duration_slots};
ghost use Rattle.writing.specs.Spelling.{offset_spelling, time_spelling, date_spelling, date_time_spelling, duration_spelling};
ghost use Rattle.writing.specs.Writing.{count_of};
ghost use Rattle.slot_writers.specs.Promise.{Tells, WritesFrom};

use slots::TOO_FEW;
use types::{Choices, DateTime};
use writing::Unwritten;

// Leaves the count in slot 0, which is 0 where nothing was written, and gives the number.
fn tell(slots: &mut [i64], written: Result<usize, Unwritten>) -> u32
    requires { (2 ≤ length slots.old) × (count_of written < 2 ^ 63) }
    ensures { Tells written slots.old slots.new result }
{
    slots[0] = writing::count(written) as i64;
    writing::number(written)
}

// Writes the offset that the slots hold.
pub fn write_offset(slots: &mut [i64], text: &mut [u8]) -> u32
    ensures { WritesFrom 4 offset offset_slots offset_spelling slots.old slots.new text.old text.new result }
{
    if slots.len() < 4 {
        return TOO_FEW;
    }
    let held = held::offset_of(slots[2], slots[3]);
    let written = offset_writer::write_offset(held, text);
    tell(slots, written)
}

// Writes the time that the slots hold, for the edition that the caller names.
pub fn write_time(slots: &mut [i64], text: &mut [u8], choices: Choices) -> u32
    ensures { WritesFrom 10 (time choices) time_slots time_spelling slots.old slots.new text.old text.new result }
{
    if slots.len() < 10 {
        return TOO_FEW;
    }
    let held = held::time_of(
        slots[2], slots[3], slots[4], slots[5], slots[6], slots[7], slots[8], slots[9],
    );
    let written = time_writer::write_time(held, choices, text);
    tell(slots, written)
}

// Writes the date that the slots hold.
pub fn write_date(slots: &mut [i64], text: &mut [u8]) -> u32
    ensures { WritesFrom 6 date date_slots date_spelling slots.old slots.new text.old text.new result }
{
    if slots.len() < 6 {
        return TOO_FEW;
    }
    let held = held::date_of(slots[2], slots[3], slots[4], slots[5]);
    let written = date_writer::write_date(held, text);
    tell(slots, written)
}

// Writes the date-time that the slots hold, for the edition that the caller names.
pub fn write_datetime(slots: &mut [i64], text: &mut [u8], choices: Choices) -> u32
    ensures { WritesFrom 14 (date_time choices) date_time_slots date_time_spelling slots.old slots.new text.old text.new result }
{
    if slots.len() < 14 {
        return TOO_FEW;
    }
    let date = held::date_of(slots[2], slots[3], slots[4], slots[5]);
    let time = held::time_of(
        slots[6], slots[7], slots[8], slots[9], slots[10], slots[11], slots[12], slots[13],
    );
    let held = DateTime { date, time };
    let written = datetime_writer::write_datetime(held, choices, text);
    tell(slots, written)
}

// Writes the duration that the slots hold.
pub fn write_duration(slots: &mut [i64], text: &mut [u8]) -> u32
    ensures { WritesFrom 9 duration duration_slots duration_spelling slots.old slots.new text.old text.new result }
{
    if slots.len() < 9 {
        return TOO_FEW;
    }
    let held = held::duration_of(
        slots[2], slots[3], slots[4], slots[5], slots[6], slots[7], slots[8],
    );
    let written = duration_writer::write_duration(held, text);
    tell(slots, written)
}
