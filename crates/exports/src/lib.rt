// The readers and writers for C. A reader takes the bytes and an array of slots, fills the slots and returns the paper's number. A writer
// takes the record from slots as a reader fills them, puts its text into a buffer and returns the paper's number. Of times and date-times
// a number names the caller's choices; one that names none is refused before anything else is looked at. The layout of the slots stands in
// slots' specs/Slots.antt, the numbers in its specs/Choosing.antt, and both, for C, in tirozhbar.h.
#![tactic(auto)]

ghost use Rattle.offset.specs.Rules.{offset};
ghost use Rattle.time.specs.Rules.{time};
ghost use Rattle.date.specs.Rules.{date};
ghost use Rattle.datetime.specs.Rules.{date_time};
ghost use Rattle.duration.specs.Rules.{duration};
ghost use Rattle.slots.specs.Slots.{offset_slots, time_slots, date_slots, date_time_slots, duration_slots};
ghost use Rattle.slot_readers.specs.Promises.{BeginsIn, EndsIn, BeginsUnder, EndsUnder};
ghost use Rattle.writing.specs.Spelling.{offset_spelling, time_spelling, date_spelling, date_time_spelling, duration_spelling};
ghost use Rattle.slot_writers.specs.Promise.{WritesFrom};
ghost use Rattle.exports.specs.Promises.{WritesUnder};

use slots::NO_SUCH_CHOICE;

// Reads the offset that the bytes begin with.
#[unsafe(no_mangle)]
pub extern "C" fn tirozhbar_offset(s: &[u8], slots: &mut [i64]) -> u32
    ensures { BeginsIn 4 2 offset offset_slots s.now slots.old slots.new result }
{
    slot_readers::offset(s, slots)
}

// Reads bytes that are one offset from the first to the last.
#[unsafe(no_mangle)]
pub extern "C" fn tirozhbar_parse_offset(s: &[u8], slots: &mut [i64]) -> u32
    ensures { EndsIn 4 offset offset_slots s.now slots.old slots.new result }
{
    slot_readers::parse_offset(s, slots)
}

// Reads the time that the bytes begin with.
#[unsafe(no_mangle)]
pub extern "C" fn tirozhbar_time(s: &[u8], slots: &mut [i64], choices: u32) -> u32
    ensures { BeginsUnder 10 2 time time_slots choices s.now slots.old slots.new result }
{
    match slots::choices_of(choices) {
        Some(named) => slot_readers::time(s, slots, named),
        None => NO_SUCH_CHOICE,
    }
}

// Reads bytes that are one time from the first to the last.
#[unsafe(no_mangle)]
pub extern "C" fn tirozhbar_parse_time(s: &[u8], slots: &mut [i64], choices: u32) -> u32
    ensures { EndsUnder 10 time time_slots choices s.now slots.old slots.new result }
{
    match slots::choices_of(choices) {
        Some(named) => slot_readers::parse_time(s, slots, named),
        None => NO_SUCH_CHOICE,
    }
}

// Reads the date that the bytes begin with.
#[unsafe(no_mangle)]
pub extern "C" fn tirozhbar_date(s: &[u8], slots: &mut [i64]) -> u32
    ensures { BeginsIn 6 7 date date_slots s.now slots.old slots.new result }
{
    slot_readers::date(s, slots)
}

// Reads bytes that are one date from the first to the last.
#[unsafe(no_mangle)]
pub extern "C" fn tirozhbar_parse_date(s: &[u8], slots: &mut [i64]) -> u32
    ensures { EndsIn 6 date date_slots s.now slots.old slots.new result }
{
    slot_readers::parse_date(s, slots)
}

// Reads the date-time that the bytes begin with.
#[unsafe(no_mangle)]
pub extern "C" fn tirozhbar_datetime(s: &[u8], slots: &mut [i64], choices: u32) -> u32
    ensures { BeginsUnder 14 10 date_time date_time_slots choices s.now slots.old slots.new result }
{
    match slots::choices_of(choices) {
        Some(named) => slot_readers::datetime(s, slots, named),
        None => NO_SUCH_CHOICE,
    }
}

// Reads bytes that are one date-time from the first to the last.
#[unsafe(no_mangle)]
pub extern "C" fn tirozhbar_parse_datetime(s: &[u8], slots: &mut [i64], choices: u32) -> u32
    ensures { EndsUnder 14 date_time date_time_slots choices s.now slots.old slots.new result }
{
    match slots::choices_of(choices) {
        Some(named) => slot_readers::parse_datetime(s, slots, named),
        None => NO_SUCH_CHOICE,
    }
}

// Reads the duration that the bytes begin with.
#[unsafe(no_mangle)]
pub extern "C" fn tirozhbar_duration(s: &[u8], slots: &mut [i64]) -> u32
    ensures { BeginsIn 9 3 duration duration_slots s.now slots.old slots.new result }
{
    slot_readers::duration(s, slots)
}

// Reads bytes that are one duration from the first to the last.
#[unsafe(no_mangle)]
pub extern "C" fn tirozhbar_parse_duration(s: &[u8], slots: &mut [i64]) -> u32
    ensures { EndsIn 9 duration duration_slots s.now slots.old slots.new result }
{
    slot_readers::parse_duration(s, slots)
}

// Writes the offset that the slots hold.
#[unsafe(no_mangle)]
pub extern "C" fn tirozhbar_write_offset(slots: &mut [i64], text: &mut [u8]) -> u32
    ensures { WritesFrom 4 offset offset_slots offset_spelling slots.old slots.new text.old text.new result }
{
    slot_writers::write_offset(slots, text)
}

// Writes the time that the slots hold.
#[unsafe(no_mangle)]
pub extern "C" fn tirozhbar_write_time(slots: &mut [i64], text: &mut [u8], choices: u32) -> u32
    ensures { WritesUnder 10 time time_slots time_spelling choices slots.old slots.new text.old text.new result }
{
    match slots::choices_of(choices) {
        Some(named) => slot_writers::write_time(slots, text, named),
        None => NO_SUCH_CHOICE,
    }
}

// Writes the date that the slots hold.
#[unsafe(no_mangle)]
pub extern "C" fn tirozhbar_write_date(slots: &mut [i64], text: &mut [u8]) -> u32
    ensures { WritesFrom 6 date date_slots date_spelling slots.old slots.new text.old text.new result }
{
    slot_writers::write_date(slots, text)
}

// Writes the date-time that the slots hold.
#[unsafe(no_mangle)]
pub extern "C" fn tirozhbar_write_datetime(slots: &mut [i64], text: &mut [u8], choices: u32) -> u32
    ensures { WritesUnder 14 date_time date_time_slots date_time_spelling choices slots.old slots.new text.old text.new result }
{
    match slots::choices_of(choices) {
        Some(named) => slot_writers::write_datetime(slots, text, named),
        None => NO_SUCH_CHOICE,
    }
}

// Writes the duration that the slots hold.
#[unsafe(no_mangle)]
pub extern "C" fn tirozhbar_write_duration(slots: &mut [i64], text: &mut [u8]) -> u32
    ensures { WritesFrom 9 duration duration_slots duration_spelling slots.old slots.new text.old text.new result }
{
    slot_writers::write_duration(slots, text)
}
