// The record that slots hold, as a reader fills them. Of numbers that no reader fills in, a record is made that no reader gives.
#![tactic(auto)]

ghost use Rattle.std.specs.Prelude.{◌≡◌, ◌∷◌, []};
ghost use Rattle.types.specs.declared.Choices.{Choices};
ghost use Rattle.slots.specs.Slots.{offset_slots, time_offset_slots, time_slots, date_slots, as_slot, duration_slots};
ghost use Rattle.offset_writer.specs.Ranges.{offset_given};
ghost use Rattle.time_writer.specs.Ranges.{time_offset_given, time_given};
ghost use Rattle.date_writer.specs.Ranges.{date_given};
ghost use Rattle.duration_writer.specs.Ranges.{duration_given};
ghost use Rattle.held.specs.Held.{Natural, Integer, Made};

use types::{Date, Duration, Offset, Time};

// A slot's number in 32 bits: without a sign, and with one. What does not fit becomes a number that is in no offset, time or date.
fn natural(n: i64) -> u32
    ensures { Natural n result }
{
    u32::try_from(n).unwrap_or(u32::MAX)
}

fn integer(n: i64) -> i32
    ensures { Integer n result }
{
    i32::try_from(n).unwrap_or(i32::MAX)
}

// Of each kind, the record of its slots: the one that they hold, where some reader gives it, and otherwise one that no reader gives.
pub fn offset_of(hours: i64, minutes: i64) -> Offset
    ensures { Made offset_given offset_slots (hours ∷ minutes ∷ []) result }
{
    Offset {
        hours: integer(hours),
        minutes: integer(minutes),
    }
}

// Absent is 0 and two zeros. No reader gives an offset of 24 hours.
#[tactic(auto, using(crate::proofs::Made::no_offset_made, crate::proofs::Made::absent_made))]
fn time_offset_of(given: i64, hours: i64, minutes: i64) -> Option<Offset>
    ensures { Made time_offset_given time_offset_slots (given ∷ hours ∷ minutes ∷ []) result }
{
    if given == 1 {
        return Some(offset_of(hours, minutes));
    }
    if given == 0 && hours == 0 && minutes == 0 {
        return None;
    }
    Some(Offset {
        hours: 24,
        minutes: 0,
    })
}

// One time, whatever the caller chooses: of hour 24 too, and its writer tells whether the edition has that.
pub fn time_of(
    hour: i64,
    minute: i64,
    second: i64,
    nanosecond: i64,
    given: i64,
    hours: i64,
    minutes: i64,
    digits: i64,
) -> Time
    ensures { (c : Choices) → Made (time_given c) time_slots (hour ∷ minute ∷ second ∷ nanosecond ∷ given ∷ hours ∷ minutes ∷ digits ∷ []) result }
{
    Time {
        hour: natural(hour),
        minute: natural(minute),
        second: natural(second),
        nanosecond: natural(nanosecond),
        digits: natural(digits),
        offset: time_offset_of(given, hours, minutes),
    }
}

// An ordinal date has no month: its slot is 0. No reader gives a day 0.
#[tactic(auto, using(crate::proofs::Made::no_date_made))]
pub fn date_of(form: i64, year: i64, part: i64, day: i64) -> Date
    ensures { Made date_given date_slots (form ∷ year ∷ part ∷ day ∷ []) result }
{
    match form {
        0 => Date::YMD {
            year: integer(year),
            month: natural(part),
            day: natural(day),
        },
        1 => Date::Week {
            year: integer(year),
            week: natural(part),
            day: natural(day),
        },
        2 if part == 0 => Date::Ordinal {
            year: integer(year),
            day: natural(day),
        },
        _ => Date::Ordinal { year: 0, day: 0 },
    }
}

// The number whose 64 bits a slot has.
#[tactic(auto, using(crate::proofs::Durations::bits_held))]
fn number_of(slot: i64) -> u64
    ensures { as_slot result ≡ slot }
{
    slot.cast_unsigned()
}

// Every number of 64 bits is in some duration, so that all slots hold one.
pub fn duration_of(
    years: i64,
    months: i64,
    weeks: i64,
    days: i64,
    hours: i64,
    minutes: i64,
    seconds: i64,
) -> Duration
    ensures { Made duration_given duration_slots (years ∷ months ∷ weeks ∷ days ∷ hours ∷ minutes ∷ seconds ∷ []) result }
{
    Duration {
        years: number_of(years),
        months: number_of(months),
        weeks: number_of(weeks),
        days: number_of(days),
        hours: number_of(hours),
        minutes: number_of(minutes),
        seconds: number_of(seconds),
    }
}
