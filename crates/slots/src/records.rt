// What fills the slots of a record, for each kind.
ghost use Rattle.std.specs.Prelude.{◌≡◌, ◌∷◌, [], pos};
ghost use Rattle.std.proofs.Common.{rules};
ghost use Rattle.slots.specs.Slots.{offset_slots, time_offset_slots, time_slots, date_slots, date_time_slots, duration_slots};

use crate::InSlots;
use types::{Date, DateTime, Duration, Offset, Time};

impl InSlots for Offset {
    ghost ROOM = { 4 };

    ghost layout = { offset_slots };

    ghost has_head = { Prim.search rules };

    const ROOM: usize = 4;

    fn put(self, slots: &mut [i64]) {
        if slots.len() == 2 {
            slots.copy_from_slice(&[self.hours as i64, self.minutes as i64]);
        }
    }
}

// A time's offset: whether one is given, its hours and its minutes.
fn shift(offset: Option<Offset>) -> (i64, i64, i64)
    ensures { time_offset_slots offset ≡ result.0 ∷ result.1 ∷ result.2 ∷ [] }
{
    match offset {
        None => (0, 0, 0),
        Some(given) => (1, given.hours as i64, given.minutes as i64),
    }
}

impl InSlots for Time {
    ghost ROOM = { 10 };

    ghost layout = { time_slots };

    ghost has_head = { Prim.search rules };

    const ROOM: usize = 10;

    fn put(self, slots: &mut [i64]) {
        if slots.len() != 8 {
            return;
        }
        let (given, hours, minutes) = shift(self.offset);
        slots.copy_from_slice(&[
            self.hour as i64,
            self.minute as i64,
            self.second as i64,
            self.nanosecond as i64,
            given,
            hours,
            minutes,
            self.digits as i64,
        ]);
    }
}

// A date's form and what it names: the form's number, the year, the month or week, the day.
fn parts(date: Date) -> (u32, i32, u32, u32)
    ensures { date_slots date ≡ pos result.0 ∷ result.1 ∷ pos result.2 ∷ pos result.3 ∷ [] }
{
    match date {
        Date::YMD { year, month, day } => (0, year, month, day),
        Date::Week { year, week, day } => (1, year, week, day),
        Date::Ordinal { year, day } => (2, year, 0, day),
    }
}

impl InSlots for Date {
    ghost ROOM = { 6 };

    ghost layout = { date_slots };

    ghost has_head = { Prim.search rules };

    const ROOM: usize = 6;

    fn put(self, slots: &mut [i64]) {
        if slots.len() == 4 {
            let (form, year, part, day) = parts(self);
            slots.copy_from_slice(&[form as i64, year as i64, part as i64, day as i64]);
        }
    }
}

impl InSlots for DateTime {
    ghost ROOM = { 14 };

    ghost layout = { date_time_slots };

    ghost has_head = { Prim.search rules };

    const ROOM: usize = 14;

    fn put(self, slots: &mut [i64]) {
        if slots.len() == 12 {
            let (date, time) = slots.split_at_mut(4);
            self.date.put(date);
            self.time.put(time);
        }
    }
}

impl InSlots for Duration {
    ghost ROOM = { 9 };

    ghost layout = { duration_slots };

    ghost has_head = { Prim.search rules };

    const ROOM: usize = 9;

    // Each number's 64 bits, in a slot that has a sign.
    fn put(self, slots: &mut [i64]) {
        if slots.len() != 7 {
            return;
        }
        slots.copy_from_slice(&[
            self.years.cast_signed(),
            self.months.cast_signed(),
            self.weeks.cast_signed(),
            self.days.cast_signed(),
            self.hours.cast_signed(),
            self.minutes.cast_signed(),
            self.seconds.cast_signed(),
        ]);
    }
}
