// The readers of intervals into slots, as slot_readers has those of the other kinds, and the same for C. A library of its own: what an interval
// is made of may begin at any byte, and the compiler makes shorter code of a reader that is asked at the first byte alone (docs/DECISIONS.md).
// The layout of the slots stands in slots' specs/Slots.antt, and for C in exports' tirozhbar.h.
#![tactic(auto)]

ghost use Rattle.interval.specs.Once.{interval};
ghost use Rattle.slots.specs.Slots.{interval_slots};
ghost use Rattle.slot_readers.specs.Promises.{BeginsIn, EndsIn, BeginsUnder, EndsUnder};

use slot_readers::NO_VERDICT;
use slots::{NO_SUCH_CHOICE, TOO_FEW};
use span_slots::ROOM;
use types::Choices;

// Reads the interval that the bytes begin with.
pub fn interval(s: &[u8], slots: &mut [i64], choices: Choices) -> u32
    ensures { BeginsIn 33 14 (interval choices) interval_slots s.now slots.old slots.new result }
{
    if slots.len() < ROOM {
        return TOO_FEW;
    }
    let read = intervals::interval(s, choices);
    span_slots::put_answer(slots, slots::verdict_slot(read.verdict), read.answer)
}

// Reads bytes that are one interval from the first to the last.
#[tactic(auto, using(slot_readers::proofs::Laws::ends, interval::proofs::Laws::interval_bounded))]
pub fn parse_interval(s: &[u8], slots: &mut [i64], choices: Choices) -> u32
    ensures { EndsIn 33 (interval choices) interval_slots s.now slots.old slots.new result }
{
    if slots.len() < ROOM {
        return TOO_FEW;
    }
    span_slots::put_answer(slots, NO_VERDICT, intervals::parse_interval(s, choices))
}

// Reads the interval that the bytes begin with, for C: a number names the choices.
#[unsafe(no_mangle)]
pub extern "C" fn tirozhbar_interval(s: &[u8], slots: &mut [i64], choices: u32) -> u32
    ensures { BeginsUnder 33 14 interval interval_slots choices s.now slots.old slots.new result }
{
    match slots::choices_of(choices) {
        Some(named) => interval(s, slots, named),
        None => NO_SUCH_CHOICE,
    }
}

// Reads bytes that are one interval from the first to the last, for C.
#[unsafe(no_mangle)]
pub extern "C" fn tirozhbar_parse_interval(s: &[u8], slots: &mut [i64], choices: u32) -> u32
    ensures { EndsUnder 33 interval interval_slots choices s.now slots.old slots.new result }
{
    match slots::choices_of(choices) {
        Some(named) => parse_interval(s, slots, named),
        None => NO_SUCH_CHOICE,
    }
}
