// What the answer of an interval is in slots: how often it repeats, its shape, and its two sides, each at its place whatever stands there. A
// side's record is put there by what fills the slots of its kind. The layout stands in slots' specs/Slots.antt.
#![tactic(auto)]

ghost use Rattle.std.specs.Prelude.{◌≡◌, ◌∷◌, [], ◌++◌, ◌-◌, ◌≤◌, pos, length, replicate};
ghost use Rattle.std.proofs.Common.{rules};
ghost use Rattle.parser.specs.Told.{told};
ghost use Rattle.slots.specs.Slots.{repeat_slots, shape_of, side_slots, interval_slots, PutIn};

use parser::answer::{Answer, Counted};
use slots::InSlots;
use types::{Interval, IntervalRange, Repetitions};

// How many slots an interval's answer takes, and how many of them each side.
pub const ROOM: usize = 33;

const SIDE: usize = 14;

// A repeat's two slots: which of the three it is, and the number of times.
fn repeat(repetitions: Repetitions) -> (u32, u32)
    ensures { repeat_slots repetitions ≡ pos result.0 ∷ pos result.1 ∷ [] }
{
    match repetitions {
        Repetitions::Once => (0, 0),
        Repetitions::Unlimited => (1, 0),
        Repetitions::Times(n) => (2, n),
    }
}

fn shape_of(range: IntervalRange) -> u32
    ensures { result ≡ shape_of range }
{
    match range {
        IntervalRange::Closed { start: _, end: _ } => 0,
        IntervalRange::ClosedEnd {
            duration: _,
            end: _,
        } => 1,
        IntervalRange::ClosedStart {
            start: _,
            duration: _,
        } => 2,
        IntervalRange::Open { duration: _ } => 3,
    }
}

// A side is laid out as an answer of its kind, with 0 for the count, for the verdict and for each slot that it leaves.
#[tactic(auto, using(crate::proofs::Laws::zeros_left))]
fn put_side<T: InSlots + Copy>(side: &mut [i64], value: T)
    requires { (length side.old ≡ 14) × (T.ROOM ≤ 14) }
    ensures { side.new ≡ pos 0 ∷ pos 0 ∷ T.layout value ++ replicate (14 - T.ROOM) (pos 0) }
{
    side.fill(0);
    value.put(&mut side[2..T::ROOM]);
}

fn put_sides(first: &mut [i64], second: &mut [i64], range: IntervalRange)
    requires { (length first.old ≡ 14) × (length second.old ≡ 14) }
    ensures { first.new ++ second.new ≡ side_slots range }
{
    match range {
        IntervalRange::Closed { start, end } => {
            put_side(first, start);
            put_side(second, end);
        }
        IntervalRange::ClosedEnd { duration, end } => {
            put_side(first, duration);
            put_side(second, end);
        }
        IntervalRange::ClosedStart { start, duration } => {
            put_side(first, start);
            put_side(second, duration);
        }
        IntervalRange::Open { duration } => {
            put_side(first, duration);
            second.fill(0);
        }
    }
}

// An interval as its slots hold it: a type of this crate, since the trait and the record are both of others.
#[derive(Clone, Copy)]
struct Spanned(Interval);

impl InSlots for Spanned {
    ghost ROOM = { 33 };

    ghost layout = { λ x. interval_slots x.0 };

    ghost has_head = { Prim.search rules };

    const ROOM: usize = ROOM;

    fn put(self, slots: &mut [i64]) {
        if slots.len() != ROOM - 2 {
            return;
        }
        let Interval { repetitions, range } = self.0;
        let (which, times) = repeat(repetitions);
        let (front, sides) = slots.split_at_mut(3);
        let (first, second) = sides.split_at_mut(SIDE);
        front.copy_from_slice(&[which as i64, times as i64, shape_of(range) as i64]);
        put_sides(first, second, range);
    }
}

// Fills the slots of an interval's answer and returns its number.
#[inline(always)]
pub fn put_answer(slots: &mut [i64], verdict: i64, answer: Answer<Interval>) -> u32
    ensures { PutIn 33 interval_slots verdict (told answer) slots.old slots.new result }
{
    let spanned: Answer<Spanned> = match answer {
        Ok(record) => Ok(Counted {
            value: Spanned(record.value),
            count: record.count,
        }),
        Err(refused) => Err(refused),
    };
    slots::put_answer(slots, verdict, spanned)
}
