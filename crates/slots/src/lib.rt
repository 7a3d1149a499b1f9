// What an answer is in an array of slots of 64 bits: one function fills the slots of an answer of any kind and returns the paper's number. Where
// the slots are too few, or the count is more than a slot holds, it writes nothing. The layout stands in specs/Slots.antt; what fills the slots of
// each kind's record stands in records.rt.
#![tactic(auto)]

ghost use Rattle.std.specs.Prelude.{◌≡◌, ◌+◌, ◌≤◌, ℕ, ℤ, List, length, eqb, false};
ghost use Rattle.types.specs.Numbers.{number_of};
ghost use Rattle.parser.specs.Answer.{refused};
ghost use Rattle.parser.specs.Told.{told};
ghost use Rattle.slots.specs.Slots.{no_slots, verdict_slot, PutIn};
ghost use Rattle.slots.specs.Choosing.{chosen};

mod records;

use parser::answer::{Answer, count};
use types::{Choices, Edition, Reading, Refusal, Verdict};

// What is returned where the slots are too few, or the count is more than one holds: nothing is written.
pub const TOO_FEW: u32 = 255;

// What is returned where a number names no choices: nothing is written.
pub const NO_SUCH_CHOICE: u32 = 254;

// The greatest count that a slot holds.
pub const MOST: usize = 9223372036854775807;

// The choices that a number names, for a caller who has numbers alone.
pub fn choices_of(n: u32) -> Option<Choices>
    ensures { result ≡ chosen n }
{
    match n {
        0 => Some(Choices::DOCUMENT_01),
        1 => Some(Choices {
            edition: Edition::E2004,
            reading: Reading::Old,
        }),
        2 => Some(Choices {
            edition: Edition::E2019,
            reading: Reading::Standard,
        }),
        3 => Some(Choices {
            edition: Edition::E2004,
            reading: Reading::Standard,
        }),
        _ => None,
    }
}

pub fn verdict_slot(verdict: Verdict) -> i64
    ensures { result ≡ verdict_slot verdict }
{
    match verdict {
        Verdict::Settled => 0,
        Verdict::Open => 1,
    }
}

// A record that slots can hold.
pub trait InSlots {
    ghost ROOM: { ℕ };

    ghost layout: { Self → List ℤ };

    // How many slots its answer takes: the count's, the verdict's and the record's own.
    const ROOM: usize;

    // Fills the record's own slots, if there are as many as it has, and else none.
    fn put(self, slots: &mut [i64])
        ensures fits { 2 + length slots.old ≡ ROOM → slots.new ≡ layout self }
        ensures other { eqb (2 + length slots.old) ROOM ≡ false → slots.new ≡ slots.old };

    ghost has_head: { 2 ≤ ROOM };
}

// Fills the two slots that a refusal has and returns its number, also where a record would not fit.
pub fn put_refusal(slots: &mut [i64], count: usize, verdict: i64, why: Refusal) -> u32
    ensures { PutIn 2 no_slots verdict (refused (number_of why) count) slots.old slots.new result }
{
    if slots.len() < 2 || MOST < count {
        return TOO_FEW;
    }
    slots[0] = count as i64;
    slots[1] = verdict;
    why.number()
}

// Fills the slots of an answer and returns its number. The head comes last: what the record is made of is then asked before anything is stored,
// and not again behind that.
#[inline(always)]
pub fn put_answer<T: InSlots + Copy>(slots: &mut [i64], verdict: i64, answer: Answer<T>) -> u32
    ensures { PutIn T.ROOM T.layout verdict (told answer) slots.old slots.new result }
{
    let count = count(answer);
    if slots.len() < T::ROOM || MOST < count {
        return TOO_FEW;
    }
    let number = match answer {
        Ok(record) => {
            record.value.put(&mut slots[2..T::ROOM]);
            0
        }
        Err(refused) => refused.why.number(),
    };
    slots[..2].copy_from_slice(&[count as i64, verdict]);
    number
}
