// How far apart two stamps are, for C. A library of its own, as `spans` and `whys` are: it calls the reader of date-times, and the compiler
// copies a reader into its caller only where it has one (docs/BENCHMARKS.md). The layout of the slots stands in specs/Promise.antt, and for C in
// exports' tirozhbar.h.
#![tactic(auto)]

ghost use Rattle.std.specs.Prelude.{◌≡◌, ◌≤◌, length};
ghost use Rattle.slots.specs.Slots.{over};
ghost use Rattle.aparts.specs.Promise.{apart_slots, ApartIn, ApartUnder};

use moments::{Apart, Faulty};
use slots::{NO_SUCH_CHOICE, TOO_FEW};
use types::Choices;

// The three slots.
fn put(slots: &mut [i64], told: Result<Apart, Faulty>)
    requires { 3 ≤ length slots.old }
    ensures { slots.new ≡ over (apart_slots told) slots.old }
{
    let three = match told {
        Ok(apart) => [apart.seconds, apart.nanoseconds as i64, 0],
        Err(Faulty::First(_)) => [0, 0, 1],
        Err(Faulty::Second(_)) => [0, 0, 2],
    };
    slots[..3].copy_from_slice(&three);
}

// Tells how far the second text's date-time lies behind the first's.
fn apart(first: &[u8], second: &[u8], slots: &mut [i64], choices: Choices) -> u32
    ensures { ApartIn choices first.now second.now slots.old slots.new result }
{
    if slots.len() < 3 {
        return TOO_FEW;
    }
    let told = gaps::apart(first, second, choices);
    put(slots, told);
    moments::number(told)
}

// The same for C: a number names the choices.
#[unsafe(no_mangle)]
pub extern "C" fn tirozhbar_apart(
    first: &[u8],
    second: &[u8],
    slots: &mut [i64],
    choices: u32,
) -> u32
    ensures { ApartUnder choices first.now second.now slots.old slots.new result }
{
    match slots::choices_of(choices) {
        Some(named) => apart(first, second, slots, named),
        None => NO_SUCH_CHOICE,
    }
}
