// A record that arrives in pieces.
//
// `start` gives a state, `step` gives it a piece, and `answer` and `end` say what the two readers say of all that was accepted, however it was
// cut: that is `proofs/Laws.antt`. The state never holds the text, which has no limit: it keeps at most 200 bytes that are read the same, and
// of each the place where it stood (specs/Keeping.antt).
#![tactic(auto)]

ghost use Rattle.std.specs.Prelude.{◌+◌, ◌<◌, max, ◌≡◌, length, drop};
ghost use Rattle.arriving.specs.Keeping.{joined, zero_run, started, stepped, step_number, Answers, Ends};

use crate::marks::{first_mark, has_sides, joins, next_mark};
use kinds::answer::{Answer, Kind, Read};
use parser::answer::{Counted, Refused};
use types::Refusal;

mod marks;

// So many bytes are kept, at most.
pub const ROOM: usize = 200;

// So many bytes are accepted, at most.
pub const MOST: usize = 4294967295;

// The kept bytes and the place of each in the input, how many they are, what the last of them tell (`next_mark`), and how many were accepted.
// Kept: two arrays and their length in place of a list, since a state is fixed memory, with no heap.
#[derive(Clone, Copy)]
pub struct State {
    pub kind: Kind,
    pub kept: [u8; ROOM],
    pub places: [u32; ROOM],
    pub len: usize,
    pub mark: u8,
    pub accepted: u32,
}

// A piece would make the accepted bytes too many.
#[derive(Clone, Copy)]
pub struct TooLong;

// One digit for two, 0 where both are.
fn join(last: u8, b: u8) -> u8
    ensures { result ≡ joined last b }
{
    if last == b'0' { b } else { last }
}

// The place behind what is joined at one go: all zeros, since the second changes neither the digit nor the mark, or one digit.
fn run_end(piece: &[u8], i: usize) -> usize
    requires { i < length piece.now }
    ensures { result ≡ i + max 1 (zero_run (drop i piece.now)) }
{
    let rest = &piece[i..];
    let zeros = rest.iter().position(|b| *b != b'0').unwrap_or(rest.len());
    i + zeros.max(1)
}

// Nothing accepted yet, of a record of the kind.
pub fn start(kind: Kind) -> State
    ensures { result ≡ started kind }
{
    State {
        kind,
        kept: [0; ROOM],
        places: [0; ROOM],
        len: 0,
        mark: first_mark(kind),
        accepted: 0,
    }
}

// Accepts a piece, of no bytes or many, or refuses it whole and leaves the state as it was. Each byte in turn, while there is room; what is left is
// only counted.
#[tactic(auto, using(crate::proofs::Pushing::run_within, crate::proofs::Pushing::pushed_none))]
pub fn step(state: &mut State, piece: &[u8]) -> Result<(), TooLong>
    ensures state { state.new ≡ (stepped state.old piece.now).state }
    ensures number { step_number result ≡ (stepped state.old piece.now).number }
{
    if MOST - (state.accepted as usize) < piece.len() {
        return Err(TooLong);
    }
    let sides = has_sides(state.kind);
    let mut i = 0;
    // Kept: the place moves on by several bytes where zeros are joined at one go.
    while i < piece.len() && state.len < ROOM {
        let b = piece[i];
        let joined = joins(state.mark, state.len, b);
        state.mark = next_mark(sides, state.mark, b);
        if joined {
            let last = state.len - 1;
            let end = run_end(piece, i);
            state.accepted += (end - i) as u32;
            state.kept[last] = join(state.kept[last], b);
            state.places[last] = state.accepted - 1;
            i = end;
        } else {
            state.kept[state.len] = b;
            state.places[state.len] = state.accepted;
            state.len += 1;
            state.accepted += 1;
            i += 1;
        }
    }
    state.accepted += (piece.len() - i) as u32;
    Ok(())
}

// What the beginning reader says of all that was accepted: what it says of the kept bytes, the count up to the place of the last that it read.
#[tactic(auto, using(crate::proofs::Answering::held_text, crate::proofs::Pushing::carry_last))]
pub fn answer(state: State) -> Read
    ensures { Answers state result }
{
    let kept = state.kept;
    let read = kinds::read(state.kind, &kept[..state.len.min(ROOM)]);
    let Ok(found) = read.answer else {
        return read;
    };
    let places = state.places;
    let count = match found.count {
        0 => 0,
        n => places[n - 1] as usize + 1,
    };
    Read {
        answer: Ok(Counted {
            value: found.value,
            count,
        }),
        verdict: read.verdict,
    }
}

// What the whole reader says of it.
pub fn end(state: State) -> Answer
    ensures { Ends state result }
{
    let found = answer(state).answer?;
    if found.count < state.accepted as usize {
        return Err(Refused {
            why: Refusal::LeftOver,
            count: found.count,
        });
    }
    Ok(found)
}
