// What arrives in pieces, as a line shows it: the text of the line is cut by `|`, and after each piece stands what `arriving` answers. Programs
// stand on `pieces_line`.
#![tactic(auto)]

ghost use Rattle.std.specs.Prelude.{◌≤◌, [], ◌≡◌, length};
ghost use Rattle.reply.specs.Line.{Gives};
ghost use Rattle.cuts.specs.Cuts.{SaysOf, pieces, Says, SaysLine};
ghost use Rattle.cuts.specs.Said.{SaysAnswer, SaysEnd};

use arriving::State;
use kinds::answer::Kind;
use parser::answer::{count, number};
use text::{put, put_byte, put_decimal};
use words::records::verdict_word;
use words::rows::{put_name, put_word, put_words};
use words::word::{Name, Word};

// B COUNT VERDICT, and the bar behind it
fn put_answer(out: &mut [u8], at: usize, state: State) -> usize
    ensures { Gives (SaysAnswer state) out.old at out.new result }
{
    let read = arriving::answer(state);
    let words = [
        Word::Number(count(read.answer) as u64),
        verdict_word(read.verdict),
    ];
    let next = put_decimal(out, at, number(read.answer));
    let next = put_words(out, next, &words);
    put(out, next, b" | ")
}

// W WCOUNT RECORD
fn put_end(out: &mut [u8], at: usize, state: State) -> usize
    ensures { Gives (SaysEnd state) out.old at out.new result }
{
    let whole = arriving::end(state);
    let last = arriving::answer(state).answer;
    let next = put_decimal(out, at, number(whole));
    let next = put_word(out, next, Word::Number(count(whole) as u64));
    reply::put_told(out, next, last, true)
}

// Gives a state piece after piece, one more than there are bytes `|`, so also an empty one behind the last byte. A line's text is so short that
// none is refused.
fn say_pieces(kind: Kind, s: &[u8], out: &mut [u8], at: usize) -> usize
    requires { length s.now ≤ 200 }
    ensures { Gives (SaysOf kind [] (pieces s.now)) out.old at out.new result }
{
    let mut state = arriving::start(kind);
    let mut next = at;
    for piece in s.split(|b| *b == b'|') {
        let _ = arriving::step(&mut state, piece);
        next = put_answer(out, next, state);
    }
    put_end(out, next, state)
}

// What `pieces` says of a line, without the line's end.
#[tactic(auto, using(reply::proofs::Asked::names_long))]
fn say(line: &[u8], out: &mut [u8], at: usize) -> usize
    ensures { Gives (Says line.now) out.old at out.new result }
{
    match reply::question(line) {
        Some(kind) => say_pieces(kind, &line[reply::head_of(line).from..], out, at),
        None => put_name(out, at, Name::Unknown),
    }
}

// The same with a byte 10 behind it.
pub fn pieces_line(line: &[u8], out: &mut [u8], at: usize) -> usize
    ensures { Gives (SaysLine line.now) out.old at out.new result }
{
    let next = say(line, out, at);
    put_byte(out, next, b'\n')
}
