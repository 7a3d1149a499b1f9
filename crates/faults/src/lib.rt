// What `why` says of a line: `ok`, `early N` or `bad N`, and where it is to be shown, the text again with a `^` under the first bad byte or under
// the end. Programs stand on `why_line`.
#![tactic(auto)]

ghost use Rattle.std.specs.Prelude.{◌≡◌, replicate};
ghost use Rattle.text.specs.Text.{Puts};
ghost use Rattle.reply.specs.Line.{Gives};
ghost use Rattle.faults.specs.Faults.{reason_text, printed_of, printed, drawn, drawing, Explains, WhyLine};

use breaks::Reason;
use kinds::answer::Kind;
use text::{put, put_byte, put_decimal};
use words::rows::put_name;
use words::word::Name;

// ok, early N or bad N
fn put_reason(reason: Reason, all: usize, out: &mut [u8], at: usize) -> usize
    ensures { Puts (reason_text all reason) out.old at out.new result }
{
    match reason {
        Reason::Ok => put(out, at, b"ok"),
        Reason::Early => {
            let next = put(out, at, b"early ");
            put_decimal(out, next, all as u64)
        }
        Reason::Bad { at: place } => {
            let next = put(out, at, b"bad ");
            put_decimal(out, next, place as u64)
        }
    }
}

// A byte as it is shown: one that does not print is a point.
fn shown_as(byte: u8) -> u8
    ensures { result ≡ printed_of byte }
{
    match byte {
        32..=126 => byte,
        _ => b'.',
    }
}

#[tactic(auto, using(text::proofs::Laws::puts_nothing))]
fn put_printed(s: &[u8], out: &mut [u8], at: usize) -> usize
    ensures { Puts (printed s.now) out.old at out.new result }
{
    let mut next = at;
    for &byte in s {
        next = put_byte(out, next, shown_as(byte));
    }
    next
}

#[tactic(auto, using(text::proofs::Laws::puts_nothing))]
fn put_spaces(n: usize, out: &mut [u8], at: usize) -> usize
    ensures { Puts (replicate n 32) out.old at out.new result }
{
    let mut next = at;
    for _ in 0..n {
        next = put_byte(out, next, b' ');
    }
    next
}

// The text, and a `^` under the byte at a place.
fn draw(s: &[u8], place: usize, out: &mut [u8], at: usize) -> usize
    ensures { Puts (drawn s.now place) out.old at out.new result }
{
    let next = put_printed(s, out, at);
    let next = put_byte(out, next, b'\n');
    let next = put_spaces(place, out, next);
    put(out, next, b"^\n")
}

// The drawing of a text that is refused, where it is to be shown.
#[tactic(auto, using(text::proofs::Laws::puts_nothing))]
fn put_drawing(reason: Reason, s: &[u8], shown: bool, out: &mut [u8], at: usize) -> usize
    ensures { Puts (drawing shown s.now reason) out.old at out.new result }
{
    match reason {
        Reason::Early if shown => draw(s, s.len(), out, at),
        Reason::Bad { at: place } if shown => draw(s, place, out, at),
        _ => at,
    }
}

fn explain(kind: Kind, s: &[u8], shown: bool, out: &mut [u8], at: usize) -> usize
    ensures { Gives (Explains shown kind s.now) out.old at out.new result }
{
    let reason = breaks::why(kind, s);
    let next = put_reason(reason, s.len(), out, at);
    let next = put_byte(out, next, b'\n');
    put_drawing(reason, s, shown, out, next)
}

// What is said of a line, with the byte 10 of each line of it.
#[tactic(auto, using(reply::proofs::Asked::plain_long))]
pub fn why_line(line: &[u8], shown: bool, out: &mut [u8], at: usize) -> usize
    ensures { Gives (WhyLine shown line.now) out.old at out.new result }
{
    match reply::plain_question(line) {
        Some(kind) => explain(kind, &line[2..], shown, out, at),
        None => {
            let next = put_name(out, at, Name::Unknown);
            put_byte(out, next, b'\n')
        }
    }
}
