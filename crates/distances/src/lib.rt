// What `apart` says of a line: how far the second of its two texts lies behind the first, `SECONDS NANOS` or `refused N`. Programs stand on
// `apart_line`.
#![tactic(auto)]

ghost use Rattle.std.specs.Prelude.{◌≡◌, ◌++◌};
ghost use Rattle.moments.specs.Moments.{fault_number};
ghost use Rattle.text.specs.Text.{Puts, decimal};
ghost use Rattle.reply.specs.Line.{Gives, head_of};
ghost use Rattle.spellings.specs.Said.{refused_word};
ghost use Rattle.distances.specs.Distances.{IsText, signed, apart_text, Away, AwayLine};
ghost use Rattle.distances.specs.Found.{Decides, Headed, Heads, Finds};

use moments::{Apart, Fault, Faulty};
use text::{put, put_byte, put_decimal};
use types::Choices;
use words::rows::put_name;
use words::word::Name;

// As long as a text of a line gets.
const LONGEST: usize = 200;

// What a line asks: how far the second text lies behind the first.
#[derive(Clone, Copy)]
struct Asked<'a> {
    choices: Choices,
    first: &'a [u8],
    second: &'a [u8],
}

// Whether some bytes are a text: at most so many, and no space.
fn is_text(s: &[u8]) -> bool
    ensures { Decides (IsText s.now) result }
{
    s.len() <= LONGEST && !s.contains(&b' ')
}

// What a line asks whose texts stand from a place on: they are parted by its next space.
#[tactic(auto, using(lines::proofs::Laws::place_within))]
fn texts_from(line: &[u8], from: usize, choices: Choices) -> Option<Asked>
    requires { Heads choices from line.now }
    ensures { Finds line.now result }
{
    let space = lines::place_of(line, from, b' ')?;
    let first = &line[from..space];
    let second = &line[space + 1..];
    if is_text(first) && is_text(second) {
        Some(Asked {
            choices,
            first,
            second,
        })
    } else {
        None
    }
}

// Whether a line begins with the letter of a date-time, and has a space last in the head that `head_of` finds, which ends at a place.
#[tactic(auto, using(reply::proofs::Asked::head_size))]
fn is_headed(line: &[u8], from: usize) -> bool
    requires { from ≡ (head_of line.now).from }
    ensures { Decides (Headed line.now) result }
{
    from <= line.len() && line[0] == b's' && line[from - 1] == b' '
}

// What a line asks, if anything.
#[tactic(auto, using(crate::proofs::Heads::heads, crate::proofs::Search::headless))]
fn find_texts(line: &[u8]) -> Option<Asked>
    ensures { Finds line.now result }
{
    let head = reply::head_of(line);
    if is_headed(line, head.from) {
        texts_from(line, head.from, head.choices)
    } else {
        None
    }
}

// A number in decimal, with its minus where it has one.
fn put_signed(n: i64, out: &mut [u8], at: usize) -> usize
    ensures { Puts (signed n) out.old at out.new result }
{
    if n < 0 {
        let next = put_byte(out, at, b'-');
        put_decimal(out, next, n.unsigned_abs())
    } else {
        put_decimal(out, at, n as u64)
    }
}

// refused N
fn put_refused(fault: Fault, out: &mut [u8], at: usize) -> usize
    ensures { Puts (refused_word ++ decimal (fault_number fault)) out.old at out.new result }
{
    let next = put(out, at, b"refused ");
    put_decimal(out, next, fault.number() as u64)
}

// SECONDS NANOS or refused N
fn put_apart(apart: Result<Apart, Faulty>, out: &mut [u8], at: usize) -> usize
    ensures { Puts (apart_text apart) out.old at out.new result }
{
    match apart {
        Ok(apart) => {
            let next = put_signed(apart.seconds, out, at);
            let next = put_byte(out, next, b' ');
            put_decimal(out, next, apart.nanoseconds as u64)
        }
        Err(Faulty::First(fault) | Faulty::Second(fault)) => put_refused(fault, out, at),
    }
}

// What is said of a line, without its end.
fn say(line: &[u8], out: &mut [u8], at: usize) -> usize
    ensures { Gives (Away line.now) out.old at out.new result }
{
    match find_texts(line) {
        Some(asked) => put_apart(
            gaps::apart(asked.first, asked.second, asked.choices),
            out,
            at,
        ),
        None => put_name(out, at, Name::Unknown),
    }
}

// The same with a byte 10 behind it.
pub fn apart_line(line: &[u8], out: &mut [u8], at: usize) -> usize
    ensures { Gives (AwayLine line.now) out.old at out.new result }
{
    let next = say(line, out, at);
    put_byte(out, next, b'\n')
}
