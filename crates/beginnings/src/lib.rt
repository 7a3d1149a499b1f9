// What arrives in pieces beside what is read afresh, for counting. A kind is named by its letter, so that C can call these; a letter that
// names none gives 0.
#![tactic(auto)]

ghost use Rattle.std.specs.Prelude.{◌≡◌};
ghost use Rattle.beginnings.specs.Beginnings.{count_of, count_accepted, greatest_count, lettered};

use kinds::answer::Kind;
use parser::answer::count;
use types::Choices;

fn at_once(kind: Kind, s: &[u8]) -> usize
    ensures { result ≡ count_of kind s.now }
{
    count(kinds::read(kind, s).answer)
}

fn one_piece(kind: Kind, s: &[u8]) -> usize
    ensures { result ≡ count_accepted kind s.now }
{
    let mut state = arriving::start(kind);
    // A piece that is too long leaves the state as it was.
    let _ = arriving::step(&mut state, s);
    count(arriving::answer(state).answer)
}

// An answer after each byte.
fn byte_by_byte(kind: Kind, s: &[u8]) -> usize
    ensures { result ≡ greatest_count kind s.now }
{
    let mut state = arriving::start(kind);
    let mut most = 0usize;
    for i in 0..s.len().min(arriving::MOST) {
        let _ = arriving::step(&mut state, &s[i..i + 1]);
        most = most.max(count(arriving::answer(state).answer));
    }
    most
}

// The same beginnings, each read by itself.
#[tactic(auto, unfolding(crate::specs::Beginnings::greatest), using(crate::proofs::Counts::greatest_more))]
fn afresh(kind: Kind, s: &[u8]) -> usize
    ensures { result ≡ greatest_count kind s.now }
{
    let mut most = 0usize;
    for i in 0..s.len().min(arriving::MOST) {
        most = most.max(at_once(kind, &s[..i + 1]));
    }
    most
}

// Start, one step with all bytes, one answer: its count.
#[unsafe(no_mangle)]
pub extern "C" fn tirozhbar_one_piece(letter: u8, s: &[u8]) -> usize
    ensures { result ≡ lettered count_accepted letter s.now }
{
    kinds::kind_of(letter, Choices::DOCUMENT_01).map_or(0, |kind| one_piece(kind, s))
}

// One reading: its count.
#[unsafe(no_mangle)]
pub extern "C" fn tirozhbar_at_once(letter: u8, s: &[u8]) -> usize
    ensures { result ≡ lettered count_of letter s.now }
{
    kinds::kind_of(letter, Choices::DOCUMENT_01).map_or(0, |kind| at_once(kind, s))
}

// A step for each byte and an answer after it: the greatest count.
#[unsafe(no_mangle)]
pub extern "C" fn tirozhbar_byte_by_byte(letter: u8, s: &[u8]) -> usize
    ensures { result ≡ lettered greatest_count letter s.now }
{
    kinds::kind_of(letter, Choices::DOCUMENT_01).map_or(0, |kind| byte_by_byte(kind, s))
}

// A reading of each beginning: the greatest count.
#[unsafe(no_mangle)]
pub extern "C" fn tirozhbar_afresh(letter: u8, s: &[u8]) -> usize
    ensures { result ≡ lettered greatest_count letter s.now }
{
    kinds::kind_of(letter, Choices::DOCUMENT_01).map_or(0, |kind| afresh(kind, s))
}
