// What broke a text. If the whole reader accepts it, that is said; else, if some continuation of it is accepted, that it ends early; else
// which is the first byte after which none is. And the part of the text before that byte.
//
// All of it under document 01's rules, edition 2019, whatever choices a kind is named with. A text can be completed exactly where it is open or
// accepted, so that one reading tells it, and what begins such a text can be completed too, so that the place is found by halving.
#![tactic(auto)]

ghost use Rattle.std.specs.Prelude.{◌≡◌};
ghost use Rattle.breaks.specs.Breaks.{under2019, BreaksAt, Completable, Tells, numbered, handed, Hands};
ghost use Rattle.breaks.specs.Standing.{wholly, Stands};

use kinds::answer::{Answer, Kind};
use types::{Choices, Verdict};

// What is to be said of a text. `at` is the place of the first bad byte.
#[derive(Clone, Copy)]
pub enum Reason {
    Ok,
    Early,
    Bad { at: usize },
}

impl Reason {
    // 0 ok, 1 early, 2 bad.
    pub fn number(self) -> u32
        ensures { result ≡ numbered self }
    {
        match self {
            Reason::Ok => 0,
            Reason::Early => 1,
            Reason::Bad { at: _ } => 2,
        }
    }

    // The length of the part that is handed back, of a text of so many bytes.
    pub fn handed(self, all: usize) -> usize
        ensures { result ≡ handed all self }
    {
        match self {
            Reason::Ok | Reason::Early => all,
            Reason::Bad { at } => at,
        }
    }
}

// What one reading tells: accepted; not, but some continuation is; or none is.
#[derive(Clone, Copy)]
enum Standing {
    Accepted,
    Unfinished,
    Broken,
}

fn by_2019(kind: Kind) -> Kind
    ensures { result ≡ under2019 kind }
{
    match kind {
        Kind::Time(_) => Kind::Time(Choices::DOCUMENT_01),
        Kind::Stamp(_) => Kind::Stamp(Choices::DOCUMENT_01),
        Kind::Interval(_) => Kind::Interval(Choices::DOCUMENT_01),
        Kind::Date | Kind::Offset | Kind::Duration => kind,
    }
}

// Whether an answer is a record of so many bytes.
fn is_whole(answer: Answer, all: usize) -> bool
    ensures { result ≡ wholly answer all }
{
    answer.is_ok_and(|found| found.count == all)
}

#[tactic(auto, using(crate::proofs::Laws::whole_accepted, crate::proofs::Laws::settled_broken))]
fn standing_of(kind: Kind, s: &[u8]) -> Standing
    ensures { Stands kind s.now result }
{
    let read = kinds::read(by_2019(kind), s);
    if is_whole(read.answer, s.len()) {
        return Standing::Accepted;
    }
    match read.verdict {
        Verdict::Open => Standing::Unfinished,
        Verdict::Settled => Standing::Broken,
    }
}

// The place of the first bad byte. Up to `low` the text can be completed, up to `high` it cannot.
fn first_bad(kind: Kind, s: &[u8]) -> usize
    requires { Completable kind s.now → ⊥ }
    ensures { BreaksAt kind s.now result }
{
    let mut low = 0;
    let mut high = s.len();
    while 1 < high - low {
        let middle = low + (high - low) / 2;
        match standing_of(kind, &s[..middle]) {
            Standing::Accepted | Standing::Unfinished => low = middle,
            Standing::Broken => high = middle,
        }
    }
    low
}

// What is to be said of a text.
pub fn why(kind: Kind, s: &[u8]) -> Reason
    ensures { Tells kind s.now result }
{
    match standing_of(kind, s) {
        Standing::Accepted => Reason::Ok,
        Standing::Unfinished => Reason::Early,
        Standing::Broken => Reason::Bad {
            at: first_bad(kind, s),
        },
    }
}

// The part before the first bad byte; all of the text where there is none.
pub fn part(kind: Kind, s: &[u8]) -> &[u8]
    ensures { Hands kind s.now result.now }
{
    let n = why(kind, s).handed(s.len());
    &s[..n]
}
