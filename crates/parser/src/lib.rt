// Single bytes and the sign, each read from a place of the input (parser.rs). A place past the end is the end, and
// nothing is asked of a caller.
#![tactic(auto)]

ghost use Rattle.std.specs.Prelude.{◌≡◌, drop, nat_lt};
ghost use Rattle.parser.specs.Reading.{lit, or, no, got, pick, lack, map_found, Says};
ghost use Rattle.parser.specs.Fields.{either, signed};
ghost use Rattle.parser.specs.Answer.{verdict_of};
ghost use Rattle.parser.specs.Read.{place_after, cut, mark_found, mark_more, exact_found, exact_more, got_found, got_more, further, or_value};

use types::{Refusal, Verdict};

// What the two readers of a kind answer.
pub mod answer;

// Why nothing was read at a place. Wrong: nothing, whatever follows. Cut: nothing yet, but the input ended where it could still come right.
// Stopped: all reading ends, with that refusal.
#[derive(Clone, Copy)]
pub enum Miss {
    Wrong,
    Cut,
    Stopped(Refusal),
}

impl Miss {
    // The input ended where it could still come right.
    pub fn is_cut(self) -> bool
        ensures { result ≡ cut self }
    {
        match self {
            Miss::Cut => true,
            Miss::Wrong => false,
            Miss::Stopped(_) => false,
        }
    }
}

// What was read, and the place behind it: no longer input would change it.
#[derive(Clone, Copy)]
pub struct Exact<T> {
    pub value: T,
    pub next: usize,
}

// What was read, and the place behind it. `more`: the input ended where a byte more could still matter.
#[derive(Clone, Copy)]
pub struct Got<T> {
    pub value: T,
    pub next: usize,
    pub more: bool,
}

// What reading at a place finds.
pub type Found<T> = Result<Got<T>, Miss>;

#[tactic(auto, unfolding(crate::specs::Reading::lit))]
pub fn literal(s: &[u8], at: usize, c: u8) -> Result<usize, Miss>
    ensures { Says (lit c) s.now at (mark_found result) (mark_more result) }
{
    if s.len() <= at {
        return Err(Miss::Cut);
    }
    if s[at] == c {
        Ok(at + 1)
    } else {
        Err(Miss::Wrong)
    }
}

// Either of two bytes.
#[tactic(auto, unfolding(crate::specs::Reading::lit, crate::specs::Reading::alt, crate::specs::Reading::map))]
pub fn one_of(s: &[u8], at: usize, c: u8, d: u8) -> Result<usize, Miss>
    ensures { Says (either c d) s.now at (mark_found result) (mark_more result) }
{
    if s.len() <= at {
        return Err(Miss::Cut);
    }
    let b = s[at];
    if b == c || b == d {
        Ok(at + 1)
    } else {
        Err(Miss::Wrong)
    }
}

// `-` or `+`: whether it is the minus.
#[tactic(auto, unfolding(crate::specs::Reading::lit, crate::specs::Reading::alt, crate::specs::Reading::map))]
pub fn sign(s: &[u8], at: usize) -> Result<Exact<bool>, Miss>
    ensures { Says signed s.now at (exact_found result) (exact_more result) }
{
    if s.len() <= at {
        return Err(Miss::Cut);
    }
    let b = s[at];
    if b == b'-' || b == b'+' {
        Ok(Exact {
            value: b == b'-',
            next: at + 1,
        })
    } else {
        Err(Miss::Wrong)
    }
}

// What was read from `at` to `next`, if that lies further on. `more`: the input ends there.
pub fn further<T: Copy>(at: usize, next: usize, value: T, more: bool) -> Found<T>
    ensures is { result ≡ further (nat_lt at next) more value next }
    ensures found { got_found result ≡ pick (nat_lt at next) (got value next) no }
    ensures more { got_more result ≡ more }
{
    if at < next {
        return Ok(Got { value, next, more });
    }
    Err(if more { Miss::Cut } else { Miss::Wrong })
}

// What may be left out, looked for at `at`, and what stands for it then.
pub fn or_absent<T: Copy>(at: usize, found: Found<T>, absent: T) -> Found<T>
    ensures found { got_found result ≡ map_found (or_value absent) (lack at (got_found found)) }
    ensures more { got_more result ≡ got_more found }
{
    match found {
        Ok(got) => Ok(got),
        Err(Miss::Stopped(why)) => Err(Miss::Stopped(why)),
        Err(miss) => Ok(Got {
            value: absent,
            next: at,
            more: miss.is_cut(),
        }),
    }
}

// The same, where what is looked for is never open.
pub fn optional<T: Copy>(at: usize, found: Result<Exact<T>, Miss>, absent: T) -> Found<T>
    ensures found { got_found result ≡ map_found (or_value absent) (lack at (exact_found found)) }
    ensures more { got_more result ≡ exact_more found }
{
    match found {
        Ok(read) => Ok(Got {
            value: read.value,
            next: read.next,
            more: false,
        }),
        Err(miss) => or_absent(at, Err(miss), absent),
    }
}

// The place after the byte `c`, where it stands at `at`; else `at` itself.
#[tactic(auto, unfolding(crate::specs::Reading::lit))]
pub fn past(s: &[u8], at: usize, c: u8) -> usize
    ensures { result ≡ place_after at ((lit c).reads s.now at) }
{
    if at < s.len() && s[at] == c {
        return at + 1;
    }
    at
}

// The bytes from a count on: what a reader that took so many leaves.
pub fn leftover(s: &[u8], count: usize) -> &[u8]
    ensures { result.now ≡ drop count s.now }
{
    &s[count.min(s.len())..]
}

// The verdict on a reading: whether a byte more could still matter.
pub fn verdict_on(more: bool) -> Verdict
    ensures { result ≡ verdict_of more }
{
    if more {
        Verdict::Open
    } else {
        Verdict::Settled
    }
}

// Whether either of two readings was left open.
pub fn either_open(first: bool, second: bool) -> bool
    ensures { result ≡ or first second }
{
    first || second
}
