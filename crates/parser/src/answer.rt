// What the two readers of a kind answer, made of what reading from the first byte on found.
ghost use Rattle.std.specs.Prelude.{◌≡◌};
ghost use Rattle.parser.specs.Answer.{begun, ended, rest_of, verdict_of};
ghost use Rattle.parser.specs.Read.{got_found, got_more};
ghost use Rattle.parser.specs.Told.{told, refusal_of};

use crate::{Found, Miss, leftover, verdict_on};
use types::{Refusal, Verdict};

// A record and the count of its bytes. The count stands first here and where there is no record, so that no word of a record lies over it.
#[derive(Clone, Copy)]
pub struct Counted<T> {
    pub count: usize,
    pub value: T,
}

// Why there is no record, and the bytes that the form took: 0 unless bytes are left over.
#[derive(Clone, Copy)]
pub struct Refused {
    pub count: usize,
    pub why: Refusal,
}

pub type Answer<T> = Result<Counted<T>, Refused>;

// The answer on a beginning, and whether a longer input could get another.
#[derive(Clone, Copy)]
pub struct Read<T> {
    pub answer: Answer<T>,
    pub verdict: Verdict,
}

impl Miss {
    // Why bytes that begin so are no record.
    #[inline(always)]
    fn refused(self) -> Refused
        ensures { result ≡ record { why = refusal_of self; count = 0 } }
    {
        let why = match self {
            Miss::Stopped(why) => why,
            Miss::Wrong => Refusal::NoForm,
            Miss::Cut => Refusal::NoForm,
        };
        Refused { why, count: 0 }
    }
}

// Of a beginning reader.
#[tactic(auto, using(crate::proofs::Missed::begun_missed))]
#[inline(always)]
pub fn begun<T: Copy>(found: Found<T>) -> Read<T>
    ensures answer { told result.answer ≡ begun (got_found found) }
    ensures verdict { result.verdict ≡ verdict_of (got_more found) }
{
    match found {
        Ok(got) => Read {
            answer: Ok(Counted {
                value: got.value,
                count: got.next,
            }),
            verdict: verdict_on(got.more),
        },
        Err(miss) => Read {
            answer: Err(miss.refused()),
            verdict: verdict_on(miss.is_cut()),
        },
    }
}

// Of a whole reader, of so many bytes.
#[tactic(auto, using(crate::proofs::Missed::ended_missed))]
#[inline(always)]
pub fn whole<T: Copy>(found: Found<T>, all: usize) -> Answer<T>
    ensures { told result ≡ ended all (got_found found) }
{
    match found {
        Ok(got) => {
            let count = got.next;
            if count < all {
                Err(Refused {
                    why: Refusal::LeftOver,
                    count,
                })
            } else {
                Ok(Counted {
                    value: got.value,
                    count,
                })
            }
        }
        Err(miss) => Err(miss.refused()),
    }
}

// The bytes that a beginning reader leaves: those after the record, or all of them where there is none.
pub fn rest<T: Copy>(found: Found<T>, s: &[u8]) -> &[u8]
    ensures { result.now ≡ rest_of s.now (got_found found) }
{
    match found {
        Ok(got) => leftover(s, got.next),
        Err(_) => s,
    }
}

// 0 for a record, and else the paper's number of the refusal.
#[inline(always)]
pub fn number<T: Copy>(answer: Answer<T>) -> u64
    ensures { result ≡ (told answer).number }
{
    match answer {
        Ok(_) => 0,
        Err(refused) => refused.why.number() as u64,
    }
}

// The bytes read; of a refusal those that the form took.
#[inline(always)]
pub fn count<T: Copy>(answer: Answer<T>) -> usize
    ensures { result ≡ (told answer).count }
{
    match answer {
        Ok(record) => record.count,
        Err(refused) => refused.count,
    }
}
