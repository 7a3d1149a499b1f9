// The two readers of an offset, on the rule in crates/offset: one of bytes that begin with it, one of bytes that are it as a whole.
#![tactic(auto)]

ghost use Rattle.parser.specs.Reading.{got};
ghost use Rattle.parser.specs.Answer.{Rest, refused, ended};
ghost use Rattle.offset.specs.Rules.{offset};
ghost use Rattle.offsets.specs.Answer.{offset_reads, offset_parses};

use parser::answer::{Answer, Read, begun, rest, whole};
use types::Offset;

// Reads the offset that the bytes begin with.
#[tactic(auto, using(offset::proofs::Laws::offset_begins))]
pub fn offset(s: &[u8]) -> Read<Offset>
    ensures { offset_reads s.now result }
{
    begun(offset::plain::offset_begun(s))
}

// The bytes that `offset` leaves: those after the offset, or all of them where there is none.
pub fn offset_rest(s: &[u8]) -> &[u8]
    ensures { Rest offset s.now result.now }
{
    rest(offset::offset_at(s, 0), s)
}

// Reads bytes that are one offset from the first to the last.
pub fn parse_offset(s: &[u8]) -> Answer<Offset>
    ensures { offset_parses s.now result }
{
    whole(offset::offset_at(s, 0), s.len())
}
