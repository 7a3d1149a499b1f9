// The two readers of a duration, on the rule in crates/duration: one of bytes that begin with it, one of bytes that are it as a whole.
#![tactic(auto)]

ghost use Rattle.parser.specs.Answer.{Rest};
ghost use Rattle.duration.specs.Rules.{duration};
ghost use Rattle.durations.specs.Answer.{duration_reads, duration_parses};

use parser::answer::{Answer, Read, begun, rest, whole};
use types::Duration;

// Reads the duration that the bytes begin with, in the format P%dY%dM%dDT%dH%dM%dS
//
// * Fully-specified duration: `P1Y2M3DT4H5M6S`
// * Duration in weekly intervals: `P1W`
//
// The `T` may be absent. No range is asked of a part but that its number is at most 18,446,744,073,709,551,615.
#[tactic(auto, using(duration::proofs::Laws::duration_begins))]
pub fn duration(s: &[u8]) -> Read<Duration>
    ensures { duration_reads s.now result }
{
    begun(duration::duration_at(s, 0))
}

// The bytes that `duration` leaves: those after the duration, or all of them where it refuses.
pub fn duration_rest(s: &[u8]) -> &[u8]
    ensures { Rest duration s.now result.now }
{
    rest(duration::duration_at(s, 0), s)
}

// Reads bytes that are one duration from the first to the last.
pub fn parse_duration(s: &[u8]) -> Answer<Duration>
    ensures { duration_parses s.now result }
{
    whole(duration::duration_at(s, 0), s.len())
}
