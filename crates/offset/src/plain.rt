// Offsets of the plain forms.
ghost use Rattle.parser.specs.Reading.{Says};
ghost use Rattle.parser.specs.Read.{got_found, got_more};
ghost use Rattle.offset.specs.Rules.{offset};

use crate::offset_at;
use looks::PlainOffset;
use parser::{Found, Got, Miss};
use types::Offset;

// An offset at the very beginning. The plain forms are tried before the rule.
#[inline(always)]
pub fn offset_begun(s: &[u8]) -> Found<Offset>
    ensures { Says offset s.now 0 (got_found result) (got_more result) }
{
    match looks::plain_offset(s, 0) {
        PlainOffset::Got { value, next } => Ok(Got {
            value,
            next,
            more: false,
        }),
        PlainOffset::End => Err(Miss::Cut),
        PlainOffset::Other => offset_at(s, 0),
    }
}
