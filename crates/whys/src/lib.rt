// What broke a text, for C. A library of its own: what stands on all readers at once would be a second caller of each, and the compiler copies a
// reader into its caller only where it has one (docs/BENCHMARKS.md). The header is exports' tirozhbar.h.
#![tactic(auto)]

ghost use Rattle.whys.specs.Promise.{WhyTells};

use kinds::answer::among_five;
use types::Choices;

// No letter of a kind.
const NO_SUCH_KIND: u32 = 253;

// Says what broke a text of the kind that a letter names, no interval, under document 01's choices, and how long the part is that is handed
// back.
#[unsafe(no_mangle)]
pub extern "C" fn tirozhbar_why(kind: u8, s: &[u8], place: &mut u64) -> u32
    ensures { WhyTells kind s.now place.old place.new result }
{
    match among_five(kinds::kind_of(kind, Choices::DOCUMENT_01)) {
        Some(kind) => {
            let reason = breaks::why(kind, s);
            *place = reason.handed(s.len()) as u64;
            reason.number()
        }
        None => NO_SUCH_KIND,
    }
}
