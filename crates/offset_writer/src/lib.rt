// The writer of offsets: `Z`, or a signed `HH:MM`.
#![tactic(auto)]

ghost use Rattle.std.specs.Prelude.{◌≡◌, length};
ghost use Rattle.types.specs.Sums.{same_sign};
ghost use Rattle.offset.specs.Rules.{offset};
ghost use Rattle.text.specs.Text.{Puts};
ghost use Rattle.writing.specs.Spelling.{sign_byte, is_minus, is_zulu, shift_spelling, offset_spelling};
ghost use Rattle.writing.specs.Writing.{Measures, Writes};
ghost use Rattle.offset_writer.specs.Ranges.{offset_given};

use text::put_byte;
use types::Offset;
use writing::{Unwritten, put_two, room_for};

// Hours and minutes carry the same sign, or are zero.
#[tactic(auto, unfolding(types::specs::Sums::same_sign))]
fn same_sign(o: Offset) -> bool
    ensures { result ≡ same_sign o }
{
    (0 <= o.hours && 0 <= o.minutes) || (o.hours <= 0 && o.minutes <= 0)
}

// Whether some reader gives the offset.
#[tactic(auto, unfolding(crate::specs::Ranges::offset_given))]
fn offset_given(o: Offset) -> bool
    ensures { result ≡ offset_given o }
{
    o.hours.unsigned_abs() <= 23 && o.minutes.unsigned_abs() <= 59 && same_sign(o)
}

// Hours or minutes are below 0.
fn is_minus(o: Offset) -> bool
    ensures { result ≡ is_minus o }
{
    o.hours < 0 || o.minutes < 0
}

fn is_zulu(o: Offset) -> bool
    ensures { result ≡ is_zulu o }
{
    o.hours == 0 && o.minutes == 0
}

fn sign(o: Offset) -> u8
    ensures { result ≡ sign_byte (is_minus o) }
{
    if is_minus(o) { b'-' } else { b'+' }
}

// (+|-)HH:MM
#[tactic(auto, using(text::proofs::Laws::puts_append), unfolding(text::specs::Text::puts, writing::specs::Spelling::shift_spelling))]
fn put_shift(out: &mut [u8], at: usize, o: Offset) -> usize
    ensures { Puts (shift_spelling o) out.old at out.new result }
{
    let next = put_byte(out, at, sign(o));
    let next = put_two(out, next, o.hours.unsigned_abs());
    let next = put_byte(out, next, b':');
    put_two(out, next, o.minutes.unsigned_abs())
}

// Puts the offset's spelling.
#[tactic(auto, unfolding(writing::specs::Spelling::offset_spelling))]
pub fn put_offset(out: &mut [u8], at: usize, o: Offset) -> usize
    ensures { Puts (offset_spelling o) out.old at out.new result }
{
    if is_zulu(o) {
        put_byte(out, at, b'Z')
    } else {
        put_shift(out, at, o)
    }
}

#[tactic(auto, using(crate::proofs::Lengths::offset_size))]
fn spelled_length(o: Offset) -> usize
    ensures { result ≡ length (offset_spelling o) }
{
    if is_zulu(o) { 1 } else { 6 }
}

// The length of the offset's spelling, where some reader gives the offset.
#[tactic(auto, using(crate::proofs::Laws::offset_measures))]
pub fn offset_length(o: Offset) -> Option<usize>
    ensures { Measures offset o (offset_spelling o) result }
{
    offset_given(o).then_some(spelled_length(o))
}

// Writes the offset's spelling to the front of the buffer.
#[tactic(auto, using(writing::proofs::Laws::refused_writes))]
pub fn write_offset(o: Offset, buffer: &mut [u8]) -> Result<usize, Unwritten>
    ensures { Writes offset o (offset_spelling o) buffer.old buffer.new result }
{
    let count = room_for(offset_length(o), buffer)?;
    put_offset(buffer, 0, o);
    Ok(count)
}
