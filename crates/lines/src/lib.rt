// The lines of an input that arrives in blocks.
//
// A program holds the beginning of the line that no byte 10 has ended yet in a buffer of its own. It gives each block to `take_line`, from the
// first byte on and then from the place behind what was taken, and gets a line at a time. That this gives each line of the input once and in
// order, however the input is cut into blocks, is `took_line` of `proofs/Laws.antt`.
#![tactic(auto)]

ghost use Rattle.std.specs.Prelude.{min, ◌≡◌};
ghost use Rattle.lines.specs.Lines.{place_of, Takes};

// How many bytes are held of a line, and the place behind what was taken of the block. `ended`: the line is finished.
#[derive(Clone, Copy)]
pub struct Taken {
    pub held: usize,
    pub used: usize,
    pub ended: bool,
}

// The lesser of two numbers: of a count that is told and what a buffer holds.
pub fn lesser(a: usize, b: usize) -> usize
    ensures { result ≡ min a b }
{
    a.min(b)
}

// The place of the first byte `byte` at or after `at`. Past the end there is none. Not copied into its callers: there the search takes half as
// many steps again for a byte.
#[tactic(auto, using(crate::proofs::Ends::place_past))]
#[inline(never)]
pub fn place_of(s: &[u8], at: usize, byte: u8) -> Option<usize>
    ensures { result ≡ place_of byte s.now at }
{
    let place = s.get(at..)?.iter().position(|&b| b == byte)?;
    Some(at + place)
}

// Takes the bytes of a block from a place on, up to and with the first byte 10, or all of them where there is none, and puts those of the
// line behind the `held` bytes of `kept`. What has no room there is taken and not kept.
#[tactic(auto, using(crate::proofs::Laws::end_within, crate::proofs::Ends::takes_nothing))]
pub fn take_line(kept: &mut [u8], held: usize, block: &[u8], from: usize) -> Taken
    ensures { Takes held block.now from kept.old kept.new result }
{
    match place_of(block, from, 10) {
        Some(end) => Taken {
            held: text::put(kept, held, &block[from..end]),
            used: end + 1,
            ended: true,
        },
        None if from < block.len() => Taken {
            held: text::put(kept, held, &block[from..]),
            used: block.len(),
            ended: false,
        },
        None => Taken {
            held,
            used: from,
            ended: false,
        },
    }
}
