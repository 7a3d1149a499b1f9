// The programs that answer lines, and one way over blocks for all of them.
//
// A program is a value, and `respond` puts its response to a line. Whoever reads an input block by block gives each block to `step`, which puts
// the responses of the lines that the block ends, and at the end of the input calls `finish`. What was put then, one behind the other, is the
// responses to the lines of all bytes so far, in order, each once.
#![tactic(auto)]

ghost use Rattle.std.specs.Prelude.{◌+◌, ◌≤◌, length};
ghost use Rattle.reply.specs.Line.{Gives};
ghost use Rattle.stream.specs.Stream.{Responds, One, Steps, Finishes};

// A program, by the responses that it gives.
#[derive(Clone, Copy)]
pub enum Program {
    Answers,
    Replay,
    Spell,
    Pieces,
    Why,
    WhyShow,
    Apart,
}

// No program takes a line of so many bytes, so that of a longer one these are enough. A buffer for what is held has at least as many.
pub const LIMIT: usize = 1024;

// As much as any response takes, or more.
pub const ROOM: usize = 16384;

// What is held of a line that no byte 10 has ended yet, how far a block is used, and the place behind what was put.
#[derive(Clone, Copy)]
pub struct Reached {
    pub held: usize,
    pub used: usize,
    pub at: usize,
}

// The response of a program to a line, with its byte 10.
pub fn respond(program: Program, line: &[u8], out: &mut [u8], at: usize) -> usize
    ensures { Gives (Responds program line.now) out.old at out.new result }
{
    match program {
        Program::Answers => reply::answer_line(line, out, at),
        Program::Replay => samples::compare_line(line, out, at),
        Program::Spell => spellings::spell_line(line, out, at),
        Program::Pieces => cuts::pieces_line(line, out, at),
        Program::Why => faults::why_line(line, false, out, at),
        Program::WhyShow => faults::why_line(line, true, out, at),
        Program::Apart => distances::apart_line(line, out, at),
    }
}

// One line: takes it, or the beginning of it, and puts its response.
fn one_line(
    program: Program,
    kept: &mut [u8],
    block: &[u8],
    out: &mut [u8],
    now: Reached,
) -> Reached
    requires { (now.held ≤ length kept.old) × (now.at + 16384 ≤ length out.old) }
    ensures { One program now.held block.now now.used kept.old out.old now.at kept.new out.new result }
{
    let taken = lines::take_line(kept, now.held, block, now.used);
    let used = taken.used;
    if taken.ended {
        return Reached {
            held: 0,
            used,
            at: respond(program, &kept[..taken.held], out, now.at),
        };
    }
    Reached {
        held: taken.held,
        used,
        at: now.at,
    }
}

// Takes a block from a place on, and puts the responses of the lines that it ends, from the front of `out` on. It stops early where `out` has
// no room for one response more: then the caller writes out what was put, and steps on from the place that was reached.
pub fn step(
    program: Program,
    kept: &mut [u8],
    held: usize,
    block: &[u8],
    from: usize,
    out: &mut [u8],
) -> Reached
    ensures { Steps program held block.now from kept.old out.old kept.new out.new result }
{
    let mut now = Reached {
        held: held.min(kept.len()),
        used: from,
        at: 0,
    };
    while now.used < block.len() && ROOM <= out.len() - now.at {
        now = one_line(program, kept, block, out, now);
    }
    now
}

// The end of the input: puts the response of the last line, where no byte 10 ended it and it is not empty.
pub fn finish(program: Program, kept: &[u8], held: usize, out: &mut [u8]) -> usize
    ensures { Finishes program held kept.now out.old out.new result }
{
    let n = held.min(kept.len());
    if n == 0 {
        return 0;
    }
    respond(program, &kept[..n], out, 0)
}
