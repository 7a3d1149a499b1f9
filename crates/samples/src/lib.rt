// A line of a sample of another library's answers, held against ours: a kind, a space, the bytes of a text in hexadecimal, a tab, and what the
// other library told of it
//
//     K HEXBYTES TAB B COUNT W WCOUNT RECORD
//
// in the words of `answers`, without the verdict and a time's digits. The response is `same`, or `differs` and our answer.
#![tactic(auto)]

ghost use Rattle.std.specs.Prelude.{◌≡◌, length, ◌<◌};
ghost use Rattle.text.specs.Text.{Puts};
ghost use Rattle.reply.specs.Line.{Gives};
ghost use Rattle.samples.specs.Samples.{nibble_of, unhex, question_in, Tells, Told, Compared, tab_of, Compares, ComparesLine};

use text::{put, put_byte};

// The number of a hexadecimal digit.
fn nibble(b: u8) -> u8
    ensures value { result ≡ nibble_of b }
    ensures upper_bound { result < 16 }
{
    if b <= b'9' { b % 16 } else { (b % 16 + 9) % 16 }
}

// Puts the bytes that stand in hexadecimal.
fn put_unhexed(out: &mut [u8], at: usize, hex: &[u8]) -> usize
    ensures { Puts (unhex hex.now) out.old at out.new result }
{
    let mut next = at;
    for pair in hex.chunks_exact(2) {
        next = put_byte(out, next, nibble(pair[0]) * 16 + nibble(pair[1]));
    }
    next
}

// Puts the question of a line whose tab stands at `tab`: its head, and its text as bytes.
#[tactic(auto, using(text::proofs::Laws::puts_append, crate::proofs::Laws::early_question, crate::proofs::Laws::later_question))]
fn put_question(out: &mut [u8], line: &[u8], tab: usize) -> usize
    requires { tab < length line.now }
    ensures { Puts (question_in tab line.now) out.old 0 out.new result }
{
    let from = reply::head_of(line).from;
    if tab < from {
        return put(out, 0, &line[..tab]);
    }
    let next = put(out, 0, &line[..from]);
    put_unhexed(out, next, &line[from..tab])
}

// Puts our answer to the question of a line.
fn put_ours(line: &[u8], tab: usize, out: &mut [u8]) -> usize
    requires { tab < length line.now }
    ensures { Gives (Told line.now tab) out.old 0 out.new result }
{
    let mut question = [0u8; 205]; // one byte more than any question: a longer one is unknown
    let n = put_question(&mut question, line, tab);
    reply::answer(&question[..n], false, out, 0)
}

// Whether two answers are the same.
fn put_compared(ours: &[u8], theirs: &[u8], out: &mut [u8], at: usize) -> usize
    ensures { Gives (Tells ours.now theirs.now) out.old at out.new result }
{
    if ours == theirs {
        return put(out, at, b"same");
    }
    let next = put(out, at, b"differs ");
    put(out, next, ours)
}

// The response to a line whose tab stands at `tab`.
fn put_sampled(line: &[u8], tab: usize, out: &mut [u8], at: usize) -> usize
    requires { tab < length line.now }
    ensures { Gives (Compared line.now tab) out.old at out.new result }
{
    let mut ours = [0u8; 800];
    let n = put_ours(line, tab, &mut ours);
    put_compared(&ours[..n], &line[tab + 1..], out, at)
}

// The place of a line's tab. A line of more than 1,023 bytes is taken for one without a tab.
#[tactic(auto, unfolding(crate::specs::Samples::tab_of))]
fn tab_of(line: &[u8]) -> Option<usize>
    ensures { result ≡ tab_of line.now }
{
    if 1023 < line.len() {
        return None;
    }
    lines::place_of(line, 0, b'\t')
}

// The response to a line without its end.
#[tactic(auto, using(crate::proofs::Lines::tab_within))]
fn compare(line: &[u8], out: &mut [u8], at: usize) -> usize
    ensures { Gives (Compares line.now) out.old at out.new result }
{
    match tab_of(line) {
        Some(tab) => put_sampled(line, tab, out, at),
        None => put(out, at, b"unknown"),
    }
}

// The response to a line, with its byte 10.
pub fn compare_line(line: &[u8], out: &mut [u8], at: usize) -> usize
    ensures { Gives (ComparesLine line.now) out.old at out.new result }
{
    let next = compare(line, out, at);
    put_byte(out, next, b'\n')
}
