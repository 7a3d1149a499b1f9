// The answer to a line: what the beginning reader and the whole reader of the kind that it names tell of its text, as
//
//     B COUNT VERDICT W WCOUNT RECORD
//
// put into a buffer of the caller's. Programs stand on `answer_line`.
#![tactic(auto)]

ghost use Rattle.std.specs.Prelude.{◌≤◌, ◌≡◌};
ghost use Rattle.parser.specs.Told.{told};
ghost use Rattle.text.specs.Text.{Puts};
ghost use Rattle.words.specs.Words.{text_of};
ghost use Rattle.reply.specs.Line.{stamp_words, sides_words, record_words, record_or_dash, Gives, Answered, has, head_from, head_of, question_in, question_of, plain_question, Answers, AnswersLine};

use kinds::answer::{Answer, Kind, Record, among_five};
use parser::answer::{count, number};
use text::{put_byte, put_decimal};
use types::{Choices, DateTime, Edition, IntervalRange, Reading};
use words::records;
use words::rows::{put_name, put_word, put_words};
use words::word::{Name, Word};

// A date-time's words: the date's, then the time's.
#[tactic(auto, using(words::proofs::Laws::text_append, text::proofs::Laws::puts_append))]
fn put_stamp(out: &mut [u8], at: usize, v: DateTime, shown: bool) -> usize
    ensures { Puts (text_of (stamp_words shown v)) out.old at out.new result }
{
    let next = put_words(out, at, &records::date(v.date));
    put_words(out, next, &records::time(v.time, shown))
}

// The words of both records of an interval, one behind the other; a dash for the second of a duration alone.
#[tactic(auto, using(words::proofs::Laws::text_append, text::proofs::Laws::puts_append))]
fn put_sides(out: &mut [u8], at: usize, range: IntervalRange, shown: bool) -> usize
    ensures { Puts (text_of (sides_words shown range)) out.old at out.new result }
{
    match range {
        IntervalRange::Closed { start, end } => {
            let next = put_stamp(out, at, start, shown);
            put_stamp(out, next, end, shown)
        }
        IntervalRange::ClosedEnd { duration, end } => {
            let next = put_words(out, at, &records::duration(duration));
            put_stamp(out, next, end, shown)
        }
        IntervalRange::ClosedStart { start, duration } => {
            let next = put_stamp(out, at, start, shown);
            put_words(out, next, &records::duration(duration))
        }
        IntervalRange::Open { duration } => {
            let next = put_words(out, at, &records::duration(duration));
            put_word(out, next, Word::Name(Name::Dash))
        }
    }
}

fn put_record(out: &mut [u8], at: usize, value: Record, shown: bool) -> usize
    ensures { Puts (text_of (record_words shown value)) out.old at out.new result }
{
    match value {
        Record::Date(v) => put_words(out, at, &records::date(v)),
        Record::Time(v) => put_words(out, at, &records::time(v, shown)),
        Record::Offset(v) => put_words(out, at, &records::offset(v)),
        Record::Stamp(v) => put_stamp(out, at, v, shown),
        Record::Duration(v) => put_words(out, at, &records::duration(v)),
        Record::Interval(v) => {
            let next = put_words(out, at, &records::interval(v));
            put_sides(out, next, v.range, shown)
        }
    }
}

// RECORD, or a dash where there is none. `shown`: with the digits of a time, which the original has not.
pub fn put_told(out: &mut [u8], at: usize, answer: Answer, shown: bool) -> usize
    ensures { Puts (text_of (record_or_dash shown (told answer).value)) out.old at out.new result }
{
    match answer {
        Ok(record) => put_record(out, at, record.value, shown),
        Err(_) => put_word(out, at, Word::Name(Name::Dash)),
    }
}

// B COUNT [VERDICT] W WCOUNT RECORD
fn answer_text(kind: Kind, s: &[u8], shown: bool, out: &mut [u8], at: usize) -> usize
    ensures { Gives (Answered shown kind s.now) out.old at out.new result }
{
    let read = kinds::read(kind, s);
    let begun = read.answer;
    let whole = kinds::parse(kind, s);
    let head = records::head(
        count(begun),
        shown,
        read.verdict,
        number(whole),
        count(whole),
    );
    let next = put_decimal(out, at, number(begun));
    let next = put_words(out, next, &head);
    put_told(out, next, begun, shown)
}

// What stands before the text of a line, up to its space: a letter, behind it `4` for edition 2004, and behind that `s` for the standard
// reading.
#[derive(Clone, Copy)]
pub struct Head {
    pub from: usize,
    pub choices: Choices,
}

impl Head {
    // A letter and its space, under document 01's choices.
    pub const PLAIN: Head = Head {
        from: 2,
        choices: Choices::DOCUMENT_01,
    };
}

// Whether a byte stands at a place of the line.
fn has(line: &[u8], at: usize, byte: u8) -> bool
    ensures { result ≡ has line.now at byte }
{
    line.get(at) == Some(&byte)
}

// The head of a line whose edition was read up to `at`.
#[tactic(auto, unfolding(crate::specs::Line::head_from))]
fn head_from(line: &[u8], at: usize, edition: Edition) -> Head
    requires { at ≤ 2 }
    ensures { result ≡ head_from at edition line.now }
{
    let (from, reading) = if has(line, at, b's') {
        (at + 2, Reading::Standard)
    } else {
        (at + 1, Reading::Old)
    };
    Head {
        from,
        choices: Choices { edition, reading },
    }
}

// The head of a line, if it has one: two to four bytes.
#[tactic(auto, unfolding(crate::specs::Line::head_of))]
pub fn head_of(line: &[u8]) -> Head
    ensures { result ≡ head_of line.now }
{
    if has(line, 1, b'4') {
        head_from(line, 2, Edition::E2004)
    } else {
        head_from(line, 1, Edition::E2019)
    }
}

// The kind that a line names, where it is that head and at most 200 bytes. Of a line that is too long the first bytes are enough.
#[tactic(auto, unfolding(crate::specs::Line::question_in))]
fn question_in(head: Head, line: &[u8]) -> Option<Kind>
    requires { (2 ≤ head.from) × (head.from ≤ 4) }
    ensures { result ≡ question_in head line.now }
{
    let from = head.from;
    if line.len() < from || from + 200 < line.len() || line[from - 1] != b' ' {
        return None;
    }
    kinds::kind_of(line[0], head.choices)
}

// The kind that a line names, under the choices of its head.
#[tactic(auto, using(crate::proofs::Asked::head_size))]
pub fn question(line: &[u8]) -> Option<Kind>
    ensures { result ≡ question_of line.now }
{
    question_in(head_of(line), line)
}

// The same where a line names no choices, and no interval.
pub fn plain_question(line: &[u8]) -> Option<Kind>
    ensures { result ≡ plain_question line.now }
{
    among_five(question_in(Head::PLAIN, line))
}

// The answer to a line without its end. `shown`: with the verdict and the digits of a time, which the original has not.
#[tactic(auto, using(crate::proofs::Asked::names_long))]
pub fn answer(line: &[u8], shown: bool, out: &mut [u8], at: usize) -> usize
    ensures { Gives (Answers shown line.now) out.old at out.new result }
{
    match question(line) {
        Some(kind) => {
            let from = head_of(line).from;
            answer_text(kind, &line[from..], shown, out, at)
        }
        None => put_name(out, at, Name::Unknown),
    }
}

// The answer to a line, with a byte 10 behind it.
pub fn answer_line(line: &[u8], out: &mut [u8], at: usize) -> usize
    ensures { Gives (AnswersLine line.now) out.old at out.new result }
{
    let next = answer(line, true, out, at);
    put_byte(out, next, b'\n')
}
