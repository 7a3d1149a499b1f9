// What a line counts as, and the table of five kinds by four answers that a count is raised in.
#![tactic(auto)]

ghost use Rattle.std.specs.Prelude.{◌≡◌};
ghost use Rattle.std.specs.declared.option.Option.TheVariants.{Some};
ghost use Rattle.types.specs.Sums.{or_over};
ghost use Rattle.parser.specs.Answer.{to_whole};
ghost use Rattle.parser.specs.Told.{told};
ghost use Rattle.counts.specs.Counts.{row_of, seconds_in, told_at, line_in, line_of};
ghost use Rattle.counts.specs.Seen.{seen, more, raised, counted, bad_counted, adding};

use kinds::answer::{Answer, Kind, Record};

// A count for each kind and each answer: a row for dates, times, offsets, date-times and durations, and in it answers 0 to 3.
pub type Table = [[u64; 4]; 5];

// What a line that is not bad counts as: the place of its count in the table, at its kind's row and its answer, and the seconds that it adds.
#[derive(Clone, Copy)]
pub struct Counted {
    pub row: usize,
    pub answer: usize,
    pub seconds: Option<u64>,
}

// Intervals have no row: 5 lies outside the table, and no line that is seen names one.
fn row_of(kind: Kind) -> usize
    ensures { result ≡ row_of kind }
{
    match kind {
        Kind::Date => 0,
        Kind::Time(_) => 1,
        Kind::Offset => 2,
        Kind::Stamp(_) => 3,
        Kind::Duration => 4,
        Kind::Interval(_) => 5,
    }
}

// The seconds of a duration; any other record adds nothing.
#[tactic(auto, unfolding(types::specs::Sums::in_seconds))]
fn seconds_of(value: Record) -> Option<u64>
    ensures { result ≡ or_over (seconds_in value) }
{
    match value {
        Record::Duration(v) => v.in_seconds(),
        _ => Some(0),
    }
}

// What the whole reader would say where the beginning reader says this of so many bytes: bytes that are left over are answer 3, and add nothing.
fn of_answer(row: usize, begun: Answer, all: usize) -> Counted
    ensures { Some result ≡ seen (told_at row (to_whole all (told begun))) }
{
    let (answer, seconds) = match begun {
        Ok(record) if record.count < all => (3, Some(0)),
        Ok(record) => (0, seconds_of(record.value)),
        Err(refused) => (refused.why.number() as usize, Some(0)),
    };
    Counted {
        row,
        answer,
        seconds,
    }
}

// What the text of a line counts as, whose kind the line names. The beginning reader is asked: it takes plain forms at one go, and its count
// tells the rest.
#[tactic(auto, using(parser::proofs::Verdict::ended_whole))]
fn of_text(kind: Kind, text: &[u8]) -> Counted
    ensures { Some result ≡ seen (line_in (Some kind) text.now) }
{
    let read = kinds::read(kind, text);
    of_answer(row_of(kind), read.answer, text.len())
}

// What a line counts as, without its end; none where it is bad.
#[tactic(auto, using(reply::proofs::Asked::plain_long, crate::proofs::Laws::seen_some, crate::proofs::Laws::seen_none))]
pub fn see(line: &[u8]) -> Option<Counted>
    ensures { result ≡ seen (line_of line.now) }
{
    let kind = reply::plain_question(line)?;
    Some(of_text(kind, &line[2..]))
}

// One more, or as many where there is no room for more.
fn one_more(n: u64) -> u64
    ensures { result ≡ more n }
{
    n.saturating_add(1)
}

// The table with one count raised; a place outside of it raises none.
#[tactic(auto, unfolding(crate::specs::Seen::raised))]
fn raise(mut table: Table, row: usize, answer: usize) -> Table
    ensures { result ≡ raised row answer table }
{
    if row < 5 && answer < 4 {
        table[row][answer] = one_more(table[row][answer]);
    }
    table
}

// The table with a line's count raised.
pub fn count(table: Table, line: Option<Counted>) -> Table
    ensures { result ≡ counted line table }
{
    match line {
        Some(at) => raise(table, at.row, at.answer),
        None => table,
    }
}

// The bad lines, with this one where it is bad.
pub fn count_bad(bad: u64, line: Option<Counted>) -> u64
    ensures { result ≡ bad_counted line bad }
{
    match line {
        Some(_) => bad,
        None => one_more(bad),
    }
}

// The seconds that a line adds.
pub fn seconds(line: Option<Counted>) -> Option<u64>
    ensures { result ≡ adding line }
{
    match line {
        Some(at) => at.seconds,
        None => Some(0),
    }
}
