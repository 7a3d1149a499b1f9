// The seven lines of a log.
ghost use Rattle.std.specs.Prelude.{[], ◌∷◌};
ghost use Rattle.text.specs.Text.{Puts};
ghost use Rattle.logs.specs.Table.{row_text, table_text, line_text, week_text};

use counts::Table;
use text::{put, put_byte};
use words::records::seconds_word;
use words::rows::put_words;
use words::word::Word;

// NAME and some words
#[tactic(auto, using(text::proofs::Laws::puts_append))]
fn put_line(out: &mut [u8], at: usize, name: &[u8], words: &[Word]) -> usize
    ensures { Puts (line_text name.now words.now) out.old at out.new result }
{
    let next = put(out, at, name);
    let next = put_words(out, next, words);
    put_byte(out, next, b'\n')
}

// NAME A B C D
fn put_row(out: &mut [u8], at: usize, name: &[u8], row: [u64; 4]) -> usize
    ensures { Puts (row_text name.now row) out.old at out.new result }
{
    let [a, b, c, d] = row;
    let counts = [
        Word::Number(a),
        Word::Number(b),
        Word::Number(c),
        Word::Number(d),
    ];
    put_line(out, at, name, &counts)
}

// A line for each kind.
fn put_table(out: &mut [u8], at: usize, table: Table) -> usize
    ensures { Puts (table_text table) out.old at out.new result }
{
    let next = put_row(out, at, b"date", table[0]);
    let next = put_row(out, next, b"time", table[1]);
    let next = put_row(out, next, b"offset", table[2]);
    let next = put_row(out, next, b"stamp", table[3]);
    put_row(out, next, b"duration", table[4])
}

// The seven lines, from the front of `out` on.
#[tactic(auto, using(text::proofs::Laws::puts_append), unfolding(crate::specs::Table::week_text))]
pub fn put_week(out: &mut [u8], table: Table, bad: u64, sum: Option<u64>) -> usize
    ensures { Puts (week_text table bad sum) out.old 0 out.new result }
{
    let next = put_table(out, 0, table);
    let next = put_line(out, next, b"bad", &[Word::Number(bad)]);
    put_line(out, next, b"seconds", &[seconds_word(sum)])
}
