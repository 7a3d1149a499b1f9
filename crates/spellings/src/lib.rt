// The one spelling of what a line holds: the record that the whole reader gives, as its writer writes it, or why there is none.
#![tactic(auto)]

ghost use Rattle.std.specs.Prelude.{length};
ghost use Rattle.parser.specs.Answer.{ended};
ghost use Rattle.kinds.specs.Kinds.{rule_of};
ghost use Rattle.text.specs.Text.{Puts};
ghost use Rattle.writing.specs.Writing.{Readable};
ghost use Rattle.writers.specs.Spellings.{kind_of, spelling};
ghost use Rattle.spellings.specs.Said.{said, spelled, spelled_line};

use kinds::answer::{Kind, Record};
use text::{put, put_byte, put_decimal};
use types::Choices;
use words::rows::put_name;
use words::word::Name;

// As long as the longest spelling, an interval's.
const LONGEST: usize = 198;

fn put_spelling(out: &mut [u8], at: usize, value: Record, choices: Choices) -> usize
    requires { Readable (rule_of (kind_of choices value)) value }
    ensures { Puts (spelling value) out.old at out.new result }
{
    let mut text = [0; LONGEST];
    let count = writing::count(writers::write(value, choices, &mut text));
    put(out, at, &text[..count])
}

fn spell_text(kind: Kind, s: &[u8], out: &mut [u8], at: usize) -> usize
    ensures { Puts (said (ended (length s.now) ((rule_of kind).reads s.now 0))) out.old at out.new result }
{
    match kinds::parse(kind, s) {
        Ok(record) => put_spelling(out, at, record.value, kind.choices()),
        Err(refused) => {
            let next = put(out, at, b"refused ");
            put_decimal(out, next, refused.why.number() as u64)
        }
    }
}

// What `spell` says of a line, without the line's end.
#[tactic(auto, using(reply::proofs::Asked::names_long))]
fn spell(line: &[u8], out: &mut [u8], at: usize) -> usize
    ensures { Puts (spelled line.now) out.old at out.new result }
{
    match reply::question(line) {
        Some(kind) => spell_text(kind, &line[reply::head_of(line).from..], out, at),
        None => put_name(out, at, Name::Unknown),
    }
}

// The same with a byte 10 behind it.
pub fn spell_line(line: &[u8], out: &mut [u8], at: usize) -> usize
    ensures { Puts (spelled_line line.now) out.old at out.new result }
{
    let next = spell(line, out, at);
    put_byte(out, next, b'\n')
}
