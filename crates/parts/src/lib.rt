// The parts of a duration, each a digit run and its letter, read from a place of the input (duration.rs). Which parts may stand in
// a duration, and in what order, is asked elsewhere.
#![tactic(auto)]

ghost use Rattle.std.specs.Prelude.{◌≡◌};
ghost use Rattle.parts.specs.Items.{item_at, Tries};

use parser::Miss;

// A number and the byte behind it, and the place behind that byte.
#[derive(Clone, Copy)]
pub struct Item {
    pub value: u64,
    pub letter: u8,
    pub next: usize,
}

// An optional part: its number, or 0, and the place after it, which lies further on exactly where the part is there.
#[derive(Clone, Copy)]
pub struct Part {
    pub value: u64,
    pub next: usize,
}

// A part that was tried, and what stands at the place after it.
#[derive(Clone, Copy)]
pub struct Tried {
    pub part: Part,
    pub item: Result<Item, Miss>,
}

// The digit run at a place and the byte behind it.
pub fn duration_item(s: &[u8], at: usize) -> Result<Item, Miss>
    ensures { result ≡ item_at s.now at }
{
    let run = runs::take_digits(s, at)?;
    if run.more {
        return Err(Miss::Cut);
    }
    Ok(Item {
        value: run.value,
        letter: s[run.next],
        next: run.next + 1,
    })
}

// The part of a letter, where it is known what stands at the place: the run there is not read again.
pub fn duration_part(s: &[u8], at: usize, letter: u8, item: Result<Item, Miss>) -> Tried
    ensures { Tries s.now at letter item result }
{
    match item {
        Ok(found) if found.letter == letter => Tried {
            part: Part {
                value: found.value,
                next: found.next,
            },
            item: duration_item(s, found.next),
        },
        _ => Tried {
            part: Part { value: 0, next: at },
            item,
        },
    }
}
