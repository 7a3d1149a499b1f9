// The words that an answer is made of.
ghost use Rattle.std.specs.Prelude.{◌≡◌};
ghost use Rattle.words.specs.Words.{letters_of, signed_word};

// The words that are spelled the same each time.
#[derive(Clone, Copy)]
pub enum Name {
    Ymd,
    Week,
    Ordinal,
    Time,
    Offset,
    Duration,
    Settled,
    Open,
    None,
    Over,
    Dash,
    Unknown,
    Interval,
    Once,
    Repeat,
    Stamp,
    Slash,
}

// A word with the space before it; Joined and Digits are the rest of the word before them, a name or a number with no space. Nothing is no
// word: a row of words may hide one.
#[derive(Clone, Copy)]
pub enum Word {
    Name(Name),
    Number(u64),
    Minus(u64),
    Joined(Name),
    Digits(u64),
    Nothing,
}

// A name's letters.
#[tactic(auto, unfolding(crate::specs::Words::letters_of))]
pub fn letters(name: Name) -> &'static [u8]
    ensures { result.now ≡ letters_of name }
{
    match name {
        Name::Ymd => b"ymd",
        Name::Week => b"week",
        Name::Ordinal => b"ordinal",
        Name::Time => b"time",
        Name::Offset => b"offset",
        Name::Duration => b"duration",
        Name::Settled => b"settled",
        Name::Open => b"open",
        Name::None => b"none",
        Name::Over => b"over",
        Name::Dash => b"-",
        Name::Unknown => b"unknown",
        Name::Interval => b"interval",
        Name::Once => b"once",
        Name::Repeat => b"R",
        Name::Stamp => b"stamp",
        Name::Slash => b"/",
    }
}

// A number with its minus, where it has one.
pub fn signed(n: i64) -> Word
    ensures { result ≡ signed_word n }
{
    if n < 0 {
        Word::Minus(n.unsigned_abs())
    } else {
        Word::Number(n as u64)
    }
}

// The same for a number of 32 bits.
pub fn small(n: i32) -> Word
    ensures { result ≡ signed_word n }
{
    signed(i64::from(n))
}
