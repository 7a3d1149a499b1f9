// Words and rows of words, put one behind the other as `text` puts bytes.
ghost use Rattle.text.specs.Text.{Puts};
ghost use Rattle.words.specs.Words.{letters_of, word_text, text_of};

use crate::word::{Name, Word, letters};
use text::{put, put_byte, put_decimal};

// Puts a name's letters.
pub fn put_name(out: &mut [u8], at: usize, name: Name) -> usize
    ensures { Puts (letters_of name) out.old at out.new result }
{
    put(out, at, letters(name))
}

// Puts a word and the space before it, or what is joined to the word before.
#[tactic(auto, using(text::proofs::Laws::puts_append, text::proofs::Laws::puts_nothing), unfolding(text::specs::Text::puts))]
pub fn put_word(out: &mut [u8], at: usize, word: Word) -> usize
    ensures { Puts (word_text word) out.old at out.new result }
{
    match word {
        Word::Name(name) => {
            let next = put_byte(out, at, b' ');
            put_name(out, next, name)
        }
        Word::Number(n) => {
            let next = put_byte(out, at, b' ');
            put_decimal(out, next, n)
        }
        Word::Minus(n) => {
            let next = put_byte(out, at, b' ');
            let next = put_byte(out, next, b'-');
            put_decimal(out, next, n)
        }
        Word::Joined(name) => put_name(out, at, name),
        Word::Digits(n) => put_decimal(out, at, n),
        Word::Nothing => at,
    }
}

// Puts a row of words.
#[tactic(auto, using(text::proofs::Laws::puts_nothing))]
pub fn put_words(out: &mut [u8], at: usize, words: &[Word]) -> usize
    ensures { Puts (text_of words.now) out.old at out.new result }
{
    let mut next = at;
    for word in words {
        next = put_word(out, next, *word);
    }
    next
}
