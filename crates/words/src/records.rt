// The words of each record, in a row. A row that may have a word less hides it.
ghost use Rattle.std.specs.Prelude.{◌≡◌, [], ◌∷◌};
ghost use Rattle.words.specs.Words.{text_of};
ghost use Rattle.words.specs.Records.{verdict_word, shown_word, head_words, offset_words, time_offset_word, time_words, date_words, seconds_word, duration_words, repeat_words, shape_words, interval_words};

use crate::word::{Name, Word, signed, small};
use types::{Date, Duration, Interval, IntervalRange, Offset, Repetitions, Time, Verdict};

// settled, open
pub fn verdict_word(verdict: Verdict) -> Word
    ensures { result ≡ verdict_word verdict }
{
    match verdict {
        Verdict::Settled => Word::Name(Name::Settled),
        Verdict::Open => Word::Name(Name::Open),
    }
}

fn shown_word(shown: bool, word: Word) -> Word
    ensures { result ≡ shown_word shown word }
{
    if shown { word } else { Word::Nothing }
}

// COUNT [VERDICT] W WCOUNT
pub fn head(
    count: usize,
    shown: bool,
    verdict: Verdict,
    whole: u64,
    whole_count: usize,
) -> [Word; 4]
    ensures { text_of result ≡ text_of (head_words count shown verdict whole whole_count) }
{
    [
        Word::Number(count as u64),
        shown_word(shown, verdict_word(verdict)),
        Word::Number(whole),
        Word::Number(whole_count as u64),
    ]
}

// offset HOURS MINUTES TOTAL
pub fn offset(v: Offset) -> [Word; 4]
    ensures { text_of result ≡ text_of (offset_words v) }
{
    [
        Word::Name(Name::Offset),
        small(v.hours),
        small(v.minutes),
        signed(v.minutes_in_all()),
    ]
}

// none, or the signed minutes in all
fn time_offset(v: Option<Offset>) -> Word
    ensures { result ≡ time_offset_word v }
{
    match v {
        None => Word::Name(Name::None),
        Some(offset) => signed(offset.minutes_in_all()),
    }
}

// time HOUR MINUTE SECOND NANO OFFSET [DIGITS]
pub fn time(v: Time, shown: bool) -> [Word; 7]
    ensures { text_of result ≡ text_of (time_words shown v) }
{
    [
        Word::Name(Name::Time),
        Word::Number(v.hour as u64),
        Word::Number(v.minute as u64),
        Word::Number(v.second as u64),
        Word::Number(v.nanosecond as u64),
        time_offset(v.offset),
        shown_word(shown, Word::Number(v.digits as u64)),
    ]
}

// ymd YEAR MONTH DAY, week YEAR WEEK DAY or ordinal YEAR DAY
pub fn date(v: Date) -> [Word; 4]
    ensures { text_of result ≡ text_of (date_words v) }
{
    match v {
        Date::YMD { year, month, day } => [
            Word::Name(Name::Ymd),
            small(year),
            Word::Number(month as u64),
            Word::Number(day as u64),
        ],
        Date::Week { year, week, day } => [
            Word::Name(Name::Week),
            small(year),
            Word::Number(week as u64),
            Word::Number(day as u64),
        ],
        Date::Ordinal { year, day } => [
            Word::Name(Name::Ordinal),
            small(year),
            Word::Number(day as u64),
            Word::Nothing,
        ],
    }
}

// The seconds in all, or over
pub fn seconds_word(v: Option<u64>) -> Word
    ensures { result ≡ seconds_word v }
{
    match v {
        Some(n) => Word::Number(n),
        None => Word::Name(Name::Over),
    }
}

// duration Y MO W D H MI S SECONDS
pub fn duration(v: Duration) -> [Word; 9]
    ensures { text_of result ≡ text_of (duration_words v) }
{
    [
        Word::Name(Name::Duration),
        Word::Number(v.years),
        Word::Number(v.months),
        Word::Number(v.weeks),
        Word::Number(v.days),
        Word::Number(v.hours),
        Word::Number(v.minutes),
        Word::Number(v.seconds),
        seconds_word(v.in_seconds()),
    ]
}

// stamp/stamp, duration/stamp, stamp/duration, or duration and no other side
fn shape(range: IntervalRange) -> (Word, Word, Word)
    ensures { text_of (result.0 ∷ result.1 ∷ result.2 ∷ []) ≡ text_of (shape_words range) }
{
    let slash = Word::Joined(Name::Slash);
    let stamp = Word::Joined(Name::Stamp);
    let duration = Word::Joined(Name::Duration);
    match range {
        IntervalRange::Closed { .. } => (Word::Name(Name::Stamp), slash, stamp),
        IntervalRange::ClosedEnd { .. } => (Word::Name(Name::Duration), slash, stamp),
        IntervalRange::ClosedStart { .. } => (Word::Name(Name::Stamp), slash, duration),
        IntervalRange::Open { .. } => (Word::Name(Name::Duration), Word::Nothing, Word::Nothing),
    }
}

// once, R or R5
fn repeat(repetitions: Repetitions) -> (Word, Word)
    ensures { text_of (result.0 ∷ result.1 ∷ []) ≡ text_of (repeat_words repetitions) }
{
    match repetitions {
        Repetitions::Once => (Word::Name(Name::Once), Word::Nothing),
        Repetitions::Unlimited => (Word::Name(Name::Repeat), Word::Nothing),
        Repetitions::Times(n) => (Word::Name(Name::Repeat), Word::Digits(n as u64)),
    }
}

// interval REPEAT SHAPE
pub fn interval(v: Interval) -> [Word; 6]
    ensures { text_of result ≡ text_of (interval_words v) }
{
    let (repeat, times) = repeat(v.repetitions);
    let (side, slash, other) = shape(v.range);
    [
        Word::Name(Name::Interval),
        repeat,
        times,
        side,
        slash,
        other,
    ]
}
