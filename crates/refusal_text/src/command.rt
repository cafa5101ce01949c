ghost use Rattle.std.specs.Prelude.{◌≤◌, length};

use sentence_text::{Part, Text};
use std::alloc::Global;
use sub_base::{NoMemory, Words, number_in};

/// What a word of a command line is to be.
#[derive(Clone, Copy)]
enum WordRule {
    /// The name of a file.
    File,
    /// A profile for which scripts are compiled.
    Sending,
    /// Any profile.
    Reading,
    /// A profile for which scripts are generated.
    Generating,
    /// A number of that name, from the one to the other.
    Number(&'static str, u64, u64),
}

const PID: WordRule = WordRule::Number("PID", 32, 8_190);

const PAGE: WordRule = WordRule::Number("PAGE", 1, 65_535);

const BANDS: WordRule = WordRule::Number("BANDS", 1, 64);

const ORIGIN: WordRule = WordRule::Number("ORIGIN", 0, 8_589_934_591);

const TICK: WordRule = WordRule::Number("TICK", 0, 17_179_869_183);

const CUES: WordRule = WordRule::Number("N", 1, 500);

/// How many words a command has.
#[derive(Clone, Copy)]
enum Count {
    /// So many.
    Exactly(usize),
    /// So many, and behind them 1 to 1,000 ticks that rise.
    Ticks(usize),
}

/// The sentence on words that are no command: which word is none, and why.
pub fn command_refusal(alloc: Global, words: &Words) -> Result<Text, NoMemory> {
    let mut told = Text::new(alloc);
    if words.count() == 0 {
        told.put_words("there is no word: the first one names a command")?;
        return Ok(told);
    }
    if let Some(place) = first_not_plain(words) {
        put_word(&mut told, words, place)?;
        told.put_words("no word is empty or begins with a minus sign")?;
        return Ok(told);
    }
    let name = words.word(0);
    let Some(count) = count_of(name) else {
        put_word(&mut told, words, 0)?;
        told.put_words("the commands are compile, list, dump, check, expect and gen")?;
        return Ok(told);
    };
    put_wrong_word(&mut told, words, count)?;
    Ok(told)
}

fn put_wrong_word(told: &mut Text, words: &Words, count: Count) -> Result<(), NoMemory>
    requires { 1 ≤ length words.now }
{
    if !has_count(words, count) {
        return put_count(told, words, count);
    }
    let name = words.word(0);
    let mut before = None;
    for place in 1..words.count() {
        let rule = rule_at(name, place);
        let word = words.word(place);
        if !is_kept(rule, word) {
            put_word(told, words, place)?;
            return put_rule(told, rule);
        }
        if place >= first_tick(count) {
            let tick = number_in(word.as_bytes(), 0, u64::MAX);
            if !is_above(before, tick) {
                put_word(told, words, place)?;
                return told.put_words("the ticks rise");
            }
            before = tick;
        }
    }
    told.put_words("the words are no command")
}

fn is_above(before: Option<u64>, tick: Option<u64>) -> bool {
    match (before, tick) {
        (Some(before), Some(tick)) => before < tick,
        _ => true,
    }
}

/// Where the ticks begin, where a command has any.
fn first_tick(count: Count) -> usize {
    match count {
        Count::Exactly(_) => usize::MAX,
        Count::Ticks(before) => before,
    }
}

fn has_count(words: &Words, count: Count) -> bool {
    match count {
        Count::Exactly(wanted) => words.count() == wanted,
        Count::Ticks(before) => words.count() > before && words.count() - before <= 1_000,
    }
}

fn put_count(told: &mut Text, words: &Words, count: Count) -> Result<(), NoMemory>
    requires { 1 ≤ length words.now }
{
    told.say(&[
        Part::Words(words.word(0)),
        Part::Words(" has "),
        Part::Number(words.count() as u64 - 1),
        Part::Words(" words behind it, and asks "),
    ])?;
    match count {
        Count::Exactly(wanted) => told.say(&[Part::Number((wanted as u64).saturating_sub(1))]),
        Count::Ticks(before) => told.say(&[
            Part::Number((before as u64).saturating_sub(1)),
            Part::Words(" and then 1 to 1000 ticks"),
        ]),
    }
}

fn put_word(told: &mut Text, words: &Words, place: usize) -> Result<(), NoMemory> {
    if place >= words.count() {
        return Ok(());
    }
    told.say(&[
        Part::Words("word "),
        Part::Number(place as u64 + 1),
        Part::Words(", \""),
        Part::Quoted(words.word(place).as_bytes()),
        Part::Words("\": "),
    ])
}

fn put_rule(told: &mut Text, rule: WordRule) -> Result<(), NoMemory> {
    match rule {
        WordRule::File => told.put_words("it is the name of a file"),
        WordRule::Sending => told.put_words("PROFILE is sd, hd or large"),
        WordRule::Reading => told.put_words("PROFILE is sd, hd, large or wide"),
        WordRule::Generating => told.put_words("PROFILE is sd or hd"),
        WordRule::Number(name, least, most) => told.say(&[
            Part::Words(name),
            Part::Words(" is a decimal number without sign and leading zeros, from "),
            Part::Number(least),
            Part::Words(" to "),
            Part::Number(most),
        ]),
    }
}

fn is_kept(rule: WordRule, word: &str) -> bool {
    match rule {
        WordRule::File => true,
        WordRule::Sending => word == "sd" || word == "hd" || word == "large",
        WordRule::Reading => word == "sd" || word == "hd" || word == "large" || word == "wide",
        WordRule::Generating => word == "sd" || word == "hd",
        WordRule::Number(_, least, most) => number_in(word.as_bytes(), least, most).is_some(),
    }
}

fn count_of(name: &str) -> Option<Count> {
    match name {
        "compile" | "check" => Some(Count::Exactly(7)),
        "list" | "gen" => Some(Count::Exactly(4)),
        "dump" => Some(Count::Ticks(7)),
        "expect" => Some(Count::Ticks(4)),
        _ => None,
    }
}

fn rule_at(name: &str, place: usize) -> WordRule {
    match (name, place) {
        ("compile", 1) | ("check", 1) => WordRule::Sending,
        ("compile", 2) | ("list", 1) | ("dump", 2) | ("check", 3) => PID,
        ("compile", 3) | ("dump", 3) | ("check", 4) => PAGE,
        ("dump", 1) => WordRule::Reading,
        ("dump", 4) => BANDS,
        ("check", 2) => ORIGIN,
        ("gen", 1) => CUES,
        ("gen", 2) => WordRule::Generating,
        ("dump", 5 | 6) | ("expect", 1 | 2 | 3) => WordRule::File,
        ("dump", _) | ("expect", _) => TICK,
        _ => WordRule::File,
    }
}

fn first_not_plain(words: &Words) -> Option<usize> {
    for place in 0..words.count() {
        let word = words.word(place).as_bytes();
        if word.is_empty() || word[0] == b'-' {
            return Some(place);
        }
    }
    None
}
