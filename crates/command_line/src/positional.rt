ghost use Rattle.std.specs.Prelude.{◌≡◌, ◌≤◌, IfErr, IfOk, length, map, true};
ghost use Rattle.std.specs.List.{list_all};
ghost use Rattle.clap.specs.Lexer.{usize_max};
ghost use Rattle.clap.specs.Simple.{app_of};
ghost use Rattle.clap.specs.Values.{kind_of};
ghost use Rattle.command_words.specs.PlainWords.{is_plain as is_plain_word};
ghost use Rattle.command_line.specs.OneArgument.{one_argument, words_in};

use clap::error::ErrorKind;
use clap::{Arg, ArgMatches, Command, Error};
use std::alloc::{AllocError, Global};
use sub_base::{NoMemory, Words};

/// What the argument of all words is called.
const WORD: &str = "word";

/// The words that `clap` finds in plain words: all of them, in their order. Nothing but want of
/// memory stands in its way.
pub fn positional_words(alloc: Global, words: &Words) -> Result<Words, NoMemory>
    requires plain { list_all is_plain_word words.now ≡ true }
    ensures { IfOk result (λ found. found ≡ words.now) }
{
    let texts = texts_of(alloc, words)?;
    let matches = match matches_of(alloc, texts.as_slice()) {
        Ok(matches) => matches,
        Err(error) => match error.kind() {
            ErrorKind::OutOfMemory => return Err(NoMemory),
            _ => unreachable!(),
        },
    };
    match matches.get_strs(WORD) {
        Some(found) => words_of(alloc, found),
        // There was no word.
        None => Ok(Words::make(alloc)),
    }
}

/// The command line as `clap` knows it: one argument of any number of words, without flags.
fn one_argument_command<'a>(alloc: Global) -> Result<Command<'a>, AllocError>
    ensures { IfOk result (λ command. app_of command ≡ one_argument) }
{
    let word = Arg::new(alloc, WORD).num_args(1..);
    Command::new(alloc, "dvbsub")
        .no_binary_name(true)
        .disable_help_flag(true)
        .arg(word)
}

fn matches_of<'a>(alloc: Global, texts: &'a [&'a str]) -> Result<ArgMatches<'a>, Error>
    requires plain { list_all is_plain_word (map (λ text. text.now) texts.now) ≡ true }
    requires fits { length texts.now ≤ usize_max }
    ensures ok { IfOk result (λ matches. words_in matches ≡ map (λ text. text.now) texts.now) }
    ensures err { IfErr result (λ error. kind_of error ≡ ErrorKind.OutOfMemory) }
{
    let command = one_argument_command(alloc)?;
    command.try_get_matches_from(texts)
}

/// The words as a list of texts.
fn texts_of(alloc: Global, words: &Words) -> Result<Vec<&str>, NoMemory>
    ensures { IfOk result (λ texts. map (λ text. text.now) texts.items ≡ words.now) }
{
    let mut texts = Vec::new(alloc);
    for place in 0..words.count() {
        texts.push(words.word(place))?;
    }
    Ok(texts)
}

/// The texts as words.
fn words_of(alloc: Global, texts: &[&str]) -> Result<Words, NoMemory>
    ensures { IfOk result (λ words. words ≡ map (λ text. text.now) texts.now) }
{
    let mut words = Words::make(alloc);
    for text in texts {
        words.push(text)?;
    }
    Ok(words)
}
