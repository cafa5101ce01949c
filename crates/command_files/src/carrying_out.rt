ghost use Rattle.std.specs.Prelude.{◌≡◌, None};
ghost use Rattle.dvbsub_words.specs.Command.{command_of};
ghost use Rattle.command_files.specs.Ends.{is_told_of_stream, kind_of_words, HasCode, HasRunCode};

use crate::ending::ended;
use crate::reasons::explain;
use crate::telling::tell_on;
use dvbsub_cmd::{Status, inputs, top};
use program_files::{
    Output, OutputKind, WordsFault, numbers_of, opened, output_name, word_at, words_of,
};
use std::io;
use std::thread::Threads;
use sub_base::{FileSink, FileSource, NoGate, Words};

/// Carries out the command that the words of the command line are, and answers the code of its
/// status. Words that are no text in UTF-8 are a wrong command line.
pub fn run<T: Threads + Sync>(rt: &HostRuntime, threads: &T) -> u8
    ensures { HasRunCode result }
{
    match words_of(rt) {
        Ok(words) => carry_out(rt, threads, &words),
        Err(WordsFault::Memory) => tell_on(rt, Status::Memory, false),
        Err(WordsFault::NotText) => {
            let _ = eprintln!(rt; "a word of the command line is no text in UTF-8");
            tell_on(rt, Status::Usage, false)
        }
    }
}

/// Carries out the command that the words are, and answers the code of its status.
pub fn carry_out<T: Threads + Sync>(rt: &HostRuntime, threads: &T, words: &Words) -> u8
    ensures code { HasCode words.now result }
    ensures usage { command_of words.now ≡ None → result ≡ 2 }
    ensures usage_alone { result ≡ 2 → command_of words.now ≡ None }
{
    let places = inputs(words);
    let first_name = word_at(words, places.first);
    let second_name = word_at(words, places.second);
    let out_name = word_at(words, places.out);
    let first = opened(rt, first_name);
    let second = opened(rt, second_name);
    let kind = kind_of(words, first.is_some());
    let mut output = Output::whole(
        rt,
        output_name(out_name, first_name, second_name),
        numbers_of(&first),
        numbers_of(&second),
    );
    let status = top(
        threads,
        rt.alloc(),
        words,
        &mut FileSource::make(first),
        &mut FileSource::make(second),
        &mut FileSink::make(Some(&mut output)),
        &mut FileSink::make(Some(io::sink())),
        &NoGate,
    );
    // The line of the status waits for `ended`, so `done` is told only where the output's file is
    // there.
    let status = ended(&mut output, kind, status);
    explain(rt, words, status, output.is_refused());
    tell_on(rt, status, output.is_standard_output())
}

/// What the output of a command has to say where the command does not come to its end: what it
/// tells of a stream, where there is one.
fn kind_of(words: &Words, has_stream: bool) -> OutputKind
    ensures { result ≡ kind_of_words words.now has_stream }
{
    match word_at(words, Some(0)) {
        Some(word) if has_stream && tells_of_stream(word) => OutputKind::Told,
        _ => OutputKind::Whole,
    }
}

fn tells_of_stream(word: &str) -> bool
    ensures { result ≡ is_told_of_stream word.now }
{
    word == "list" || word == "dump" || word == "check"
}
