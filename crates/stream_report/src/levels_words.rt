ghost use Rattle.std.specs.Prelude.{◌≡◌, IfSome};
ghost use Rattle.stream_report.specs.LevelsWords.{MayArrive, arrival_of, levels_places, levels_words as levels_words_of};

use command_words::{InputPlaces, are_plain, has_word, no_files, page_in, pid_in, reading_profile};
use level_text::{GREATEST_RATE, LEAST_RATE};
use sub_base::{ProfileName, Words, number_in};

/// When the packets of a stream come to a receiver.
#[derive(Clone, Copy, Debug, PartialEq, Eq)]
pub enum Arrival {
    /// At an even rate, in bits a second, 1,000 to 1,000,000,000.
    Rate(u64),
    /// By the clock of the programme that lists the PID (program_clock_reference, ISO/IEC 13818-1,
    /// 2.4.2.2).
    Clock,
}

/// Of which page a receiver's levels are told, and how the packets of the stream come to it.
#[derive(Clone, Copy, Debug)]
pub struct LevelReport {
    /// The receiver.
    pub profile: ProfileName,
    /// The PID of the packets.
    pub pid: u16,
    /// The page id of the segments.
    pub page: u16,
    /// When the packets arrive.
    pub arrival: Arrival,
}

/// What the words `levels PROFILE PID PAGE RATE STREAM OUT` ask for, where they are such words.
pub(crate) fn levels_words(words: &Words) -> Option<LevelReport>
    ensures words { result ≡ levels_words_of words.now }
    ensures range { IfSome result (λ report. MayArrive report.arrival) }
{
    if !are_plain(words) || words.count() != 7 || !has_word(words, 0, "levels") {
        return None;
    }
    let profile = reading_profile(words.word(1))?;
    let pid = pid_in(words.word(2))?;
    let page = page_in(words.word(3))?;
    let arrival = arrival_in(words.word(4))?;
    Some(LevelReport {
        profile,
        pid,
        page,
        arrival,
    })
}

/// When packets arrive by a word: `pcr`, or a rate in bits a second.
fn arrival_in(word: &str) -> Option<Arrival>
    ensures arrival { result ≡ arrival_of word.now }
    ensures range { IfSome result MayArrive }
{
    if word == "pcr" {
        return Some(Arrival::Clock);
    }
    let rate = number_in(word.as_bytes(), LEAST_RATE, GREATEST_RATE)?;
    Some(Arrival::Rate(rate))
}

/// Where the names of the files stand that the words of `levels` name, counted from 0: the stream
/// and the output. Nowhere where they are other words.
pub fn levels_inputs(words: &Words) -> InputPlaces
    ensures { result ≡ levels_places words.now }
{
    match levels_words(words) {
        Some(_) => InputPlaces {
            first: Some(5),
            second: None,
            out: Some(6),
        },
        None => no_files(),
    }
}
