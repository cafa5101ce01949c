ghost use Rattle.std.specs.Prelude.{◌≡◌};
ghost use Rattle.stream_report.specs.FaultsWords.{faults_places, faults_words as faults_words_of};

use command_words::{InputPlaces, are_plain, has_word, no_files, page_in, pid_in, reading_profile};
use sub_base::{ProfileName, Words};

/// In which receiver and of which page the faults are told.
#[derive(Clone, Copy, Debug)]
pub struct FaultReport {
    /// The receiver.
    pub profile: ProfileName,
    /// The PID of the packets.
    pub pid: u16,
    /// The page id of the segments.
    pub page: u16,
}

/// What the words `faults PROFILE PID PAGE STREAM OUT` ask for, where they are such words.
pub(crate) fn faults_words(words: &Words) -> Option<FaultReport>
    ensures { result ≡ faults_words_of words.now }
{
    if !are_plain(words) || words.count() != 6 || !has_word(words, 0, "faults") {
        return None;
    }
    let profile = reading_profile(words.word(1))?;
    let pid = pid_in(words.word(2))?;
    let page = page_in(words.word(3))?;
    Some(FaultReport { profile, pid, page })
}

/// Where the names of the files stand that the words of `faults` name, counted from 0: the stream
/// and the output. Nowhere where they are other words.
pub fn faults_inputs(words: &Words) -> InputPlaces
    ensures { result ≡ faults_places words.now }
{
    match faults_words(words) {
        Some(_) => InputPlaces {
            first: Some(4),
            second: None,
            out: Some(5),
        },
        None => no_files(),
    }
}
