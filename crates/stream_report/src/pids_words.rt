ghost use Rattle.std.specs.Prelude.{◌≡◌};
ghost use Rattle.stream_report.specs.PidsWords.{is_pids_command, pids_places, pids_words as pids_words_of};

use command_words::{InputPlaces, are_plain, has_word, no_files};
use sub_base::Words;

/// That the PIDs of a stream are to be told: there is nothing to choose.
#[derive(Clone, Copy, Debug, PartialEq, Eq)]
pub struct PidsReport;

/// Whether the words are `pids STREAM OUT`.
fn are_pids_words(words: &Words) -> bool
    ensures { result ≡ is_pids_command words.now }
{
    are_plain(words) && words.count() == 3 && has_word(words, 0, "pids")
}

/// What the words `pids STREAM OUT` ask for, where they are such words.
pub(crate) fn pids_words(words: &Words) -> Option<PidsReport>
    ensures { result ≡ pids_words_of words.now }
{
    are_pids_words(words).then_some(PidsReport)
}

/// Where the names of the files stand that the words of `pids` name, counted from 0: the stream and
/// the output. Nowhere where they are other words.
pub fn pids_inputs(words: &Words) -> InputPlaces
    ensures { result ≡ pids_places words.now }
{
    match pids_words(words) {
        Some(_) => InputPlaces {
            first: Some(1),
            second: None,
            out: Some(2),
        },
        None => no_files(),
    }
}
