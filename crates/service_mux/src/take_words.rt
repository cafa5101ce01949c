ghost use Rattle.std.specs.Prelude.{◌≡◌, ◌≤◌, IfSome};
ghost use Rattle.service_mux.specs.TakeWords.{service_of, take_places, take_words as service_in};

use command_words::{InputPlaces, are_plain, has_word, no_files};
use sub_base::{Words, number_in};

/// The greatest number of a service (program_number). 0 is that of the network.
const GREATEST_SERVICE: u64 = 65_535;

/// The number of the service that is to be taken, where the words are `take SERVICE STREAM OUT`.
pub fn take_words(words: &Words) -> Option<u16>
    ensures { result ≡ service_in words.now }
{
    if !are_plain(words) || words.count() != 4 || !has_word(words, 0, "take") {
        return None;
    }
    service_of(words.word(1))
}

/// The number of a service that a word is, 1 to 65,535.
pub(crate) fn service_of(word: &str) -> Option<u16>
    ensures number { result ≡ service_of word.now }
    ensures range { IfSome result (λ number. (1 ≤ number) × (number ≤ 65535)) }
{
    Some(number_in(word.as_bytes(), 1, GREATEST_SERVICE)? as u16)
}

/// Where the names of the files stand that the words of `take` name, counted from 0: the stream and
/// the output. Nowhere where they are other words.
pub fn take_inputs(words: &Words) -> InputPlaces
    ensures { result ≡ take_places words.now }
{
    match take_words(words) {
        Some(_) => InputPlaces {
            first: Some(2),
            second: None,
            out: Some(3),
        },
        None => no_files(),
    }
}
