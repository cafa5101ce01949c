ghost use Rattle.std.specs.Prelude.{◌≡◌, ◌+◌, ◌<◌, ◌≤◌, IfSome, length};
ghost use Rattle.service_mux.specs.MuxWords.{AreServices, are_apart as are_services_apart, is_letter as is_small_letter, language_of as language_of_word, mux_places, mux_words, service_from};
ghost use Rattle.command_words.specs.Words.{page_of, pid_of, word_at};
ghost use Rattle.service_mux.specs.TakeWords.{service_of as service_of_word};

use crate::take_words::service_of;
use command_words::{InputPlaces, are_plain, has_word, no_files, page_in, pid_in};
use psi_tables::Service;
use sub_base::Words;

/// The services of two streams that are joined to one.
#[derive(Clone, Copy, Debug)]
pub struct ServicePair {
    /// The service of the first stream.
    pub one: Service,
    /// The service of the second stream.
    pub two: Service,
}

/// Where the names of the files stand that the words of `mux` name, counted from 0: the streams of
/// the first and of the second service, and the output. Nowhere where they are other words.
pub fn mux_inputs(words: &Words) -> InputPlaces
    ensures { result ≡ mux_places words.now }
{
    match services_of(words) {
        Some(_) => InputPlaces {
            first: Some(11),
            second: Some(12),
            out: Some(13),
        },
        None => no_files(),
    }
}

/// The services that the words `mux N1 M1 PID1 PAGE1 LANG1 N2 M2 PID2 PAGE2 LANG2 STREAM1 STREAM2
/// OUT` name, where they are such words: each service with its number, the PID of its PMT, that of
/// its stream, its page and its language.
pub(crate) fn services_of(words: &Words) -> Option<ServicePair>
    ensures words { result ≡ mux_words words.now }
    ensures services { IfSome result AreServices }
{
    if !are_plain(words) || words.count() != 14 || !has_word(words, 0, "mux") {
        return None;
    }
    let one = service_at(words, 1)?;
    let two = service_at(words, 6)?;
    if are_apart(&one, &two) {
        Some(ServicePair { one, two })
    } else {
        None
    }
}

/// The service that five words from a place on name: N, M, PID, PAGE and LANG.
fn service_at(words: &Words, place: usize) -> Option<Service>
    requires inside { place + 4 < length words.now }
    requires place { place ≤ 6 }
    ensures service { result ≡ service_from place words.now }
    ensures number { IfSome result
        (λ service. (1 ≤ service.number) × (service.number ≤ 65535)) }
    ensures pmt { IfSome result (λ service. (32 ≤ service.pmt) × (service.pmt ≤ 8190)) }
    ensures pid { IfSome result (λ service. (32 ≤ service.pid) × (service.pid ≤ 8190)) }
    ensures language { IfSome result (λ service. length service.language ≡ 3) }
{
    let number = number_at(words, place)?;
    let pmt = pid_at(words, place + 1)?;
    let pid = pid_at(words, place + 2)?;
    let page = page_at(words, place + 3)?;
    let language = language_at(words, place + 4)?;
    Some(Service {
        number,
        pmt,
        pid,
        page,
        language,
    })
}

fn number_at(words: &Words, place: usize) -> Option<u16>
    requires { place < length words.now }
    ensures number { result ≡ service_of_word (word_at words.now place) }
    ensures range { IfSome result (λ number. (1 ≤ number) × (number ≤ 65535)) }
{
    service_of(words.word(place))
}

fn pid_at(words: &Words, place: usize) -> Option<u16>
    requires { place < length words.now }
    ensures pid { result ≡ pid_of (word_at words.now place) }
    ensures range { IfSome result (λ pid. (32 ≤ pid) × (pid ≤ 8190)) }
{
    pid_in(words.word(place))
}

fn page_at(words: &Words, place: usize) -> Option<u16>
    requires { place < length words.now }
    ensures { result ≡ page_of (word_at words.now place) }
{
    page_in(words.word(place))
}

fn language_at(words: &Words, place: usize) -> Option<[u8; 3]>
    requires { place < length words.now }
    ensures language { result ≡ language_of_word (word_at words.now place) }
    ensures letters { IfSome result (λ letters. length letters ≡ 3) }
{
    language_of(words.word(place).as_bytes())
}

/// The three letters of a language, a to z (ISO 639-2).
fn language_of(word: &[u8]) -> Option<[u8; 3]>
    ensures language { result ≡ language_of_word word.now }
    ensures letters { IfSome result (λ letters. length letters ≡ 3) }
{
    if word.len() == 3 && is_letter(word[0]) && is_letter(word[1]) && is_letter(word[2]) {
        Some([word[0], word[1], word[2]])
    } else {
        None
    }
}

fn is_letter(byte: u8) -> bool
    ensures { result ≡ is_small_letter byte }
{
    b'a' <= byte && byte <= b'z'
}

/// Whether two services have different numbers, and four different PIDs.
fn are_apart(one: &Service, two: &Service) -> bool
    ensures { result ≡ are_services_apart one.now two.now }
{
    one.number != two.number
        && one.pmt != one.pid
        && one.pmt != two.pmt
        && one.pmt != two.pid
        && one.pid != two.pmt
        && one.pid != two.pid
        && two.pmt != two.pid
}
