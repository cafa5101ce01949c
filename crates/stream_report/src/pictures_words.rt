ghost use Rattle.std.specs.Prelude.{◌≡◌, IfSome};
ghost use Rattle.stream_report.specs.PicturesWords.{HasBands, pictures_places, pictures_words as pictures_words_of};

use command_words::{
    InputPlaces, MOST_BANDS, are_plain, has_word, no_files, page_in, pid_in, reading_profile,
};
use sub_base::{ProfileName, Words, number_in};

/// Of which page a receiver shows the pictures that are told, and how it draws them.
#[derive(Clone, Copy, Debug)]
pub struct PictureReport {
    /// The receiver.
    pub profile: ProfileName,
    /// The PID of the packets.
    pub pid: u16,
    /// The page id of the segments.
    pub page: u16,
    /// In how many bands a picture is drawn, 1 to 64.
    pub bands: u32,
}

/// What the words `pictures PROFILE PID PAGE BANDS STREAM OUT` ask for, where they are such words.
pub(crate) fn pictures_words(words: &Words) -> Option<PictureReport>
    ensures words { result ≡ pictures_words_of words.now }
    ensures range { IfSome result HasBands }
{
    if !are_plain(words) || words.count() != 7 || !has_word(words, 0, "pictures") {
        return None;
    }
    let profile = reading_profile(words.word(1))?;
    let pid = pid_in(words.word(2))?;
    let page = page_in(words.word(3))?;
    let bands = number_in(words.word(4).as_bytes(), 1, MOST_BANDS)? as u32;
    Some(PictureReport {
        profile,
        pid,
        page,
        bands,
    })
}

/// Where the names of the files stand that the words of `pictures` name, counted from 0: the stream
/// and the output. Nowhere where they are other words.
pub fn pictures_inputs(words: &Words) -> InputPlaces
    ensures { result ≡ pictures_places words.now }
{
    match pictures_words(words) {
        Some(_) => InputPlaces {
            first: Some(5),
            second: None,
            out: Some(6),
        },
        None => no_files(),
    }
}
