ghost use Rattle.std.specs.Prelude.{◌≡◌, ◌<◌, length};
ghost use Rattle.command_words.specs.Words.{has_word as has_word_at, names_font as is_font_named, no_places};

use sub_base::Words;

/// Where the names of a command's files stand among the words, counted from 0.
#[derive(Clone, Copy, Debug, PartialEq, Eq)]
pub struct InputPlaces {
    /// The first input: the script, or the stream.
    pub first: Option<usize>,
    /// The second input: the font, the second script, or the second stream.
    pub second: Option<usize>,
    /// The output.
    pub out: Option<usize>,
}

/// Whether the word at that place, counted from 0, is that text.
pub fn has_word(words: &Words, place: usize, text: &str) -> bool
    requires { place < length words.now }
    ensures { result ≡ has_word_at words.now place text.now }
{
    words.word(place) == text
}

/// Whether the word names a font: `none` stands for no font.
pub fn names_font(word: &str) -> bool
    ensures { result ≡ is_font_named word.now }
{
    word != "none"
}

/// The places of a command without files: those of words that are no command.
pub fn no_files() -> InputPlaces
    ensures { result ≡ no_places }
{
    InputPlaces {
        first: None,
        second: None,
        out: None,
    }
}
