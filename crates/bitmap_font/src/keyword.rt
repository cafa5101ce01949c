ghost use Rattle.std.specs.Prelude.{◌≡◌, slice_get, option_map};
ghost use Rattle.bitmap_font.specs.Words.{keyword_of, keyword_of_word, words};
ghost use Rattle.bitmap_font.specs.LineFaults.{is_known};

use crate::words::Words;

/// The meaning of a line's first word (BDF 2.1).
#[derive(Clone, Copy, Debug, PartialEq, Eq)]
pub(crate) enum Keyword {
    StartFont,
    FontBoundingBox,
    StartProperties,
    EndProperties,
    StartChar,
    Encoding,
    Dwidth,
    Bbx,
    Bitmap,
    EndChar,
    EndFont,
    /// No word that has a meaning here, or none at all.
    Other,
}

impl Keyword {
    /// Whether the word may not stand where a row of a bitmap is due.
    pub(crate) fn is_known(self) -> bool
        ensures { result ≡ is_known self }
    {
        !matches!(
            self,
            Keyword::StartFont | Keyword::EndProperties | Keyword::Other
        )
    }
}

/// The meaning of the first word of a line.
pub(crate) fn keyword_of(line: &[u8]) -> Keyword
    ensures { result ≡ keyword_of line.now }
{
    match word_at(line, 0) {
        None => Keyword::Other,
        Some(word) => keyword_of_word(word),
    }
}

/// The word of a line at a place, from 0.
pub(crate) fn word_at(line: &[u8], place: usize) -> Option<&[u8]>
    ensures { option_map (λ word. word.now) result ≡ slice_get (words line.now) place }
{
    Words::new(line).nth(place)
}

fn keyword_of_word(word: &[u8]) -> Keyword
    ensures { result ≡ keyword_of_word word.now }
{
    if word == b"STARTFONT".as_slice() {
        Keyword::StartFont
    } else if word == b"FONTBOUNDINGBOX".as_slice() {
        Keyword::FontBoundingBox
    } else if word == b"STARTPROPERTIES".as_slice() {
        Keyword::StartProperties
    } else if word == b"ENDPROPERTIES".as_slice() {
        Keyword::EndProperties
    } else if word == b"STARTCHAR".as_slice() {
        Keyword::StartChar
    } else if word == b"ENCODING".as_slice() {
        Keyword::Encoding
    } else if word == b"DWIDTH".as_slice() {
        Keyword::Dwidth
    } else if word == b"BBX".as_slice() {
        Keyword::Bbx
    } else if word == b"BITMAP".as_slice() {
        Keyword::Bitmap
    } else if word == b"ENDCHAR".as_slice() {
        Keyword::EndChar
    } else if word == b"ENDFONT".as_slice() {
        Keyword::EndFont
    } else {
        Keyword::Other
    }
}
