ghost use Rattle.std.specs.Prelude.{◌≡◌};
ghost use Rattle.std.specs.List.{list_all};
ghost use Rattle.command_words.specs.PlainWords.{is_plain as is_plain_word};

use sub_base::Words;

/// Whether no word is empty or begins with `-`.
pub fn are_plain(words: &Words) -> bool
    ensures { result ≡ list_all is_plain_word words.now }
{
    for place in 0..words.count() {
        if !is_plain(words.word(place).as_bytes()) {
            return false;
        }
    }
    true
}

fn is_plain(word: &[u8]) -> bool
    ensures { result ≡ is_plain_word word.now }
{
    // There are no options, and none is to be taken for the name of a file.
    !word.is_empty() && word[0] != b'-'
}
