ghost use Rattle.std.specs.Prelude.{◌≡◌, IfSome, true};
ghost use Rattle.page_pair.specs.PairOutcome.{ArePagesApart};
ghost use Rattle.page_pair.specs.PairWords.{are_three as are_three_pages, pair_places, pair_words, IsPairing};

use crate::pages::TwoPages;
use command_words::{InputPlaces, are_plain, has_word, no_files, page_in, pid_in, sending_profile};
use sub_base::{ProfileName, Words};

/// Two scripts that are sent on one PID.
#[derive(Clone, Copy, Debug)]
pub struct Pairing {
    pub profile: ProfileName,
    pub pid: u16,
    pub pages: TwoPages,
}

/// Where the names of the files stand that the words of `pair` name, counted from 0: the two
/// scripts, and the output. Nowhere where they are other words.
pub fn pair_inputs(words: &Words) -> InputPlaces
    ensures { result ≡ pair_places words.now }
{
    match pairing_of(words) {
        Some(_) => InputPlaces {
            first: Some(6),
            second: Some(7),
            out: Some(8),
        },
        None => no_files(),
    }
}

/// What the words `pair PROFILE PID PAGE1 PAGE2 ANC SCRIPT1 SCRIPT2 OUT` say, where they are such
/// words: the three pages differ.
pub(crate) fn pairing_of(words: &Words) -> Option<Pairing>
    ensures words { result ≡ pair_words words.now }
    ensures pairing { IfSome result IsPairing }
{
    if !are_plain(words) || words.count() != 9 || !has_word(words, 0, "pair") {
        return None;
    }
    let profile = sending_profile(words.word(1))?;
    let pid = pid_in(words.word(2))?;
    let first = page_in(words.word(3))?;
    let second = page_in(words.word(4))?;
    let shared = page_in(words.word(5))?;
    let pages = TwoPages {
        first,
        second,
        shared,
    };
    if are_three(pages) {
        Some(Pairing {
            profile,
            pid,
            pages,
        })
    } else {
        None
    }
}

/// Whether the three pages differ.
fn are_three(pages: TwoPages) -> bool
    ensures three { result ≡ are_three_pages pages }
    ensures apart { result ≡ true → ArePagesApart pages }
{
    pages.first != pages.second && pages.first != pages.shared && pages.second != pages.shared
}
