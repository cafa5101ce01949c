ghost use Rattle.std.specs.Prelude.{◌≡◌, ◌≢◌, ◌≤◌, ◌<◌, ℕ, [], ◌∷◌, length, slice_index, MatchOption};
ghost use Rattle.std.specs.Iterator.{YieldsFirstBy, item_count};
ghost use Rattle.bitmap_font.specs.Words.{words};

use std::marker::Model;

/// The words of a line, which spaces part: seen as the list of those that are left.
#[derive(Drop)]
pub(crate) struct Words<'a> {
    rest: &'a [u8],
}

impl<'a> Model for Words<'a> {
    ghost use Rattle.std.specs.Prelude.{ℕ, List};

    ghost Value = { List (List ℕ) };

    ghost use Rattle.bitmap_font.specs.Words.{words};

    ghost view = { λ line. words line.rest.now };
}

impl<'a> Words<'a> {
    pub(crate) fn new(line: &'a [u8]) -> Words<'a>
        ensures { result ≡ words line.now }
    {
        Words { rest: line }
    }
}

impl<'a> Iterator for Words<'a> {
    type Item = &'a [u8];

    ghost next_gives = { YieldsFirstBy (λ word. word.now) (λ words_left. words_left) };

    ghost remaining = { item_count (λ words_left. words_left) };

    fn next(&mut self) -> Option<&'a [u8]> {
        let (word, rest) = first_word(self.rest)?;
        self.rest = rest;
        Some(word)
    }
}

/// The first word of a line, and what follows it.
fn first_word(line: &[u8]) -> Option<(&[u8], &[u8])>
    ensures { MatchOption result (words line.now ≡ [])
        (λ parts. words line.now ≡ parts.0.now ∷ words parts.1.now) }
{
    let (_, line) = line.split_at(leading_spaces(line));
    if line.is_empty() {
        None
    } else {
        Some(line.split_at(word_len(line)))
    }
}

/// How many spaces a line begins with.
fn leading_spaces(line: &[u8]) -> usize
    ensures within { result ≤ length line.now }
    ensures before { (k : ℕ) → k < result → slice_index line.now k ≡ 32 }
    ensures after { result < length line.now → slice_index line.now result ≢ 32 }
{
    for (place, byte) in line.iter().enumerate() {
        if *byte != b' ' {
            return place;
        }
    }
    line.len()
}

/// How many bytes a line has before its first space.
fn word_len(line: &[u8]) -> usize
    ensures within { result ≤ length line.now }
    ensures before { (k : ℕ) → k < result → slice_index line.now k ≢ 32 }
    ensures after { result < length line.now → slice_index line.now result ≡ 32 }
{
    for (place, byte) in line.iter().enumerate() {
        if *byte == b' ' {
            return place;
        }
    }
    line.len()
}
