ghost use Rattle.std.specs.Prelude.{◌≡◌, ◌≢◌, ◌≤◌, ◌<◌, ℕ, ◌∷◌, length, slice_index};
ghost use Rattle.std.specs.Iterator.{YieldsFirstBy, item_count};
ghost use Rattle.std.specs.Str.Lines.{lines, strip_carriage_return};

use std::marker::Model;

/// The lines of a text, without their ends, a line feed or a carriage return and a line feed: seen
/// as the list of those that are left.
#[derive(Drop)]
pub(crate) struct Lines<'a> {
    rest: &'a [u8],
}

impl<'a> Model for Lines<'a> {
    ghost use Rattle.std.specs.Prelude.{ℕ, List};

    ghost Value = { List (List ℕ) };

    ghost use Rattle.std.specs.Str.Lines.{lines};

    ghost view = { λ text. lines text.rest.now };
}

impl<'a> Lines<'a> {
    pub(crate) fn new(text: &'a [u8]) -> Lines<'a>
        ensures { result ≡ lines text.now }
    {
        Lines { rest: text }
    }
}

impl<'a> Iterator for Lines<'a> {
    type Item = &'a [u8];

    ghost next_gives = { YieldsFirstBy (λ line. line.now) (λ lines_left. lines_left) };

    ghost remaining = { item_count (λ lines_left. lines_left) };

    fn next(&mut self) -> Option<&'a [u8]> {
        // A line feed at the end of the text begins no further line.
        if self.rest.is_empty() {
            return None;
        }
        let (line, rest) = first_line(self.rest);
        self.rest = rest;
        Some(line)
    }
}

/// The first line of a text, and what follows it.
fn first_line(text: &[u8]) -> (&[u8], &[u8])
    requires { 0 < length text.now }
    ensures { lines text.now ≡ result.0.now ∷ lines result.1.now }
{
    let end = line_len(text);
    if end == text.len() {
        text.split_at(end)
    } else {
        (without_carriage_return(&text[..end]), &text[end + 1..])
    }
}

/// How many bytes a text has before its first line feed.
fn line_len(text: &[u8]) -> usize
    ensures within { result ≤ length text.now }
    ensures before { (k : ℕ) → k < result → slice_index text.now k ≢ 10 }
    ensures after { result < length text.now → slice_index text.now result ≡ 10 }
{
    for (place, byte) in text.iter().enumerate() {
        if *byte == b'\n' {
            return place;
        }
    }
    text.len()
}

/// The line, without a carriage return at its end.
fn without_carriage_return(line: &[u8]) -> &[u8]
    ensures { result.now ≡ strip_carriage_return line.now }
{
    match line.split_last() {
        Some((b'\r', before)) => before,
        _ => line,
    }
}
