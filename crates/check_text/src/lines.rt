//! The lines of the text.

ghost use Rattle.std.specs.Prelude.{◌≡◌, ◌≤◌, ◌++◌, length};
ghost use Rattle.command_text.specs.Lines.{line_end, then_number};
ghost use Rattle.check_text.specs.CheckText.{breach_line as breach_line_of};
ghost use Rattle.check_text.specs.CheckText.{end_word as end_word_of};
ghost use Rattle.check_text.specs.CheckText.{peak_line as peak_line_of, set_line as set_line_of};

use buffer_model::Breach;
use command_text::Line;
use decoder_model::SetEnd;
use sub_base::SetLoad;

/// The line of a set with that end and load, which is done at that tick.
pub(crate) fn set_line(end: SetEnd, load: SetLoad, done: u64) -> Line
    ensures line { result ≡ set_line_of (record {
      set = record { end = end; load = load };
      done = done;
    }) }
    ensures short { length result ≤ 128 }
{
    let mut line = Line::of("set");
    line.push_then_number(load.pts);
    line.push_text(" ");
    line.push_text(end_word(end));
    line.push_then_number(load.size);
    line.push_then_number(done);
    line.push_text("\n");
    line
}

/// What becomes of a set, in a word.
fn end_word(end: SetEnd) -> &'static str
    ensures word { result.now ≡ end_word_of end }
    ensures short { length result.now ≤ 8 }
{
    match end {
        SetEnd::Shown => "shown",
        SetEnd::Waiting => "waiting",
        SetEnd::Broken(_) => "broken",
        SetEnd::NotLater { last: _ } => "notlater",
    }
}

/// The line of the greatest level.
pub(crate) fn peak_line(level: u64) -> Line
    ensures line { result ≡ peak_line_of level }
    ensures short { length result ≤ 128 }
{
    let mut line = Line::of("peak");
    line.push_then_number(level);
    line.push_text("\n");
    line
}

/// The line of the first breach.
pub(crate) fn breach_line(breach: Option<Breach>) -> Line
    ensures line { result ≡ breach_line_of breach }
    ensures short { length result ≤ 128 }
{
    match breach {
        None => Line::of("breach none\n"),
        Some(Breach::Coded { slot, level }) => numbers_line("breach coded", slot, level),
        Some(Breach::Late { done, pts }) => numbers_line("breach late", pts, done),
    }
}

/// The line of words and two numbers.
fn numbers_line(words: &str, first: u64, second: u64) -> Line
    requires { length words.now ≤ 12 }
    ensures line { result ≡ words.now ++ then_number first ++ then_number second ++ line_end }
    ensures short { length result ≤ 128 }
{
    let mut line = Line::of(words);
    line.push_then_number(first);
    line.push_then_number(second);
    line.push_text("\n");
    line
}
