ghost use Rattle.std.specs.Prelude.{◌≡◌};
ghost use Rattle.tool_files.specs.Ends.{tool_of as tool_of_name, named_tool as named_tool_of};

use program_files::word_at;
use sub_base::Words;

/// The tools.
#[derive(Clone, Copy, Debug, PartialEq, Eq)]
pub enum Tool {
    /// Joins two streams to one multiplex.
    Mux,
    /// Takes a service out of a multiplex.
    Take,
    /// Sends two scripts on one PID.
    Pair,
    /// Tells the pictures of one of the two pages that `pair` sends.
    PairDump,
    /// Sends a script while it is written.
    Live,
    /// Joins two streams at a cut.
    Splice,
    /// Tells the PIDs of a stream that have subtitles.
    Pids,
    /// Tells the pictures of all sets of a stream.
    Pictures,
    /// Tells why sets of a stream are not shown.
    Faults,
    /// Tells the levels of a receiver's coded data buffer.
    Levels,
}

/// The tool that the first of the words names.
pub(crate) fn named_tool(words: &Words) -> Option<Tool>
    ensures { result ≡ named_tool_of words.now }
{
    match word_at(words, Some(0)) {
        Some(word) => tool_of(word),
        None => None,
    }
}

fn tool_of(word: &str) -> Option<Tool>
    ensures { result ≡ tool_of_name word.now }
{
    match word {
        "mux" => Some(Tool::Mux),
        "take" => Some(Tool::Take),
        "pair" => Some(Tool::Pair),
        "pairdump" => Some(Tool::PairDump),
        "live" => Some(Tool::Live),
        "splice" => Some(Tool::Splice),
        "pids" => Some(Tool::Pids),
        "pictures" => Some(Tool::Pictures),
        "faults" => Some(Tool::Faults),
        "levels" => Some(Tool::Levels),
        _ => None,
    }
}
