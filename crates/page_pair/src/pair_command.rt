ghost use Rattle.std.specs.Prelude.{◌≡◌, None, Some};
ghost use Rattle.page_pair.specs.PairTop.{pair_command};
ghost use Rattle.page_pair.specs.Private.Ending.{IsAsked};

use crate::pair_dump::{PairDump, dump_words};
use crate::pair_words::{Pairing, pairing_of};
use sub_base::Words;

/// What the words of this crate's tools ask for.
#[derive(Clone, Copy, Debug)]
pub enum PairCommand {
    /// Two scripts are sent.
    Pair(Pairing),
    /// The pictures of one language are told.
    Dump(PairDump),
}

/// What words ask for, where they are those of a tool of this crate.
pub(crate) fn command_of(words: &Words) -> Option<PairCommand>
    ensures command { result ≡ pair_command words.now }
    ensures asked { IsAsked words.now result }
{
    if let Some(pairing) = pairing_of(words) {
        return Some(PairCommand::Pair(pairing));
    }
    match dump_words(words) {
        Some(dump) => Some(PairCommand::Dump(dump)),
        None => None,
    }
}
