ghost use Rattle.std.specs.Prelude.{◌≡◌, IfErr, IfOk, IfSome, is_some, true};
ghost use Rattle.dvbsub_words.specs.Command.{command_of as command_of_words, IsInRange};

use crate::command::{Command, named};
use command_line::positional_words;
use command_words::are_plain;
use std::alloc::Global;
use sub_base::{NoMemory, Words};

/// The command that the words are, if they are one, read from what `clap` finds in them. Memory is
/// wanting only where they are one: other words are a wrong command line whatever memory there is.
#[tactic(auto, unfolding(crate::specs::Command::command_of))]
pub fn read_command(alloc: Global, words: &Words) -> Result<Option<Command>, NoMemory>
    ensures command { IfOk result (λ command. command ≡ command_of_words words.now) }
    ensures range { IfOk result (λ command. IfSome command (IsInRange words.now)) }
    ensures memory { IfErr result (λ _. is_some (command_of_words words.now) ≡ true) }
{
    if !are_plain(words) {
        return Ok(None);
    }
    match positional_words(alloc, words) {
        Ok(found) => Ok(named(&found)),
        Err(NoMemory) => match named(words) {
            None => Ok(None),
            Some(_) => Err(NoMemory),
        },
    }
}
