ghost use Rattle.std.specs.Prelude.{◌≡◌, false};
ghost use Rattle.tool_files.specs.Ends.{HasToolCode, HasToolRunCode, MayEndAs, is_command, named_tool as named_tool_of};

use crate::live::live;
use crate::multiplexes::{mux, take};
use crate::reports::{faults, levels, pictures, pids};
use crate::streams::{join, pair};
use crate::telling::tell_on;
use crate::tool::{Tool, named_tool};
use page_pair::{dump_inputs, pair_inputs};
use program_files::{WordsFault, words_of};
use service_mux::MuxFault;
use std::thread::Threads;
use sub_base::{ToolStatus, Words};

/// Carries out the tool that the words of the command line name, and answers the code of its
/// status. Words that are no text in UTF-8 are a wrong command line.
pub fn run<T: Threads + Sync>(rt: &HostRuntime, threads: &T) -> u8
    ensures { HasToolRunCode result }
{
    match words_of(rt) {
        Ok(words) => carry_out(rt, threads, &words),
        Err(WordsFault::Memory) => tell_on(rt, without_a_tool(ToolStatus::Memory), false),
        Err(WordsFault::NotText) => {
            let _ = eprintln!(rt; "a word of the command line is no text in UTF-8");
            tell_on(rt, without_a_tool(ToolStatus::Usage), false)
        }
    }
}

/// Carries out the tool that the first word names, and answers the code of its status.
#[tactic(auto, using(crate::proofs::EndLaws::wrong_words, crate::proofs::EndLaws::two_alone))]
pub fn carry_out<T: Threads + Sync>(rt: &HostRuntime, threads: &T, words: &Words) -> u8
    ensures code { HasToolCode (named_tool_of words.now) words.now result }
    ensures usage { is_command words.now ≡ false → result ≡ 2 }
    ensures usage_alone { result ≡ 2 → is_command words.now ≡ false }
{
    match named_tool(words) {
        Some(tool) => carry_out_tool(rt, threads, words, tool),
        None => tell_on(rt, without_a_tool(ToolStatus::Usage), false),
    }
}

/// Carries out that tool, and answers the code of its status.
fn carry_out_tool<T: Threads + Sync>(rt: &HostRuntime, threads: &T, words: &Words, tool: Tool) -> u8
    ensures { MayEndAs tool words.now result }
{
    match tool {
        Tool::Mux => mux(rt, words),
        Tool::Take => take(rt, words),
        Tool::Pair => pair(rt, threads, words, pair_inputs(words)),
        Tool::PairDump => pair(rt, threads, words, dump_inputs(words)),
        Tool::Live => live(rt, words),
        Tool::Splice => join(rt, words),
        Tool::Pids => pids(rt, words),
        Tool::Pictures => pictures(rt, threads, words),
        Tool::Faults => faults(rt, words),
        Tool::Levels => levels(rt, words),
    }
}

/// The status of words that name no tool: whichever tool's faults are meant, none comes.
fn without_a_tool(status: ToolStatus<MuxFault>) -> ToolStatus<MuxFault>
    ensures { result ≡ status }
{
    status
}
