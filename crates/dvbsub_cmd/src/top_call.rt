ghost use Rattle.std.specs.Prelude.{◌≡◌, IfSome};
ghost use Rattle.dvbsub_words.specs.Command.{command_of as command_of_words, IsInRange};
ghost use Rattle.dvbsub_cmd.specs.Completeness.{IsComplete};
ghost use Rattle.dvbsub_cmd.specs.Headline.{IsShownBy};
ghost use Rattle.sub_base.specs.Seen.{seen};
ghost use Rattle.dvbsub_cmd.specs.Outcome.{HasCause, IsCaused, IsSecondKept, TellsStatus};

use crate::check::check;
use crate::compile::compile;
use crate::dump::dump;
use crate::expect::expect;
use crate::gen_text::write_gen_text;
use crate::list::list;
use crate::status::{Status, status_line};
use dvbsub_words::{Command, read_command};
use std::alloc::Global;
use std::thread::Threads;
use sub_base::{BandGate, NoMemory, Sink, Source, Which, Words, write_whole};

/// Carries out the command that the words are: reads its sources, writes its output to `out`, and
/// tells how it ended, by its answer and by one line to `notes`.
pub fn top<R, A, B, K, N, G>(
    rt: &R,
    alloc: Global,
    words: &Words,
    first: &mut A,
    second: &mut B,
    out: &mut K,
    notes: &mut N,
    gate: &G,
) -> Status
where
    R: Threads + Sync,
    A: Source,
    B: Source,
    K: Sink,
    N: Sink,
    G: BandGate + Sync,
    ensures cause { HasCause words.now
        (seen (A.supplied first.old) (B.supplied second.old) (K.received out.old))
        (seen (A.supplied first.new) (B.supplied second.new) (K.received out.new))
        (N.received notes.old) (N.received notes.new) result }

    // Where nothing gives a cause of refusal, the command is done whole, or memory is wanting.
    ensures complete { IsComplete words.now
        (seen (A.supplied first.old) (B.supplied second.old) (K.received out.old))
        (seen (A.supplied first.new) (B.supplied second.new) (K.received out.new))
        (N.received notes.old) (N.received notes.new) result }

    // Where a script was compiled, a receiver that enters the packets anywhere, with any anchor
    // that suits the sets of which packets come, shows nothing before its entry set, and from then
    // on the authored picture at every tick; one that loses packets shows it at every good tick;
    // and page memory holds the script. Wherever it enters, the coded data buffer holds what comes,
    // and every set is decoded by its time.
    ensures shown { IsShownBy (command_of_words words.now)
        (seen (A.supplied first.old) (B.supplied second.old) (K.received out.old))
        (seen (A.supplied first.new) (B.supplied second.new) (K.received out.new))
        result }

    // A command that names no font does not call the second source.
    ensures second { IsSecondKept (command_of_words words.now) second.old second.new }
{
    let status = run(rt, alloc, words, first, second, out, gate);
    tell(status, notes)
}

/// Writes the line of the status, and answers the status, or what it becomes where the line cannot
/// be written.
pub fn tell<N: Sink>(status: Status, notes: &mut N) -> Status
    ensures { TellsStatus (N.received notes.old) (N.received notes.new) status result }
{
    let line = status_line(status);
    match write_whole(notes, line.as_bytes()) {
        Ok(()) => status,
        Err(_) => match status {
            // Nobody could know that it was done.
            Status::Done { .. } => Status::WriteFault(Which::Notes),
            other => other,
        },
    }
}

/// Reads the command from the words and carries it out, without telling how it ended.
#[tactic(auto, using(crate::proofs::MemoryLaws::memory_caused, crate::proofs::MemoryLaws::second_kept))]
fn run<R, A, B, K, G>(
    rt: &R,
    alloc: Global,
    words: &Words,
    first: &mut A,
    second: &mut B,
    out: &mut K,
    gate: &G,
) -> Status
where
    R: Threads + Sync,
    A: Source,
    B: Source,
    K: Sink,
    G: BandGate + Sync,
    ensures cause { IsCaused words.now
        (seen (A.supplied first.old) (B.supplied second.old) (K.received out.old))
        (seen (A.supplied first.new) (B.supplied second.new) (K.received out.new))
        result }
    ensures second { IsSecondKept (command_of_words words.now) second.old second.new }
{
    match read_command(alloc, words) {
        Ok(command) => carry_out(rt, alloc, command, words, first, second, out, gate),
        Err(NoMemory) => Status::Memory,
    }
}

/// Carries out the command that the words are, if they are one.
fn carry_out<R, A, B, K, G>(
    rt: &R,
    alloc: Global,
    command: Option<Command>,
    words: &Words,
    first: &mut A,
    second: &mut B,
    out: &mut K,
    gate: &G,
) -> Status
where
    R: Threads + Sync,
    A: Source,
    B: Source,
    K: Sink,
    G: BandGate + Sync,
    requires command { command ≡ command_of_words words.now }
    requires range { IfSome command (IsInRange words.now) }
    ensures cause { IsCaused words.now
        (seen (A.supplied first.old) (B.supplied second.old) (K.received out.old))
        (seen (A.supplied first.new) (B.supplied second.new) (K.received out.new))
        result }
    ensures second { IsSecondKept (command_of_words words.now) second.old second.new }
{
    match command {
        None => Status::Usage,
        Some(
            Command::Compile {
                profile,
                pid,
                page,
                has_font,
            },
        ) => compile(alloc, profile, pid, page, has_font, first, second, out),
        Some(Command::List { pid }) => list(alloc, pid, first, out),
        Some(
            Command::Dump {
                profile,
                pid,
                page,
                bands,
            },
        ) => dump(
            rt, alloc, words, profile, pid, page, bands, first, out, gate,
        ),
        Some(
            Command::Check {
                profile,
                origin,
                pid,
                page,
            },
        ) => check(alloc, profile, origin, pid, page, first, out),
        Some(Command::Expect { has_font }) => expect(alloc, words, has_font, first, second, out),
        Some(Command::Gen { number, profile }) => write_gen_text(
            rt, alloc, number, profile, out, gate,
        ),
    }
}
