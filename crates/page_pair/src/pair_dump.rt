//! `pairdump`: the pictures of one of two languages.

ghost use Rattle.std.specs.Prelude.{◌≡◌, IfSome, None};
ghost use Rattle.command_words.specs.Ticks.{asked_ticks};
ghost use Rattle.sub_base.specs.Endpoints.{Supplied};
ghost use Rattle.sub_base.specs.Seen.{seen};
ghost use Rattle.sub_base.specs.ToolOutcome.{IsToolCause};
ghost use Rattle.page_pair.specs.PairDump.{HasDumpedRead, IsPairDumping, dump_causes, dump_places, dump_status, dump_words as dump_words_of};

use crate::pair_fault::PairFault;
use command_words::{
    InputPlaces, MOST_BANDS, are_plain, has_ticks, has_word, no_files, page_in, pid_in,
    reading_profile, ticks_of,
};
use decoder_model::Pages;
use dump_text::dump_stream;
use packet_walk::{Refused, ToldEnd};
use std::alloc::Global;
use std::thread::Threads;
use sub_base::{BandGate, Profile, ProfileName, Sink, Source, ToolStatus, Which, Words, number_in};

/// How many words `pairdump` has before its ticks.
const WORDS_OF_DUMP: usize = 8;

/// Of which pages a receiver shows the pictures that `pairdump` writes, and how it draws them.
#[derive(Clone, Copy, Debug)]
pub struct PairDump {
    /// The receiver.
    pub profile: ProfileName,
    /// The PID of the packets.
    pub pid: u16,
    /// The composition page of the language, and the ancillary page.
    pub pages: Pages,
    /// In how many bands a picture is drawn, 1 to 64.
    pub bands: u32,
}

/// What the words `pairdump PROFILE PID PAGE ANC BANDS STREAM OUT TICK...` ask for, where they are
/// such words: the two pages differ, and 1 to 1,000 ticks rise.
pub(crate) fn dump_words(words: &Words) -> Option<PairDump>
    ensures words { result ≡ dump_words_of words.now }
    ensures range { IfSome result (IsPairDumping words.now) }
{
    if !are_plain(words) || !has_ticks(words, WORDS_OF_DUMP) || !has_word(words, 0, "pairdump") {
        return None;
    }
    let profile = reading_profile(words.word(1))?;
    let pid = pid_in(words.word(2))?;
    let composition = page_in(words.word(3))?;
    let ancillary = page_in(words.word(4))?;
    let bands = number_in(words.word(5).as_bytes(), 1, MOST_BANDS)? as u32;
    if composition == ancillary {
        return None;
    }
    let pages = Pages {
        composition,
        ancillary,
    };
    Some(PairDump {
        profile,
        pid,
        pages,
        bands,
    })
}

/// Where the names of the files stand that the words of `pairdump` name, counted from 0: the stream
/// and the output. Nowhere where they are other words.
pub fn dump_inputs(words: &Words) -> InputPlaces
    ensures { result ≡ dump_places words.now }
{
    match dump_words(words) {
        Some(_) => InputPlaces {
            first: Some(6),
            second: None,
            out: Some(7),
        },
        None => no_files(),
    }
}

/// Writes the pictures that a receiver of the pages shows of a stream at the ticks that the words
/// ask for, each as soon as no set can change it. All memory is taken before the first byte is
/// read.
pub(crate) fn pair_dump<R: Threads + Sync, A: Source, K: Sink, G: BandGate + Sync>(
    rt: &R,
    alloc: Global,
    words: &Words,
    dump: PairDump,
    stream: &mut A,
    out: &mut K,
    gate: &G,
) -> ToolStatus<PairFault>
    requires asked { IsPairDumping words.now dump }
    // No other source is called.
    ensures cause { (second : Supplied) →
        let before = seen (A.supplied stream.old) second (K.received out.old) in
        let now = seen (A.supplied stream.new) second (K.received out.new) in
        IsToolCause (dump_causes (asked_ticks 8 words.now) dump before now) before now result }
    ensures told { (second : Supplied) →
        let before = seen (A.supplied stream.old) second (K.received out.old) in
        let now = seen (A.supplied stream.new) second (K.received out.new) in
        HasDumpedRead (asked_ticks 8 words.now) dump before now result }
{
    let Ok(ticks) = ticks_of(alloc, words, WORDS_OF_DUMP) else {
        return ToolStatus::Memory;
    };
    let profile = Profile::of(dump.profile);
    status_of_end(dump_stream(
        rt,
        alloc,
        &profile,
        dump.pid,
        dump.pages,
        dump.bands,
        ticks.as_slice(),
        stream,
        out,
        gate,
    ))
}

/// The status of `pairdump` whose telling of a stream ended so.
fn status_of_end(end: ToldEnd) -> ToolStatus<PairFault>
    ensures { result ≡ dump_status end }
{
    match end {
        ToldEnd::Done { .. } => ToolStatus::Done,
        ToldEnd::Refused(Refused { packet, fault }) => {
            ToolStatus::Refused(PairFault::Stream { packet, fault })
        }
        ToldEnd::Unread => ToolStatus::ReadFault(Which::First),
        ToldEnd::TooLong => ToolStatus::InputTooLong(Which::First),
        ToldEnd::Unwritten => ToolStatus::WriteFault(Which::Out),
        ToldEnd::Memory => ToolStatus::Memory,
    }
}
