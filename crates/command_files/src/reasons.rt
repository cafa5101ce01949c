use bitmap_font::FontFault;
use cue_list::ScriptFault;
use dvbsub_cmd::{Status, Which, inputs};
use program_files::{opened, word_at};
use refusal_text::{
    FileFault, Text, command_refusal, file_refusal, font_refusal, packet_refusal, plan_refusal,
    schedule_refusal, script_refusal,
};
use script_input::TEXT_LIMIT;
use std::fs;
use std::io::Write;
use sub_base::{FileSource, NoMemory, Profile, ProfileName, Words, read_all};

/// Writes a sentence to standard error that says why the command of these words ended so, where it
/// was not done. Without memory for a sentence there is none.
pub(crate) fn explain(rt: &HostRuntime, words: &Words, status: Status, out_is_input: bool) {
    if let Ok(Some(text)) = sentence(rt, words, status, out_is_input) {
        let mut error = rt.stderr();
        let _ = error.write_all(text.as_bytes());
        let _ = error.write_all(b"\n");
    }
}

fn sentence(
    rt: &HostRuntime,
    words: &Words,
    status: Status,
    out_is_input: bool,
) -> Result<Option<Text>, NoMemory> {
    let alloc = rt.alloc();
    let text = match status {
        Status::Usage => command_refusal(alloc, words)?,
        Status::FontRefused(FontFault::Refused { line, kind }) => {
            font_refusal(alloc, slice(&font_again(rt, words)), line, kind)?
        }
        Status::ScriptRefused(ScriptFault::Refused { row, kind }) => {
            let script = script_again(rt, words);
            let font = font_again(rt, words);
            script_refusal(alloc, slice(&script), slice(&font), row, kind)?
        }
        Status::PlanRefused(fault) => {
            let script = script_again(rt, words);
            plan_refusal(alloc, slice(&script), &profile_of(words), fault)?
        }
        Status::ScheduleRefused { row, fault } => {
            let script = script_again(rt, words);
            let font = font_again(rt, words);
            let profile = profile_of(words);
            schedule_refusal(alloc, slice(&script), slice(&font), &profile, row, fault)?
        }
        Status::StreamRefused { packet, fault } => packet_refusal(alloc, packet, fault)?,
        _ => return file_sentence(rt, words, status, out_is_input),
    };
    Ok(Some(text))
}

/// The sentence on a file that could not be read or written.
fn file_sentence(
    rt: &HostRuntime,
    words: &Words,
    status: Status,
    out_is_input: bool,
) -> Result<Option<Text>, NoMemory> {
    let fault = match status {
        Status::ReadFault(which) => named(words, which, FileFault::Unread),
        Status::InputTooLong(which) => named(words, which, long_fault(words)),
        Status::WriteFault(which) if out_is_input => named(words, which, FileFault::IsInput),
        Status::WriteFault(which) => named(words, which, FileFault::Unwritten),
        _ => None,
    };
    match fault {
        Some(file) => Ok(Some(file_refusal(rt.alloc(), file.name, file.fault)?)),
        None => Ok(None),
    }
}

/// A file of the command by its name, and what has become of it.
#[derive(Clone, Copy)]
struct FaultyFile<'a> {
    name: &'a str,
    fault: FileFault,
}

fn named(words: &Words, which: Which, fault: FileFault) -> Option<FaultyFile<'_>> {
    let places = inputs(words);
    let place = match which {
        Which::First => places.first,
        Which::Second => places.second,
        Which::Out => places.out,
        Which::Notes => None,
    };
    let name = word_at(words, place)?;
    Some(FaultyFile { name, fault })
}

/// Which limit an input of the command has passed: scripts and fonts have another one than streams.
fn long_fault(words: &Words) -> FileFault {
    match word_at(words, Some(0)) {
        Some("compile") | Some("expect") => FileFault::LongText,
        _ => FileFault::LongStream,
    }
}

fn script_again(rt: &HostRuntime, words: &Words) -> Option<Vec<u8>> {
    again(rt, word_at(words, inputs(words).first))
}

fn font_again(rt: &HostRuntime, words: &Words) -> Option<Vec<u8>> {
    again(rt, word_at(words, inputs(words).second))
}

/// The bytes of an input, read once more. A pipe has none any more, and would be waited for.
fn again(rt: &HostRuntime, name: Option<&str>) -> Option<Vec<u8>> {
    if !fs::metadata(rt, name?).ok()?.is_file() {
        return None;
    }
    let mut source = FileSource::make(opened(rt, name));
    read_all(rt.alloc(), &mut source, TEXT_LIMIT).ok()
}

fn slice(bytes: &Option<Vec<u8>>) -> Option<&[u8]> {
    match bytes {
        Some(bytes) => Some(bytes.as_slice()),
        None => None,
    }
}

/// The profile that a script is compiled for.
fn profile_of(words: &Words) -> Profile {
    Profile::of(match word_at(words, Some(1)) {
        Some("hd") => ProfileName::Hd,
        Some("large") => ProfileName::Large,
        _ => ProfileName::Sd,
    })
}
