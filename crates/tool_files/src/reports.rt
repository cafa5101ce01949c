//! What is told of one stream: its pictures, its faults, the levels of a buffer, its PIDs.

ghost use Rattle.stream_report.specs.FaultsOutcome.{faults_causes};
ghost use Rattle.stream_report.specs.FaultsWords.{faults_words};
ghost use Rattle.stream_report.specs.LevelsOutcome.{levels_causes};
ghost use Rattle.stream_report.specs.LevelsWords.{levels_words};
ghost use Rattle.stream_report.specs.PicturesOutcome.{pictures_causes};
ghost use Rattle.stream_report.specs.PicturesWords.{pictures_words};
ghost use Rattle.stream_report.specs.PidsOutcome.{pids_causes};
ghost use Rattle.stream_report.specs.PidsWords.{pids_words};
ghost use Rattle.tool_files.specs.Ends.{MayToolEnd};

use crate::files::{ToolFiles, end};
use crate::reasons::FileNames;
use std::io;
use std::thread::Threads;
use stream_report::{
    faults_inputs, faults_top, levels_inputs, levels_top, pictures_inputs, pictures_top,
    pids_inputs, pids_top,
};
use sub_base::{FileSink, NoGate, Words};

/// Tells the pictures of all sets of a stream.
pub(crate) fn pictures<'a, T: Threads + Sync>(
    rt: &'a HostRuntime,
    threads: &T,
    words: &'a Words,
) -> u8
    ensures { MayToolEnd pictures_causes (pictures_words words.now) result }
{
    let names = FileNames {
        words,
        places: pictures_inputs(words),
    };
    let ToolFiles {
        mut first,
        second: _,
        mut output,
    } = ToolFiles::of(rt, names);
    let status = pictures_top(
        threads,
        rt.alloc(),
        words,
        &mut first,
        &mut FileSink::make(Some(&mut output)),
        &mut FileSink::make(Some(io::sink())),
        &NoGate,
    );
    end(rt, names, &mut output, status)
}

/// Tells why sets of a stream are not shown.
pub(crate) fn faults<'a>(rt: &'a HostRuntime, words: &'a Words) -> u8
    ensures { MayToolEnd faults_causes (faults_words words.now) result }
{
    let names = FileNames {
        words,
        places: faults_inputs(words),
    };
    let ToolFiles {
        mut first,
        second: _,
        mut output,
    } = ToolFiles::of(rt, names);
    let status = faults_top(
        rt.alloc(),
        words,
        &mut first,
        &mut FileSink::make(Some(&mut output)),
        &mut FileSink::make(Some(io::sink())),
    );
    end(rt, names, &mut output, status)
}

/// Tells the levels of a receiver's coded data buffer, by the stream's own clock.
pub(crate) fn levels<'a>(rt: &'a HostRuntime, words: &'a Words) -> u8
    ensures { MayToolEnd levels_causes (levels_words words.now) result }
{
    let names = FileNames {
        words,
        places: levels_inputs(words),
    };
    let ToolFiles {
        mut first,
        second: _,
        mut output,
    } = ToolFiles::of(rt, names);
    let status = levels_top(
        rt.alloc(),
        words,
        &mut first,
        &mut FileSink::make(Some(&mut output)),
        &mut FileSink::make(Some(io::sink())),
    );
    end(rt, names, &mut output, status)
}

/// Tells the PIDs of a stream that have subtitles, with their pages and services.
pub(crate) fn pids<'a>(rt: &'a HostRuntime, words: &'a Words) -> u8
    ensures { MayToolEnd pids_causes (pids_words words.now) result }
{
    let names = FileNames {
        words,
        places: pids_inputs(words),
    };
    let ToolFiles {
        mut first,
        second: _,
        mut output,
    } = ToolFiles::of(rt, names);
    let status = pids_top(
        rt.alloc(),
        words,
        &mut first,
        &mut FileSink::make(Some(&mut output)),
        &mut FileSink::make(Some(io::sink())),
    );
    end(rt, names, &mut output, status)
}
