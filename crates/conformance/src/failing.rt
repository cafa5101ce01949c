use crate::running::{Asked, Edges, Wanted, done, ends_as, sound};
use std::alloc::Global;
use std::process::Abort;
use std::thread::Threads;

/// How many reads of so many bytes take a source to its end: the last gives none.
fn reads_of(size: usize, most: usize) -> usize {
    size.div_ceil(most.max(1)).saturating_add(1)
}

/// What was put out of no packet, of the first one and of both, where so many bytes came.
fn text_of<'a>(came: usize, texts: [&'a str; 3]) -> &'a str {
    let [none, first, both] = texts;
    match came / 188 {
        0 => none,
        1 => first,
        _ => both,
    }
}

/// Each read of the first source fails in turn. What is put out are the texts of the packets before
/// it; where none of the reads fails, all of the output.
pub(crate) fn each_read_fails<R: Threads + Sync + Abort>(
    rt: &R,
    alloc: Global,
    asked: &Asked<'_>,
    most: usize,
    texts: [&str; 3],
    whole: &[u8],
) {
    let reads = reads_of(asked.first.len(), most);
    for read in 0..reads {
        let came = read.saturating_mul(most).min(asked.first.len());
        let wanted = Wanted {
            code: 5,
            note: "read first\n",
            out: text_of(came, texts).as_bytes(),
        };
        ends_as(rt, alloc, asked, read_at(most, read), wanted);
    }
    ends_as(rt, alloc, asked, read_at(most, reads), done(whole))
}

fn read_at(most: usize, read: usize) -> Edges {
    Edges {
        most_read: most,
        bad_read: (read as u64).saturating_add(1),
        ..sound(100_000)
    }
}

/// Each read of the font fails in turn: nothing is put out.
pub(crate) fn each_font_read_fails<R: Threads + Sync + Abort>(
    rt: &R,
    alloc: Global,
    asked: &Asked<'_>,
    most: usize,
    whole: &[u8],
) {
    let reads = reads_of(asked.second.len(), most);
    for read in 0..reads {
        let wanted = Wanted {
            code: 5,
            note: "read second\n",
            out: &[],
        };
        ends_as(rt, alloc, asked, font_read_at(most, read), wanted);
    }
    ends_as(rt, alloc, asked, font_read_at(most, reads), done(whole))
}

fn font_read_at(most: usize, read: usize) -> Edges {
    Edges {
        most_read: most,
        bad_font_read: (read as u64).saturating_add(1),
        ..sound(100_000)
    }
}

/// Each write of the output fails in turn. The bytes of the writes before it are there, and no
/// others; where none of the writes fails, all of them.
pub(crate) fn each_write_fails<R: Threads + Sync + Abort>(
    rt: &R,
    alloc: Global,
    asked: &Asked<'_>,
    most: usize,
    whole: &[u8],
) {
    let writes = whole.len().div_ceil(most.max(1));
    for write in 0..writes {
        let wanted = Wanted {
            code: 6,
            note: "write out\n",
            out: whole.get(..write.saturating_mul(most)).unwrap_or(&[]),
        };
        ends_as(rt, alloc, asked, write_at(most, write), wanted);
    }
    ends_as(rt, alloc, asked, write_at(most, writes), done(whole))
}

fn write_at(most: usize, write: usize) -> Edges {
    Edges {
        most_written: most,
        bad_write: (write as u64).saturating_add(1),
        ..sound(100_000)
    }
}

/// Each write of the status' line fails in turn, a byte a call. What is put out stays, and the code
/// is as is wanted.
pub(crate) fn each_note_fails<R: Threads + Sync + Abort>(
    rt: &R,
    alloc: Global,
    asked: &Asked<'_>,
    wanted: Wanted<'_>,
) {
    for write in 0..wanted.note.len() {
        let edges = Edges {
            bad_note: (write as u64).saturating_add(1),
            ..sound(1)
        };
        let part = Wanted {
            note: wanted.note.get(..write).unwrap_or("none"),
            ..wanted
        };
        ends_as(rt, alloc, asked, edges, part);
    }
}
