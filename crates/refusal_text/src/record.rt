use csv::ByteRecord;
use cue_records::{RowKind, cell, next_row, reader_of};
use std::alloc::Global;
use std::mem;
use sub_base::NoMemory;

/// A record of a script, and the places of its bytes in the text.
#[derive(Drop)]
pub(crate) struct Record {
    pub(crate) cells: ByteRecord,
    pub(crate) start: usize,
    pub(crate) end: usize,
}

impl Record {
    /// The record of that number, from 1, where the text has it.
    pub(crate) fn find(
        alloc: Global,
        text: &[u8],
        number: u64,
    ) -> Result<Option<Record>, NoMemory> {
        let mut reader = reader_of(alloc, text);
        let mut cells = ByteRecord::new(alloc);
        let mut start = 0;
        for _ in 0..number {
            start = reader.position().byte();
            if !next_row(&mut reader, &mut cells)? {
                return Ok(None);
            }
        }
        let (start, end) = within(text, start, reader.position().byte());
        Ok(Some(Record { cells, start, end }))
    }

    /// The cell at that place, empty where the record is shorter.
    pub(crate) fn cell(&self, place: usize) -> &[u8] {
        cell(&self.cells, place)
    }

    /// The bytes of the record in the text that it was found in, without the end of its line.
    pub(crate) fn bytes<'a>(&self, text: &'a [u8]) -> &'a [u8] {
        match text.get(self.start..self.end) {
            Some(bytes) => without_line_ends(bytes),
            None => &[],
        }
    }

    /// The text before the record.
    pub(crate) fn before<'a>(&self, text: &'a [u8]) -> &'a [u8] {
        match text.get(..self.start) {
            Some(bytes) => bytes,
            None => &[],
        }
    }
}

/// The last record of a picture of that name.
pub(crate) fn last_picture(
    alloc: Global,
    text: &[u8],
    name: &[u8],
) -> Result<Option<ByteRecord>, NoMemory> {
    let mut reader = reader_of(alloc, text);
    let mut cells = ByteRecord::new(alloc);
    let mut last = None;
    while next_row(&mut reader, &mut cells)? {
        if RowKind::of(cell(&cells, 0)) == RowKind::Picture && cell(&cells, 1) == name {
            last = Some(mem::replace(&mut cells, ByteRecord::new(alloc)));
        }
    }
    Ok(last)
}

/// Two places as places in the text.
fn within(text: &[u8], start: u64, end: u64) -> (usize, usize) {
    let start = usize::try_from(start).unwrap_or(0).min(text.len());
    let end = usize::try_from(end).unwrap_or(0).min(text.len());
    (start, end)
}

fn without_line_ends(bytes: &[u8]) -> &[u8] {
    let mut rest = bytes;
    while let [first, behind @ ..] = rest {
        if !is_line_end(*first) {
            break;
        }
        rest = behind;
    }
    while let [before @ .., last] = rest {
        if !is_line_end(*last) {
            break;
        }
        rest = before;
    }
    rest
}

fn is_line_end(byte: u8) -> bool {
    byte == b'\n' || byte == b'\r'
}
