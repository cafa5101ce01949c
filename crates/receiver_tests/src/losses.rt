//! Packets are lost: nothing is known behind them, and from the next whole page on the pictures are
//! the authored ones.

ghost use Rattle.std.specs.Prelude.{◌<◌, ◌^◌};

use crate::same::same;
use crate::sending::{END, FILLED};
use crate::trial::{Seen, Trial};
use page_core::SetEnd;
use pes_packets::write_unit;
use std::alloc::Global;
use std::panic::Expect;
use std::process::Abort;
use std::thread::Threads;
use stream_syntax::{Event, PAYLOAD_LENGTH};
use sub_base::{CLEAR, Colour, UNIT_ROOM};
use ts_packets::Packetiser;

/// A display of four columns and two rows.
const DISPLAY: [u8; 11] = [
    0x0F, 0x14, 0x00, 0x01, 0x00, 0x05, 0x07, 0x00, 0x03, 0x00, 0x01,
];

/// A page of state normal without entries.
const NO_ENTRIES: [u8; 8] = [0x0F, 0x10, 0x00, 0x01, 0x00, 0x02, 0x0C, 0x13];

/// The head of a segment of 400 bytes that is passed over.
const LONG: [u8; 6] = [0x0F, 0xFF, 0x00, 0x01, 0x01, 0x90];

/// Cues, one after another, in a region of four by two pixels. Each is a set of one packet, or of
/// three; the page is whole at the first cue and then at each cue of a number, and the last set is
/// the end of the last cue.
#[derive(Clone, Copy, Debug, PartialEq, Eq)]
struct Stream {
    cues: u8,
    whole: u8,
    is_long: bool,
}

impl Stream {
    /// How many packets a set has.
    fn packets(self) -> u32 {
        if self.is_long { 3 } else { 1 }
    }

    fn has_whole_page(self, set: u8) -> bool {
        self.whole > 0 && set % self.whole == 0 && set < self.cues
    }

    /// The last whole page up to a set.
    fn last_page(self, set: u8) -> u8 {
        let cue = set.min(self.cues.saturating_sub(1));
        if self.whole > 0 {
            cue.saturating_sub(cue % self.whole)
        } else {
            0
        }
    }
}

/// The page of a cue, which lists region 0: a mode change, an acquisition point, or a page of state
/// normal.
fn page_of(stream: Stream, cue: u8) -> [u8; 14] {
    let state = if cue == 0 {
        0x0B
    } else if stream.has_whole_page(cue) {
        0x07
    } else {
        0x03
    };
    let states = (cue % 16 * 16).wrapping_add(state);
    [
        0x0F, 0x10, 0x00, 0x01, 0x00, 0x08, 0x0C, states, 0x00, 0xFF, 0x00, 0x00, 0x00, 0x00,
    ]
}

/// The region of a cue, with a fill, and the cue alone; the cue's object, of code 1 or 2 alone in
/// each row; and its CLUT, which gives these two codes luminances of 16 and 17 and twice the cue's
/// number.
#[rattlefmt::skip]
fn rest_of(cue: u8) -> [u8; 62] {
    let version = cue % 16 * 16 + 15;
    let luminance = (cue % 64 * 2).wrapping_add(16);
    [
        0x0F, 0x11, 0x00, 0x01, 0x00, 0x10, 0x00, version,
        0x00, 0x04, 0x00, 0x02, 0x6F, 0x00, 0x00, 0x03,
        0x00, cue, 0x00, 0x00, 0xF0, 0x00,
        0x0F, 0x12, 0x00, 0x01, 0x00, 0x0E, 0x00, version,
        0x01, 0x3F, luminance, 0x80, 0x80, 0x00,
        0x02, 0x3F, luminance.wrapping_add(1), 0x80, 0x80, 0x00,
        0x0F, 0x13, 0x00, 0x01, 0x00, 0x0E, 0x00, cue, 0x01, 0x00, 0x07, 0x00, 0x00,
        0x12, 0x00, 0x84, 1 + cue % 2, 0x00, 0x00, 0xF0,
    ]
}

/// The segments of a set.
fn segments_of<R: Abort>(rt: &R, alloc: Global, stream: Stream, set: u8) -> Vec<u8> {
    let mut segments = Vec::new(alloc);
    if stream.has_whole_page(set) {
        segments.extend_from_slice(&DISPLAY).expect(rt, "memory");
    }
    if set < stream.cues {
        segments
            .extend_from_slice(&page_of(stream, set))
            .expect(rt, "memory");
    } else {
        segments.extend_from_slice(&NO_ENTRIES).expect(rt, "memory");
    }
    if stream.is_long {
        segments.extend_from_slice(&LONG).expect(rt, "memory");
        segments
            .extend_from_slice(&[0xAA; 400])
            .expect(rt, "memory");
    }
    if set < stream.cues {
        segments
            .extend_from_slice(&rest_of(set))
            .expect(rt, "memory");
    }
    segments.extend_from_slice(&END).expect(rt, "memory");
    segments
}

/// The packets of a stream from one number on and before another are lost.
#[derive(Clone, Copy, Debug, PartialEq, Eq)]
struct Loss {
    stream: Stream,
    first: u32,
    behind: u32,
}

impl Loss {
    fn has(self, packet: u32) -> bool {
        self.first <= packet && packet < self.behind
    }

    /// Whether the epoch is known behind a packet, up to which a set has ended: it is before the
    /// loss, or the last whole page is behind the loss. Where none has ended, the epoch before the
    /// cues is known up to the loss.
    fn is_known(self, packet: u32, ended: Option<u8>) -> bool {
        packet < self.first
            || match ended {
                None => false,
                Some(set) => {
                    let page = u64::from(self.stream.last_page(set));
                    u64::from(self.behind) <= page.saturating_mul(u64::from(self.stream.packets()))
                }
            }
    }

    /// How many nodes and bytes of pixels are free behind a packet. The page before the cues has an
    /// entry of the page, a region and eight bytes of pixels. A cue has a listing, a CLUT and two
    /// colours more; behind the last one the page has no entry.
    fn free_behind(self, packet: u32, ended: Option<u8>) -> (u32, u64) {
        if !self.is_known(packet, ended) {
            return (512, 81_920);
        }
        match ended {
            None => (510, 81_912),
            Some(set) if set < self.stream.cues => (506, 81_912),
            Some(_) => (507, 81_912),
        }
    }

    /// What becomes of a whole set that ends with a packet, and what is seen from its time on.
    fn end_of_set(self, packet: u32, set: u8) -> (SetEnd, Seen) {
        if !self.is_known(packet, Some(set)) {
            (SetEnd::Waiting, Seen::Clear)
        } else if set < self.stream.cues {
            (SetEnd::Shown, Seen::Picture(Some(colour_of(set))))
        } else {
            (SetEnd::Shown, Seen::Picture(Some(CLEAR)))
        }
    }
}

/// The colour of a cue.
fn colour_of(cue: u8) -> Colour {
    Colour {
        y: (cue % 64 * 2 + cue % 2).wrapping_add(16),
        cr: 128,
        cb: 128,
        t: 0,
    }
}

/// The PES packet with these segments.
fn unit_of<R: Abort>(rt: &R, alloc: Global, time: u64, segments: &[u8]) -> Vec<u8>
    requires { time < 2 ^ 33 }
{
    let mut unit = Vec::new(alloc);
    assert!(rt; segments.len() as u64 <= UNIT_ROOM);
    write_unit(time, segments, &mut unit).expect(rt, "memory");
    unit
}

/// A sender of streams with losses, and one receiver of all of them.
#[derive(Drop)]
struct Link {
    packetiser: Packetiser,
    trial: Trial,
    /// The presentation time of the last set that was sent.
    time: u64,
}

impl Link {
    fn make<R: Abort>(rt: &R, alloc: Global) -> Link {
        Link {
            packetiser: Packetiser::make(256),
            trial: Trial::new(rt, alloc),
            time: 0,
        }
    }

    /// The PES packet of the next set, a second behind the last one.
    fn unit<R: Abort>(&mut self, rt: &R, alloc: Global, segments: &[u8]) -> Vec<u8> {
        self.time = self.time.wrapping_add(90_000) % 8_589_934_592;
        unit_of(rt, alloc, self.time, segments)
    }

    /// The next packet, with so much of a unit from a place on as it has room for.
    fn packet<R: Abort>(&mut self, rt: &R, unit: &[u8], first: usize) -> [u8; 188] {
        let rest = unit.get(first..).unwrap_or(&[]);
        let piece = rest.get(..PAYLOAD_LENGTH).unwrap_or(rest);
        assert!(rt; !piece.is_empty() && piece.len() <= PAYLOAD_LENGTH);
        let mut packet = [0; 188];
        self.packetiser.packet(piece, first == 0, &mut packet);
        packet
    }

    /// Sends a page that begins an epoch, in one packet; it is shown, whatever was before it.
    fn begin<R: Threads + Sync + Abort>(&mut self, rt: &R, alloc: Global) {
        let unit = self.unit(rt, alloc, &FILLED);
        let packet = self.packet(rt, &unit, 0);
        let _ = self.trial.feed(&packet);
        same(
            rt,
            self.trial.take_timed(rt),
            Some((self.time, SetEnd::Shown)),
        );
    }

    /// Feeds a packet: it is behind a gap exactly where it is the first behind the loss. Where a
    /// whole set ends with it, that is taken.
    fn feed<R: Threads + Sync + Abort>(
        &mut self,
        rt: &R,
        packet: &[u8; 188],
        loss: Loss,
        number: u32,
        ends: Option<u8>,
    ) {
        let event = self.trial.feed(packet);
        let is_gap = matches!(event, Some(Ok(Event::Gap { .. })));
        assert_eq!(rt; is_gap, number == loss.behind, "{loss:?}, packet {number}");
        match ends {
            None => assert_eq!(rt; self.trial.ready(), None, "{loss:?}, packet {number}"),
            Some(set) => {
                let (end, seen) = loss.end_of_set(number, set);
                let time = self.time;
                assert_eq!(rt;
                    self.trial.take_timed(rt),
                    Some((time, end)),
                    "{loss:?}, packet {number}"
                );
                let found = self.trial.all_seen_at(time);
                assert_eq!(rt; found, seen, "{loss:?}, packet {number}");
            }
        }
    }

    /// Sends a set, the last of whose packets has that number.
    fn send_set<R: Threads + Sync + Abort>(&mut self, rt: &R, alloc: Global, loss: Loss, set: u8) {
        let segments = segments_of(rt, alloc, loss.stream, set);
        let unit = self.unit(rt, alloc, &segments);
        let count = loss.stream.packets();
        let mut is_whole = true;
        for place in 0..count {
            let packet = self.packet(rt, &unit, place as usize * PAYLOAD_LENGTH);
            let number = u32::from(set).saturating_mul(count).saturating_add(place);
            if loss.has(number) {
                is_whole = false;
            } else {
                let is_last = place + 1 == count;
                let ends = if is_last && is_whole { Some(set) } else { None };
                self.feed(rt, &packet, loss, number, ends);
                let ended = if is_last {
                    Some(set)
                } else {
                    set.checked_sub(1)
                };
                let free = (self.trial.free_nodes(), self.trial.free_pixels());
                assert_eq!(rt;
                    free,
                    loss.free_behind(number, ended),
                    "{loss:?}, packet {number}"
                );
            }
        }
    }

    /// Sends all sets of a stream but the lost packets.
    fn send<R: Threads + Sync + Abort>(&mut self, rt: &R, alloc: Global, loss: Loss) {
        self.begin(rt, alloc);
        for set in 0..loss.stream.cues {
            self.send_set(rt, alloc, loss, set);
        }
        self.send_set(rt, alloc, loss, loss.stream.cues)
    }
}

/// Seventeen cues, of one packet each, with a whole page at each fifth: one to fourteen packets in
/// a row are lost, at each place.
#[test]
fn sets_are_lost(rt: HostRuntime) {
    let alloc = rt.alloc();
    let mut link = Link::make(&rt, alloc);
    let stream = Stream {
        cues: 17,
        whole: 5,
        is_long: false,
    };
    for lost in 1..15 {
        for first in 0..19 - lost {
            let behind = first + lost;
            link.send(
                &rt,
                alloc,
                Loss {
                    stream,
                    first,
                    behind,
                },
            );
        }
    }
}

/// Seven cues, of three packets each, with a whole page at each third: the same, from each place in
/// the first four sets on.
#[test]
fn parts_of_sets_are_lost(rt: HostRuntime) {
    let alloc = rt.alloc();
    let mut link = Link::make(&rt, alloc);
    let stream = Stream {
        cues: 7,
        whole: 3,
        is_long: true,
    };
    for lost in 1..15 {
        for first in 0..10 {
            let behind = first + lost;
            link.send(
                &rt,
                alloc,
                Loss {
                    stream,
                    first,
                    behind,
                },
            );
        }
    }
}
