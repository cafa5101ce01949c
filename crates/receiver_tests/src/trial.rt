use crate::sending::{FILLED, packet_of};
use decoder_model::Pages;
use page_core::SetEnd;
use receiver::{Arrival, Receiver, View};
use std::alloc::Global;
use std::panic::Expect;
use std::process::Abort;
use std::thread::Threads;
use stream_syntax::{Event, PacketFault};
use sub_base::{Colour, NoGate, NoMemory, Profile, ProfileName, SetLoad};

/// What is seen at a tick.
#[derive(Clone, Copy, Debug, PartialEq, Eq)]
pub(crate) enum Seen {
    /// The receiver does not tell it any more.
    TooEarly,
    /// The video everywhere.
    Clear,
    /// A picture with this first colour.
    Picture(Option<Colour>),
}

/// A receiver of page 1 out of PID 256, and how many packets were sent to it, be they lost or not.
#[derive(Drop)]
pub(crate) struct Trial {
    receiver: Receiver,
    sent: u8,
}

impl Trial {
    pub(crate) fn new<R: Abort>(rt: &R, alloc: Global) -> Trial {
        let sd = Profile::of(ProfileName::Sd);
        Trial::of(Receiver::make(alloc, &sd, 256, 1, 0).expect(rt, "memory"))
    }

    /// The same with the ancillary page 2.
    pub(crate) fn with_ancillary_page(alloc: Global) -> Result<Trial, NoMemory> {
        let sd = Profile::of(ProfileName::Sd);
        let pages = Pages {
            composition: 1,
            ancillary: 2,
        };
        Ok(Trial::of(Receiver::of_pages(alloc, &sd, 256, pages, 0)?))
    }

    fn of(receiver: Receiver) -> Trial {
        Trial { receiver, sent: 0 }
    }

    /// What becomes of a packet; none where a set is ready.
    pub(crate) fn feed(&mut self, packet: &[u8; 188]) -> Option<Result<Event, PacketFault>> {
        match self.receiver.ready() {
            Some(_) => None,
            None => Some(self.receiver.feed(packet)),
        }
    }

    /// The next packet, with a PES packet of these segments.
    pub(crate) fn next(&mut self, pts: u32, segments: &[u8]) -> [u8; 188] {
        let packet = packet_of(self.sent, pts, segments);
        self.sent = self.sent.wrapping_add(1);
        packet
    }

    /// Sends the next packet.
    pub(crate) fn send(&mut self, pts: u32, segments: &[u8]) -> Option<Result<Event, PacketFault>> {
        let packet = self.next(pts, segments);
        self.feed(&packet)
    }

    /// The stream has ended; whether no set was ready.
    pub(crate) fn finish(&mut self) -> bool {
        match self.receiver.ready() {
            Some(_) => false,
            None => {
                self.receiver.finish();
                true
            }
        }
    }

    /// Takes the set that is ready; none where none is.
    pub(crate) fn take<R: Threads + Sync>(&mut self, rt: &R) -> Option<SetEnd> {
        match self.receiver.ready() {
            None => None,
            Some(_) => Some(self.receiver.take(rt, 2, &NoGate)),
        }
    }

    /// The same, drawn in one band; and the time of the set.
    pub(crate) fn take_timed<R: Threads + Sync>(&mut self, rt: &R) -> Option<(u64, SetEnd)> {
        let time = self.receiver.ready()?;
        Some((time, self.receiver.take(rt, 1, &NoGate)))
    }

    /// Sends a filled display, and takes it.
    pub(crate) fn show_filled<R: Threads + Sync>(&mut self, rt: &R, pts: u32) -> Option<SetEnd> {
        self.send(pts, &FILLED)?.ok()?;
        self.take(rt)
    }

    /// What is seen, by the first colour of a picture.
    pub(crate) fn seen_at(&self, tick: u64) -> Seen {
        if tick < self.receiver.from() {
            return Seen::TooEarly;
        }
        match self.receiver.picture(tick) {
            View::Clear => Seen::Clear,
            View::Plane { colours, .. } => Seen::Picture(colours.first().copied()),
        }
    }

    /// What is seen; a picture without a colour where its eight places have not the same one.
    pub(crate) fn all_seen_at(&self, tick: u64) -> Seen {
        if tick < self.receiver.from() {
            return Seen::TooEarly;
        }
        match self.receiver.picture(tick) {
            View::Clear => Seen::Clear,
            View::Plane { colours, .. } => Seen::Picture(only_colour(colours)),
        }
    }

    pub(crate) fn ready(&self) -> Option<u64> {
        self.receiver.ready()
    }

    pub(crate) fn ready_at(&self) -> Option<u64> {
        self.receiver.ready_at()
    }

    pub(crate) fn from(&self) -> u64 {
        self.receiver.from()
    }

    pub(crate) fn load(&self) -> SetLoad {
        self.receiver.load()
    }

    pub(crate) fn arrival(&self) -> Arrival {
        self.receiver.arrival()
    }

    pub(crate) fn free_nodes(&self) -> u32 {
        self.receiver.core().free_nodes()
    }

    pub(crate) fn free_pixels(&self) -> u64 {
        self.receiver.core().free_pixels()
    }
}

fn only_colour(colours: &[Colour]) -> Option<Colour> {
    let first = *colours.first()?;
    if colours == [first; 8].as_slice() {
        Some(first)
    } else {
        None
    }
}
