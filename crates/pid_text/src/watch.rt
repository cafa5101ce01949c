//! What is read of one PID.

ghost use Rattle.std.specs.Prelude.{◌≡◌, [], IfOk};
ghost use Rattle.stream_syntax.specs.TransportPackets.{pid_of};
ghost use Rattle.pid_text.specs.Private.Watching.{BeginsWith, FeedsOn, IsWatch, TakesIn};

use crate::begins::begins_private;
use crate::pid_tally::PidTally;
use std::alloc::Global;
use sub_base::{LARGEST_BUFFER, NoMemory};
use ts_packets::Demux;

/// The units of a PID, and what is counted of them.
#[derive(Drop)]
pub(crate) struct Watch {
    /// The packets of the PID.
    pub demux: Demux,
    /// The PES packets of subtitles that ended.
    pub tally: PidTally,
}

/// A PID, which is watched from the first packet on with which a PES packet of private stream 1 may
/// begin.
#[derive(Drop)]
pub(crate) struct Slot {
    /// What is read of it.
    pub watch: Option<Watch>,
}

impl Watch {
    /// A PID of which no packet was taken. All memory is taken here.
    fn make(alloc: Global, pid: u16) -> Result<Watch, NoMemory>
        ensures { IfOk result (IsWatch pid []) }
    {
        Ok(Watch {
            demux: Demux::make(alloc, pid, LARGEST_BUFFER)?,
            tally: PidTally::make(alloc)?,
        })
    }

    /// Takes the next packet, and answers whether it can be taken. Where it cannot, nothing
    /// changes.
    fn feed(&mut self, packet: &[u8; 188]) -> bool
        ensures { FeedsOn self.old self.new packet.now result }
    {
        match self.demux.feed(packet) {
            Ok(fed) => {
                if let Some(unit) = fed.unit {
                    self.tally.take_unit(unit);
                }
                true
            }
            Err(_) => false,
        }
    }
}

impl Slot {
    /// Takes the next packet of the PID. Memory is taken with the first that is watched.
    pub(crate) fn take(
        &mut self,
        alloc: Global,
        pid: u16,
        packet: &[u8; 188],
    ) -> Result<(), NoMemory>
        requires { pid_of packet.now ≡ pid }
        ensures { IfOk result (λ _. TakesIn pid self.old self.new packet.now) }
    {
        match self.watch.take() {
            Some(mut watch) => {
                watch.feed(packet);
                self.watch = Some(watch);
            }
            None => {
                if begins_private(packet) {
                    self.watch = begin(alloc, pid, packet)?;
                }
            }
        }
        Ok(())
    }
}

/// Begins to watch a PID with this packet, where it can be taken.
fn begin(alloc: Global, pid: u16, packet: &[u8; 188]) -> Result<Option<Watch>, NoMemory>
    requires { pid_of packet.now ≡ pid }
    ensures { IfOk result (λ watch. BeginsWith pid packet.now watch) }
{
    let mut watch = Watch::make(alloc, pid)?;
    if watch.feed(packet) {
        Ok(Some(watch))
    } else {
        Ok(None)
    }
}
