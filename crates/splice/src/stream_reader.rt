//! A stream gone through packet by packet and set by set.

ghost use Rattle.std.specs.Prelude.{◌≡◌, ◌<◌, ◌^◌, IfErr, IsSome, None, OnOk, []};
ghost use Rattle.display_sets.specs.Gathered.{first_ready, ready_sets, sets_behind};
ghost use Rattle.set_receiver.specs.Receiving.{IsSameReception, reception};
ghost use Rattle.set_receiver.specs.Taking.{AllReceived, HasNextReceived};
ghost use Rattle.splice.specs.Private.Parts.{cut_of};
ghost use Rattle.splice.specs.Private.Puts.{IsPut};
ghost use Rattle.splice.specs.Private.Surveys.{TakesPacket, TakesSets};
ghost use Rattle.splice.specs.Private.Stops.{IsStopAt};
ghost use Rattle.splice.specs.declared.stream_reader.ReadStop.TheVariants.{Memory};
ghost use Rattle.stream_syntax.specs.TransportPackets.{packet_fault};

use crate::found::Found;
use crate::joined::Joined;
use crate::part::Part;
use crate::prepared::{Placed, prepare};
use set_receiver::SetReceiver;
use std::alloc::Global;
use stream_syntax::PacketFault;
use sub_base::NoMemory;

/// Why a stream is not gone through to its end.
#[derive(Clone, Copy, Drop)]
pub(crate) enum ReadStop {
    /// No memory was found.
    Memory,
    /// The packet of that number, from 0, is the first that cannot be taken.
    Refused { packet: u64, fault: PacketFault },
}

impl From<NoMemory> for ReadStop {
    ghost from_gives = { λ _ stop. stop ≡ Memory };

    fn from(_error: NoMemory) -> ReadStop {
        ReadStop::Memory
    }
}

/// Takes the packet of that place, with the sets that it makes ready.
pub(crate) fn take_packet(
    alloc: Global,
    part: Part,
    place: u64,
    packet: &[u8; 188],
    receiver: &mut SetReceiver,
    found: &mut Found,
    joined: &mut Joined,
) -> Result<(), ReadStop>
    requires none { ready_sets receiver.old.collecting.sets ≡ [] }
    requires cut { cut_of part < 2 ^ 34 }
    requires place { place < 2 ^ 26 }
    ensures packet { OnOk result (TakesPacket part packet.now place receiver.old receiver.new
        found.old found.new joined.old joined.new) }
    ensures taken { OnOk result (packet_fault (reception receiver.old).pid packet.now ≡ None) }
    ensures stop { IfErr result (IsStopAt (reception receiver.old).pid place packet.now) }
    ensures none { OnOk result (ready_sets receiver.new.collecting.sets ≡ []) }
    ensures same { OnOk result (IsSameReception receiver.old receiver.new) }
{
    // Most packets of a stream are null packets.
    if receiver.is_other(packet) {
        return Ok(());
    }
    let came = match receiver.feed_counting(packet) {
        Ok(came) => came,
        Err(fault) => {
            return Err(ReadStop::Refused {
                packet: place,
                fault,
            });
        }
    };
    *found = found.with_losses(came.losses, place);
    take_ready(alloc, part, receiver, found, joined)?;
    Ok(())
}

/// Takes the sets that are ready, one after the other.
pub(crate) fn take_ready(
    alloc: Global,
    part: Part,
    receiver: &mut SetReceiver,
    found: &mut Found,
    joined: &mut Joined,
) -> Result<(), NoMemory>
    requires cut { cut_of part < 2 ^ 34 }
    ensures sets { OnOk result (TakesSets part receiver.old receiver.new found.old found.new
        joined.old joined.new) }
    ensures none { OnOk result (ready_sets receiver.new.collecting.sets ≡ []) }
    ensures all { OnOk result (AllReceived receiver.new) }
    ensures same { IsSameReception receiver.old receiver.new }
{
    while let Some(_) = receiver.ready() {
        take_next(alloc, part, receiver, found, joined)?;
    }
    Ok(())
}

/// Takes the set that is ready, and puts it behind the others where it is sent. Once something
/// keeps the stream from being joined, sets are only passed over.
fn take_next(
    alloc: Global,
    part: Part,
    receiver: &mut SetReceiver,
    found: &mut Found,
    joined: &mut Joined,
) -> Result<(), NoMemory>
    requires ready { IsSome (first_ready (ready_sets receiver.old.collecting.sets)) }
    requires next { HasNextReceived receiver.old }
    requires cut { cut_of part < 2 ^ 34 }
    ensures sets { OnOk result (TakesSets part receiver.old receiver.new found.old found.new
        joined.old joined.new) }
    ensures left { OnOk result (ready_sets receiver.new.collecting.sets
        ≡ sets_behind (ready_sets receiver.old.collecting.sets)) }
    ensures same { IsSameReception receiver.old receiver.new }
{
    if !found.is_good() {
        receiver.take();
        return Ok(());
    }
    let next = prepare(
        alloc,
        part,
        found.begin,
        receiver.ready_at(),
        receiver.ready_set(),
    )?;
    let end = receiver.take();
    let painted = receiver.load().painted;
    *found = found.with_set(part, next.glimpse, end);
    if found.is_good() {
        put(alloc, next.placed, painted, joined)?;
    }
    Ok(())
}

/// Puts a set last that is painted in so many ticks, where it is sent.
fn put(
    alloc: Global,
    placed: Option<Placed>,
    painted: u64,
    joined: &mut Joined,
) -> Result<(), NoMemory>
    ensures { OnOk result (IsPut placed painted joined.old joined.new) }
{
    match placed {
        None => Ok(()),
        Some(one) => joined.push(alloc, one.time, painted, one.sending),
    }
}
