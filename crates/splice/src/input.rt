//! A stream that is gone through as it is read from its source.

ghost use Rattle.std.specs.Prelude.{◌≡◌, ◌+◌, ◌*◌, ◌/◌, ◌<◌, ◌≤◌, ◌^◌, ◌↔◌, IfErr, IfOk, IsTrue, [], false, length};
ghost use Rattle.display_sets.specs.Gathered.{ready_sets};
ghost use Rattle.packet_source.specs.InHand.{nothing_read, read_count};
ghost use Rattle.packet_source.specs.Packets.{HasGivenInHand as HasGiven};
ghost use Rattle.packet_source.specs.declared.limits.TheConstants.{STREAM_LIMIT};
ghost use Rattle.set_receiver.specs.Receiving.{HasBeenFed, reception};
ghost use Rattle.splice.specs.SplicedSets.{received_from};
ghost use Rattle.splice.specs.Private.Inputs.{HasReadThrough, IsInput, IsInputCause, unread_status};
ghost use Rattle.splice.specs.Private.Inputs.{end_fault as end_fault_of};
ghost use Rattle.splice.specs.Private.Parts.{cut_of};
ghost use Rattle.splice.specs.declared.limits.TheConstants.{SPLICE_LIMIT};
ghost use Rattle.stream_syntax.specs.declared.wire.TheConstants.{PACKET_LENGTH};
ghost use Rattle.sub_base.specs.Endpoints.{Supplied};

use crate::found::{Found, Survey};
use crate::joined::Joined;
use crate::limits::SPLICE_LIMIT;
use crate::part::Part;
use crate::splice_fault::SpliceFault;
use crate::splice_words::Splicing;
use crate::survey::{end_survey, go_on, receiver_of};
use packet_source::{PacketSource, StreamEnd};
use set_receiver::SetReceiver;
use std::alloc::Global;
use stream_syntax::PACKET_LENGTH;
use sub_base::{ReadAllFault, Source, ToolStatus, Which};

/// Reads a stream to its end, goes through its packets, with that anchor, and puts the sets of it
/// that are sent behind those that are kept. Its bytes are given up with each read; a rest that is
/// shorter than a packet is left out.
pub(crate) fn read_stream<A: Source>(
    alloc: Global,
    splicing: Splicing,
    anchor: u64,
    part: Part,
    source: &mut A,
    joined: &mut Joined,
) -> Result<Survey, ReadAllFault>
    requires anchor { anchor < 2 ^ 33 }
    requires cut { cut_of part < 2 ^ 34 }
    ensures input { IfOk result (IsInput (received_from anchor splicing) part
        (A.supplied source.old) (A.supplied source.new) joined.old joined.new) }
    ensures cause { IfErr result
        (IsInputCause (A.supplied source.old) (A.supplied source.new)) }
{
    let mut receiver = match receiver_of(alloc, splicing, anchor) {
        Ok(receiver) => receiver,
        Err(_) => return Err(ReadAllFault::Memory),
    };
    let mut packets = match PacketSource::make(alloc) {
        Ok(packets) => packets,
        Err(_) => return Err(ReadAllFault::Memory),
    };
    let so_far = read_through(alloc, part, source, &mut packets, &mut receiver, joined)?;
    match end_survey(alloc, part, so_far, &mut receiver, joined) {
        Ok(survey) => Ok(survey),
        Err(_) => Err(ReadAllFault::Memory),
    }
}

/// Goes through the packets of a stream, those of one read after the other, up to its end. It is
/// read on also behind a packet that is refused.
fn read_through<A: Source>(
    alloc: Global,
    part: Part,
    source: &mut A,
    packets: &mut PacketSource,
    receiver: &mut SetReceiver,
    joined: &mut Joined,
) -> Result<Survey, ReadAllFault>
    requires nothing { packets.old ≡ nothing_read }
    requires source { (now : Supplied) → HasGiven now now packets.old [] }
    requires fresh { HasBeenFed false [] [] receiver.old }
    requires none { ready_sets receiver.old.collecting.sets ≡ [] }
    requires anchor { (reception receiver.old).anchor < 2 ^ 33 }
    requires cut { cut_of part < 2 ^ 34 }
    ensures gone { IfOk result (HasReadThrough (reception receiver.old) part
        (A.supplied source.old) (A.supplied source.new) receiver.new joined.old joined.new) }
    ensures cause { IfErr result
        (IsInputCause (A.supplied source.old) (A.supplied source.new)) }
{
    let found = Found::nothing();
    let mut survey = Survey::Whole(found);
    loop {
        if let Err(end) = packets.fill(source) {
            return match end_fault(packets.first(), end) {
                None => Ok(survey),
                Some(fault) => Err(fault),
            };
        }
        if is_past(whole_count(packets), 0) {
            return Err(ReadAllFault::TooLong);
        }
        match go_on(
            alloc,
            part,
            packets.first(),
            packets.packets(),
            survey,
            receiver,
            joined,
        ) {
            Ok(further) => survey = further,
            Err(_) => return Err(ReadAllFault::Memory),
        }
    }
}

/// How many whole packets there were so far, with those in hand.
fn whole_count(packets: &PacketSource) -> u64
    requires within { read_count packets.now ≤ STREAM_LIMIT }
    ensures { result ≡ packets.now.first + length packets.now.bytes / PACKET_LENGTH }
{
    packets.first() + packets.packets().len() as u64
}

/// Whether so many packets, and the bytes behind them, are more than a stream may have.
fn is_past(packets: u64, rest: u64) -> bool
    ensures { IsTrue result ↔ (SPLICE_LIMIT < PACKET_LENGTH * packets + rest) }
{
    let length = packets.saturating_mul(PACKET_LENGTH as u64);
    length.saturating_add(rest) > SPLICE_LIMIT
}

/// Why a stream that ended so behind so many packets was not read to its end, within its limit.
fn end_fault(packets: u64, end: StreamEnd) -> Option<ReadAllFault>
    ensures { result ≡ end_fault_of packets end }
{
    match end {
        StreamEnd::Whole { cut } => {
            if is_past(packets, cut) {
                Some(ReadAllFault::TooLong)
            } else {
                None
            }
        }
        StreamEnd::Unread => Some(ReadAllFault::Read),
        StreamEnd::TooLong => Some(ReadAllFault::TooLong),
    }
}

/// The status where the source was not read to its end.
pub(crate) fn unread(which: Which, fault: ReadAllFault) -> ToolStatus<SpliceFault>
    ensures { result ≡ unread_status which fault }
{
    match fault {
        ReadAllFault::Memory => ToolStatus::Memory,
        ReadAllFault::Read => ToolStatus::ReadFault(which),
        ReadAllFault::TooLong => ToolStatus::InputTooLong(which),
    }
}
