//! The packets of a stream gone through, some behind the others, with what comes ready at its end.

ghost use Rattle.std.specs.Prelude.{◌≡◌, ◌+◌, ◌<◌, ◌≤◌, ◌^◌, IfOk, [], false, length};
ghost use Rattle.display_sets.specs.Gathered.{ready_sets};
ghost use Rattle.set_receiver.specs.Receiving.{HasBeenFed, reception};
ghost use Rattle.splice.specs.SplicedSets.{received_from};
ghost use Rattle.splice.specs.Private.Parts.{cut_of};
ghost use Rattle.splice.specs.Private.Surveyed.{EndsGone, GoesThrough, HasEnded, IsReady, IsStopped};
ghost use Rattle.splice.specs.declared.found.Survey.TheVariants.{Whole};

use crate::found::{Found, Survey};
use crate::joined::Joined;
use crate::part::Part;
use crate::splice_words::Splicing;
use crate::stream_reader::{ReadStop, take_packet, take_ready};
use decoder_model::Pages;
use set_receiver::SetReceiver;
use std::alloc::Global;
use sub_base::{NoMemory, Profile};

/// A receiver of the streams that are joined, with that anchor, which was fed nothing.
pub(crate) fn receiver_of(
    alloc: Global,
    splicing: Splicing,
    anchor: u64,
) -> Result<SetReceiver, NoMemory>
    requires anchor { anchor < 2 ^ 33 }
    ensures made { IfOk result (λ receiver. reception receiver ≡ received_from anchor splicing) }
    ensures fresh { IfOk result (HasBeenFed false [] []) }
    ensures none { IfOk result (λ receiver. ready_sets receiver.collecting.sets ≡ []) }
{
    let profile = Profile::of(splicing.profile);
    let pages = Pages::only(splicing.page);
    SetReceiver::make(alloc, &profile, splicing.pid, pages, anchor)
}

/// Goes through packets of a stream, behind those before them, and puts those of its sets last that
/// are sent. Once a packet was refused, those behind it are passed over.
pub(crate) fn go_on(
    alloc: Global,
    part: Part,
    first: u64,
    packets: &[[u8; 188]],
    so_far: Survey,
    receiver: &mut SetReceiver,
    joined: &mut Joined,
) -> Result<Survey, NoMemory>
    requires ready { IsReady so_far receiver.old }
    requires cut { cut_of part < 2 ^ 34 }
    requires few { first + length packets.now ≤ 2 ^ 26 }
    ensures { IfOk result (λ survey. GoesThrough part first packets.now receiver.old receiver.new
        so_far survey joined.old joined.new) }
{
    match so_far {
        Survey::Refused { packet, fault } => Ok(Survey::Refused { packet, fault }),
        Survey::Whole(found) => {
            gone_through(alloc, part, first, packets, found, receiver, joined)
        }
    }
}

/// Takes the packets one after the other, the first of that place, where all before it were taken.
fn gone_through(
    alloc: Global,
    part: Part,
    first: u64,
    packets: &[[u8; 188]],
    so_far: Found,
    receiver: &mut SetReceiver,
    joined: &mut Joined,
) -> Result<Survey, NoMemory>
    requires none { ready_sets receiver.old.collecting.sets ≡ [] }
    requires cut { cut_of part < 2 ^ 34 }
    requires few { first + length packets.now ≤ 2 ^ 26 }
    ensures { IfOk result (λ survey. GoesThrough part first packets.now receiver.old receiver.new
        (Whole so_far) survey joined.old joined.new) }
{
    let mut found = so_far;
    let mut place = first;
    for packet in packets {
        if let Err(stop) = take_packet(alloc, part, place, packet, receiver, &mut found, joined) {
            return stopped(stop);
        }
        place += 1;
    }
    Ok(Survey::Whole(found))
}

/// What going through packets came to where it stopped.
fn stopped(stop: ReadStop) -> Result<Survey, NoMemory>
    ensures { IfOk result (IsStopped stop) }
{
    match stop {
        ReadStop::Memory => Err(NoMemory),
        ReadStop::Refused { packet, fault } => Ok(Survey::Refused { packet, fault }),
    }
}

/// The stream has ended: takes the sets that are ready then, and answers what came of all of it.
pub(crate) fn end_survey(
    alloc: Global,
    part: Part,
    so_far: Survey,
    receiver: &mut SetReceiver,
    joined: &mut Joined,
) -> Result<Survey, NoMemory>
    requires cut { cut_of part < 2 ^ 34 }
    requires ready { IsReady so_far receiver.old }
    ensures { IfOk result (λ survey. EndsGone part receiver.old so_far survey
        joined.old joined.new) }
{
    match so_far {
        Survey::Refused { packet, fault } => Ok(Survey::Refused { packet, fault }),
        Survey::Whole(found) => Ok(Survey::Whole(ended(alloc, part, found, receiver, joined)?)),
    }
}

/// Takes the sets that are ready at the end of a stream, and answers what was found of all.
fn ended(
    alloc: Global,
    part: Part,
    found: Found,
    receiver: &mut SetReceiver,
    joined: &mut Joined,
) -> Result<Found, NoMemory>
    requires none { ready_sets receiver.old.collecting.sets ≡ [] }
    requires cut { cut_of part < 2 ^ 34 }
    ensures { IfOk result (λ whole. HasEnded part receiver.old found whole joined.old joined.new) }
{
    let mut whole = found;
    receiver.finish();
    take_ready(alloc, part, receiver, &mut whole, joined)?;
    Ok(whole)
}
