//! The calls of the coded data buffer that a packet gives, with those of the sets that come with
//! it.

ghost use Rattle.std.specs.Prelude.{◌≡◌, ◌<◌, ◌≤◌, ◌^◌, List, [], ◌∷◌, IsSome};
ghost use Rattle.buffer_model.specs.Calls.{Call};
ghost use Rattle.buffer_model.specs.Meters.{IsMeterOf};
ghost use Rattle.decoder_model.specs.PacketArrivals.{is_break};
ghost use Rattle.display_sets.specs.Gathered.{first_ready, ready_sets, sets_behind};
ghost use Rattle.set_reader.specs.Arrived.{arrival_value};
ghost use Rattle.set_receiver.specs.Receiving.{IsSameReception, reception};
ghost use Rattle.received_level_laws.specs.StreamCalls.{arrived_in, drop_where as drop_calls};
ghost use Rattle.received_level_laws.specs.ToldSets.{call_of_end, done_by, of_no_set};
ghost use Rattle.stream_syntax.specs.declared.wire.TheConstants.{PAYLOAD_LENGTH};
ghost use Rattle.set_receiver.specs.Taking.{AllReceived, HasNextReceived};
ghost use Rattle.check_text.specs.Checking.{Counts, TakesCalls, TakesSets};
ghost use Rattle.check_text.specs.Checking.{behind_first};
ghost use Rattle.sub_base.specs.Pace.{tick_of};
ghost use Rattle.sub_base.specs.declared.profile.TheConstants.{LARGEST_BUFFER};

use crate::lines::set_line;
use buffer_model::Levels;
use command_text::{TextBuffer, put};
use decoder_model::SetEnd;
use set_receiver::{Arrival, SetReceiver};
use stream_syntax::Event;
use sub_base::{SetLoad, Sink};

/// Tells the meter the calls of a packet in that slot, by its event and what it brought, with those
/// of the sets that come with it, whose lines are put out. The set that a unit of another time
/// makes ready stands before the packet's bytes.
pub(crate) fn take_calls<K: Sink>(
    out: &mut K,
    buffer: &mut TextBuffer,
    receiver: &mut SetReceiver,
    levels: &mut Levels,
    slot: u64,
    event: Event,
    arrival: Arrival,
)
    requires coded { (reception receiver.old).profile.coded ≤ LARGEST_BUFFER }
    requires later { levels.old.last ≤ slot }
    requires tick { tick_of levels.old.pace slot < 2 ^ 63 }
    requires short { arrival.bytes ≤ PAYLOAD_LENGTH }
    ensures calls { TakesCalls event (arrival_value arrival) slot
        (K.received out.old)
        (K.received out.new)
        receiver.old receiver.new levels.old levels.new buffer.old buffer.new }
    ensures none { ready_sets receiver.new.collecting.sets ≡ [] }
    ensures all { AllReceived receiver.new }
    ensures same { IsSameReception receiver.old receiver.new }
    ensures pace { levels.new.pace ≡ levels.old.pace }
    ensures last { levels.new.last ≤ slot }
{
    drop_where(levels, is_broken_off(event));
    take_first(out, buffer, receiver, levels, arrival.before);
    arrive(levels, slot, u64::from(arrival.bytes));
    take_ready(out, buffer, receiver, levels);
    drop_where(levels, arrival.dropped);
}

/// Whether a packet breaks off a unit in hand, by what became of it.
fn is_broken_off(event: Event) -> bool
    ensures { result ≡ is_break event }
{
    match event {
        Event::Gap { .. } | Event::ErrorFlag | Event::Short { .. } => true,
        Event::Followed
        | Event::Other
        | Event::NoPayload
        | Event::Double
        | Event::Dropped
        | Event::TooLong { .. } => false,
    }
}

/// The bytes of a unit are dropped, where there is one to drop.
fn drop_where(levels: &mut Levels, dropped: bool)
    ensures calls { Counts levels.old levels.new (drop_calls of_no_set dropped) }
    ensures last { levels.new.last ≡ levels.old.last }
{
    if dropped {
        levels.drop_unit();
    }
}

/// A packet arrives in that slot, where any of its bytes do.
fn arrive(levels: &mut Levels, slot: u64, bytes: u64)
    requires later { levels.old.last ≤ slot }
    requires tick { tick_of levels.old.pace slot < 2 ^ 63 }
    requires short { bytes ≤ PAYLOAD_LENGTH }
    ensures calls { Counts levels.old levels.new (arrived_in of_no_set slot bytes) }
    ensures last { levels.new.last ≤ slot }
{
    if bytes != 0 {
        levels.arrive(slot, bytes);
    }
}

/// Takes the first of the sets that are ready, where it is to be taken and there is one.
fn take_first<K: Sink>(
    out: &mut K,
    buffer: &mut TextBuffer,
    receiver: &mut SetReceiver,
    levels: &mut Levels,
    first: bool,
)
    requires coded { (reception receiver.old).profile.coded ≤ LARGEST_BUFFER }
    ensures sets { TakesSets
        (K.received out.old)
        (K.received out.new)
        receiver.old receiver.new levels.old levels.new buffer.old buffer.new }
    ensures left { ready_sets receiver.new.collecting.sets
        ≡ behind_first first (ready_sets receiver.old.collecting.sets) }
    ensures same { IsSameReception receiver.old receiver.new }
    ensures pace { levels.new.pace ≡ levels.old.pace }
    ensures last { levels.new.last ≡ levels.old.last }
{
    if first {
        if let Some(_) = receiver.ready() {
            take_next(out, buffer, receiver, levels);
        }
    }
}

/// Takes the sets that are ready, one after the other, and puts out their lines.
pub(crate) fn take_ready<K: Sink>(
    out: &mut K,
    buffer: &mut TextBuffer,
    receiver: &mut SetReceiver,
    levels: &mut Levels,
)
    requires coded { (reception receiver.old).profile.coded ≤ LARGEST_BUFFER }
    ensures sets { TakesSets
        (K.received out.old)
        (K.received out.new)
        receiver.old receiver.new levels.old levels.new buffer.old buffer.new }
    ensures none { ready_sets receiver.new.collecting.sets ≡ [] }
    ensures all { AllReceived receiver.new }
    ensures same { IsSameReception receiver.old receiver.new }
    ensures pace { levels.new.pace ≡ levels.old.pace }
    ensures last { levels.new.last ≡ levels.old.last }
{
    while let Some(_) = receiver.ready() {
        take_next(out, buffer, receiver, levels);
    }
}

/// The same of one set.
fn take_next<K: Sink>(
    out: &mut K,
    buffer: &mut TextBuffer,
    receiver: &mut SetReceiver,
    levels: &mut Levels,
)
    requires ready { IsSome (first_ready (ready_sets receiver.old.collecting.sets)) }
    requires next { HasNextReceived receiver.old }
    requires coded { (reception receiver.old).profile.coded ≤ LARGEST_BUFFER }
    ensures sets { TakesSets
        (K.received out.old)
        (K.received out.new)
        receiver.old receiver.new levels.old levels.new buffer.old buffer.new }
    ensures left { ready_sets receiver.new.collecting.sets
        ≡ sets_behind (ready_sets receiver.old.collecting.sets) }
    ensures same { IsSameReception receiver.old receiver.new }
    ensures pace { levels.new.pace ≡ levels.old.pace }
    ensures last { levels.new.last ≡ levels.old.last }
{
    let end = receiver.take();
    let load = receiver.load();
    let done = count_set(levels, end, load);
    put(out, buffer, set_line(end, load, done).as_bytes());
}

/// Tells the meter of a set with that end and load: one that is not kept is a drop. Answers the
/// tick at which it is done.
fn count_set(levels: &mut Levels, end: SetEnd, load: SetLoad) -> u64
    requires pts { load.pts < 2 ^ 62 }
    requires size { load.size < 2 ^ 62 }
    requires painted { load.painted < 2 ^ 62 }
    ensures stands { (past : List Call) → IsMeterOf past levels.old
        → IsMeterOf (call_of_end end load ∷ past) levels.new }
    ensures done { (past : List Call) → IsMeterOf past levels.old
        → result ≡ done_by levels.old.pace past (call_of_end end load) }
    ensures last { levels.new.last ≡ levels.old.last }
    ensures pace { levels.new.pace ≡ levels.old.pace }
{
    match end {
        SetEnd::Shown => levels.set_whole(load),
        SetEnd::Waiting => levels.set_whole(load),
        SetEnd::Broken(_) => levels.set_whole(load),
        SetEnd::NotLater { last: _ } => {
            let done = levels.tick();
            levels.drop_unit();
            done
        }
    }
}
