//! The sets that are ready, taken and told.

ghost use Rattle.std.specs.Prelude.{◌≡◌, ◌+◌, ◌<◌, ◌≤◌, ◌^◌, [], IsSome, length};
ghost use Rattle.display_sets.specs.Gathered.{first_ready, ready_sets, sets_behind};
ghost use Rattle.fault_text.specs.FaultText.{set_count};
ghost use Rattle.fault_text.specs.Faulting.{TellsSets};
ghost use Rattle.set_receiver.specs.Receiving.{IsSameReception, reception};
ghost use Rattle.set_receiver.specs.Taking.{AllReceived, HasNextReceived};

use crate::kept::KeptSet;
use crate::sets::put_set;
use crate::tally::Tally;
use command_text::TextBuffer;
use set_definitions::Known;
use set_receiver::SetReceiver;
use sub_base::Sink;

/// Takes the sets that are ready, one after the other, and puts out what is told of them.
pub(crate) fn take_ready<K: Sink>(
    out: &mut K,
    buffer: &mut TextBuffer,
    receiver: &mut SetReceiver,
    tally: &mut Tally,
    known: &mut Known,
    kept: &mut KeptSet,
)
    requires few { set_count tally.old + length (ready_sets receiver.old.collecting.sets) < 2 ^ 62 }
    requires room { kept.old.room ≡ (reception receiver.old).profile.coded }
    ensures sets { TellsSets
        (K.received out.old)
        (K.received out.new)
        receiver.old receiver.new tally.old tally.new known.old known.new buffer.old
        buffer.new }
    ensures none { ready_sets receiver.new.collecting.sets ≡ [] }
    ensures all { AllReceived receiver.new }
    ensures same { IsSameReception receiver.old receiver.new }
    ensures few { set_count tally.new
        ≤ set_count tally.old + length (ready_sets receiver.old.collecting.sets) }
    ensures room { kept.new.room ≡ kept.old.room }
{
    while let Some(_) = receiver.ready() {
        take_next(out, buffer, receiver, tally, known, kept);
    }
}

/// The same of one set.
fn take_next<K: Sink>(
    out: &mut K,
    buffer: &mut TextBuffer,
    receiver: &mut SetReceiver,
    tally: &mut Tally,
    known: &mut Known,
    kept: &mut KeptSet,
)
    requires ready { IsSome (first_ready (ready_sets receiver.old.collecting.sets)) }
    requires next { HasNextReceived receiver.old }
    requires few { set_count tally.old + 1 < 2 ^ 63 }
    requires room { kept.old.room ≡ (reception receiver.old).profile.coded }
    ensures sets { TellsSets
        (K.received out.old)
        (K.received out.new)
        receiver.old receiver.new tally.old tally.new known.old known.new buffer.old
        buffer.new }
    ensures left { ready_sets receiver.new.collecting.sets
        ≡ sets_behind (ready_sets receiver.old.collecting.sets) }
    ensures same { IsSameReception receiver.old receiver.new }
    ensures more { set_count tally.new ≡ set_count tally.old + 1 }
    ensures room { kept.new.room ≡ kept.old.room }
{
    kept.keep(receiver.ready_set());
    let end = receiver.take();
    tally.count(end);
    let load = receiver.load();
    put_set(
        out,
        buffer,
        tally.sets(),
        load.pts,
        end,
        receiver.core(),
        known,
        kept.as_bytes(),
    );
}
