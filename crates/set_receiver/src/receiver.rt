//! The receiver without pictures.

ghost use Rattle.std.specs.Prelude.{◌≡◌};

use crate::losing::lose;
use crate::taking::take;
use decoder_model::Pages;
use display_sets::Ready;
use page_core::{Core, SetEnd};
use set_reader::{Arrival, Came, SetReader};
use std::alloc::Global;
use std::marker::Model;
use stream_syntax::{Event, PacketFault};
use sub_base::{NoMemory, Profile, SetLoad};

/// A receiver of the subtitles of one service, out of the transport packets of one PID, up to its
/// page memory: it draws no picture. Sets that are whole are ready until they are taken.
#[derive(Drop)]
pub struct SetReceiver {
    reader: SetReader,
    core: Core,
    load: SetLoad,
}

impl Model for SetReceiver {
    ghost use Rattle.set_receiver.specs.Receiving.{IsReceiver, SetReceiving};

    ghost Value = { SetReceiving };

    ghost view = { λ r. record { collecting = r.reader; core = r.core; load = r.load } };

    ghost invariant = { λ r. IsReceiver (record {
      collecting = r.reader;
      core = r.core;
      load = r.load;
    }) };
}

impl SetReceiver {
    ghost use Rattle.std.specs.Prelude.{◌≡◌, ◌<◌, ◌≤◌, ◌^◌, ◌==◌, ◌↔◌, ℕ, Bool, true, false};
    ghost use Rattle.std.specs.Prelude.{List, [], ◌∷◌, ◌++◌, length, reverse};
    ghost use Rattle.std.specs.Option.{ForSome};
    ghost use Rattle.std.specs.Prelude.{None, Some, option_and_then, option_map};
    ghost use Rattle.std.specs.Prelude.{IfErr, IfOk, IfSome, IsSome, IsTrue, MatchResult, OnOk};
    ghost use Rattle.stream_syntax.specs.TransportPackets.{packet_fault, pid_of};
    ghost use Rattle.stream_syntax.specs.Units.{event_at};
    ghost use Rattle.stream_syntax.specs.declared.wire.TheConstants.{PAYLOAD_LENGTH};
    ghost use Rattle.decoder_model.specs.Kept.{last_time, lifted_behind, lifted_time, time_of};
    ghost use Rattle.decoder_model.specs.Painting.{set_load};
    ghost use Rattle.decoder_model.specs.Verdict.{verdict_of};
    ghost use Rattle.decoder_model.specs.PacketArrivals.{packet_arrival};
    ghost use Rattle.decoder_model.specs.Readings.{AreDeliveriesRead, IsDeliveryRead, Reading};
    ghost use Rattle.decoder_model.specs.Received.{sets_received};
    ghost use Rattle.decoder_model.specs.Sets.{Delivery};
    ghost use Rattle.decoder_model.specs.declared.set_end.SetEnd.TheVariants.{NotLater, Shown};
    ghost use Rattle.display_sets.specs.Gathered.{first_ready, ready_sets, sets_behind};
    ghost use Rattle.display_sets.specs.Lent.{lent};
    ghost use Rattle.display_sets.specs.Standing.{IsFirst};
    ghost use Rattle.set_reader.specs.Arrived.{arrival_value};
    ghost use Rattle.set_reader.specs.Collecting.{losses};
    ghost use Rattle.set_receiver.specs.Receiving.{AreLosses, HasBeenFed, HasToLose, IsNextReceived};
    ghost use Rattle.sub_base.specs.declared.profile.TheConstants.{LARGEST_BUFFER};
    ghost use Rattle.set_receiver.specs.Receiving.{IsSameReception, reception, set_time};

    /// A receiver of a profile, for a PID and these pages, that was fed nothing. Lifted times begin
    /// at the anchor. All memory is taken here.
    pub fn make(
        alloc: Global,
        profile: &Profile,
        pid: u16,
        pages: Pages,
        anchor: u64,
    ) -> Result<SetReceiver, NoMemory>
        requires coded { profile.now.coded < 2 ^ 32 }
        requires nodes { profile.now.nodes < 2 ^ 31 }
        requires anchor { anchor < 2 ^ 34 }
        ensures stands { IfOk result (HasBeenFed false [] []) }
        ensures made { IfOk result (λ receiver. reception receiver
            ≡ record { profile = profile.now; pid = pid; pages = pages; anchor = anchor }) }
        ensures page { IfOk result (λ receiver. receiver.core.page ≡ pages.composition) }
        ensures none { IfOk result (λ receiver. ready_sets receiver.collecting.sets ≡ []) }
    {
        Ok(SetReceiver {
            reader: SetReader::make(alloc, pid, pages, profile.coded as u32)?,
            core: Core::make(alloc, profile, pages.composition, anchor)?,
            load: SetLoad {
                pts: 0,
                size: 0,
                painted: 0,
            },
        })
    }

    /// Takes the next packet, where no set is ready: what became of it. A packet that cannot be
    /// taken leaves the receiver as it was.
    pub fn feed(&mut self, packet: &[u8; 188]) -> Result<Event, PacketFault>
        requires none { ready_sets self.old.collecting.sets ≡ [] }
        ensures fault { MatchResult result
            (λ _. packet_fault (reception self.old).pid packet.now ≡ None)
            (λ fault. packet_fault (reception self.old).pid packet.now ≡ Some fault) }
        ensures unchanged { IfErr result (λ _. self.new ≡ self.old) }
        ensures stands { OnOk result ((fed : List (List ℕ)) (given : List (Delivery (List ℕ)))
            → HasBeenFed false fed given self.old
            → (losses : List (Delivery (List ℕ))) × AreLosses losses
            × HasBeenFed false (fed ++ packet.now ∷ []) (given ++ losses) self.new) }
        ensures event { IfOk result (λ event.
            (fed : List (List ℕ)) (given : List (Delivery (List ℕ)))
            → HasBeenFed false fed given self.old
            → event ≡ event_at (reception self.old).pid (reception self.old).profile.coded fed
            packet.now) }
        ensures arrival { OnOk result ((fed : List (List ℕ)) (given : List (Delivery (List ℕ)))
            → HasBeenFed false fed given self.old
            → self.new.collecting.arrival ≡ packet_arrival (reception self.old).profile.coded
            (reception self.old).pid (reception self.old).pages fed packet.now) }
        ensures load { self.new.load ≡ self.old.load }
        ensures page { self.new.core.page ≡ self.old.core.page }
        ensures same { IsSameReception self.old self.new }
    {
        let came = self.feed_counting(packet)?;
        Ok(came.event)
    }

    /// The same, and how many losses the packet means besides what became of it.
    pub fn feed_counting(&mut self, packet: &[u8; 188]) -> Result<Came, PacketFault>
        requires none { ready_sets self.old.collecting.sets ≡ [] }
        ensures fault { MatchResult result
            (λ _. packet_fault (reception self.old).pid packet.now ≡ None)
            (λ fault. packet_fault (reception self.old).pid packet.now ≡ Some fault) }
        ensures unchanged { IfErr result (λ _. self.new ≡ self.old) }
        ensures stands { IfOk result (λ came.
            (fed : List (List ℕ)) (given : List (Delivery (List ℕ)))
            → HasBeenFed false fed given self.old
            → HasBeenFed false (fed ++ packet.now ∷ []) (given ++ losses came.losses) self.new) }
        ensures event { IfOk result (λ came.
            (fed : List (List ℕ)) (given : List (Delivery (List ℕ)))
            → HasBeenFed false fed given self.old
            → came.event ≡ event_at (reception self.old).pid (reception self.old).profile.coded fed
            packet.now) }
        ensures arrival { OnOk result ((fed : List (List ℕ)) (given : List (Delivery (List ℕ)))
            → HasBeenFed false fed given self.old
            → self.new.collecting.arrival ≡ packet_arrival (reception self.old).profile.coded
            (reception self.old).pid (reception self.old).pages fed packet.now) }
        ensures load { self.new.load ≡ self.old.load }
        ensures page { self.new.core.page ≡ self.old.core.page }
        ensures same { IsSameReception self.old self.new }
    {
        let came = self.feed_reader(packet)?;
        self.lose(came.losses);
        Ok(came)
    }

    /// The same, but that the page memory is not told of the losses: it is what the sets before
    /// left, until `lose` tells it of so many.
    pub fn feed_reader(&mut self, packet: &[u8; 188]) -> Result<Came, PacketFault>
        requires none { ready_sets self.old.collecting.sets ≡ [] }
        ensures fault { MatchResult result
            (λ _. packet_fault (reception self.old).pid packet.now ≡ None)
            (λ fault. packet_fault (reception self.old).pid packet.now ≡ Some fault) }
        ensures unchanged { IfErr result (λ _. self.new ≡ self.old) }
        ensures stands { IfOk result (λ came.
            (fed : List (List ℕ)) (given : List (Delivery (List ℕ)))
            → HasBeenFed false fed given self.old
            → HasToLose came.losses false (fed ++ packet.now ∷ []) given self.new) }
        ensures event { IfOk result (λ came.
            (fed : List (List ℕ)) (given : List (Delivery (List ℕ)))
            → HasBeenFed false fed given self.old
            → came.event ≡ event_at (reception self.old).pid (reception self.old).profile.coded fed
            packet.now) }
        ensures arrival { OnOk result ((fed : List (List ℕ)) (given : List (Delivery (List ℕ)))
            → HasBeenFed false fed given self.old
            → self.new.collecting.arrival ≡ packet_arrival (reception self.old).profile.coded
            (reception self.old).pid (reception self.old).pages fed packet.now) }
        ensures core { self.new.core ≡ self.old.core }
        ensures load { self.new.load ≡ self.old.load }
        ensures same { IsSameReception self.old self.new }
    {
        let read = self.reader.feed(packet)?;
        Ok(read)
    }

    /// Tells the page memory of so many losses, of which it was not told: it forgets the page.
    pub fn lose(&mut self, count: u32)
        ensures stands { (ended : Bool) (fed : List (List ℕ)) (given : List (Delivery (List ℕ)))
            → HasToLose count ended fed given self.old
            → HasBeenFed ended fed (given ++ losses count) self.new }
        ensures collecting { self.new.collecting ≡ self.old.collecting }
        ensures load { self.new.load ≡ self.old.load }
        ensures page { self.new.core.page ≡ self.old.core.page }
        ensures same { IsSameReception self.old self.new }
    {
        lose(&mut self.core, count);
    }

    /// Whether a packet can be taken and is of another PID, as most packets of a stream are. To
    /// feed it would bring no loss and no set, so that a walk that asks for no arrivals need not do
    /// it.
    #[inline(always)]
    pub fn is_other(&self, packet: &[u8; 188]) -> bool
        ensures other { IsTrue result ↔ (packet_fault (reception self.now).pid packet.now ≡ None)
            × ((pid_of packet.now == (reception self.now).pid) ≡ false) }
        ensures stands { IsTrue result
            → (fed : List (List ℕ)) (given : List (Delivery (List ℕ)))
            → HasBeenFed false fed given self.now
            → HasBeenFed false (fed ++ packet.now ∷ []) given self.now }
    {
        self.reader.is_other(packet)
    }

    /// The stream has ended: a set in hand without its end is ready as it stands.
    pub fn finish(&mut self)
        requires none { ready_sets self.old.collecting.sets ≡ [] }
        ensures stands { (fed : List (List ℕ)) (given : List (Delivery (List ℕ)))
            → HasBeenFed false fed given self.old → HasBeenFed true fed given self.new }
        ensures core { self.new.core ≡ self.old.core }
        ensures arrival { self.new.collecting.arrival ≡ self.old.collecting.arrival }
        ensures load { self.new.load ≡ self.old.load }
        ensures page { self.new.core.page ≡ self.old.core.page }
        ensures same { IsSameReception self.old self.new }
    {
        self.reader.finish();
    }

    /// The presentation time in ticks of 90 kHz, as read, of the set that is ready and was not
    /// taken.
    pub fn ready(&self) -> Option<u64>
        ensures time { result ≡ option_map set_time (first_ready (ready_sets
            self.now.collecting.sets)) }
        ensures none { result ≡ None → ready_sets self.now.collecting.sets ≡ [] }
        ensures all { result ≡ None
            → (fed : List (List ℕ)) (ended : Bool) (given : List (Delivery (List ℕ)))
            → HasBeenFed ended fed given self.now
            → sets_received (reception self.now) ended fed ≡ given }
        ensures next { IfSome result (λ time.
            (fed : List (List ℕ)) (ended : Bool) (given : List (Delivery (List ℕ)))
            → HasBeenFed ended fed given self.now
            → (delivery : Delivery (List ℕ)) × (rest : List (Delivery (List ℕ)))
            × IsNextReceived ended fed given delivery rest self.now
            × (time_of delivery ≡ Some time)) }
    {
        let ready = self.reader.ready()?;
        Some(ready.time)
    }

    /// The set that is ready, with the bytes of its segments, or why it is refused.
    pub fn ready_set(&self) -> Option<Ready<'_>>
        ensures first { option_map lent result
            ≡ first_ready (ready_sets self.now.collecting.sets) }
        ensures delivery { (fed : List (List ℕ)) (ended : Bool)
            (given : List (Delivery (List ℕ)))
            → HasBeenFed ended fed given self.now
            → IsFirst (sets_received (reception self.now) ended fed) given
            (option_map lent result) }
        ensures within { ForSome result
            (λ ready. IfOk ready.segments (λ bytes. length bytes.now < 2 ^ 32)) }
    {
        self.reader.ready()
    }

    /// The lifted time of the set that is ready. `None` exactly where none is ready, or where it
    /// would not be kept.
    pub fn ready_at(&self) -> Option<u64>
        ensures lifted { (fed : List (List ℕ)) (ended : Bool) (given : List (Delivery (List ℕ)))
            (past : List (Delivery Reading))
            → HasBeenFed ended fed given self.now → AreDeliveriesRead (reverse given) past
            → result ≡ option_and_then
            (lifted_behind (reception self.now).anchor
            (last_time (reception self.now).anchor past))
            (option_map set_time (first_ready (ready_sets self.now.collecting.sets))) }
        ensures next { (fed : List (List ℕ)) (ended : Bool)
            (given rest : List (Delivery (List ℕ)))
            (next : Delivery (List ℕ)) (past : List (Delivery Reading)) (one : Delivery Reading)
            → IsNextReceived ended fed given next rest self.now
            → AreDeliveriesRead (reverse given) past
            → IsDeliveryRead next one
            → result ≡ lifted_time (reception self.now).anchor past one }
        ensures bounded { IfSome result (λ time. time < 2 ^ 62) }
    {
        let ready = self.reader.ready()?;
        self.core.lift(ready.time)
    }

    /// Takes the set that is ready, which the page memory has from then on: what becomes of it.
    pub fn take(&mut self) -> SetEnd
        requires ready { IsSome (first_ready (ready_sets self.old.collecting.sets)) }
        ensures stands { (ended : Bool) (fed : List (List ℕ))
            (given rest : List (Delivery (List ℕ))) (delivery : Delivery (List ℕ))
            → IsNextReceived ended fed given delivery rest self.old
            → HasBeenFed ended fed (given ++ delivery ∷ []) self.new }
        ensures answer { (ended : Bool) (fed : List (List ℕ))
            (given rest : List (Delivery (List ℕ))) (delivery : Delivery (List ℕ))
            (past : List (Delivery Reading)) (one : Delivery Reading)
            → IsNextReceived ended fed given delivery rest self.old
            → AreDeliveriesRead (reverse given) past
            → IsDeliveryRead delivery one
            → Some result
            ≡ verdict_of (reception self.old).profile (reception self.old).anchor past one }
        ensures load { (ended : Bool) (fed : List (List ℕ))
            (given rest : List (Delivery (List ℕ))) (delivery : Delivery (List ℕ))
            (past : List (Delivery Reading)) (one : Delivery Reading)
            → IsNextReceived ended fed given delivery rest self.old
            → AreDeliveriesRead (reverse given) past
            → IsDeliveryRead delivery one
            → Some self.new.load
            ≡ set_load (reception self.old).profile (reception self.old).anchor past one }
        ensures left { ready_sets self.new.collecting.sets
            ≡ sets_behind (ready_sets self.old.collecting.sets) }
        ensures known { result ≡ Shown → self.new.core.known ≡ true }
        ensures unchanged { (last : ℕ) → result ≡ NotLater last → self.new.core ≡ self.old.core }
        ensures arrival { self.new.collecting.arrival ≡ self.old.collecting.arrival }
        ensures page { self.new.core.page ≡ self.old.core.page }
        ensures same { IsSameReception self.old self.new }
    {
        match self.reader.ready() {
            None => SetEnd::Waiting, // There is one.
            Some(ready) => {
                let taken = take(ready, &mut self.core);
                self.load = taken.load;
                self.reader.give();
                taken.end
            }
        }
    }

    /// What the last set that was taken asked: its lifted time, or its time as read where it was
    /// not kept, its size and the time that its painting takes.
    pub fn load(&self) -> SetLoad
        ensures load { result ≡ self.now.load }
        ensures pts { result.pts < 2 ^ 62 }
        ensures size { (reception self.now).profile.coded ≤ LARGEST_BUFFER → result.size < 2 ^ 62 }
        ensures painted { result.painted < 2 ^ 62 }
    {
        self.load
    }

    /// What the last packet brought to the coded data buffer.
    pub fn arrival(&self) -> Arrival
        ensures arrival { arrival_value result ≡ self.now.collecting.arrival }
        ensures short { result.bytes ≤ PAYLOAD_LENGTH }
    {
        self.reader.arrival()
    }

    /// The page memory.
    pub fn core(&self) -> &Core
        ensures { result.now ≡ self.now.core }
    {
        &self.core
    }
}
