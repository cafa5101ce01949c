//! The receiver.

ghost use Rattle.std.specs.Prelude.{◌≡◌};

use crate::screen::Screen;
use crate::view::View;
use decoder_model::Pages;
use page_core::{Core, SetEnd};
use set_receiver::{Arrival, SetReceiver};
use std::alloc::Global;
use std::marker::Model;
use std::thread::Threads;
use stream_syntax::{Event, PacketFault};
use sub_base::{BandGate, NoMemory, Profile, SetLoad};

/// A receiver of the subtitles of one service, out of the transport packets of one PID: of its
/// composition page and, where it has one, of its ancillary page. Sets that are
/// whole are ready until they are taken; each is drawn as it is taken, and two pictures are kept:
/// that of the last set, and that of the set before it.
#[derive(Drop)]
pub struct Receiver {
    sets: SetReceiver,
    screen: Screen,
}

impl Model for Receiver {
    ghost use Rattle.std.specs.Prelude.{◌≡◌};
    ghost use Rattle.receiver.specs.Receiving.{Receiving, with_pictures};
    ghost use Rattle.receiver.specs.Showing.{places_of};

    ghost Value = { Receiving };

    ghost view = { λ r. with_pictures r.sets r.screen.pending r.screen.current };

    ghost invariant = { λ r. r.screen.places ≡ places_of r.sets.core.profile };
}

impl Receiver {
    ghost use Rattle.std.specs.Prelude.{◌≡◌, ◌<◌, ◌≤◌, ◌^◌, ℕ, Bool, true, false};
    ghost use Rattle.std.specs.Prelude.{List, [], ◌∷◌, ◌++◌, length, reverse};
    ghost use Rattle.std.specs.Prelude.{None, Some, option_and_then, option_map, unwrap_or};
    ghost use Rattle.std.specs.Prelude.{IfErr, IfOk, IfSome, IsSome, MatchResult, OnOk};
    ghost use Rattle.stream_syntax.specs.TransportPackets.{packet_fault};
    ghost use Rattle.stream_syntax.specs.Units.{event_at};
    ghost use Rattle.stream_syntax.specs.declared.wire.TheConstants.{PAYLOAD_LENGTH};
    ghost use Rattle.decoder_model.specs.Frames.{only};
    ghost use Rattle.decoder_model.specs.Kept.{last_time, lifted_behind, lifted_time, time_of};
    ghost use Rattle.decoder_model.specs.Painting.{set_load};
    ghost use Rattle.decoder_model.specs.Verdict.{verdict_of};
    ghost use Rattle.decoder_model.specs.PacketArrivals.{packet_arrival};
    ghost use Rattle.decoder_model.specs.Readings.{AreDeliveriesRead, IsDeliveryRead, Reading};
    ghost use Rattle.decoder_model.specs.Received.{sets_received};
    ghost use Rattle.decoder_model.specs.Sets.{Delivery};
    ghost use Rattle.decoder_model.specs.Shown.{view_at};
    ghost use Rattle.decoder_model.specs.Shown.{View as Shows};
    ghost use Rattle.decoder_model.specs.declared.set_end.SetEnd.TheVariants.{Shown};
    ghost use Rattle.display_sets.specs.Gathered.{first_ready, ready_sets, sets_behind};
    ghost use Rattle.set_reader.specs.Arrived.{arrival_value};
    ghost use Rattle.decoder_model.specs.Shown.{IsShown};
    ghost use Rattle.receiver.specs.Lent.{IsWholeView, view_lent};
    ghost use Rattle.receiver.specs.Receiving.{IsNext, IsSame, Stands, reception};
    ghost use Rattle.set_receiver.specs.Receiving.{AreLosses, set_time};
    ghost use Rattle.sub_base.specs.declared.profile.TheConstants.{LARGEST_BUFFER};
    ghost use Rattle.receiver.specs.Showing.{time_before_last};

    /// A receiver of a profile, for a service without an ancillary page, that was fed nothing.
    /// Lifted times begin at the anchor. All memory is taken here.
    pub fn make(
        alloc: Global,
        profile: &Profile,
        pid: u16,
        page: u16,
        anchor: u64,
    ) -> Result<Receiver, NoMemory>
        requires coded { profile.now.coded < 2 ^ 32 }
        requires nodes { profile.now.nodes < 2 ^ 31 }
        requires anchor { anchor < 2 ^ 34 }
        ensures stands { IfOk result (Stands false [] []) }
        ensures pid { IfOk result (λ receiver. receiver.demux.pid ≡ pid) }
        ensures profile { IfOk result (λ receiver. receiver.showing.core.profile ≡ profile.now) }
        ensures pages { IfOk result (λ receiver. receiver.sets.pages ≡ only page) }
        ensures page { IfOk result (λ receiver. receiver.showing.core.page ≡ page) }
        ensures anchor { IfOk result (λ receiver. receiver.showing.core.anchor ≡ anchor) }
        ensures none { IfOk result (λ receiver. ready_sets receiver.sets ≡ []) }
    {
        Receiver::of_pages(alloc, profile, pid, Pages::only(page), anchor)
    }

    /// The same for a service with a composition page and an ancillary page: the CLUT definitions
    /// and the object data of the ancillary page go to the page memory as those of the composition
    /// page do.
    pub fn of_pages(
        alloc: Global,
        profile: &Profile,
        pid: u16,
        pages: Pages,
        anchor: u64,
    ) -> Result<Receiver, NoMemory>
        requires coded { profile.now.coded < 2 ^ 32 }
        requires nodes { profile.now.nodes < 2 ^ 31 }
        requires anchor { anchor < 2 ^ 34 }
        ensures stands { IfOk result (Stands false [] []) }
        ensures pid { IfOk result (λ receiver. receiver.demux.pid ≡ pid) }
        ensures profile { IfOk result (λ receiver. receiver.showing.core.profile ≡ profile.now) }
        ensures pages { IfOk result (λ receiver. receiver.sets.pages ≡ pages) }
        ensures page { IfOk result
            (λ receiver. receiver.showing.core.page ≡ pages.composition) }
        ensures anchor { IfOk result (λ receiver. receiver.showing.core.anchor ≡ anchor) }
        ensures none { IfOk result (λ receiver. ready_sets receiver.sets ≡ []) }
    {
        Ok(Receiver {
            sets: SetReceiver::make(alloc, profile, pid, pages, anchor)?,
            screen: Screen::clear(alloc, profile)?,
        })
    }

    /// Takes the next packet, where no set is ready: what became of it. A packet that cannot be
    /// taken leaves the receiver as it was. At most two sets are ready then: one that a unit of
    /// another time ends, and one that is whole with this packet.
    pub fn feed(&mut self, packet: &[u8; 188]) -> Result<Event, PacketFault>
        requires none { ready_sets self.old.sets ≡ [] }
        ensures fault { MatchResult result
            (λ _. packet_fault (reception self.old).pid packet.now ≡ None)
            (λ fault. packet_fault (reception self.old).pid packet.now ≡ Some fault) }
        ensures unchanged { IfErr result (λ _. self.new ≡ self.old) }
        ensures stands { OnOk result ((fed : List (List ℕ)) (given : List (Delivery (List ℕ)))
            → Stands false fed given self.old
            → (losses : List (Delivery (List ℕ))) × AreLosses losses
            × Stands false (fed ++ packet.now ∷ []) (given ++ losses) self.new) }
        ensures event { IfOk result (λ event.
            (fed : List (List ℕ)) (given : List (Delivery (List ℕ)))
            → Stands false fed given self.old
            → event ≡ event_at (reception self.old).pid (reception self.old).profile.coded
            fed packet.now) }
        ensures arrival { OnOk result ((fed : List (List ℕ)) (given : List (Delivery (List ℕ)))
            → Stands false fed given self.old
            → self.new.arrival ≡ packet_arrival (reception self.old).profile.coded
            (reception self.old).pid (reception self.old).pages fed packet.now) }
        ensures few { length (ready_sets self.new.sets) ≤ 2 }
        ensures load { self.new.load ≡ self.old.load }
        ensures page { self.new.showing.core.page ≡ self.old.showing.core.page }
        ensures same { IsSame self.old self.new }
    {
        let event = self.sets.feed(packet)?;
        Ok(event)
    }

    /// The stream has ended: a set in hand without its end is ready as it stands.
    pub fn finish(&mut self)
        requires none { ready_sets self.old.sets ≡ [] }
        ensures stands { (fed : List (List ℕ)) (given : List (Delivery (List ℕ)))
            → Stands false fed given self.old → Stands true fed given self.new }
        ensures arrival { self.new.arrival ≡ self.old.arrival }
        ensures load { self.new.load ≡ self.old.load }
        ensures page { self.new.showing.core.page ≡ self.old.showing.core.page }
        ensures same { IsSame self.old self.new }
    {
        self.sets.finish();
    }

    /// The presentation time, as read, of the set that is ready and was not taken.
    pub fn ready(&self) -> Option<u64>
        ensures time { result ≡ option_map set_time (first_ready (ready_sets self.now.sets)) }
        ensures none { result ≡ None → ready_sets self.now.sets ≡ [] }
        ensures all { result ≡ None
            → (fed : List (List ℕ)) (ended : Bool) (given : List (Delivery (List ℕ)))
            → Stands ended fed given self.now
            → sets_received (reception self.now) ended fed ≡ given }
        ensures next { IfSome result (λ time.
            (fed : List (List ℕ)) (ended : Bool) (given : List (Delivery (List ℕ)))
            → Stands ended fed given self.now
            → (delivery : Delivery (List ℕ)) × (rest : List (Delivery (List ℕ)))
            × IsNext ended fed given delivery rest self.now × (time_of delivery ≡ Some time)) }
    {
        let time = self.sets.ready()?;
        Some(time)
    }

    /// The lifted time of the set that is ready. `None` exactly where none is ready, or where it
    /// would not be kept.
    pub fn ready_at(&self) -> Option<u64>
        ensures lifted { (fed : List (List ℕ)) (ended : Bool) (given : List (Delivery (List ℕ)))
            (past : List (Delivery Reading))
            → Stands ended fed given self.now → AreDeliveriesRead (reverse given) past
            → result ≡ option_and_then
            (lifted_behind (reception self.now).anchor
            (last_time (reception self.now).anchor past))
            (option_map set_time (first_ready (ready_sets self.now.sets))) }
        ensures next { (fed : List (List ℕ)) (ended : Bool)
            (given rest : List (Delivery (List ℕ)))
            (next : Delivery (List ℕ)) (past : List (Delivery Reading)) (one : Delivery Reading)
            → IsNext ended fed given next rest self.now → AreDeliveriesRead (reverse given) past
            → IsDeliveryRead next one
            → result ≡ lifted_time (reception self.now).anchor past one }
    {
        self.sets.ready_at()
    }

    /// Takes the set that is ready: the page memory has it, its picture is drawn in so many bands,
    /// 1 to 64, and the picture that was the last one is the current one. A set that is not kept
    /// changes no picture.
    pub fn take<R: Threads + Sync, G: BandGate + Sync>(
        &mut self,
        rt: &R,
        bands: u32,
        gate: &G,
    ) -> SetEnd
        requires ready { IsSome (first_ready (ready_sets self.old.sets)) }
        requires some { 1 ≤ bands }
        requires few { bands ≤ 64 }
        ensures stands { (ended : Bool) (fed : List (List ℕ))
            (given rest : List (Delivery (List ℕ))) (delivery : Delivery (List ℕ))
            → IsNext ended fed given delivery rest self.old
            → Stands ended fed (given ++ delivery ∷ []) self.new }
        ensures answer { (ended : Bool) (fed : List (List ℕ))
            (given rest : List (Delivery (List ℕ))) (delivery : Delivery (List ℕ))
            (past : List (Delivery Reading)) (one : Delivery Reading)
            → IsNext ended fed given delivery rest self.old
            → AreDeliveriesRead (reverse given) past
            → IsDeliveryRead delivery one
            → Some result
            ≡ verdict_of (reception self.old).profile (reception self.old).anchor
            past one }
        ensures load { (ended : Bool) (fed : List (List ℕ))
            (given rest : List (Delivery (List ℕ))) (delivery : Delivery (List ℕ))
            (past : List (Delivery Reading)) (one : Delivery Reading)
            → IsNext ended fed given delivery rest self.old
            → AreDeliveriesRead (reverse given) past
            → IsDeliveryRead delivery one
            → Some self.new.load ≡ set_load (reception self.old).profile
            (reception self.old).anchor past one }
        ensures known { result ≡ Shown → self.new.showing.core.known ≡ true }
        ensures left { ready_sets self.new.sets ≡ sets_behind (ready_sets self.old.sets) }
        ensures arrival { self.new.arrival ≡ self.old.arrival }
        ensures page { self.new.showing.core.page ≡ self.old.showing.core.page }
        ensures same { IsSame self.old self.new }
    {
        let lifted = self.sets.ready_at();
        let end = self.sets.take();
        self.screen
            .take(rt, bands, gate, self.sets.core(), lifted, end);
        end
    }

    /// The lifted time of the current picture, that of the kept set before the last one, from which
    /// on it is known what is shown; 0 before two sets were kept.
    pub fn from(&self) -> u64
        ensures time { result ≡ self.now.showing.current.time }
        ensures earlier { (fed : List (List ℕ)) (ended : Bool)
            (given : List (Delivery (List ℕ)))
            (past : List (Delivery Reading))
            → Stands ended fed given self.now → AreDeliveriesRead (reverse given) past
            → result ≡ unwrap_or (time_before_last (reception self.now).anchor past) 0 }
        ensures before { (fed : List (List ℕ)) (ended : Bool) (given : List (Delivery (List ℕ)))
            (past : List (Delivery Reading))
            → Stands ended fed given self.now → AreDeliveriesRead (reverse given) past
            → result ≤ unwrap_or (last_time (reception self.now).anchor past) 0 }
    {
        self.screen.from()
    }

    /// Lends what is shown at a tick: of all packets where no set is ready, and else up to the
    /// lifted time of the set that is.
    pub fn picture(&self, tick: u64) -> View<'_>
        requires { self.now.showing.current.time ≤ tick }
        ensures taken { (fed : List (List ℕ)) (ended : Bool) (given : List (Delivery (List ℕ)))
            (past : List (Delivery Reading))
            → Stands ended fed given self.now → AreDeliveriesRead (reverse given) past
            → view_lent result ≡ view_at (reception self.now).profile
            (reception self.now).anchor tick past }
        ensures shown { (fed : List (List ℕ)) (ended : Bool) (given : List (Delivery (List ℕ)))
            (shown : Shows)
            → Stands ended fed given self.now → ready_sets self.now.sets ≡ []
            → IsShown (reception self.now) ended fed tick shown
            → view_lent result ≡ shown }
        ensures ahead { (fed : List (List ℕ)) (ended : Bool)
            (given rest : List (Delivery (List ℕ)))
            (next : Delivery (List ℕ)) (lifted : ℕ) (shown : Shows)
            → IsNext ended fed given next rest self.now
            → ((past : List (Delivery Reading)) (one : Delivery Reading)
            → AreDeliveriesRead (reverse given) past → IsDeliveryRead next one
            → lifted_time (reception self.now).anchor past one ≡ Some lifted)
            → tick < lifted
            → IsShown (reception self.now) ended fed tick shown
            → view_lent result ≡ shown }
        ensures whole { IsWholeView result }
    {
        self.screen.picture(tick)
    }

    /// What the last set that was taken asked: its lifted time, or its time as read where it was
    /// not kept, its size and the time that its painting takes.
    pub fn load(&self) -> SetLoad
        ensures load { result ≡ self.now.load }
        ensures pts { result.pts < 2 ^ 62 }
        ensures size { (reception self.now).profile.coded ≤ LARGEST_BUFFER → result.size < 2 ^ 62 }
        ensures painted { result.painted < 2 ^ 62 }
    {
        self.sets.load()
    }

    /// What the last packet brought to the coded data buffer.
    pub fn arrival(&self) -> Arrival
        ensures arrival { arrival_value result ≡ self.now.arrival }
        ensures short { result.bytes ≤ PAYLOAD_LENGTH }
    {
        self.sets.arrival()
    }

    /// The page memory.
    pub fn core(&self) -> &Core
        ensures { result.now ≡ self.now.showing.core }
    {
        self.sets.core()
    }
}
