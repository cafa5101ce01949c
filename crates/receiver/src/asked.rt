//! The receiver that draws what it is asked for.

ghost use Rattle.std.specs.Prelude.{◌≡◌};

use crate::last_picture::LastPicture;
use crate::view::View;
use decoder_model::Pages;
use page_core::SetEnd;
use set_receiver::SetReceiver;
use std::alloc::Global;
use std::marker::Model;
use std::thread::Threads;
use stream_syntax::{Event, PacketFault};
use sub_base::{BandGate, NoMemory, Profile};

/// A receiver of the subtitles of one service, as `Receiver` is, for ticks that are asked for as
/// its sets are taken, each no earlier than the last kept set. It draws the picture of a set at the
/// first such tick at which it is shown, and where something is lost while it is: what is shown
/// stays then, and the page memory forgets it. One picture is kept.
#[derive(Drop)]
pub struct AskedReceiver {
    sets: SetReceiver,
    last: LastPicture,
}

impl Model for AskedReceiver {
    ghost use Rattle.receiver.specs.Asking.{Asking, with_picture};
    ghost use Rattle.receiver.specs.Private.LastPictures.{IsAsked};

    ghost Value = { Asking };

    ghost view = { λ r. with_picture r.sets r.last.picture r.last.drawn };

    ghost invariant = { λ r. IsAsked r.sets.core r.last };
}

impl AskedReceiver {
    ghost use Rattle.std.specs.Prelude.{◌≡◌, ◌<◌, ◌≤◌, ◌^◌, ℕ, Bool, true, false};
    ghost use Rattle.std.specs.Prelude.{List, [], ◌∷◌, ◌++◌, reverse, unwrap_or};
    ghost use Rattle.std.specs.Prelude.{None, Some, option_and_then, option_map};
    ghost use Rattle.std.specs.Prelude.{IfErr, IfOk, IfSome, IsSome, MatchResult, OnOk};
    ghost use Rattle.stream_syntax.specs.TransportPackets.{packet_fault};
    ghost use Rattle.stream_syntax.specs.Units.{event_at};
    ghost use Rattle.decoder_model.specs.Kept.{last_time, lifted_behind, lifted_time, time_of};
    ghost use Rattle.decoder_model.specs.Readings.{AreDeliveriesRead, IsDeliveryRead, Reading};
    ghost use Rattle.decoder_model.specs.Received.{sets_received};
    ghost use Rattle.decoder_model.specs.Sets.{Delivery};
    ghost use Rattle.decoder_model.specs.Shown.{view_at};
    ghost use Rattle.decoder_model.specs.Verdict.{verdict_of};
    ghost use Rattle.display_sets.specs.Gathered.{first_ready, ready_sets, sets_behind};
    ghost use Rattle.receiver.specs.Asking.{IsDrawnAt, IsNext, IsSame, KeepsSets, ShowsLast, Stands};
    ghost use Rattle.receiver.specs.Asking.{reception, without_picture};
    ghost use Rattle.receiver.specs.Lent.{IsWholeView, view_lent};
    ghost use Rattle.set_reader.specs.Collecting.{losses};
    ghost use Rattle.set_receiver.specs.Receiving.{AreLosses, HasToLose, set_time};

    /// A receiver of a profile, for a PID and these pages, that was fed nothing. Lifted times begin
    /// at the anchor. All memory is taken here.
    pub fn make(
        alloc: Global,
        profile: &Profile,
        pid: u16,
        pages: Pages,
        anchor: u64,
    ) -> Result<AskedReceiver, NoMemory>
        requires coded { profile.now.coded < 2 ^ 32 }
        requires nodes { profile.now.nodes < 2 ^ 31 }
        requires anchor { anchor < 2 ^ 34 }
        ensures stands { IfOk result (Stands false [] []) }
        ensures made { IfOk result (λ receiver. reception receiver
            ≡ record { profile = profile.now; pid = pid; pages = pages; anchor = anchor }) }
        ensures none { IfOk result (λ receiver. ready_sets receiver.sets ≡ []) }
    {
        Ok(AskedReceiver {
            sets: SetReceiver::make(alloc, profile, pid, pages, anchor)?,
            last: LastPicture::clear(alloc, profile)?,
        })
    }

    /// Takes the next packet, where no set is ready: what became of it. A packet that cannot be
    /// taken leaves the receiver as it was. Where something was lost, what is shown is drawn in so
    /// many bands, 1 to 64, if it was not.
    pub fn feed<R: Threads + Sync, G: BandGate + Sync>(
        &mut self,
        rt: &R,
        bands: u32,
        gate: &G,
        packet: &[u8; 188],
    ) -> Result<Event, PacketFault>
        requires none { ready_sets self.old.sets ≡ [] }
        requires some { 1 ≤ bands }
        requires few { bands ≤ 64 }
        ensures fault { MatchResult result
            (λ _. packet_fault (reception self.old).pid packet.now ≡ None)
            (λ fault. packet_fault (reception self.old).pid packet.now ≡ Some fault) }
        ensures unchanged { IfErr result (λ _. self.new ≡ self.old) }
        ensures stands { OnOk result ((fed : List (List ℕ)) (given : List (Delivery (List ℕ)))
            → Stands false fed given self.old
            → (losses : List (Delivery (List ℕ))) × AreLosses losses
            × Stands false (fed ++ packet.now ∷ []) (given ++ losses) self.new) }
        ensures event { IfOk result (λ event.
            (fed : List (List ℕ)) (given : List (Delivery (List ℕ)))
            → Stands false fed given self.old
            → event ≡ event_at (reception self.old).pid (reception self.old).profile.coded
            fed packet.now) }
        ensures same { IsSame self.old self.new }
    {
        let came = self.sets.feed_reader(packet)?;
        self.lose(rt, bands, gate, came.losses);
        Ok(came.event)
    }

    /// So many losses came, of which the page memory was not told. What is shown stays.
    fn lose<R: Threads + Sync, G: BandGate + Sync>(
        &mut self,
        rt: &R,
        bands: u32,
        gate: &G,
        count: u32,
    )
        requires some { 1 ≤ bands }
        requires few { bands ≤ 64 }
        ensures stands { (ended : Bool) (fed : List (List ℕ)) (given : List (Delivery (List ℕ)))
            → HasToLose count ended fed given (without_picture self.old)
            → ShowsLast given self.old
            → Stands ended fed (given ++ losses count) self.new }
        ensures same { IsSame self.old self.new }
    {
        if count > 0 {
            self.last.draw(rt, bands, gate, self.sets.core());
            self.sets.lose(count);
        }
    }

    /// The stream has ended: a set in hand without its end is ready as it stands.
    pub fn finish(&mut self)
        requires none { ready_sets self.old.sets ≡ [] }
        ensures stands { (fed : List (List ℕ)) (given : List (Delivery (List ℕ)))
            → Stands false fed given self.old → Stands true fed given self.new }
        ensures same { IsSame self.old self.new }
    {
        self.sets.finish();
    }

    /// The presentation time, as read, of the set that is ready and was not taken.
    pub fn ready(&self) -> Option<u64>
        ensures time { result ≡ option_map set_time (first_ready (ready_sets self.now.sets)) }
        ensures none { result ≡ None → ready_sets self.now.sets ≡ [] }
        ensures all { result ≡ None
            → (fed : List (List ℕ)) (ended : Bool) (given : List (Delivery (List ℕ)))
            → Stands ended fed given self.now
            → sets_received (reception self.now) ended fed ≡ given }
        ensures next { IfSome result (λ time.
            (fed : List (List ℕ)) (ended : Bool) (given : List (Delivery (List ℕ)))
            → Stands ended fed given self.now
            → (delivery : Delivery (List ℕ)) × (rest : List (Delivery (List ℕ)))
            × IsNext ended fed given delivery rest self.now × (time_of delivery ≡ Some time)) }
    {
        let time = self.sets.ready()?;
        Some(time)
    }

    /// The lifted time of the set that is ready. `None` exactly where none is ready, or where it
    /// would not be kept.
    pub fn ready_at(&self) -> Option<u64>
        ensures lifted { (fed : List (List ℕ)) (ended : Bool) (given : List (Delivery (List ℕ)))
            (past : List (Delivery Reading))
            → Stands ended fed given self.now → AreDeliveriesRead (reverse given) past
            → result ≡ option_and_then
            (lifted_behind (reception self.now).anchor
            (last_time (reception self.now).anchor past))
            (option_map set_time (first_ready (ready_sets self.now.sets))) }
        ensures next { (fed : List (List ℕ)) (ended : Bool)
            (given rest : List (Delivery (List ℕ)))
            (next : Delivery (List ℕ)) (past : List (Delivery Reading)) (one : Delivery Reading)
            → IsNext ended fed given next rest self.now → AreDeliveriesRead (reverse given) past
            → IsDeliveryRead next one
            → result ≡ lifted_time (reception self.now).anchor past one }
    {
        self.sets.ready_at()
    }

    /// Takes the set that is ready: the page memory has it. Nothing is drawn.
    pub fn take(&mut self) -> SetEnd
        requires ready { IsSome (first_ready (ready_sets self.old.sets)) }
        ensures stands { (ended : Bool) (fed : List (List ℕ))
            (given rest : List (Delivery (List ℕ))) (delivery : Delivery (List ℕ))
            → IsNext ended fed given delivery rest self.old
            → Stands ended fed (given ++ delivery ∷ []) self.new }
        ensures answer { (ended : Bool) (fed : List (List ℕ))
            (given rest : List (Delivery (List ℕ))) (delivery : Delivery (List ℕ))
            (past : List (Delivery Reading)) (one : Delivery Reading)
            → IsNext ended fed given delivery rest self.old
            → AreDeliveriesRead (reverse given) past
            → IsDeliveryRead delivery one
            → Some result
            ≡ verdict_of (reception self.old).profile (reception self.old).anchor past one }
        ensures left { ready_sets self.new.sets ≡ sets_behind (ready_sets self.old.sets) }
        ensures same { IsSame self.old self.new }
    {
        let end = self.sets.take();
        self.last.take(end);
        end
    }

    /// Draws what is shown at a tick in so many bands, 1 to 64, where it was not drawn. The tick is
    /// no earlier than the last kept set.
    pub fn draw<R: Threads + Sync, G: BandGate + Sync>(
        &mut self,
        rt: &R,
        bands: u32,
        gate: &G,
        tick: u64,
    )
        requires some { 1 ≤ bands }
        requires few { bands ≤ 64 }
        ensures drawn { IsDrawnAt tick self.new }
        ensures keeps { KeepsSets self.old self.new }
    {
        self.last.draw_at(rt, bands, gate, self.sets.core(), tick);
    }

    /// Lends what is shown at a tick for which it was drawn: of all packets where no set is ready,
    /// and else up to the lifted time of the set that is.
    pub fn picture(&self, tick: u64) -> View<'_>
        requires { IsDrawnAt tick self.now }
        ensures taken { (fed : List (List ℕ)) (ended : Bool) (given : List (Delivery (List ℕ)))
            (past : List (Delivery Reading))
            → Stands ended fed given self.now → AreDeliveriesRead (reverse given) past
            → unwrap_or (last_time (reception self.now).anchor past) 0 ≤ tick
            → view_lent result ≡ view_at (reception self.now).profile
            (reception self.now).anchor tick past }
        ensures whole { IsWholeView result }
    {
        self.last.view(tick)
    }
}
