//! Laws on the readings of segments and of packets, over all bytes.

ghost use Rattle.std.specs.Prelude.{◌≡◌, ◌<◌, [], ◌∷◌, ℕ, All, Bool, List, map, true};
ghost use Rattle.decoder_model.specs.Readings.{AreDeliveriesRead, IsReading, Reading, read};
ghost use Rattle.decoder_model.specs.Received.{HasReceived, IsFramed, Reception, for_page};
ghost use Rattle.decoder_model.specs.Sets.{Delivery, whole};
ghost use Rattle.decoder_model.specs.UsualEncoder.{usual_contents, usual_delivery, usual_packet};
ghost use Rattle.sub_base.specs.declared.profile.ProfileName.TheVariants.{Sd};

use decoder_model::usual_set_is_shown;

/// Bytes that are one segment by their head are read: they have a content or a fault.
pub fn every_segment_is_read()
    ensures { (bytes : List ℕ) → All (λ byte. byte < 256) bytes → IsFramed bytes
        → (reading : Reading) × IsReading bytes reading }
{}

/// What is read is read in one way: a segment, sets and losses, and all that was received in
/// packets.
pub fn one_reading()
    ensures segment { (bytes : List ℕ) (one other : Reading)
        → IsReading bytes one → IsReading bytes other → one ≡ other }
    ensures sets { (deliveries : List (Delivery (List ℕ))) (one other : List (Delivery Reading))
        → AreDeliveriesRead deliveries one → AreDeliveriesRead deliveries other
        → one ≡ other }
    ensures packets { (reception : Reception) (ended : Bool)
        (packets : List (List ℕ))
        (one other : List (Delivery Reading))
        → HasReceived reception ended packets one
        → HasReceived reception ended packets other → one ≡ other }
{}

/// Packets of bytes are received, whatever stands in them: as some sets and losses, each segment
/// read.
pub fn packets_are_read()
    ensures { (reception : Reception) (ended : Bool)
        (packets : List (List ℕ))
        → All (λ packet. All (λ byte. byte < 256) packet) packets
        → (past : List (Delivery Reading)) × HasReceived reception ended packets past }
{}

/// The packet of a usual encoder, byte by byte, is received as one set with the contents that law
/// `usual_set_is_shown` of `decoder_model` shows.
pub fn usual_packet_is_read()
    ensures received { HasReceived (for_page Sd 256 1 0) true
        (usual_packet ∷ []) (usual_delivery ∷ []) }
    ensures contents { usual_delivery ≡ whole 90000 84 (map read usual_contents) }
{
    usual_set_is_shown();
}
