//! Laws on the sets that a gathering hands out, and on what packets bring to it.

ghost use Rattle.std.specs.Prelude.{◌≡◌, ℕ, Bool, List, [], ◌∷◌, ◌++◌, None};
ghost use Rattle.stream_syntax.specs.TransportPackets.{packet_fault};
ghost use Rattle.decoder_model.specs.declared.pages.Pages.{Pages};
ghost use Rattle.decoder_model.specs.Arrivals.{arrivals_at, arrivals_of, packets_taken};
ghost use Rattle.decoder_model.specs.Readings.{AreReadings, Reading};
ghost use Rattle.decoder_model.specs.Received.{AreRead};
ghost use Rattle.decoder_model.specs.Sets.{runs_of, sets_in, sets_of};
ghost use Rattle.display_sets.specs.Filling.{AreBytes};

/// The bytes of a set's segments are read as its segments are.
pub fn bytes_are_read()
    ensures { (segments : List (List ℕ)) (readings : List Reading) (bytes : List ℕ)
        → AreBytes segments bytes → AreReadings segments readings → AreRead readings bytes }
{}

/// Behind packets that were all taken, a packet without a fault brings its own arrivals and changes
/// none before them.
pub fn packet_brings_arrivals()
    ensures { (size pid : ℕ) (pages : Pages) (packets : List (List ℕ)) (packet : List ℕ)
        → packets_taken pid packets ≡ packets → packet_fault pid packet ≡ None
        → arrivals_of size pid pages (packets ++ packet ∷ [])
        ≡ arrivals_of size pid pages packets
        ++ arrivals_at size pid pages packets packet }
{}

/// The sets of packets that were all taken are those of what arrived with them.
pub fn sets_of_arrivals()
    ensures { (coded pid : ℕ) (pages : Pages) (ended : Bool) (packets : List (List ℕ))
        → packets_taken pid packets ≡ packets
        → sets_of coded pid pages ended packets
        ≡ sets_in coded ended (runs_of (arrivals_of coded pid pages packets)) }
{}
