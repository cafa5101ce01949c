//! Laws on what is shown of packets.

ghost use Rattle.std.specs.Prelude.{◌≡◌, ◌<◌, ℕ, All, Bool, List};
ghost use Rattle.decoder_model.specs.Received.{Reception};
ghost use Rattle.decoder_model.specs.Shown.{IsShown, View};

/// Packets of bytes, whatever stands in them, are shown at every tick, and as one view.
pub fn packets_are_shown()
    ensures some { (reception : Reception) (ended : Bool)
        (packets : List (List ℕ)) (tick : ℕ)
        → All (λ packet. All (λ byte. byte < 256) packet) packets
        → (shown : View) × IsShown reception ended packets tick shown }
    ensures one { (reception : Reception) (ended : Bool)
        (packets : List (List ℕ)) (tick : ℕ) (shown other : View)
        → IsShown reception ended packets tick shown
        → IsShown reception ended packets tick other → shown ≡ other }
{}
