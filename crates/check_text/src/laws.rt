//! A law on packets of other PIDs.

ghost use Rattle.std.specs.Prelude.{◌++◌, ◌∷◌, [], ℕ, List};
ghost use Rattle.check_text.specs.Checking.{Checking, HasMetered};
ghost use Rattle.check_text.specs.Others.{IsOther};
ghost use Rattle.set_receiver.specs.Receiving.{reception};

/// A packet of another PID brings nothing to a receiver with a meter of its coded data buffer: as
/// it stands, it took that packet as well, whenever it arrived, and told the same of it.
pub fn other_pids_are_not_metered()
    ensures { (slot_of : ℕ → ℕ) (sets : Checking) (packets : List (List ℕ)) (packet text : List ℕ)
        → IsOther (reception sets.receiving).pid packet
        → HasMetered slot_of sets packets text
        → HasMetered slot_of sets (packets ++ packet ∷ []) text }
{}
