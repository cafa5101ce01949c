//! Laws on page memories.

ghost use Rattle.std.specs.Prelude.{◌≡◌, List, Some, ℕ};
ghost use Rattle.decoder_model.specs.BehindLoss.{IsBehindLoss, IsNormal, IsWaitingOrBroken};
ghost use Rattle.decoder_model.specs.Faults.{contents_in};
ghost use Rattle.decoder_model.specs.Kept.{lifted_time};
ghost use Rattle.decoder_model.specs.Readings.{Reading};
ghost use Rattle.decoder_model.specs.Sets.{Delivery, whole};
ghost use Rattle.decoder_model.specs.Verdict.{verdict_of};
ghost use Rattle.decoder_model.specs.declared.set_end.SetEnd.{SetEnd};
ghost use Rattle.page_core.specs.Losses.{IsAllFree};
ghost use Rattle.page_core.specs.Memory.{Memory, IsMemoryAfter};

/// Behind a loss or a broken set, until a kept set comes that is not of state normal, no epoch is
/// known, and all nodes and all bytes of pixels are free; and each kept set of state normal waits
/// or is broken.
pub fn behind_a_loss()
    ensures free { (past : List (Delivery Reading)) (memory : Memory)
        → IsBehindLoss memory.profile memory.anchor past → IsMemoryAfter past memory
        → IsAllFree memory }
    ensures waits { (past : List (Delivery Reading)) (memory : Memory) (pts size time : ℕ)
        (readings : List Reading)
        → IsBehindLoss memory.profile memory.anchor past
        → lifted_time memory.anchor past (whole pts size readings) ≡ Some time
        → IsNormal (contents_in readings)
        → (verdict : SetEnd)
        × (verdict_of memory.profile memory.anchor past (whole pts size readings)
        ≡ Some verdict) × IsWaitingOrBroken verdict }
{}
