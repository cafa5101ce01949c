ghost use Rattle.std.specs.Prelude.{◌*◌, ◌+◌, ◌++◌, ◌∷◌, ◌≡◌, length, List, Some, ℕ};
ghost use Rattle.cue_records.specs.Rows.{Row};
ghost use Rattle.cue_list.specs.declared.script.Script.{Script};
ghost use Rattle.grown_script_laws.specs.Growth.{Grows};
ghost use Rattle.stream_syntax.specs.declared.wire.TheConstants.{PACKET_LENGTH};
ghost use Rattle.live_plan.specs.declared.limits.TheConstants.{AHEAD};
ghost use Rattle.live_plan.specs.LetIn.{IsScriptBehind, LetIn};
ghost use Rattle.live_plan.specs.LiveRows.{due_front, last_tick, row, tick, Inserter, IsBatchOf, IsDue, RowOrTick};

/// A record that is let in goes on above the horizon of the last tick: what it adds to the script
/// of the records before it lies above that tick and 453,600 more.
pub fn rows_grow()
    ensures { (inserter : Inserter) (past : List RowOrTick) (cells : Row) (time : ℕ)
        (old new : Script)
        → last_tick past ≡ Some time → LetIn inserter (row cells ∷ past)
        → IsScriptBehind inserter past old → IsScriptBehind inserter (row cells ∷ past) new
        → Grows (time + AHEAD) old new }
{}

/// What is due for a tick, over the records that were let in before it, is a prefix of the packets
/// of all records that are let in behind it: no later record changes what was written.
pub fn due_stays()
    ensures { (inserter : Inserter) (past later : List RowOrTick) (time : ℕ) (packets now : List ℕ)
        → LetIn inserter (later ++ tick time ∷ past) → IsBatchOf inserter past packets
        → IsBatchOf inserter (later ++ tick time ∷ past) now
        → (more : List ℕ) × (now ≡ due_front inserter past time packets ++ more) }
{}

/// Records have one batch of packets, whoever plans and codes them by the definitions.
pub fn one_batch()
    ensures { (inserter : Inserter) (past : List RowOrTick) (packets others : List ℕ)
        → IsBatchOf inserter past packets → IsBatchOf inserter past others → packets ≡ others }
{}

/// What is due is one list of whole packets.
pub fn one_due()
    ensures one { (inserter : Inserter) (past : List RowOrTick) (due others : List ℕ)
        → IsDue inserter past due → IsDue inserter past others → due ≡ others }
    ensures whole { (inserter : Inserter) (past : List RowOrTick) (due : List ℕ)
        → IsDue inserter past due
        → (count : ℕ) × (length due ≡ PACKET_LENGTH * count) }
{}
