ghost use Rattle.std.specs.Prelude.{◌<◌, ◌≡◌, All, List, length, ℕ};
ghost use Rattle.std.specs.List.{concat};
ghost use Rattle.cue_list.specs.declared.script.Script.{Script};
ghost use Rattle.page_pair.specs.PairOutcome.{ArePagesApart, first_sent, second_sent};
ghost use Rattle.page_pair.specs.PairStream.{IsPairedTo};
ghost use Rattle.page_pair.specs.declared.pair_words.Pairing.{Pairing};
ghost use Rattle.shown_stream.specs.Entered.{IsEnteredRightly};
ghost use Rattle.shown_stream.specs.SentPlan.{IsSentPlan};
ghost use Rattle.stream_syntax.specs.declared.wire.TheConstants.{NULL_PID};

/// Where two scripts are sent on three different pages, the sets of each plan are sent for a
/// receiver of its composition page and the ancillary page: what counts for it of each set is the
/// page, the regions and the CLUTs of its own script, its objects in their order, and its own end.
pub fn pair_is_sent()
    ensures { (pairing : Pairing) (first second : Script)
        (packets : List ℕ) → ArePagesApart pairing.pages
        → (paired : IsPairedTo pairing first second packets)
        → IsSentPlan (first_sent pairing first paired.one paired.table) packets
        × IsSentPlan (second_sent pairing second paired.two paired.table) packets }
{}

/// So a receiver of either language may enter behind any number of the packets. It shows nothing
/// before the time of its entry set, and from then on what its script authors; and its page memory
/// holds the script.
pub fn pair_is_entered()
    ensures { (pairing : Pairing) (first second : Script)
        (packets : List (List ℕ)) → pairing.pid < NULL_PID → ArePagesApart pairing.pages
        → All (λ packet. length packet ≡ 188) packets
        → (paired : IsPairedTo pairing first second (concat packets)) → (missed : ℕ)
        → IsEnteredRightly (first_sent pairing first paired.one paired.table) packets
        missed
        × IsEnteredRightly (second_sent pairing second paired.two paired.table) packets
        missed }
{}
