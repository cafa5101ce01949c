ghost use Rattle.std.specs.Prelude.{◌<◌, ◌≡◌, All, Bool, List, length, ℕ};
ghost use Rattle.std.specs.List.{concat};
ghost use Rattle.decoder_model.specs.Received.{Reception};
ghost use Rattle.decoder_model.specs.Shown.{View, IsShown};
ghost use Rattle.decoder_model.specs.Streams.{Sending, SentSet};
ghost use Rattle.shown_stream.specs.Compiled.{IsCompiledTo, Compiling};
ghost use Rattle.shown_stream.specs.Entered.{IsEnteredRightly};
ghost use Rattle.shown_stream.specs.SentSets.{first_times_from, first_times_received, times_from, times_received};
ghost use Rattle.shown_stream.specs.SentPlan.{IsSentPlan, SentPlan};
ghost use Rattle.shown_stream.specs.Shows.{IsAnchorOf};
ghost use Rattle.stream_syntax.specs.declared.wire.TheConstants.{NULL_PID};

/// What a receiver of a profile shows of packets at a tick is one view: the definitions give no
/// second one.
pub fn one_view_is_shown()
    ensures { (reception : Reception) (ended : Bool) (packets : List (List ℕ)) (tick : ℕ)
        (shown other : View)
        → IsShown reception ended packets tick shown
        → IsShown reception ended packets tick other → shown ≡ other }
{}

/// Where the sets of a script's plan are sent for a receiver's pages, whoever sends them and what
/// else for other pages, the receiver may enter behind any number of packets. It shows nothing
/// before the time of its entry set, and from then on what the script authors; and its page memory
/// holds the script.
pub fn sent_plan_is_entered()
    ensures { (sent : SentPlan) (packets : List (List ℕ)) (missed : ℕ)
        → sent.pid < NULL_PID → All (λ packet. length packet ≡ 188) packets
        → IsSentPlan sent (concat packets)
        → IsEnteredRightly sent packets missed }
{}

/// An anchor that suits all display sets of which packets come suits those up to the first that
/// comes whole, which is all that a receiver that enters there needs.
pub fn fewer_times_suit()
    ensures { (anchor missed : ℕ) (sets : List SentSet) → IsAnchorOf (times_from missed sets) anchor
        → IsAnchorOf (first_times_from missed sets) anchor }
{}

/// And so where packets are lost: an anchor that suits all display sets of which packets are
/// received suits those up to the first that is received whole.
pub fn fewer_received_times_suit()
    ensures { (anchor : ℕ) (sendings : List Sending) (sets : List SentSet)
        → IsAnchorOf (times_received sendings sets) anchor
        → IsAnchorOf (first_times_received sendings sets) anchor }
{}

/// A script is compiled to one stream, for a profile, a PID and a page: whoever plans and codes it
/// by the definitions writes the same bytes.
pub fn one_stream()
    ensures { (compiling : Compiling) (packets others : List ℕ)
        → IsCompiledTo compiling packets
        → IsCompiledTo compiling others → packets ≡ others }
{}
