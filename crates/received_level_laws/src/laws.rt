//! Laws on the calls that are told of a stream, for a walk over its packets.

ghost use Rattle.std.specs.Prelude.{◌≡◌, ◌+◌, ℕ, Bool, false, true, List, [], ◌∷◌, ◌++◌};
ghost use Rattle.std.specs.Prelude.{length, reverse, Some, None};
ghost use Rattle.std.specs.List.{AllByRecursion};
ghost use Rattle.sub_base.specs.declared.load.SetLoad.{SetLoad};
ghost use Rattle.sub_base.specs.declared.pace.Pace.{Pace};
ghost use Rattle.sub_base.specs.declared.profile.Profile.{Profile};
ghost use Rattle.stream_syntax.specs.TransportPackets.{packet_fault};
ghost use Rattle.stream_syntax.specs.Units.{event_at};
ghost use Rattle.stream_syntax.specs.declared.transport.PacketFault.{PacketFault};
ghost use Rattle.decoder_model.specs.Arrivals.{packets_taken};
ghost use Rattle.decoder_model.specs.PacketArrivals.{packet_arrival};
ghost use Rattle.decoder_model.specs.Painting.{set_load};
ghost use Rattle.decoder_model.specs.Readings.{Reading};
ghost use Rattle.decoder_model.specs.Received.{HasReceived, Reception};
ghost use Rattle.decoder_model.specs.Sets.{Delivery, lost};
ghost use Rattle.decoder_model.specs.Verdict.{verdict_of};
ghost use Rattle.decoder_model.specs.declared.set_end.SetEnd.{SetEnd};
ghost use Rattle.received_level_laws.specs.Before.{IsMoreThan};
ghost use Rattle.received_level_laws.specs.StreamCalls.{AreCallsOf, calls_of_packet};
ghost use Rattle.received_level_laws.specs.ToldSets.{AreToldCalls, ToldCall, calls_told, of_no_set};
ghost use Rattle.received_level_laws.specs.ToldSets.{call_of_end, of_set, set_told, told_call};
ghost use Rattle.received_level_laws.specs.ToldSets.{told_behind, told_of, told_sets, told_sets_behind};
ghost use Rattle.sub_base.specs.Lists.{all_of};

/// Before the first packet nothing is told.
pub fn nothing_is_told()
    ensures { (reception : Reception) (slot : ℕ) (ended : Bool)
        → AreToldCalls reception slot ended [] [] }
{}

/// Behind packets that were all taken, a packet without a fault brings its own calls, with those of
/// the sets that come with it, and changes none before them.
pub fn packet_brings_calls()
    ensures { (reception : Reception) (slot : ℕ)
        (packets : List (List ℕ)) (packet : List ℕ) (past more : List (Delivery Reading))
        → packets_taken reception.pid packets ≡ packets → packet_fault reception.pid packet ≡ None
        → HasReceived reception false packets past
        → HasReceived reception false (packets ++ packet ∷ []) (more ++ past)
        → told_of reception slot (packets ++ packet ∷ []) (more ++ past)
        ≡ told_of reception slot packets past
        ++ calls_of_packet of_no_set (event_at reception.pid reception.profile.coded packets packet)
        (packet_arrival reception.profile.coded reception.pid reception.pages packets packet)
        (slot + length packets)
        (all_of (told_behind reception.profile reception.anchor past (reverse more))) }
{}

/// The end of a stream brings the calls of the sets that it alone makes ready, last.
pub fn end_brings_calls()
    ensures { (reception : Reception) (slot : ℕ)
        (packets : List (List ℕ)) (past more : List (Delivery Reading))
        → packets_taken reception.pid packets ≡ packets
        → HasReceived reception false packets past
        → told_of reception slot packets (more ++ past)
        ≡ told_of reception slot packets past
        ++ all_of (told_behind reception.profile reception.anchor past (reverse more)) }
{}

/// What is received of packets and one more is what was received before it, and more.
pub fn packet_brings_more()
    ensures { (reception : Reception) (packets : List (List ℕ))
        (packet : List ℕ) (all : List (Delivery Reading))
        → packets_taken reception.pid packets ≡ packets → packet_fault reception.pid packet ≡ None
        → HasReceived reception false (packets ++ packet ∷ []) all
        → IsMoreThan reception packets all }
{}

/// What is received in the end of a stream is what was received before it, and more.
pub fn end_brings_more()
    ensures { (reception : Reception) (packets : List (List ℕ))
        (all : List (Delivery Reading))
        → HasReceived reception true packets all
        → IsMoreThan reception packets all }
{}

/// What is told of packets ends at the first that cannot be taken.
pub fn calls_stop_at_a_fault()
    ensures { (reception : Reception) (slot : ℕ) (ended : Bool)
        (packets : List (List ℕ)) (packet : List ℕ) (rest : List (List ℕ))
        (fault : PacketFault) (told : List ToldCall)
        → packets_taken reception.pid packets ≡ packets
        → packet_fault reception.pid packet ≡ Some fault
        → AreToldCalls reception slot ended (packets ++ packet ∷ rest) told
        → AreToldCalls reception slot false packets told }
{}

/// One more set or loss that comes is told behind those that came before it.
pub fn one_more_is_told()
    ensures { (profile : Profile) (anchor : ℕ) (past more : List (Delivery Reading))
        (one : Delivery Reading)
        → all_of (told_behind profile anchor past (reverse (one ∷ more)))
        ≡ all_of (told_behind profile anchor past (reverse more))
        ++ told_call profile anchor (more ++ past) one }
{}

/// A set with that end and that load is told as one call, a drop where it is not kept.
pub fn set_is_told()
    ensures { (profile : Profile) (anchor : ℕ) (past : List (Delivery Reading))
        (one : Delivery Reading) (end : SetEnd) (load : SetLoad)
        → Some end ≡ verdict_of profile anchor past one
        → Some load ≡ set_load profile anchor past one
        → told_call profile anchor past one
        ≡ of_set (set_told (Some end) (Some load)) (call_of_end end load) ∷ [] }
{}

/// A loss is not told.
pub fn loss_is_not_told()
    ensures { (profile : Profile) (anchor : ℕ) (past : List (Delivery Reading))
        → told_call profile anchor past lost ≡ [] }
{}

/// Losses alone tell nothing.
pub fn losses_are_not_told()
    ensures { (profile : Profile) (anchor : ℕ) (past more : List (Delivery Reading))
        → AllByRecursion (λ one. one ≡ lost) more
        → all_of (told_behind profile anchor past (reverse more)) ≡ [] }
{}

/// More told calls come before the others where the latest stands first.
pub fn more_calls_are_told()
    ensures { (told more : List ToldCall)
        → calls_told (told ++ more) ≡ calls_told more ++ calls_told told }
{}

/// The sets of more told calls come behind those before, each with its own tick.
pub fn more_sets_are_told()
    ensures { (pace : Pace) (told more : List ToldCall)
        → told_sets pace (told ++ more)
        ≡ told_sets pace told ++ told_sets_behind pace (reverse told) more }
{}

/// The calls that are told of packets are those of the packets.
pub fn told_calls_are_calls()
    ensures { (reception : Reception) (slot : ℕ) (ended : Bool)
        (packets : List (List ℕ)) (told : List ToldCall)
        → AreToldCalls reception slot ended packets told
        → AreCallsOf reception slot ended packets (calls_told told) }
{}
