//! Laws on packets that are sent twice, on packets with an error flag and on those of other PIDs,
//! over all packets.

ghost use Rattle.std.specs.Prelude.{◌≡◌, ◌++◌, ℕ, Bool, true, List, [], ◌∷◌, All, None};
ghost use Rattle.decoder_model.specs.declared.pages.Pages.{Pages};
ghost use Rattle.decoder_model.specs.Arrivals.{loss, arrivals_at, arrivals_of, packets_taken};
ghost use Rattle.decoder_model.specs.Readings.{Reading};
ghost use Rattle.decoder_model.specs.Received.{HasReceived, Reception};
ghost use Rattle.decoder_model.specs.Sets.{Delivery, sets_of};
ghost use Rattle.decoder_model.specs.Shown.{IsShown, View};
ghost use Rattle.doubled_packet_laws.specs.Doubled.{doubled};
ghost use Rattle.doubled_packet_laws.specs.OfPid.{of_pid};
ghost use Rattle.stream_syntax.specs.declared.transport.Event.TheVariants.{Double};
ghost use Rattle.stream_syntax.specs.TransportPackets.{has_error_flag, packet_fault, pid_of};
ghost use Rattle.stream_syntax.specs.Units.{event_at, is_payload};

/// Payload packets of the PID that are sent twice bring the sets and losses that they bring when
/// sent once, whatever stands in the packets.
pub fn doubles_change_no_set()
    ensures { (coded pid : ℕ) (pages : Pages) (ended : Bool) (packets : List (List ℕ))
        → sets_of coded pid pages ended (doubled pid packets)
        ≡ sets_of coded pid pages ended packets }
{}

/// They are received, read, as the same sets and losses. A set's verdict is by these alone, so
/// each set has the same one.
pub fn doubles_change_no_verdict()
    ensures twice { (reception : Reception) (ended : Bool)
        (packets : List (List ℕ)) (past : List (Delivery Reading))
        → HasReceived reception ended packets past
        → HasReceived reception ended (doubled reception.pid packets) past }
    ensures once { (reception : Reception) (ended : Bool)
        (packets : List (List ℕ)) (past : List (Delivery Reading))
        → HasReceived reception ended (doubled reception.pid packets) past
        → HasReceived reception ended packets past }
{}

/// At each tick the same is shown of them.
pub fn doubles_change_no_picture()
    ensures twice { (reception : Reception) (ended : Bool)
        (packets : List (List ℕ)) (tick : ℕ) (shown : View)
        → IsShown reception ended packets tick shown
        → IsShown reception ended (doubled reception.pid packets) tick shown }
    ensures once { (reception : Reception) (ended : Bool)
        (packets : List (List ℕ)) (tick : ℕ) (shown : View)
        → IsShown reception ended (doubled reception.pid packets) tick shown
        → IsShown reception ended packets tick shown }
{}

/// A packet of the PID with an error flag brings a loss and no unit, whatever else stands in it.
/// Its counter is not looked at: behind it a copy of the payload packet before it is a double, and
/// brings nothing.
pub fn an_error_flag_is_a_loss()
    ensures loss_alone { (size pid : ℕ) (pages : Pages) (before : List (List ℕ))
        (packet : List ℕ)
        → pid_of packet ≡ pid → has_error_flag packet ≡ true
        → arrivals_at size pid pages before packet ≡ loss ∷ [] }
    ensures behind_taken { (size pid : ℕ) (pages : Pages) (before : List (List ℕ))
        (packet : List ℕ)
        → packets_taken pid before ≡ before → packet_fault pid packet ≡ None
        → pid_of packet ≡ pid → has_error_flag packet ≡ true
        → arrivals_of size pid pages (before ++ packet ∷ [])
        ≡ arrivals_of size pid pages before ++ loss ∷ [] }
    ensures copy_is_double { (size pid : ℕ) (before : List (List ℕ)) (packet damaged : List ℕ)
        → is_payload pid packet ≡ true → has_error_flag damaged ≡ true
        → event_at pid size (before ++ packet ∷ damaged ∷ []) packet ≡ Double }
    ensures copy_brings_nothing { (size pid : ℕ) (pages : Pages) (before : List (List ℕ))
        (packet damaged : List ℕ)
        → is_payload pid packet ≡ true → has_error_flag damaged ≡ true
        → arrivals_at size pid pages (before ++ packet ∷ damaged ∷ []) packet ≡ [] }
{}

/// Where none of the packets is refused, those of the PID alone bring the sets and losses that all
/// bring: packets of other PIDs change nothing.
pub fn other_pids_change_no_set()
    ensures { (coded pid : ℕ) (pages : Pages) (ended : Bool) (packets : List (List ℕ))
        → All (λ packet. packet_fault pid packet ≡ None) packets
        → sets_of coded pid pages ended (of_pid pid packets)
        ≡ sets_of coded pid pages ended packets }
{}

/// At each tick the same is shown of them.
pub fn other_pids_change_no_picture()
    ensures alone { (reception : Reception) (ended : Bool)
        (packets : List (List ℕ)) (tick : ℕ) (shown : View)
        → All (λ packet. packet_fault reception.pid packet ≡ None) packets
        → IsShown reception ended packets tick shown
        → IsShown reception ended (of_pid reception.pid packets) tick shown }
    ensures all { (reception : Reception) (ended : Bool)
        (packets : List (List ℕ)) (tick : ℕ) (shown : View)
        → All (λ packet. packet_fault reception.pid packet ≡ None) packets
        → IsShown reception ended (of_pid reception.pid packets) tick shown
        → IsShown reception ended packets tick shown }
{}
