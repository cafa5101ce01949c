//! How a set stands to the epoch that is known (EN 300 743, clauses 5.1 and 7.2.2, page_state).

ghost use Rattle.std.specs.Prelude.{◌≡◌, List};
ghost use Rattle.std.specs.Option.{is_some};
ghost use Rattle.stream_syntax.specs.Segments.{Page};
ghost use Rattle.decoder_model.specs.Kept.{epoch_of};
ghost use Rattle.decoder_model.specs.Readings.{Content};
ghost use Rattle.page_core.specs.Private.Epochs.{HasOnePage, IsStart};

use stream_syntax::State;

/// What a set with a page is for the epoch.
#[derive(Clone, Copy, Debug, PartialEq, Eq)]
pub(crate) enum Start {
    /// It begins an epoch.
    Begins,
    /// The epoch that is known goes on with it.
    GoesOn,
    /// No epoch is known, and it begins none.
    Waits,
}

/// What a set is by the state of its page, and by whether an epoch is known.
pub(crate) fn start_of(known: bool, state: State) -> Start
    ensures { (sets : List (List Content)) (set : List Content) (page : Page)
        → known ≡ is_some (epoch_of sets) → HasOnePage set page → page.state ≡ state
        → IsStart sets set result }
{
    match state {
        State::ModeChange => Start::Begins,
        State::Acquisition => { if known { Start::GoesOn } else { Start::Begins } }
        State::Normal => { if known { Start::GoesOn } else { Start::Waits } }
    }
}
