//! The set of the run in hand: the last units of one presentation time with no loss between them.

ghost use Rattle.std.specs.Prelude.{◌≡◌, ◌+◌, ◌≤◌};
ghost use Rattle.std.specs.Option.{ForSome};
ghost use Rattle.display_sets.specs.Private.Hands.{closed_hand, given_hand, hand_time, hand_with, meeting_of, open_size, parted_size, parted_time, ready_head, ready_size};

use crate::filling::Filled;
use decoder_model::SetFault;

/// What became of the unit of a PES packet.
#[derive(Clone, Copy, Debug, PartialEq, Eq)]
pub enum UnitEnd {
    /// It has nothing that counts for the pages, and is passed over.
    Aside,
    /// It stands behind the end of the set of its time, and is dropped.
    Dropped,
    /// It is taken to the set in hand, or begins the next one.
    Taken,
    /// It has another time than the open set in hand, which is ready by that, and begins the next
    /// one.
    Parted,
}

/// A set that has ended: its presentation time, how many bytes its PES packets have, and why it is
/// refused.
#[derive(Clone, Copy)]
pub(crate) struct Head {
    pub time: u64,
    pub size: u64,
    pub fault: Option<SetFault>,
}

/// The set of the run in hand.
#[derive(Clone, Copy)]
pub(crate) enum Hand {
    /// No unit came behind the last loss.
    Empty,
    /// Its end has not come.
    Open { time: u64, size: u64 },
    /// It is ready, and not yet given.
    Ready(Head),
    /// It was given.
    Given { time: u64 },
}

/// What a unit is to the run in hand, by its time.
#[derive(Clone, Copy)]
pub(crate) enum Meeting {
    /// It begins a run behind one that has ended.
    Begins,
    /// It goes on with the open set, whose units have so many bytes.
    Joins { size: u64 },
    /// It begins a run, and the open set is ready.
    Parts(Head),
    /// It stands behind the end of its set.
    Behind,
}

impl Hand {
    /// What a unit of this time is to the run in hand.
    pub(crate) fn meet(self, time: u64) -> Meeting
        ensures meeting { result ≡ meeting_of time self }
        ensures timely { parted_time result ≤ hand_time self }
        ensures small { parted_size result ≤ open_size self }
    {
        match self {
            Hand::Empty => Meeting::Begins,
            Hand::Open { time: own, size } => {
                if own == time {
                    Meeting::Joins { size }
                } else {
                    Meeting::Parts(Head {
                        time: own,
                        size,
                        fault: None,
                    })
                }
            }
            Hand::Ready(head) => Meeting::behind(head.time, time),
            Hand::Given { time: own } => Meeting::behind(own, time),
        }
    }

    /// The run in hand once its set has come so far.
    pub(crate) fn with(time: u64, size: u64, filled: Filled) -> Hand
        ensures hand { result ≡ hand_with time size filled }
        ensures timely { hand_time result ≡ time }
        ensures small { ready_size result ≤ size }
    {
        match filled {
            Filled::Open => Hand::Open { time, size },
            Filled::Ended { fault } => Hand::Ready(Head { time, size, fault }),
        }
    }

    /// The set in hand, where it is ready.
    pub(crate) fn ready(self) -> Option<Head>
        ensures ready { result ≡ ready_head self }
        ensures timely { ForSome result (λ head. head.time ≡ hand_time self) }
        ensures small { ForSome result (λ head. head.size ≡ ready_size self) }
    {
        match self {
            Hand::Ready(head) => Some(head),
            Hand::Empty | Hand::Open { .. } | Hand::Given { .. } => None,
        }
    }

    /// The run in hand once a set that is ready was given.
    pub(crate) fn given(self) -> Hand
        ensures hand { result ≡ given_hand self }
        ensures timely { hand_time result ≡ hand_time self }
        ensures small { ready_size result ≡ 0 }
    {
        match self {
            Hand::Ready(head) => Hand::Given { time: head.time },
            Hand::Empty => Hand::Empty,
            Hand::Open { time, size } => Hand::Open { time, size },
            Hand::Given { time } => Hand::Given { time },
        }
    }

    /// The run in hand at the end of the stream: an open set is ready.
    pub(crate) fn closed(self) -> Hand
        ensures hand { result ≡ closed_hand self }
        ensures timely { hand_time result ≡ hand_time self }
        ensures small { ready_size result ≡ open_size self + ready_size self }
    {
        match self {
            Hand::Open { time, size } => Hand::Ready(Head {
                time,
                size,
                fault: None,
            }),
            Hand::Empty => Hand::Empty,
            Hand::Ready(head) => Hand::Ready(head),
            Hand::Given { time } => Hand::Given { time },
        }
    }
}

impl Meeting {
    ghost use Rattle.std.specs.Prelude.{◌≡◌, ◌==◌, if◌then◌else◌};
    ghost use Rattle.display_sets.specs.declared.hand.Meeting.TheVariants.{Begins, Behind};

    /// What a unit of this time is to an ended run.
    fn behind(own: u64, time: u64) -> Meeting
        ensures { result ≡ (if own == time then Behind else Begins) }
    {
        if own == time {
            Meeting::Behind
        } else {
            Meeting::Begins
        }
    }
}
