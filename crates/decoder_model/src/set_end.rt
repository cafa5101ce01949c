use crate::set_fault::SetFault;

/// What becomes of a display set that a receiver has whole (EN 300 743, clause 5.1). Times are in
/// ticks of 90 kHz.
#[derive(Clone, Copy, Debug, PartialEq, Eq)]
pub enum SetEnd {
    /// The set's page is shown from its presentation time on.
    Shown,
    /// The set is of state normal, and no epoch is known to which it could belong.
    Waiting,
    /// The set cannot be shown, and the page memory is given up.
    Broken(SetFault),
    /// The set is not kept, since its time is not later than that of the sets before it: the
    /// greatest lifted time before it is here. Nothing changes.
    NotLater { last: u64 },
}
