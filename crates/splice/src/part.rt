//! Which display sets of a stream are sent, and when.

ghost use Rattle.std.specs.Prelude.{◌≡◌, ◌<◌, ◌^◌};
ghost use Rattle.splice.specs.Private.Parts.{cut_of, is_looked_at, sent_time};

/// The part of a joined stream that comes of one stream.
#[derive(Clone, Copy)]
pub(crate) enum Part {
    /// The sets before this cut, at their times.
    Before(u64),
    /// All sets, the first of them at this cut and the others as long behind it as they were.
    From(u64),
}

impl Part {
    /// Whether a set with that lifted time has to be shown; one without is not kept.
    pub fn looks_at(self, lifted: Option<u64>) -> bool
        ensures { result ≡ is_looked_at self lifted }
    {
        match self {
            Part::Before(cut) => match lifted {
                None => true,
                Some(time) => time < cut,
            },
            Part::From(_) => true,
        }
    }

    /// The time at which a set that is kept at a lifted time is sent, where it is, in a stream
    /// whose first set that is kept begins at that tick; this is the first where there is none.
    pub fn time_of(self, begin: Option<u64>, lifted: u64) -> Option<u64>
        requires cut { cut_of self < 2 ^ 34 }
        requires lifted { lifted < 2 ^ 62 }
        ensures { result ≡ sent_time self begin lifted }
    {
        match self {
            Part::Before(cut) => { if lifted < cut { Some(lifted) } else { None } }
            Part::From(cut) => Some((lifted + cut).saturating_sub(begin.unwrap_or(lifted))),
        }
    }
}
