/// The pages of two languages that are sent on one PID (EN 300 743, clause 5.1: composition and
/// ancillary page).
#[derive(Clone, Copy, Debug, PartialEq, Eq)]
pub struct TwoPages {
    /// The composition page of the first language.
    pub first: u16,
    /// That of the second language.
    pub second: u16,
    /// The ancillary page, for the CLUTs and objects that both send.
    pub shared: u16,
}
