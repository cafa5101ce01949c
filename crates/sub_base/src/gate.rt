/// What a drawing band calls once as it begins, so that a test can see which bands were at work
/// together.
pub trait BandGate {
    /// The band with this number, counted from 0, begins.
    fn enter(&self, band: u32);
}

/// The gate of the program: it does nothing.
#[derive(Clone, Copy, Debug)]
pub struct NoGate;

impl BandGate for NoGate {
    fn enter(&self, _band: u32) {}
}
