use thiserror::Error;

/// Why sides, a depth and codes make no picture.
#[derive(Clone, Copy, Debug, PartialEq, Eq, Error)]
pub enum PictureFault {
    /// The number of codes is not width times height.
    #[error("the number of codes is not width times height")]
    WrongCount,
    /// A code that the depth does not have: the first such, by its place in the list of codes.
    #[error("code {place} is outside the depth")]
    CodeOutside { place: usize },
}
