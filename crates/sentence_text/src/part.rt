/// A part of a sentence.
#[derive(Clone, Copy)]
pub enum Part<'a> {
    /// Words.
    Words(&'a str),
    /// A number, in decimal.
    Number(u64),
    /// Bytes of a file or of the command line.
    Quoted(&'a [u8]),
}
