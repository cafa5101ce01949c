/// The sides of a font's or a glyph's box, in pixels, and the offsets of its lower left corner from
/// the pen on the base line, to the right and upwards.
#[derive(Clone, Copy)]
pub(crate) struct BoundingBox {
    pub(crate) width: u16,
    pub(crate) height: u16,
    pub(crate) left: i16,
    pub(crate) bottom: i16,
}
