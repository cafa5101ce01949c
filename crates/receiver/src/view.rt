use sub_base::Colour;

/// What is shown at a tick.
#[derive(Clone, Copy, Debug)]
pub enum View<'a> {
    /// Nothing: the video is seen everywhere.
    Clear,
    /// A picture over the video: its sides in pixels, and its colours row by row, from the top and
    /// from the left.
    Plane {
        width: u32,
        height: u32,
        colours: &'a [Colour],
    },
}
