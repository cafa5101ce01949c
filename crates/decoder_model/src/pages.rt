ghost use Rattle.std.specs.Prelude.{◌≡◌};
ghost use Rattle.decoder_model.specs.Frames.{only};

/// The two pages of a subtitle service (EN 300 743, clause 5.1; the subtitling descriptor of
/// EN 300 468 names them by `composition_page_id` and `ancillary_page_id`). CLUTs and objects that
/// several services share stand on an ancillary page. A service without one names its own page
/// twice.
#[derive(Clone, Copy, Debug, PartialEq, Eq)]
pub struct Pages {
    /// The page id of the composition page: its segments of all types of a display set count.
    pub composition: u16,
    /// The page id of the ancillary page: its CLUT definition and object data segments count.
    pub ancillary: u16,
}

impl Pages {
    /// The pages of a service without an ancillary page.
    pub fn only(page: u16) -> Pages
        ensures { result ≡ only page }
    {
        Pages {
            composition: page,
            ancillary: page,
        }
    }
}
