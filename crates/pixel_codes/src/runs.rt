ghost use Rattle.std.specs.Prelude.{◌≡◌, [], ◌∷◌, length, ◌≤◌, MatchOption};

use crate::cursor::Cursor;
use std::marker::Model;
use stream_syntax::Run;
use sub_base::Depth;

/// The runs of a pixel data block, one after another, read in place: nothing is copied and nothing
/// is allocated. It is seen as the list of the runs that come.
#[derive(Drop)]
pub struct Runs<'a> {
    cursor: Cursor<'a>,
}

impl<'a> Model for Runs<'a> {
    ghost use Rattle.std.specs.Prelude.{List};
    ghost use Rattle.stream_syntax.specs.declared.pixel_run.Run.{Run};

    ghost Value = { List Run };

    ghost use Rattle.pixel_codes.specs.Private.Cursor.{left_of};

    ghost view = { λ runs. left_of runs.cursor };
}

impl<'a> Runs<'a> {
    ghost use Rattle.pixel_codes.specs.Private.Walk.{runs_in};

    /// The runs of a block, for a region of a depth.
    pub(crate) fn of_block(bytes: &'a [u8], region: Depth) -> Runs<'a>
        requires { length bytes.now ≤ 65535 }
        ensures { result ≡ runs_in region bytes.now }
    {
        Runs {
            cursor: Cursor::start(bytes, region),
        }
    }

    /// The next run; none exactly after the last one.
    #[inline(always)]
    pub fn next_run(&mut self) -> Option<Run>
        ensures { MatchOption result ((self.old ≡ []) × (self.new ≡ []))
            (λ run. self.old ≡ run ∷ self.new) }
    {
        self.cursor.next_run()
    }
}
