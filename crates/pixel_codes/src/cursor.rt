ghost use Rattle.std.specs.Prelude.{◌≡◌, ◌+◌, ◌-◌, ◌*◌, ◌≤◌, [], ◌∷◌, length, Some, None, MatchOption};
ghost use Rattle.std.specs.Option.{ForNone};
ghost use Rattle.stream_syntax.specs.PixelCodes.{bits_of};
ghost use Rattle.code_strings.specs.Reading.{token_at};
ghost use Rattle.code_strings.specs.declared.token.Token.TheVariants.{Pixels};

use crate::part::{Head, head_of, size_of_table};
use crate::tables::Tables;
use code_strings::{Token, read_token};
use stream_syntax::Run;
use sub_base::Depth;

/// A place in a pixel data block, with the pen and the map tables there.
#[derive(Drop)]
pub(crate) struct Cursor<'a> {
    pub(crate) region: Depth,
    /// The depth of the string in which the place lies, if it lies in one.
    pub(crate) string: Option<Depth>,
    /// From the first byte of that string on, else from the next sub-block on, to the end of the
    /// block.
    pub(crate) rest: &'a [u8],
    /// How many bits of that string are read.
    pub(crate) place: usize,
    pub(crate) x: u32,
    pub(crate) line: u32,
    pub(crate) tables: Tables<'a>,
    ghost at_head: { ForNone string (place ≡ 0) },
    ghost within: { place ≤ 8 * length rest.now },
    ghost fits: { x + 284 * (8 * length rest.now - place) ≤ 148895520 },
    ghost lines: { line + length rest.now ≤ 65535 },
}

/// What one step over a block did.
#[derive(Drop)]
pub(crate) enum Step {
    Drawn(Run),
    Moved,
    Done,
}

impl<'a> Cursor<'a> {
    ghost use Rattle.pixel_codes.specs.Private.Cursor.{left_of, to_go, Says};
    ghost use Rattle.pixel_codes.specs.Private.Walk.{runs_in};

    /// The start of a block.
    pub(crate) fn start(bytes: &'a [u8], region: Depth) -> Cursor<'a>
        requires { length bytes.now ≤ 65535 }
        ensures { left_of result ≡ runs_in region bytes.now }
    {
        Cursor {
            region,
            string: None,
            rest: bytes,
            place: 0,
            x: 0,
            line: 0,
            tables: Tables::default_tables(),
        }
    }

    /// The next run; none at the end of the block.
    #[inline(always)]
    pub(crate) fn next_run(&mut self) -> Option<Run>
        ensures { MatchOption result ((left_of self.old ≡ []) × (left_of self.new ≡ []))
            (λ run. left_of self.old ≡ run ∷ left_of self.new) }
    {
        loop {
            match self.step() {
                Step::Drawn(run) => return Some(run),
                Step::Moved => {}
                Step::Done => return None,
            }
        }
    }

    #[inline(always)]
    fn step(&mut self) -> Step
        ensures { Says result self.old self.new }
    {
        match self.string {
            Some(depth) => self.step_in_string(depth),
            None => self.step_at_part(),
        }
    }

    /// Reads one code of the string.
    #[inline(always)]
    fn step_in_string(&mut self, depth: Depth) -> Step
        requires { self.old.string ≡ Some depth }
        ensures { Says result self.old self.new }
    {
        match read_token(self.rest, self.place, depth) {
            None => Step::Done,
            Some((Token::End, next)) => {
                // What is left of the string's last byte is fill.
                let (_, after) = self.rest.split_at((next + 7) / 8);
                self.string = None;
                self.rest = after;
                self.place = 0;
                Step::Moved
            }
            Some((Token::Pixels { length, code }, next)) => self.draw(depth, length, code, next),
        }
    }

    /// Draws the pixels of one code, which ends at a place.
    #[inline(always)]
    fn draw(&mut self, depth: Depth, length: u32, code: u8, next: usize) -> Step
        requires string { self.old.string ≡ Some depth }
        requires read { token_at depth (bits_of self.old.rest.now) self.old.place
            ≡ Some (Pixels length code, next) }
        ensures { Says result self.old self.new }
    {
        self.place = next;
        // The 8 bit code for runs can have the length 0.
        if length == 0 {
            return Step::Moved;
        }
        let run = Run {
            x: self.x,
            line: self.line,
            length,
            read: code,
            code: self.tables.mapped(depth, self.region, code),
        };
        self.x += length;
        Step::Drawn(run)
    }

    /// Reads the head of the next sub-block, and a table or an end of line whole.
    // Kept out of the loop over the codes of strings, which is the one that has to be fast.
    #[inline(never)]
    fn step_at_part(&mut self) -> Step
        requires { self.old.string ≡ None }
        ensures { Says result self.old self.new }
    {
        let Some((first, body)) = self.rest.split_first() else {
            return Step::Done;
        };
        match head_of(*first) {
            None => Step::Done,
            Some(Head::PixelString(depth)) => {
                self.string = Some(depth);
                self.rest = body;
                self.place = 0;
                Step::Moved
            }
            Some(Head::LineEnd) => {
                self.rest = body;
                self.place = 0;
                self.x = 0;
                self.line += 1;
                Step::Moved
            }
            Some(Head::Table(kind)) => {
                let size = size_of_table(kind);
                if body.len() < size {
                    return Step::Done;
                }
                let (table, after) = body.split_at(size);
                self.tables.set(kind, table);
                self.rest = after;
                self.place = 0;
                Step::Moved
            }
        }
    }
}
