ghost use Rattle.std.specs.Prelude.{◌++◌, [], ◌∷◌};
ghost use Rattle.program_files.specs.Table.{IsToldOn};

use sub_base::{Sink, write_whole};

/// Writes the table of what a program can be asked for, and a line feed behind it, as far as it
/// can: there is nowhere else to tell of a failure.
pub fn tell_table<E: Sink>(errors: &mut E, table: &str)
    ensures { IsToldOn (E.received errors.old) (E.received errors.new) (table.now ++ 10 ∷ []) }
{
    if write_whole(errors, table.as_bytes()).is_ok() {
        let _ = write_whole(errors, b"\n");
    }
}
