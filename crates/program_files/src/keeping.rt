ghost use Rattle.std.specs.Prelude.{◌≡◌};
ghost use Rattle.program_files.specs.Keeping.{is_kept as is_kept_of};

/// What an output has to say where its command did not come to its end.
#[derive(Clone, Copy, Debug, PartialEq, Eq)]
pub enum OutputKind {
    /// Nothing: it stands whole, or not at all.
    Whole,
    /// What a stream has up to the packet at which it was refused, could not be read or was too
    /// long.
    Told,
    /// That of a tool: packets or texts up to where an input was refused, could not be read or was
    /// too long.
    Tool,
}

/// Whether the output of a command takes the place of what was there, by the code with which the
/// program ends and whether anything was written.
pub fn is_kept(kind: OutputKind, code: u8, has_written: bool) -> bool
    ensures { result ≡ is_kept_of kind has_written code }
{
    match kind {
        OutputKind::Whole => code == 0,
        OutputKind::Told => code == 0 || code == 4 || code == 5 || code == 8,
        OutputKind::Tool => code == 0 || (has_written && (code == 3 || code == 5 || code == 8)),
    }
}
