ghost use Rattle.std.specs.Prelude.{◌≡◌, ℕ, ◌≤◌, List, length};
ghost use Rattle.sub_base.specs.ToolOutcome.{tool_code};
ghost use Rattle.sub_base.specs.Which.{which_name as which_name_of};

/// One of the sources and sinks of a command.
#[derive(Clone, Copy, Debug, PartialEq, Eq)]
pub enum Which {
    /// The first source: the script, or the stream.
    First,
    /// The second source: the font, the second script, or the second stream.
    Second,
    /// The output.
    Out,
    /// Where the line of the status goes.
    Notes,
}

impl Which {
    /// The name that the line of a status gives it.
    pub fn name(self) -> &'static str
        ensures name { result.now ≡ which_name_of self }
        ensures short { length result.now ≤ 6 }
    {
        match self {
            Which::First => "first",
            Which::Second => "second",
            Which::Out => "out",
            Which::Notes => "notes",
        }
    }
}

/// A fault of a tool, which has the name of its variant.
pub trait FaultName {
    /// The name of the fault, in bytes.
    ghost name_of: { Self → List ℕ };

    /// The name of the fault's variant, without what the variant holds.
    fn name(&self) -> &'static str
        ensures name { result.now ≡ name_of self.now }
        ensures short { length result.now ≤ 40 };
}

/// How a tool ended.
#[derive(Clone, Copy, Debug, PartialEq, Eq)]
pub enum ToolStatus<F> {
    /// All inputs were read to their end, and all of the output was written.
    Done,
    /// The words are no command of the tool.
    Usage,
    /// What was read is refused.
    Refused(F),
    /// The source could not be read.
    ReadFault(Which),
    /// The sink could not be written.
    WriteFault(Which),
    /// No memory was found.
    Memory,
    /// The source gave more bytes than its limit.
    InputTooLong(Which),
}

impl<F> ToolStatus<F> {
    /// The code with which the program ends.
    pub fn code(&self) -> u8
        ensures { result ≡ tool_code self.now }
    {
        match self {
            ToolStatus::Done => 0,
            ToolStatus::Usage => 2,
            ToolStatus::Refused(_) => 3,
            ToolStatus::ReadFault(_) => 5,
            ToolStatus::WriteFault(_) => 6,
            ToolStatus::Memory => 7,
            ToolStatus::InputTooLong(_) => 8,
        }
    }
}
