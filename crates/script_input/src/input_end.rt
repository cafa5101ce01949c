use bitmap_font::FontFault;
use cue_list::ScriptFault;

/// One of the two texts that a script is read from.
#[derive(Clone, Copy, Debug, PartialEq, Eq, Drop)]
pub enum Input {
    /// The records of the script.
    Script,
    /// The font of its texts.
    Font,
}

/// Why no font was read.
#[derive(Clone, Copy, Debug, PartialEq, Eq, Drop)]
pub enum FontEnd {
    /// It is refused; its fault is never want of memory.
    Refused(FontFault),
    /// Its source could not be read.
    Unread,
    /// Its source gave more bytes than a font may have.
    TooLong,
    /// No memory was found.
    Memory,
}

/// Why no script was read.
#[derive(Clone, Copy, Debug, PartialEq, Eq, Drop)]
pub enum InputEnd {
    /// The font is refused; its fault is never want of memory.
    FontRefused(FontFault),
    /// The script is refused; its fault is never want of memory.
    ScriptRefused(ScriptFault),
    /// The source of this text could not be read.
    Unread(Input),
    /// The source of this text gave more bytes than a text may have.
    TooLong(Input),
    /// No memory was found.
    Memory,
}
