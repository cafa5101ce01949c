ghost use Rattle.std.specs.Prelude.{◌≡◌, ◌+◌, ◌≤◌, ◌++◌, ◌<◌, ◌↔◌, [], length, true, false, IsTrue, IfOk, vec_len};
ghost use Rattle.command_text.specs.declared.text_buffer.TheConstants.{LONGEST, ROOM};
ghost use Rattle.command_text.specs.Putting.{Buffered, PutsOut};

use std::alloc::{AllocError, Global};
use std::marker::Model;
use sub_base::{Sink, write_whole, zeros};

/// How many bytes are written at once, at most.
const ROOM: usize = 65_536;

/// The most bytes that are put out at once: a transport packet has 188, and no line has more.
const LONGEST: usize = 188;

/// Text, or packets, that wait to be written. Once its sink has failed, further text is dropped: a
/// command finishes what it has in hand, and looks for the failure then.
#[derive(Drop)]
pub struct TextBuffer {
    bytes: Vec<u8>,
    filled: usize,
    failed: bool,
}

impl Model for TextBuffer {
    ghost use Rattle.std.specs.Prelude.{◌≡◌, ◌≤◌, take, vec_len};
    ghost use Rattle.command_text.specs.declared.text_buffer.TheConstants.{ROOM};
    ghost use Rattle.command_text.specs.Putting.{Buffered};

    ghost Value = { Buffered };

    ghost view = { λ b. record { waits = take b.filled b.bytes.items; failed = b.failed } };

    ghost invariant = { λ b. (b.filled ≤ vec_len b.bytes) × (vec_len b.bytes ≡ ROOM) };
}

impl TextBuffer {
    /// Room for text, without any.
    pub fn make(alloc: Global) -> Result<TextBuffer, AllocError>
        ensures { IfOk result (λ buffer. buffer ≡ record { waits = []; failed = false }) }
    {
        Ok(TextBuffer {
            bytes: zeros(alloc, ROOM)?,
            filled: 0,
            failed: false,
        })
    }

    /// Whether the sink has failed.
    pub fn has_failed(&self) -> bool
        ensures { result ≡ self.now.failed }
    {
        self.failed
    }

    /// Whether there may be no room for more text.
    fn is_full(&self) -> bool
        ensures { IsTrue result ↔ (ROOM < length self.now.waits + LONGEST) }
    {
        // The longest text has to have room, so that no text is parted.
        self.bytes.len() - self.filled < LONGEST
    }

    /// Puts the text at the end.
    fn push(&mut self, text: &[u8])
        requires { length self.old.waits + length text.now ≤ ROOM }
        ensures { self.new
            ≡ record { waits = self.old.waits ++ text.now; failed = self.old.failed } }
    {
        let end = self.filled + text.len();
        self.bytes[self.filled..end].copy_from_slice(text);
        self.filled = end;
    }

    /// The text that waits.
    fn as_bytes(&self) -> &[u8]
        ensures { result.now ≡ self.now.waits }
    {
        &self.bytes[..self.filled]
    }

    /// Forgets the text, which was written.
    fn clear(&mut self)
        ensures { self.new ≡ record { waits = []; failed = self.old.failed } }
    {
        self.filled = 0;
    }

    /// Notes that the sink has failed.
    fn fail(&mut self)
        ensures { self.new ≡ record { waits = self.old.waits; failed = true } }
    {
        self.failed = true;
    }
}

/// Puts out a text of at most 188 bytes, or a packet: it waits behind the text before it, which is
/// written first where there is no room.
pub fn put<K: Sink>(sink: &mut K, buffer: &mut TextBuffer, text: &[u8])
    requires { length text.now ≤ LONGEST }
    ensures { PutsOut
        (K.received sink.old)
        (K.received sink.new)
        buffer.old buffer.new text.now }
{
    if buffer.is_full() {
        flush(sink, buffer);
    }
    append(buffer, text);
}

/// Puts the text behind what waits, where the sink has not failed.
fn append(buffer: &mut TextBuffer, text: &[u8])
    requires { buffer.old.failed ≡ false → length buffer.old.waits + length text.now ≤ ROOM }
    ensures failed { buffer.new.failed ≡ buffer.old.failed }
    ensures waits { buffer.old.failed ≡ false
        → buffer.new.waits ≡ buffer.old.waits ++ text.now }
{
    if !buffer.has_failed() {
        buffer.push(text);
    }
}

/// Writes the text that waits, where the sink has not failed.
pub fn flush<K: Sink>(sink: &mut K, buffer: &mut TextBuffer)
    ensures puts { PutsOut
        (K.received sink.old)
        (K.received sink.new)
        buffer.old buffer.new [] }
    ensures empty { buffer.new.failed ≡ false → buffer.new.waits ≡ [] }
{
    if buffer.has_failed() {
        return;
    }
    match write_whole(sink, buffer.as_bytes()) {
        Ok(()) => buffer.clear(),
        Err(_) => buffer.fail(),
    }
}
