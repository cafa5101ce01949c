ghost use Rattle.std.specs.Prelude.{◌≡◌, ◌+◌, ◌<◌, ◌≤◌, ◌∷◌, ◌++◌, [], length};
ghost use Rattle.std.specs.Fmt.{decimal};
ghost use Rattle.command_text.specs.declared.line.TheConstants.{ROOM};
ghost use Rattle.command_text.specs.Lines.{hex_digit as hex_digit_of, then_number, two_hex};

use itoa::Buffer;
use std::marker::Model;

/// The most bytes of a line.
const ROOM: usize = 128;

/// A line of text that is put together without memory.
#[derive(Drop)]
pub struct Line {
    bytes: [u8; ROOM],
    length: usize,
}

impl Model for Line {
    ghost use Rattle.std.specs.Prelude.{◌≤◌, List, ℕ, take};
    ghost use Rattle.command_text.specs.declared.line.TheConstants.{ROOM};

    ghost Value = { List ℕ };

    ghost view = { λ line. take line.length line.bytes };

    ghost invariant = { λ line. line.length ≤ ROOM };
}

impl Line {
    /// The empty line.
    pub fn new() -> Line
        ensures { result ≡ [] }
    {
        Line {
            bytes: [0; ROOM],
            length: 0,
        }
    }

    /// Takes all bytes away, so that the line can be used again.
    pub fn clear(&mut self)
        ensures { self.new ≡ [] }
    {
        self.length = 0;
    }

    /// A line that begins with the text.
    pub fn of(text: &str) -> Line
        requires { length text.now ≤ 60 }
        ensures text { result ≡ text.now }
        ensures length { length result ≡ length text.now }
    {
        let mut line = Line::new();
        line.push_text(text);
        line
    }

    /// Puts the text at the end.
    pub fn push_text(&mut self, text: &str)
        requires { length self.old + length text.now ≤ ROOM }
        ensures line { self.new ≡ self.old ++ text.now }
        ensures length { length self.new ≡ length self.old + length text.now }
    {
        let text = text.as_bytes();
        let end = self.length + text.len();
        self.bytes[self.length..end].copy_from_slice(text);
        self.length = end;
    }

    /// Puts the byte at the end.
    pub fn push_byte(&mut self, byte: u8)
        requires { length self.old < ROOM }
        ensures line { self.new ≡ self.old ++ (byte ∷ []) }
        ensures length { length self.new ≡ length self.old + 1 }
    {
        self.bytes[self.length] = byte;
        self.length += 1;
    }

    /// Puts the number at the end, in decimal.
    #[inline(always)]
    pub fn push_number(&mut self, number: u64)
        requires { length self.old + 20 ≤ ROOM }
        ensures line { self.new ≡ self.old ++ decimal number }
        ensures length { length self.new ≤ length self.old + 20 }
    {
        let mut buffer = Buffer::new();
        self.push_text(buffer.format(number));
    }

    /// Puts a space and the number at the end.
    #[inline(always)]
    pub fn push_then_number(&mut self, number: u64)
        requires { length self.old ≤ 80 }
        ensures line { self.new ≡ self.old ++ then_number number }
        ensures short { length self.new ≤ length self.old + 21 }
    {
        self.push_byte(b' ');
        self.push_number(number);
    }

    /// Puts the two hexadecimal digits of the byte at the end, in capitals.
    pub fn push_hex(&mut self, byte: u8)
        requires { length self.old ≤ 80 }
        ensures line { self.new ≡ self.old ++ two_hex byte }
        ensures short { length self.new ≡ length self.old + 2 }
    {
        self.push_byte(hex_digit(byte / 16));
        self.push_byte(hex_digit(byte % 16));
    }

    /// The bytes of the line.
    pub fn as_bytes(&self) -> &[u8]
        ensures { result.now ≡ self.now }
    {
        &self.bytes[..self.length]
    }
}

/// The hexadecimal digit of a number below 16.
fn hex_digit(number: u8) -> u8
    requires { number < 16 }
    ensures { result ≡ hex_digit_of number }
{
    if number < 10 {
        b'0' + number
    } else {
        b'A' + (number - 10)
    }
}
