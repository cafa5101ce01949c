ghost use Rattle.std.specs.Prelude.{◌≡◌, ◌++◌, [], OnOk};
ghost use Rattle.std.specs.Fmt.{decimal};
ghost use Rattle.std.specs.List.{flat_map};
ghost use Rattle.sentence_text.specs.Quotation.{quoted, shown};
ghost use Rattle.sentence_text.specs.Parts.{part_text};

use crate::part::Part;
use crate::quotation::{cut, shown_at};
use itoa::Buffer;
use std::alloc::Global;
use std::marker::Model;
use sub_base::NoMemory;

/// A sentence as bytes. What it quotes need not be UTF-8.
#[derive(Drop)]
pub struct Text {
    bytes: Vec<u8>,
}

impl Model for Text {
    ghost use Rattle.std.specs.Prelude.{List, ℕ};

    ghost Value = { List ℕ };

    ghost view = { λ text. text.bytes.items };
}

impl Text {
    /// The empty text. Takes no memory.
    pub fn new(alloc: Global) -> Text
        ensures { result ≡ [] }
    {
        Text {
            bytes: Vec::new(alloc),
        }
    }

    /// The bytes of the text.
    pub fn as_bytes(&self) -> &[u8]
        ensures { result.now ≡ self.now }
    {
        &self.bytes
    }

    /// Puts the parts at the end.
    pub fn say(&mut self, parts: &[Part<'_>]) -> Result<(), NoMemory>
        ensures { OnOk result (self.new ≡ self.old ++ flat_map part_text parts.now) }
    {
        for part in parts {
            self.put(*part)?;
        }
        Ok(())
    }

    fn put(&mut self, part: Part<'_>) -> Result<(), NoMemory>
        ensures { OnOk result (self.new ≡ self.old ++ part_text part.entry) }
    {
        match part {
            Part::Words(words) => self.put_words(words),
            Part::Number(number) => self.put_number(number),
            Part::Quoted(bytes) => self.put_quoted(bytes),
        }
    }

    /// Puts the words at the end.
    pub fn put_words(&mut self, words: &str) -> Result<(), NoMemory>
        ensures { OnOk result (self.new ≡ self.old ++ words.now) }
    {
        self.bytes.extend_from_slice(words.as_bytes())?;
        Ok(())
    }

    fn put_number(&mut self, number: u64) -> Result<(), NoMemory>
        ensures { OnOk result (self.new ≡ self.old ++ decimal number) }
    {
        let mut digits = Buffer::new();
        self.put_words(digits.format(number))
    }

    fn put_quoted(&mut self, bytes: &[u8]) -> Result<(), NoMemory>
        ensures { OnOk result (self.new ≡ self.old ++ quoted bytes.now) }
    {
        let cut = cut(bytes);
        self.put_shown(&bytes[..cut])?;
        if cut < bytes.len() {
            self.put_words("..")?;
        }
        Ok(())
    }

    fn put_shown(&mut self, bytes: &[u8]) -> Result<(), NoMemory>
        ensures { OnOk result (self.new ≡ self.old ++ shown bytes.now) }
    {
        for place in 0..bytes.len() {
            self.bytes.push(shown_at(bytes, place))?;
        }
        Ok(())
    }
}
