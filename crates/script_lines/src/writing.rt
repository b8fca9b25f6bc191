//! Texts that are written piece by piece.

use crate::fault::Fault;
use std::alloc::Global;
use std::fmt::Display;

/// A text to which pieces are added. Where memory runs out for one, that is reported at the end, and the text counts for nothing.
#[derive(Drop)]
pub struct Text {
    text: String,
    is_whole: bool,
}

impl Text {
    /// An empty one.
    pub fn new(alloc: Global) -> Text {
        Text {
            text: String::new(alloc),
            is_whole: true,
        }
    }

    /// Adds a piece.
    pub fn put(&mut self, piece: &str) {
        let put = self.text.push_str(piece);
        self.is_whole = self.is_whole && put.is_ok();
    }

    /// Adds a number in digits.
    pub fn put_number(&mut self, number: u64) {
        let put = write!(self.text, "{number}");
        self.is_whole = self.is_whole && put.is_ok();
    }

    /// Adds what is printed of a value.
    pub fn put_shown<T: Display>(&mut self, value: &T) {
        let put = write!(self.text, "{value}");
        self.is_whole = self.is_whole && put.is_ok();
    }

    /// Adds a byte in two digits of 0 to 9 and a to f.
    pub fn put_hex(&mut self, byte: u8) {
        let put = write!(self.text, "{byte:02x}");
        self.is_whole = self.is_whole && put.is_ok();
    }

    /// Adds a byte of ASCII.
    pub(crate) fn put_ascii(&mut self, byte: u8) {
        let put = self.text.push(char::from(byte));
        self.is_whole = self.is_whole && put.is_ok();
    }

    /// Memory ran out for what was to be added.
    pub fn lacks_memory(&mut self) {
        self.is_whole = false;
    }

    pub(crate) fn is_whole(&self) -> bool {
        self.is_whole
    }

    /// What was added so far.
    pub(crate) fn as_str(&self) -> &str {
        self.text.as_str()
    }

    /// The whole text.
    pub(crate) fn whole(self) -> Result<String, Fault> {
        if self.is_whole {
            Ok(self.text)
        } else {
            Err(Fault::NoMemory)
        }
    }
}
