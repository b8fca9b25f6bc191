//! A text that is kept for a call that reads one.

use crate::fault::Fault;
use crate::words::{add_bytes, bytes_of};
use std::alloc::Global;
use std::mem;

/// The text that is read by calls that have none.
#[derive(Drop)]
pub struct KeptText {
    bytes: Vec<u8>,
}

impl KeptText {
    /// No text.
    pub fn new(alloc: Global) -> KeptText {
        KeptText {
            bytes: Vec::new(alloc),
        }
    }

    /// The text so far.
    pub fn as_bytes(&self) -> &[u8] {
        &self.bytes
    }

    fn add(&mut self, line: &str, end: &[u8]) -> Result<(), Fault> {
        add_bytes(&mut self.bytes, line)?;
        self.bytes.extend_from_slice(end)?;
        Ok(())
    }

    /// Takes `text LINE` or `text_part LINE`, more of the text with an LF after it or without, and reports whether it is one.
    pub fn keep(&mut self, name: &str, rest: &str) -> Result<bool, Fault> {
        match name {
            "text" => self.add(rest, b"\n")?,
            "text_part" => self.add(rest, b"")?,
            _ => return Ok(false),
        }
        Ok(true)
    }

    /// The text, in whose place stands none.
    pub fn take(&mut self, alloc: Global) -> Vec<u8> {
        mem::replace(&mut self.bytes, Vec::new(alloc))
    }

    /// The text after a call, or the one that is kept.
    pub fn behind(&mut self, alloc: Global, rest: &str) -> Result<Vec<u8>, Fault> {
        if rest.is_empty() {
            return Ok(self.take(alloc));
        }
        bytes_of(alloc, rest)
    }
}
