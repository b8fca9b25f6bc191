//! The kinds whose spellings are kept as they are read.
ghost use Rattle.std.specs.Prelude.{◌≡◌, ◌≤◌, ◌↔◌, length, IsTrue, IfOk};
ghost use Rattle.std.specs.List.{list_all};
ghost use Rattle.cfg_base.specs.Bytes.{is_printing};
ghost use Rattle.cfg_base.specs.Kind.{IsHost, is_host_byte};
ghost use Rattle.cfg_values.specs.Spelling.{IsText, IsSpelling, IsCanonical, IsAnswer};

use crate::fault::ValueFault;
use cfg_base::{Kind, NoMemory, Word};
use std::alloc::{AllocError, Global};

/// The most bytes that a host and a text have.
const MAX_TEXT: usize = 255;

fn is_host_byte(byte: u8) -> bool
    ensures { result ≡ is_host_byte byte }
{
    byte.is_ascii_alphanumeric() || matches!(byte, b'.' | b'-' | b'_')
}

fn is_printing(byte: u8) -> bool
    ensures { result ≡ is_printing byte }
{
    matches!(byte, b' '..=b'~')
}

fn all_host_bytes(bytes: &[u8]) -> bool
    ensures { result ≡ list_all is_host_byte bytes.now }
{
    bytes.iter().all(|&byte| is_host_byte(byte))
}

/// Whether the bytes are the name of a host or a domain.
pub fn is_host(bytes: &[u8]) -> bool
    ensures { IsTrue result ↔ IsHost bytes.now }
{
    !bytes.is_empty() && bytes.len() <= MAX_TEXT && all_host_bytes(bytes)
}

fn all_text_bytes(bytes: &[u8]) -> bool
    ensures { result ≡ list_all is_printing bytes.now }
{
    bytes.iter().all(|&byte| is_printing(byte))
}

/// Whether the bytes are a text.
pub fn is_text(bytes: &[u8]) -> bool
    ensures { IsTrue result ↔ IsText bytes.now }
{
    bytes.len() <= MAX_TEXT && all_text_bytes(bytes)
}

/// The word of bytes that fit in one.
pub fn word_of(alloc: Global, bytes: &[u8]) -> Result<Word, AllocError>
    requires { length bytes.now ≤ 255 }
    ensures { IfOk result (λ word. word ≡ bytes.now) }
{
    match Word::short(alloc, bytes) {
        Ok(word) => Ok(word),
        Err(NoMemory) => Err(AllocError),
    }
}

/// The bytes as a word where they fit the kind, whose spellings are all canonical.
pub fn as_read(alloc: Global, kind: Kind, fits: bool, bytes: &[u8]) -> Result<Word, ValueFault>
    requires short { IsTrue fits → length bytes.now ≤ 255 }
    requires kept { IsTrue fits → IsCanonical kind bytes.now }
    requires all { IsSpelling kind bytes.now → IsTrue fits }
    ensures { IsAnswer kind bytes.now result }
{
    if !fits {
        return Err(ValueFault::NotOfKind(kind));
    }
    Ok(word_of(alloc, bytes)?)
}
