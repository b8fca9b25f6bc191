//! How a word is printed.

ghost use Rattle.std.specs.Prelude.{◌≡◌, ◌≤◌, ◌==◌, ◌||◌, [], ◌∷◌, ◌++◌, List, ℕ, length, nat_eq, OnOk, OnErr};
ghost use Rattle.std.specs.List.{flat_map, list_all};
ghost use Rattle.std.specs.Cmp.Lexicographic.{pointwise};
ghost use Rattle.cfg_lex.specs.Bytes.{is_angle_byte, is_run};
ghost use Rattle.cfg_lex.specs.Mark.{is_mark, mark_word};
ghost use Rattle.cfg_lex.specs.Printed.{escaped, is_plain, is_wildcard, printed_word};

use crate::bytes::{bare_len, is_angle_byte};
use crate::mark::Mark;
use cfg_base::{NoMemory, same_bytes};

/// The most bytes between the angles of a wildcard name.
const MAX_INNER: usize = 62;

fn is_word_of(word: &[u8], mark: Mark) -> bool
    ensures { result ≡ pointwise nat_eq word.now (mark_word mark) }
{
    same_bytes(word, mark.word())
}

fn is_mark(word: &[u8]) -> bool
    ensures { result ≡ is_mark word.now }
{
    is_word_of(word, Mark::Inactive)
        || is_word_of(word, Mark::Protect)
        || is_word_of(word, Mark::Replace)
        || is_word_of(word, Mark::Pipe)
}

fn are_angle_bytes(bytes: &[u8]) -> bool
    ensures { result ≡ list_all is_angle_byte bytes.now }
{
    bytes.iter().all(|&byte| is_angle_byte(byte))
}

fn is_wildcard(word: &[u8]) -> bool
    ensures { result ≡ is_wildcard word.now }
{
    match word {
        [b'<', inner @ .., b'>'] => !inner.is_empty()
            && inner.len() <= MAX_INNER
            && are_angle_bytes(inner),
        _ => false,
    }
}

/// Whether each byte belongs to a bare word.
fn is_run(word: &[u8]) -> bool
    ensures { result ≡ is_run word.now }
{
    bare_len(word) == word.len()
}

/// Whether a word is printed as it is, and not in quotes.
pub fn is_plain(word: &[u8]) -> bool
    ensures { result ≡ is_plain word.now }
{
    !word.is_empty() && !is_mark(word) && (is_wildcard(word) || is_run(word))
}

fn is_escaped(byte: u8) -> bool
    ensures { result ≡ (byte == 34 || byte == 92) }
{
    byte == b'"' || byte == b'\\'
}

/// How many bytes a word takes in quotes.
fn escaped_len(word: &[u8]) -> usize
    requires { length word.now ≤ 255 }
    ensures length { result ≡ length (flat_map escaped word.now) }
    ensures short { result ≤ 510 }
{
    let mut count = 0;
    for &byte in word {
        count += if is_escaped(byte) { 2 } else { 1 };
    }
    count
}

/// How many bytes a word is printed in.
pub fn printed_len(word: &[u8]) -> usize
    requires { length word.now ≤ 255 }
    ensures length { result ≡ length (printed_word word.now) }
    ensures short { result ≤ 512 }
{
    if is_plain(word) {
        word.len()
    } else {
        escaped_len(word) + 2
    }
}

fn push_escaped_byte(text: &mut Vec<u8>, byte: u8) -> Result<(), NoMemory>
    ensures ok { OnOk result (text.new.items ≡ text.old.items ++ escaped byte) }
    ensures kept { OnErr result ((more : List ℕ) × (text.new.items ≡ text.old.items ++ more)) }
{
    if is_escaped(byte) {
        text.push(b'\\')?;
    }
    text.push(byte)?;
    Ok(())
}

/// Puts a word in quotes at the end of a text.
fn push_quoted(text: &mut Vec<u8>, word: &[u8]) -> Result<(), NoMemory>
    ensures ok { OnOk result (text.new.items ≡ text.old.items ++ 34 ∷ (flat_map escaped word.now ++ 34 ∷ [])) }
    ensures kept { OnErr result ((more : List ℕ) × (text.new.items ≡ text.old.items ++ more)) }
{
    text.push(b'"')?;
    for &byte in word {
        push_escaped_byte(text, byte)?;
    }
    text.push(b'"')?;
    Ok(())
}

/// Puts a word as it is printed at the end of a text, or leaves what it wrote of it.
fn push_printed(text: &mut Vec<u8>, word: &[u8]) -> Result<(), NoMemory>
    ensures ok { OnOk result (text.new.items ≡ text.old.items ++ printed_word word.now) }
    ensures kept { OnErr result ((more : List ℕ) × (text.new.items ≡ text.old.items ++ more)) }
{
    if is_plain(word) {
        match text.extend_from_slice(word) {
            Ok(()) => Ok(()),
            Err(_) => Err(NoMemory),
        }
    } else {
        push_quoted(text, word)
    }
}

/// Puts a word as it is printed at the end of a text.
pub fn push_word(text: &mut Vec<u8>, word: &[u8]) -> Result<(), NoMemory>
    ensures ok { OnOk result (text.new.items ≡ text.old.items ++ printed_word word.now) }
    ensures unchanged { OnErr result (text.new.items ≡ text.old.items) }
{
    let count = text.len();
    if let Err(fault) = push_printed(text, word) {
        text.truncate(count);
        return Err(fault);
    }
    Ok(())
}
