//! The words of a line, cut at its blanks: `\x0a` is a byte that can't be typed, `\e` no byte at all.

use crate::fault::Fault;
use cfg_base::{UserName, Word, Words};
use std::alloc::Global;
use std::str;

/// A word of a line, of any length.
pub type Arg = Vec<u8>;

fn digit(byte: u8) -> Result<u8, Fault> {
    match byte {
        b'0'..=b'9' => Ok(byte - b'0'),
        b'a'..=b'f' => Ok(byte - b'a' + 10),
        _ => Err(Fault::Script("two digits of 0 to 9 and a to f follow \\x")),
    }
}

fn byte_of(high: u8, low: u8) -> Result<u8, Fault> {
    Ok(digit(high)?.wrapping_mul(16) | digit(low)?)
}

fn push_escape(bytes: &mut Vec<u8>, piece: &[u8]) -> Result<(), Fault> {
    match piece {
        [b'x', high, low, rest @ ..] => {
            bytes.push(byte_of(*high, *low)?)?;
            bytes.extend_from_slice(rest)?;
            Ok(())
        }
        [b'e', rest @ ..] => {
            bytes.extend_from_slice(rest)?;
            Ok(())
        }
        _ => Err(Fault::Script("a \\ begins \\xHH, \\e or \\{COUNT:TEXT}")),
    }
}

/// Adds the bytes that a text with escapes stands for.
pub(crate) fn add_bytes(bytes: &mut Vec<u8>, text: &str) -> Result<(), Fault> {
    for (place, piece) in text.split('\\').enumerate() {
        if place == 0 {
            bytes.extend_from_slice(piece.as_bytes())?;
        } else {
            push_escape(bytes, piece.as_bytes())?;
        }
    }
    Ok(())
}

/// The bytes that a text with escapes stands for.
pub fn bytes_of(alloc: Global, text: &str) -> Result<Arg, Fault> {
    let mut bytes = Vec::new(alloc);
    match add_bytes(&mut bytes, text) {
        Ok(()) => Ok(bytes),
        Err(fault) => Err(fault),
    }
}

/// The words of a text.
pub fn args_of(alloc: Global, text: &str) -> Result<Vec<Arg>, Fault> {
    let mut args = Vec::new(alloc);
    for word in text.split(' ') {
        if !word.is_empty() {
            args.push(bytes_of(alloc, word)?)?;
        }
    }
    Ok(args)
}

/// The first word of a text, and what stands after the blank that follows it.
pub fn first_and_rest(text: &str) -> (&str, &str) {
    match text.split_once(' ') {
        Some(halves) => halves,
        None => (text, ""),
    }
}

/// The words before and after `--`.
pub fn halves(args: &[Arg]) -> Result<(&[Arg], &[Arg]), Fault> {
    let mut parts = args.splitn(2, |arg| arg.as_slice() == b"--".as_slice());
    match (parts.next(), parts.next()) {
        (Some(front), Some(back)) => Ok((front, back)),
        _ => Err(Fault::Script("-- stands between the two halves")),
    }
}

/// The words of a line as words of a statement.
pub fn words_of(alloc: Global, args: &[Arg]) -> Result<Words, Fault> {
    let mut words = Words::new(alloc);
    for arg in args {
        words.push(Word::of(alloc, arg)?)?;
    }
    Ok(words)
}

/// The user of that name.
pub fn user_of(alloc: Global, name: &[u8]) -> Result<UserName, Fault> {
    UserName::of(Word::of(alloc, name)?).ok_or(Fault::Script("a user's name"))
}

/// The number that digits say.
pub fn number(arg: &[u8]) -> Result<u64, Fault> {
    let Ok(text) = str::from_utf8(arg) else {
        return Err(Fault::Script("a number"));
    };
    match text.parse::<u64>() {
        Ok(number) => Ok(number),
        Err(_) => Err(Fault::Script("a number")),
    }
}

/// The number that digits say, where it is below 4,294,967,296.
pub fn small_number(arg: &[u8]) -> Result<u32, Fault> {
    match u32::try_from(number(arg)?) {
        Ok(number) => Ok(number),
        Err(_) => Err(Fault::Script("a number below 4294967296")),
    }
}

/// The number that each word says.
pub fn numbers(alloc: Global, args: &[Arg]) -> Result<Vec<u64>, Fault> {
    let mut numbers = Vec::new(alloc);
    for arg in args {
        numbers.push(number(arg)?)?;
    }
    Ok(numbers)
}

/// Whether a word is `yes`.
pub fn flag(arg: &[u8]) -> Result<bool, Fault> {
    match arg {
        b"yes" => Ok(true),
        b"no" => Ok(false),
        _ => Err(Fault::Script("yes or no")),
    }
}
