//! Answers as text: each line begins with `=`, words stand after blanks, and bytes that can't be typed are escaped.

use crate::writing::Text;
use cfg_base::{Path, Word};

fn put_byte(out: &mut Text, byte: u8) {
    if byte > b' ' && byte < 0x7f && byte != b'\\' {
        out.put_ascii(byte);
    } else {
        out.put("\\x");
        out.put_hex(byte);
    }
}

/// A word, after a blank.
pub fn put_bytes(out: &mut Text, bytes: &[u8]) {
    out.put(if bytes.is_empty() { " \\e" } else { " " });
    for byte in bytes {
        put_byte(out, *byte);
    }
}

/// Words, each after a blank.
pub fn put_words(out: &mut Text, words: &[Word]) {
    for word in words {
        put_bytes(out, word.as_bytes());
    }
}

fn put_if_any(out: &mut Text, word: &Word) {
    if !word.as_bytes().is_empty() {
        put_bytes(out, word.as_bytes());
    }
}

/// The words of a path's steps, without the empty ones.
pub fn put_path(out: &mut Text, path: &Path) {
    for step in path.steps() {
        put_if_any(out, &step.head);
        put_if_any(out, &step.name);
    }
}

/// A byte of a printed text, in which blanks stand as they are.
fn put_printed_byte(out: &mut Text, byte: u8) {
    if byte == b' ' {
        out.put(" ");
    } else {
        put_byte(out, byte);
    }
}

/// A line of printed text.
fn say_printed(out: &mut Text, name: &str, text: &[u8]) {
    out.put("= ");
    out.put(name);
    out.put(" ");
    for byte in text {
        put_printed_byte(out, *byte);
    }
    out.put("\n");
}

/// A printed text: `out` a line with its end, `part` a last line without one.
pub fn say_text(out: &mut Text, text: &[u8]) {
    for line in text.split_inclusive(|byte| *byte == b'\n') {
        match line {
            [whole @ .., b'\n'] => say_printed(out, "out", whole),
            part => say_printed(out, "part", part),
        }
    }
}

/// A printed text, and its end.
pub fn say_whole_text(out: &mut Text, text: &[u8]) {
    say_text(out, text);
    say(out, "end");
}

/// An answer.
pub fn say(out: &mut Text, text: &str) {
    out.put("= ");
    out.put(text);
    out.put("\n");
}

/// `yes` or `no`.
pub fn say_flag(out: &mut Text, flag: bool) {
    say(out, if flag { "yes" } else { "no" });
}

/// A number.
pub fn say_number(out: &mut Text, number: u64) {
    out.put("= ");
    out.put_number(number);
    out.put("\n");
}

/// A text, and a number after it.
pub fn say_counted(out: &mut Text, text: &str, number: u64) {
    out.put("= ");
    out.put(text);
    out.put(" ");
    out.put_number(number);
    out.put("\n");
}

/// How often the answers that follow came.
pub(crate) fn say_times(out: &mut Text, times: u64) {
    out.put("= ");
    out.put_number(times);
    out.put(" times\n");
}

/// A text, and bytes after it.
pub fn say_bytes(out: &mut Text, text: &str, bytes: &[u8]) {
    out.put("= ");
    out.put(text);
    put_bytes(out, bytes);
    out.put("\n");
}

/// A text, and words after it.
pub fn say_words(out: &mut Text, text: &str, words: &[Word]) {
    out.put("= ");
    out.put(text);
    put_words(out, words);
    out.put("\n");
}

/// A text, and the words of a path after it.
pub fn say_path(out: &mut Text, text: &str, path: &Path) {
    out.put("= ");
    out.put(text);
    put_path(out, path);
    out.put("\n");
}

/// The rule that is broken first, and where.
pub fn say_broken(out: &mut Text, number: u8, path: &Path) {
    out.put("= check ");
    out.put_number(u64::from(number));
    put_path(out, path);
    out.put("\n");
}

/// The line of a text that can't be read, and the byte of it where that shows.
pub fn say_fault_of_line(out: &mut Text, line: u32, place: u32) {
    out.put("= line ");
    out.put_number(u64::from(line));
    out.put(" syntax error at byte ");
    out.put_number(u64::from(place));
    out.put("\n");
}

/// Something that is so at a byte.
pub fn say_at(out: &mut Text, what: &str, place: u32) {
    out.put("= ");
    out.put(what);
    out.put(" at byte ");
    out.put_number(u64::from(place));
    out.put("\n");
}

/// The number of the commit to which a commit confirmed goes back, and its deadline.
pub fn say_pending(out: &mut Text, target: u64, deadline: u64) {
    out.put("= target ");
    out.put_number(target);
    out.put(" at ");
    out.put_number(deadline);
    out.put("\n");
}
