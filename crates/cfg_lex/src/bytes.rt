//! The bytes of words, comments and quotes.

ghost use Rattle.std.specs.Prelude.{◌≡◌, ◌==◌, ◌&&◌, ◌≤◌, ◌+◌, false, length, IfSome};
ghost use Rattle.std.specs.List.{prefix_len};
ghost use Rattle.cfg_lex.specs.Bytes.{begins_with, is_angle_byte, is_bare, is_in_line, is_in_run, is_printing, is_space, sign_of, unescaped};
ghost use Rattle.cfg_lex.specs.Front.{bare_len, close_of, quote_of};

use crate::token::TokenKind;

pub(crate) fn is_space(byte: u8) -> bool
    ensures { result ≡ is_space byte }
{
    matches!(byte, b' ' | b'\t' | b'\n' | b'\r')
}

pub(crate) fn is_bare(byte: u8) -> bool
    ensures { result ≡ is_bare byte }
{
    matches!(byte, 0x21..=0x7E)
        && !matches!(
            byte,
            b'{' | b'}' | b'[' | b']' | b';' | b'"' | b'#' | b'\\' | b'<' | b'>'
        )
}

pub(crate) fn is_angle_byte(byte: u8) -> bool
    ensures { result ≡ is_angle_byte byte }
{
    is_bare(byte) || matches!(byte, b'[' | b']')
}

fn is_printing(byte: u8) -> bool
    ensures { result ≡ is_printing byte }
{
    matches!(byte, 0x20..=0x7E)
}

/// The token that a brace, a bracket or a semicolon is.
pub(crate) fn sign_of(byte: u8) -> Option<TokenKind>
    ensures { result ≡ sign_of byte }
{
    match byte {
        b'{' => Some(TokenKind::OpenBrace),
        b'}' => Some(TokenKind::CloseBrace),
        b'[' => Some(TokenKind::OpenBracket),
        b']' => Some(TokenKind::CloseBracket),
        b';' => Some(TokenKind::Semicolon),
        _ => None,
    }
}

/// Whether the byte is the first of these.
pub(crate) fn begins_with(byte: u8, bytes: &[u8]) -> bool
    ensures { result ≡ begins_with byte bytes.now }
{
    match bytes {
        [] => false,
        [first, ..] => *first == byte,
    }
}

/// Whether a byte, before those that follow it, belongs to a bare word.
fn is_in_run(byte: u8, behind: &[u8]) -> bool
    ensures { result ≡ is_in_run byte behind.now }
{
    let bare = is_bare(byte);
    let comment = byte == b'/' && begins_with(b'*', behind);
    bare && !comment
}

/// How many bytes of a bare word the text begins with.
pub(crate) fn bare_len(text: &[u8]) -> usize
    ensures length { result ≡ bare_len text.now }
    ensures within { result ≤ length text.now }
{
    let mut place = 0;
    while place < text.len() {
        if !is_in_run(text[place], &text[place + 1..]) {
            return place;
        }
        place += 1;
    }
    place
}

/// Whether a byte and those that follow it begin with `*/`.
fn is_close(byte: u8, behind: &[u8]) -> bool
    ensures { result ≡ (byte == 42 && begins_with 47 behind.now) }
{
    byte == b'*' && begins_with(b'/', behind)
}

/// Where the first `*/` begins.
pub(crate) fn close_of(text: &[u8]) -> Option<usize>
    ensures place { result ≡ close_of text.now }
    ensures within { IfSome result (λ place. place + 2 ≤ length text.now) }
{
    let mut place = 0;
    while place < text.len() {
        if is_close(text[place], &text[place + 1..]) {
            return Some(place);
        }
        place += 1;
    }
    None
}

/// Where the first quote stands that no backslash takes up.
pub(crate) fn quote_of(text: &[u8]) -> Option<usize>
    ensures place { result ≡ quote_of false text.now }
    ensures within { IfSome result (λ place. place + 1 ≤ length text.now) }
{
    let mut backslash = false;
    let mut place = 0;
    while place < text.len() {
        let byte = text[place];
        if !backslash && byte == b'"' {
            return Some(place);
        }
        backslash = !backslash && byte == b'\\';
        place += 1;
    }
    None
}

/// How many bytes of a line's rest the text begins with.
pub(crate) fn line_len(text: &[u8]) -> usize
    ensures length { result ≡ prefix_len is_in_line text.now }
    ensures within { result ≤ length text.now }
{
    text.iter().take_while(|byte| **byte != b'\n').count()
}

/// How many bytes of an angle word the text begins with.
pub(crate) fn angle_len(text: &[u8]) -> usize
    ensures length { result ≡ prefix_len is_angle_byte text.now }
    ensures within { result ≤ length text.now }
{
    text.iter().take_while(|byte| is_angle_byte(**byte)).count()
}

/// How many printing bytes the text begins with.
pub(crate) fn printing_len(text: &[u8]) -> usize
    ensures length { result ≡ prefix_len is_printing text.now }
    ensures within { result ≤ length text.now }
{
    text.iter().take_while(|byte| is_printing(**byte)).count()
}

/// How many bytes the word has that stands in quotes so.
pub(crate) fn unescaped_len(inside: &[u8]) -> usize
    ensures length { result ≡ length (unescaped false inside.now) }
{
    let mut backslash = false;
    let mut count = 0;
    for &byte in inside {
        if backslash {
            count += if byte == b'"' || byte == b'\\' { 1 } else { 2 };
            backslash = false;
        } else if byte == b'\\' {
            backslash = true;
        } else {
            count += 1;
        }
    }
    if backslash {
        count += 1;
    }
    count
}
