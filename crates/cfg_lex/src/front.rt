//! What stands at the front of a text.

ghost use Rattle.std.specs.Prelude.{◌≡◌, ◌<◌, false, length};
ghost use Rattle.std.specs.List.{prefix_len};
ghost use Rattle.cfg_lex.specs.Bytes.{is_angle_byte, is_printing};
ghost use Rattle.cfg_lex.specs.Front.{angle_front, bare_front, close_of, comment_front, front_of, quote_front, quote_of, quoted_front, word_front};

use crate::bytes::{
    angle_len, bare_len, begins_with, close_of, is_space, line_len, printing_len, quote_of,
    sign_of, unescaped_len,
};
use crate::fault::Cause;
use crate::token::TokenKind;
use cfg_base::MAX_BYTES;

/// What stands at the front of a text, with how many bytes it takes: white space or a comment, a token, or a
/// fault that many bytes on.
#[derive(Clone, Copy, Debug, PartialEq, Eq)]
pub(crate) enum Front {
    Gap(usize),
    Token(TokenKind, usize),
    Fault(Cause, usize),
}

fn word_front(kind: TokenKind, size: usize, count: usize) -> Front
    ensures { result ≡ word_front kind size count }
{
    if size > MAX_BYTES {
        Front::Fault(Cause::LongWord, 0)
    } else {
        Front::Token(kind, count)
    }
}

fn bare_front(count: usize) -> Front
    ensures { result ≡ bare_front count }
{
    if count == 0 {
        Front::Fault(Cause::BadByte, 0)
    } else {
        word_front(TokenKind::Bare, count, count)
    }
}

/// What stands after a `<`.
fn angle_front(rest: &[u8]) -> Front
    ensures { result ≡ angle_front (prefix_len is_angle_byte rest.now) rest.now }
{
    let count = angle_len(rest);
    if count > 0 && begins_with(b'>', &rest[count..]) {
        word_front(TokenKind::Bare, count + 2, count + 2)
    } else {
        Front::Fault(Cause::BadByte, 0)
    }
}

/// What stands in quotes.
fn quoted_front(inside: &[u8]) -> Front
    ensures { result ≡ quoted_front inside.now (prefix_len is_printing inside.now) }
{
    if unescaped_len(inside) > MAX_BYTES {
        return Front::Fault(Cause::LongWord, 0);
    }
    let printing = printing_len(inside);
    if printing == inside.len() {
        Front::Token(TokenKind::Quoted, inside.len() + 2)
    } else {
        Front::Fault(Cause::BadByte, 1 + printing)
    }
}

/// What stands after a quote.
fn quote_front(rest: &[u8]) -> Front
    ensures { result ≡ quote_front rest.now (quote_of false rest.now) }
{
    match quote_of(rest) {
        None => Front::Fault(Cause::OpenQuote, 0),
        Some(count) => quoted_front(&rest[..count]),
    }
}

/// What stands after `/*`.
fn comment_front(rest: &[u8]) -> Front
    ensures { result ≡ comment_front (close_of rest.now) }
{
    match close_of(rest) {
        None => Front::Fault(Cause::OpenComment, 0),
        Some(count) => Front::Gap(count + 4),
    }
}

/// What stands at the front of a text.
pub(crate) fn front_of(text: &[u8]) -> Front
    requires { 0 < length text.now }
    ensures { result ≡ front_of text.now }
{
    let first = text[0];
    let rest = &text[1..];
    if is_space(first) {
        return Front::Gap(1);
    }
    if first == b'#' {
        return Front::Gap(1 + line_len(rest));
    }
    if first == b'"' {
        return quote_front(rest);
    }
    if first == b'<' {
        return angle_front(rest);
    }
    if first == b'/' && begins_with(b'*', rest) {
        return comment_front(&rest[1..]);
    }
    match sign_of(first) {
        Some(kind) => Front::Token(kind, 1),
        None => bare_front(bare_len(text)),
    }
}
