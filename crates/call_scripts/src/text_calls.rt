//! Calls that read a text. What stands after the call and a blank is the text, blanks and all; without it the text
//! that the script keeps is read.

ghost use Rattle.cfg_lex.specs.Tokens.{IsPlaced};

use crate::json_calls::ask_read;
use cfg_base::NoMemory;
use cfg_lex::{LexFault, Token, TokenKind, tokens};
use cfg_tree::Tree;
use curly_grammar::{Marked, TextFault, parse};
use script_lines::{
    Arg, Fault, Text, put_bytes, say, say_at, say_change, say_counted, say_fault_of_line, say_path,
    say_text_fault, small_number,
};
use set_text::{LineFault, parse_lines};
use std::alloc::Global;

fn say_lexical(out: &mut Text, fault: LexFault) {
    match fault {
        LexFault::BadByte(place) => say_at(out, "bad byte", place),
        LexFault::OpenComment(place) => say_at(out, "comment not closed", place),
        LexFault::OpenQuote(place) => say_at(out, "quote not closed", place),
        LexFault::LongWord(place) => say_at(out, "word too long", place),
        LexFault::NoMemory => out.lacks_memory(),
    }
}

fn name_of(kind: TokenKind) -> &'static str {
    match kind {
        TokenKind::OpenBrace => "{",
        TokenKind::CloseBrace => "}",
        TokenKind::OpenBracket => "[",
        TokenKind::CloseBracket => "]",
        TokenKind::Semicolon => ";",
        TokenKind::Bare => "bare",
        TokenKind::Quoted => "quoted",
    }
}

fn put_word(alloc: Global, out: &mut Text, text: &[u8], token: &Token)
    requires { IsPlaced text.now token.now }
{
    match token.word(alloc, text) {
        Ok(word) => put_bytes(out, &word),
        Err(NoMemory) => out.lacks_memory(),
    }
}

/// A token: what it is, its first byte and the byte past its last, and its word.
fn say_token(alloc: Global, out: &mut Text, text: &[u8], token: &Token)
    requires { IsPlaced text.now token.now }
{
    out.put("= ");
    out.put(name_of(token.kind));
    out.put(" ");
    out.put_number(token.start as u64);
    out.put(" ");
    out.put_number(token.end as u64);
    if matches!(token.kind, TokenKind::Bare | TokenKind::Quoted) {
        put_word(alloc, out, text, token);
    }
    out.put("\n");
}

/// tokens TEXT
fn ask_tokens(alloc: Global, text: &[u8], out: &mut Text) {
    match tokens(alloc, text) {
        Ok(tokens) => {
            for token in tokens.as_slice() {
                say_token(alloc, out, text, token);
            }
            say(out, "end");
        }
        Err(fault) => say_lexical(out, fault),
    }
}

/// parse TEXT: how many statements the text says, and what it tags `replace:`; the tree has these statements from then on
fn ask_parse(alloc: Global, tree: &mut Tree, text: &[u8], end: Option<u32>, out: &mut Text) {
    match parse(alloc, text) {
        Ok(
            Marked {
                tree: read,
                replaced,
            },
        ) => {
            say_counted(out, "read", u64::from(read.count()));
            for path in replaced.as_slice() {
                say_path(out, "replace", path);
            }
            *tree = read;
        }
        Err(fault) => say_text_fault(out, fault, end),
    }
}

/// parse_lines TEXT: the number of each line that asks for a change, and the change
fn ask_parse_lines(alloc: Global, text: &[u8], out: &mut Text) {
    match parse_lines(alloc, text) {
        Ok(lines) => {
            for line in lines.as_slice() {
                say_counted(out, "line", u64::from(line.line));
                say_change(out, &line.op);
            }
            say(out, "end");
        }
        Err(LineFault::Line { line, place }) => say_fault_of_line(out, line, place),
        Err(LineFault::NoMemory) => out.lacks_memory(),
    }
}

/// Whether a call reads a text.
pub(crate) fn is_call(call: &str) -> bool {
    matches!(call, "tokens" | "parse" | "parse_lines" | "read_json")
}

/// Answers a call that reads a text.
pub(crate) fn ask(alloc: Global, tree: &mut Tree, call: &str, text: &[u8], out: &mut Text) {
    match call {
        "tokens" => ask_tokens(alloc, text, out),
        "parse" => ask_parse(alloc, tree, text, None, out),
        "read_json" => ask_read(alloc, tree, text, out),
        _ => ask_parse_lines(alloc, text, out),
    }
}

/// parse_front N: the same of so many bytes at the front of the text; their end is reported as the end
pub(crate) fn ask_front(
    alloc: Global,
    tree: &mut Tree,
    text: &[u8],
    args: &[Arg],
    out: &mut Text,
) -> Result<(), Fault> {
    let [count] = args else {
        return Err(Fault::Script("parse_front N"));
    };
    let end = small_number(count)?;
    match text.get(..end as usize) {
        Some(front) => ask_parse(alloc, tree, front, Some(end), out),
        None => return Err(Fault::Script("the text has so many bytes")),
    }
    Ok(())
}
