//! The words of tokens.

ghost use Rattle.std.specs.Prelude.{◌≡◌, ◌==◌, ◌++◌, false, true, IfOk, OnOk, OnErr};
ghost use Rattle.std.specs.List.{list_any};
ghost use Rattle.std.specs.Cow.{cow_slice_items};
ghost use Rattle.cfg_lex.specs.Bytes.{read_byte, unescaped};
ghost use Rattle.cfg_lex.specs.Tokens.{HasBackslash, IsPlaced, between, word_in};

use crate::token::{Token, TokenKind};
use cfg_base::NoMemory;
use std::alloc::Global;
use std::borrow::CowSlice;

/// Puts at the end of a word what a byte in quotes stands for, after a backslash or not.
fn read_byte(word: &mut Vec<u8>, backslash: bool, byte: u8) -> Result<(), NoMemory>
    ensures { OnOk result (word.new.items ≡ word.old.items ++ read_byte backslash byte) }
{
    if backslash {
        if byte != b'"' && byte != b'\\' {
            word.push(b'\\')?;
        }
        word.push(byte)?;
    } else if byte != b'\\' {
        word.push(byte)?;
    }
    Ok(())
}

/// The word that stands in quotes so.
fn unescape(alloc: Global, inside: &[u8]) -> Result<Vec<u8>, NoMemory>
    ensures { IfOk result (λ word. word.items ≡ unescaped false inside.now) }
{
    let mut word = Vec::new(alloc);
    let mut backslash = false;
    for &byte in inside {
        read_byte(&mut word, backslash, byte)?;
        backslash = !backslash && byte == b'\\';
    }
    if backslash {
        word.push(b'\\')?;
    }
    Ok(word)
}

fn has_backslash(bytes: &[u8]) -> bool
    ensures { result ≡ list_any (λ b. b == 92) bytes.now }
{
    bytes.iter().any(|&byte| byte == b'\\')
}

/// The bytes between the first and the last.
fn between(bytes: &[u8]) -> &[u8]
    ensures { result.now ≡ between bytes.now }
{
    match bytes {
        [_, inside @ .., _] => inside,
        _ => &[],
    }
}

/// The word that stands in quotes so: a slice where no backslash stands there.
fn quoted_word(alloc: Global, inside: &[u8]) -> Result<CowSlice<'_, u8>, NoMemory>
    ensures word { IfOk result (λ word. cow_slice_items word ≡ unescaped false inside.now) }
    ensures memory { OnErr result (list_any (λ b. b == 92) inside.now ≡ true) }
{
    if has_backslash(inside) {
        Ok(CowSlice::Owned(unescape(alloc, inside)?))
    } else {
        Ok(CowSlice::Borrowed(inside))
    }
}

impl Token {
    /// The word of a token in its text; of a brace, a bracket or a semicolon the empty one. It is a slice of
    /// the text, but for a quoted word with a backslash in it.
    pub fn word(self, alloc: Global, text: &[u8]) -> Result<CowSlice<'_, u8>, NoMemory>
        requires { IsPlaced text.now self }
        ensures word { IfOk result (λ word. cow_slice_items word ≡ word_in text.now self) }
        // Memory is asked for only where there is something to read.
        ensures memory { OnErr result (HasBackslash text.now self) }
    {
        let bytes = &text[self.start..self.end];
        match self.kind {
            TokenKind::Bare => Ok(CowSlice::Borrowed(bytes)),
            TokenKind::Quoted => quoted_word(alloc, between(bytes)),
            TokenKind::OpenBrace
            | TokenKind::CloseBrace
            | TokenKind::OpenBracket
            | TokenKind::CloseBracket
            | TokenKind::Semicolon => Ok(CowSlice::Borrowed(&[])),
        }
    }
}
