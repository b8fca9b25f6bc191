//! The tokens of a line with their words.

ghost use Rattle.std.specs.Prelude.{◌≡◌, ◌&&◌, ◌≤◌, ◌∷◌, ◌++◌, [], length, map, is_some, IfOk, OnOk};
ghost use Rattle.std.specs.List.{All};
ghost use Rattle.cfg_lex.specs.Lexed.{is_close_bracket, is_open_bracket, is_word_kind};
ghost use Rattle.cfg_lex.specs.Tokens.{IsPlaced};
ghost use Rattle.shell_words.specs.Form.{is_keyword, is_mark};
ghost use Rattle.shell_words.specs.Item.{item_in};
ghost use Rattle.shell_words.specs.Number.{is_between, number_of};
ghost use Rattle.shell_words.specs.Time.{when_of};

use crate::keyword::Keyword;
use crate::number::number_of;
use crate::time::when_of;
use cfg_base::{NoMemory, Word, Words};
use cfg_lex::{Token, TokenKind};
use std::alloc::Global;
use std::borrow::CowSlice;
use std::marker::Model;

/// A token of a line.
#[derive(Debug, Drop)]
pub(crate) struct Item<'a> {
    kind: TokenKind,
    word: CowSlice<'a, u8>,
    place: usize,
}

impl<'a> Model for Item<'a> {
    ghost use Rattle.std.specs.Prelude.{◌≤◌, length};
    ghost use Rattle.std.specs.Cow.{cow_slice_items};
    ghost use Rattle.cfg_lex.specs.Lexed.{lexed};
    ghost use Rattle.shell_words.specs.Item.{Item};

    ghost Value = { Item };

    ghost view = { λ i. record { token = lexed i.kind (cow_slice_items i.word); place = i.place } };

    ghost invariant = { λ i. length (cow_slice_items i.word) ≤ 255 };
}

impl<'a> Item<'a> {
    /// A token of a line, with its word read.
    fn of(alloc: Global, line: &'a [u8], token: Token) -> Result<Item<'a>, NoMemory>
        requires { IsPlaced line.now token }
        ensures { IfOk result (λ item. item ≡ item_in line.now token) }
    {
        Ok(Item {
            kind: token.kind,
            word: token.word(alloc, line)?,
            place: token.start,
        })
    }

    fn word(&self) -> &[u8]
        ensures word { result.now ≡ self.now.token.word }
        ensures short { length self.now.token.word ≤ 255 }
    {
        &self.word
    }

    /// The place of the token's first byte.
    pub(crate) fn place(&self) -> usize
        ensures { result ≡ self.now.place }
    {
        self.place
    }

    pub(crate) fn is_word(&self) -> bool
        ensures { result ≡ is_word_kind self.now.token.kind }
    {
        self.kind.is_word()
    }

    pub(crate) fn is_open_bracket(&self) -> bool
        ensures { result ≡ is_open_bracket self.now.token.kind }
    {
        self.kind.is_open_bracket()
    }

    pub(crate) fn is_close_bracket(&self) -> bool
        ensures { result ≡ is_close_bracket self.now.token.kind }
    {
        self.kind.is_close_bracket()
    }

    /// Whether the token is this word, bare or in quotes.
    pub(crate) fn is_keyword(&self, keyword: Keyword) -> bool
        ensures { result ≡ is_keyword keyword self.now }
    {
        self.is_word() && keyword.bytes() == self.word()
    }

    /// Whether the token is this word, and bare.
    pub(crate) fn is_mark(&self, keyword: Keyword) -> bool
        ensures { result ≡ is_mark keyword self.now }
    {
        self.kind.is_bare() && keyword.bytes() == self.word()
    }

    /// Whether the token is a word of digits, of a number between these two or one of them.
    pub(crate) fn is_number(&self, low: u32, high: u32) -> bool
        ensures { result ≡ (is_word_kind self.now.token.kind && is_between low high (number_of self.now.token.word)) }
    {
        self.is_word()
            && match number_of(self.word()) {
                Some(number) => low <= number && number <= high,
                None => false,
            }
    }

    /// Whether the token is a word that says a time.
    pub(crate) fn is_time(&self) -> bool
        ensures { result ≡ (is_word_kind self.now.token.kind && is_some (when_of self.now.token.word)) }
    {
        self.is_word() && when_of(self.word()).is_some()
    }

    /// Puts the token's word at the end of the words.
    pub(crate) fn give(&self, alloc: Global, words: &mut Words) -> Result<(), NoMemory>
        ensures { OnOk result (words.new ≡ words.old ++ self.now.token.word ∷ []) }
    {
        words.push(Word::short(alloc, self.word())?)
    }
}

/// These tokens of a line, with their words read.
pub(crate) fn items<'a>(
    alloc: Global,
    line: &'a [u8],
    tokens: &[Token],
) -> Result<Vec<Item<'a>>, NoMemory>
    requires { All (IsPlaced line.now) tokens.now }
    ensures { IfOk result (λ items. items.items ≡ map (item_in line.now) tokens.now) }
{
    let mut items = Vec::new(alloc);
    for &token in tokens {
        items.push(Item::of(alloc, line, token)?)?;
    }
    Ok(items)
}
