//! The tests of what a token is.

ghost use Rattle.std.specs.Prelude.{◌≡◌};
ghost use Rattle.cfg_lex.specs.Lexed.{is_bare_kind, is_close_bracket, is_open_bracket, is_word_kind};

use crate::token::TokenKind;

impl TokenKind {
    /// Whether a token of this kind is a word, bare or in quotes.
    pub fn is_word(self) -> bool
        ensures { result ≡ is_word_kind self }
    {
        matches!(self, TokenKind::Bare | TokenKind::Quoted)
    }

    /// Whether a token of this kind is a bare word.
    pub fn is_bare(self) -> bool
        ensures { result ≡ is_bare_kind self }
    {
        matches!(self, TokenKind::Bare)
    }

    /// Whether a token of this kind is `[`.
    pub fn is_open_bracket(self) -> bool
        ensures { result ≡ is_open_bracket self }
    {
        matches!(self, TokenKind::OpenBracket)
    }

    /// Whether a token of this kind is `]`.
    pub fn is_close_bracket(self) -> bool
        ensures { result ≡ is_close_bracket self }
    {
        matches!(self, TokenKind::CloseBracket)
    }
}
