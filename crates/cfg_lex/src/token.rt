ghost use Rattle.std.specs.Prelude.{◌≡◌};

use crate::fault::LexFault;
use std::marker::Model;

/// What a token is. A word in angles is a bare one.
#[derive(Clone, Copy, Debug, PartialEq, Eq)]
pub enum TokenKind {
    OpenBrace,
    CloseBrace,
    OpenBracket,
    CloseBracket,
    Semicolon,
    Bare,
    Quoted,
}

/// What a token is, and where it stands in its text: its bytes are those from `start` up to `end`, its
/// quotes among them.
#[derive(Clone, Copy, Debug, PartialEq, Eq)]
pub struct Token {
    pub kind: TokenKind,
    pub start: usize,
    pub end: usize,
}

/// The tokens of a text, in order.
#[derive(Debug, Drop)]
pub struct Tokens {
    tokens: Vec<Token>,
}

impl Model for Tokens {
    ghost use Rattle.std.specs.Prelude.{List};
    ghost use Rattle.cfg_lex.specs.declared.token.Token.{Token};

    ghost Value = { List Token };

    ghost view = { λ t. t.tokens.items };
}

impl Tokens {
    pub(crate) fn of(tokens: Vec<Token>) -> Tokens
        ensures { result ≡ tokens.items }
    {
        Tokens { tokens }
    }

    /// The tokens, in order.
    pub fn as_slice(&self) -> &[Token]
        ensures { result.now ≡ self.now }
    {
        &self.tokens
    }
}

/// What a text is cut into: its tokens up to its end, or up to its leftmost fault.
#[derive(Debug, Drop)]
pub struct Cut {
    pub tokens: Tokens,
    pub fault: Option<LexFault>,
}
