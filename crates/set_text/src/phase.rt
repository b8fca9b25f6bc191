//! Which tokens may follow one another after a keyword.

ghost use Rattle.std.specs.Prelude.{◌≡◌, MatchResult};
ghost use Rattle.set_text.specs.declared.phase.Phase.TheVariants as phase;
ghost use Rattle.set_text.specs.Phase.{ends_at, kinds_in, next, on_close, on_open, on_word, PhaseLeads, StopsFrom};

use cfg_lex::{Token, TokenKind};

/// How far a line is read after its keyword.
#[derive(Clone, Copy, Debug, PartialEq, Eq)]
pub(crate) enum Phase {
    /// Nothing is read.
    Bare,
    /// Words are read.
    Words,
    /// A bracket is open, and no word is read after it.
    Opened,
    /// A bracket is open, and words are read after it.
    Inside,
    /// A bracket is closed.
    Closed,
}

impl Phase {
    fn on_word(self) -> Option<Phase>
        ensures { result ≡ on_word self }
    {
        match self {
            Phase::Bare | Phase::Words => Some(Phase::Words),
            Phase::Opened | Phase::Inside => Some(Phase::Inside),
            Phase::Closed => None,
        }
    }

    fn on_open(self, brackets: bool) -> Option<Phase>
        ensures { result ≡ on_open brackets self }
    {
        match self {
            Phase::Bare | Phase::Words if brackets => Some(Phase::Opened),
            _ => None,
        }
    }

    fn on_close(self) -> Option<Phase>
        ensures { result ≡ on_close self }
    {
        match self {
            Phase::Inside => Some(Phase::Closed),
            Phase::Bare | Phase::Words | Phase::Opened | Phase::Closed => None,
        }
    }

    fn next(self, brackets: bool, kind: TokenKind) -> Option<Phase>
        ensures { result ≡ next brackets self kind }
    {
        match kind {
            TokenKind::Bare | TokenKind::Quoted => self.on_word(),
            TokenKind::OpenBracket => self.on_open(brackets),
            TokenKind::CloseBracket => self.on_close(),
            TokenKind::OpenBrace | TokenKind::CloseBrace | TokenKind::Semicolon => None,
        }
    }

    /// Whether a line may end here.
    pub(crate) fn ends(self) -> bool
        ensures { result ≡ ends_at self }
    {
        matches!(self, Phase::Words | Phase::Closed)
    }
}

/// How far these tokens are read after a keyword; or the first of them that may not follow those before it.
pub(crate) fn phase_of(brackets: bool, tokens: &[Token]) -> Result<Phase, usize>
    ensures { MatchResult result (λ reached. PhaseLeads brackets phase.Bare (kinds_in tokens.now) reached)
        (λ place. StopsFrom brackets tokens.now place) }
{
    let mut phase = Phase::Bare;
    for (place, token) in tokens.iter().enumerate() {
        match phase.next(brackets, token.kind) {
            None => return Err(place),
            Some(after) => phase = after,
        }
    }
    Ok(phase)
}
