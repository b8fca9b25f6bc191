//! A right, and the words that give it.

ghost use Rattle.std.specs.Prelude.{◌≡◌};
ghost use Rattle.access_rules.specs.Rights.{gives, gives_besides, word_of};

use crate::section::{Section, is_word};

/// What a login class may let its users do.
#[derive(Clone, Copy, Debug, PartialEq, Eq)]
pub enum Right {
    /// To list commits and sessions.
    View,
    /// To use configuration mode.
    Configure,
    /// To clear a commit that waits.
    Clear,
    /// To see the statements of a section.
    See(Section),
    /// To change the statements of a section.
    Alter(Section),
}

impl Right {
    /// The word of the right.
    pub fn word(self) -> &'static [u8]
        ensures { result.now ≡ word_of self }
    {
        match self {
            Right::View => b"view",
            Right::Configure => b"configure",
            Right::Clear => b"clear",
            Right::See(section) => section.see_word(),
            Right::Alter(section) => section.alter_word(),
        }
    }
}

/// Whether a word is one of the two more that let see a section.
fn gives_besides(word: &[u8], right: Right) -> bool
    ensures { result ≡ gives_besides word.now right }
{
    match right {
        Right::See(section) => {
            is_word(word, section.alter_word()) || is_word(word, b"view-configuration")
        }
        _ => false,
    }
}

/// Whether a word of a class gives a right.
pub fn gives(word: &[u8], right: Right) -> bool
    ensures { result ≡ gives word.now right }
{
    is_word(word, b"all") || is_word(word, right.word()) || gives_besides(word, right)
}
