ghost use Rattle.std.specs.Prelude.{◌≡◌, [], ◌∷◌, ◌++◌, OnOk, OnErr};
ghost use Rattle.cfg_base.specs.Order.{words_eq, words_per, words_alike};

use crate::fault::NoMemory;
use crate::word::Word;
use std::alloc::{AllocError, Global};
use std::marker::Model;

/// A list of words, as of a command or of a statement's values.
#[derive(Debug, Drop)]
pub struct Words {
    words: Vec<Word>,
}

impl Model for Words {
    ghost use Rattle.std.specs.Prelude.{List, ℕ};

    ghost Value = { List (List ℕ) };

    ghost view = { λ w. w.words.items };
}

impl Words {
    /// The empty list.
    pub fn new(alloc: Global) -> Words
        ensures { result ≡ [] }
    {
        Words {
            words: Vec::new(alloc),
        }
    }

    /// Puts a word at the end.
    pub fn push(&mut self, word: Word) -> Result<(), NoMemory>
        ensures ok { OnOk result (self.new ≡ self.old ++ word ∷ []) }
        ensures unchanged { OnErr result (self.new ≡ self.old) }
    {
        self.words.push(word)?;
        Ok(())
    }

    /// The words, in order.
    pub fn as_slice(&self) -> &[Word]
        ensures { result.now ≡ self.now }
    {
        &self.words
    }
}

impl Clone for Words {
    ghost is_clone = { λ source copy. copy ≡ source };

    fn clone(&self) -> Result<Words, AllocError> {
        Ok(Words {
            words: self.words.clone()?,
        })
    }
}

impl PartialEq for Words {
    ghost eq = { words_eq };

    ghost laws = { words_per };

    fn eq(&self, other: &Words) -> bool {
        self.words == other.words
    }
}

impl Eq for Words {
    ghost laws = { words_alike };
}
