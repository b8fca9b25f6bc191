//! Words that are looked up in a list.

ghost use Rattle.std.specs.Prelude.{◌≡◌, ◌||◌, ◌<◌, List, ℕ, length, not, OnOk, IfOk};
ghost use Rattle.std.specs.BTreeSet as set;
ghost use Rattle.cfg_base.specs.Order.{word_cmp};
ghost use Rattle.cfg_base.specs.Words.{same_word, lists, Knows};
ghost use Rattle.cfg_base.specs.declared.lookup.TheConstants.{FEW};

use crate::fault::NoMemory;
use crate::order::same_bytes;
use crate::word::Word;
use std::alloc::Global;
use std::collections::BTreeSet;
use std::marker::Model;

/// So many words are sooner compared one by one than looked up in a set.
pub(crate) const FEW: usize = 8;

/// Whether a word is among these.
pub(crate) fn has_word(words: &[Word], word: &Word) -> bool
    ensures { result ≡ lists words.now word.now }
{
    words
        .iter()
        .any(|other| same_bytes(word.as_bytes(), other.as_bytes()))
}

/// Adds a word to a set of words, and reports whether it is new there.
pub fn learn(known: &mut BTreeSet<Word>, word: &Word) -> Result<bool, NoMemory>
    ensures new { IfOk result (λ new. new ≡ not (set.contains word_cmp known.old word.now)) }
    ensures knows { OnOk result ((other : List ℕ) → set.contains word_cmp known.new other ≡ (same_word other word.now || set.contains word_cmp known.old other)) }
{
    Ok(known.insert(word.clone()?)?)
}

/// The set of these words.
pub(crate) fn set_of(alloc: Global, words: &[Word]) -> Result<BTreeSet<Word>, NoMemory>
    ensures { IfOk result (Knows words.now) }
{
    let mut known = BTreeSet::new(alloc);
    for word in words {
        let _ = learn(&mut known, word)?;
    }
    Ok(known)
}

/// Words that others are looked up among.
#[derive(Debug, Drop)]
pub(crate) struct Lookup<'a> {
    words: &'a [Word],
    known: BTreeSet<Word>,
}

impl<'a> Model for Lookup<'a> {
    ghost use Rattle.std.specs.Prelude.{List, ℕ, ◌<◌, length};
    ghost use Rattle.cfg_base.specs.Words.{Knows};
    ghost use Rattle.cfg_base.specs.declared.lookup.TheConstants.{FEW};

    ghost Value = { List (List ℕ) };

    ghost view = { λ l. l.words.now };

    ghost invariant = { λ l. FEW < length l.words.now → Knows l.words.now l.known };
}

impl<'a> Lookup<'a> {
    /// These words.
    pub(crate) fn of(alloc: Global, words: &'a [Word]) -> Result<Lookup<'a>, NoMemory>
        ensures { IfOk result (λ lookup. lookup ≡ words.now) }
    {
        if words.len() <= FEW {
            return Ok(Lookup {
                words,
                known: BTreeSet::new(alloc),
            });
        }
        let known = set_of(alloc, words)?;
        Ok(Lookup { words, known })
    }

    /// Whether a word is among them.
    pub(crate) fn has(&self, word: &Word) -> bool
        ensures { result ≡ lists self.now word.now }
    {
        if self.words.len() <= FEW {
            return has_word(self.words, word);
        }
        self.known.contains(word)
    }
}
