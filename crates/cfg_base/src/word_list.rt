//! Lists of words whose copies share all but what is changed.

ghost use Rattle.std.specs.Prelude.{◌≡◌, ◌==◌, ◌∷◌, [], ◌++◌, length, OnOk, OnErr, IfOk, MatchOption};
ghost use Rattle.cfg_base.specs.Blocks.{flat, AreSized};
ghost use Rattle.cfg_base.specs.Listed.{words_of};
ghost use Rattle.cfg_base.specs.Order.{words_eq, words_per, words_alike};
ghost use Rattle.cfg_base.specs.Words.{lists, words_without};

use crate::blocks::in_blocks;
use crate::fault::NoMemory;
use crate::lookup::Lookup;
use crate::shared::Shared;
use crate::word::Word;
use crate::word_blocks::WordBlocks;
use std::alloc::{AllocError, Global};
use std::fmt;
use std::marker::Model;
use std::slice::from_ref;

/// Where the words of a list stand.
enum Listed {
    None,
    /// In the list itself.
    One(Word),
    /// In blocks.
    More(Box<WordBlocks>),
}

// Written out, so that a drop of what holds a list is a call.
impl Drop for Listed {
    fn drop(self) {
        match self {
            Listed::None => {}
            Listed::One(word) => drop(word),
            Listed::More(words) => drop(words),
        }
    }
}

/// The words of a value, or the names of its ordered children. A list of none or one takes no memory; a
/// copy and a push of more cost one count for each block of words.
pub struct WordList {
    alloc: Global,
    listed: Listed,
}

impl Drop for WordList {
    fn drop(self) {
        let WordList { alloc: _, listed } = self;
        drop(listed);
    }
}

impl Model for WordList {
    ghost use Rattle.std.specs.Prelude.{List, ℕ};
    ghost use Rattle.cfg_base.specs.Listed.{words_of};

    ghost Value = { List (List ℕ) };

    ghost view = { λ w. words_of w.listed };
}

impl WordList {
    /// The empty list.
    pub fn new(alloc: Global) -> WordList
        ensures { result ≡ [] }
    {
        WordList {
            alloc,
            listed: Listed::None,
        }
    }

    /// The list of these words.
    pub fn of(alloc: Global, words: &[Word]) -> Result<WordList, NoMemory>
        ensures { IfOk result (λ list. list ≡ words.now) }
    {
        WordList::new(alloc).extended(words)
    }

    /// How many words there are.
    pub fn len(&self) -> usize
        ensures { result ≡ length self.now }
    {
        match &self.listed {
            Listed::None => 0,
            Listed::One(_) => 1,
            Listed::More(words) => words.len(),
        }
    }

    /// Whether there are none.
    pub fn is_empty(&self) -> bool
        ensures { result ≡ (length self.now == 0) }
    {
        self.len() == 0
    }

    /// Whether a word is in the list.
    pub fn has(&self, word: &Word) -> bool
        ensures { result ≡ lists self.now word.now }
    {
        match &self.listed {
            Listed::None => false,
            Listed::One(other) => word.as_bytes() == other.as_bytes(),
            Listed::More(words) => in_blocks(words.blocks(), word),
        }
    }

    /// The words, in order.
    pub fn iter(&self) -> WordsLeft<'_>
        ensures { result ≡ self.now }
    {
        match &self.listed {
            Listed::None => WordsLeft::of(&[], &[]),
            Listed::One(word) => WordsLeft::of(from_ref(word), &[]),
            Listed::More(words) => WordsLeft::of(&[], words.blocks()),
        }
    }

    /// Puts a word at the end.
    pub fn push(&mut self, word: Word) -> Result<(), NoMemory>
        ensures ok { OnOk result (self.new ≡ self.old ++ word ∷ []) }
        ensures unchanged { OnErr result (self.new ≡ self.old) }
    {
        match &mut self.listed {
            Listed::None => {
                self.listed = Listed::One(word);
                Ok(())
            }
            Listed::One(first) => {
                let words = WordBlocks::two(self.alloc, first.clone()?, word)?;
                self.listed = Listed::More(Box::new(self.alloc, words)?);
                Ok(())
            }
            Listed::More(words) => words.push(word),
        }
    }

    /// This list with more words after it.
    pub fn extended(&self, more: &[Word]) -> Result<WordList, NoMemory>
        ensures { IfOk result (λ list. list ≡ self.now ++ more.now) }
    {
        let mut list = self.clone()?;
        for word in more {
            list.push(word.clone()?)?;
        }
        Ok(list)
    }

    /// The words that aren't among those that go. It shares each block that has none of these.
    pub fn without(&self, gone: &[Word]) -> Result<WordList, NoMemory>
        ensures { IfOk result (λ left. left ≡ words_without self.now gone.now) }
    {
        let gone = Lookup::of(self.alloc, gone)?;
        Ok(WordList {
            alloc: self.alloc,
            listed: left_in(self.alloc, &self.listed, &gone)?,
        })
    }
}

/// The words that don't go.
fn left_in(alloc: Global, listed: &Listed, gone: &Lookup<'_>) -> Result<Listed, NoMemory>
    ensures { IfOk result (λ left. words_of left ≡ words_without (words_of listed.now) gone.now) }
{
    match listed {
        Listed::None => Ok(Listed::None),
        Listed::One(word) if gone.has(word) => Ok(Listed::None),
        Listed::One(word) => Ok(Listed::One(word.clone()?)),
        Listed::More(words) => Ok(Listed::More(Box::new(alloc, words.without(gone)?)?)),
    }
}

/// The same words once more.
fn copied(listed: &Listed) -> Result<Listed, AllocError>
    ensures { IfOk result (λ copy. words_of copy ≡ words_of listed.now) }
{
    match listed {
        Listed::None => Ok(Listed::None),
        Listed::One(word) => Ok(Listed::One(word.clone()?)),
        Listed::More(words) => Ok(Listed::More(words.clone()?)),
    }
}

impl Clone for WordList {
    ghost is_clone = { λ source copy. copy ≡ source };

    fn clone(&self) -> Result<WordList, AllocError> {
        Ok(WordList {
            alloc: self.alloc,
            listed: copied(&self.listed)?,
        })
    }
}

impl fmt::Debug for WordList {
    fn fmt<W: fmt::Write>(&self, f: &mut fmt::Formatter<W>) -> fmt::Result {
        f.debug_struct("WordList")
            .field("words", &self.iter())
            .finish()
    }
}

impl PartialEq for WordList {
    ghost eq = { words_eq };

    ghost laws = { words_per };

    fn eq(&self, other: &WordList) -> bool {
        same_words(self, other)
    }
}

impl Eq for WordList {
    ghost laws = { words_alike };
}

/// The words that are left of a walk.
#[derive(Debug, Drop)]
pub struct WordsLeft<'a> {
    words: &'a [Word],
    blocks: &'a [Shared<Word>],
}

impl<'a> Model for WordsLeft<'a> {
    ghost use Rattle.std.specs.Prelude.{List, ℕ, ◌++◌};
    ghost use Rattle.cfg_base.specs.Blocks.{flat, AreSized};

    ghost Value = { List (List ℕ) };

    ghost view = { λ r. r.words.now ++ flat r.blocks.now };

    ghost invariant = { λ r. AreSized r.blocks.now };
}

impl<'a> WordsLeft<'a> {
    /// These words, and then those of the blocks.
    fn of(words: &'a [Word], blocks: &'a [Shared<Word>]) -> WordsLeft<'a>
        requires { AreSized blocks.now }
        ensures { result ≡ words.now ++ flat blocks.now }
    {
        WordsLeft { words, blocks }
    }

    /// The next word.
    pub fn next(&mut self) -> Option<&'a Word>
        ensures { MatchOption result (self.old ≡ []) (λ word. self.old ≡ word.now ∷ self.new) }
    {
        if let Some((word, rest)) = self.words.split_first() {
            self.words = rest;
            return Some(word);
        }
        let (block, blocks) = self.blocks.split_first()?;
        let (word, rest) = block.items().split_first()?;
        self.words = rest;
        self.blocks = blocks;
        Some(word)
    }
}

fn same_left(one: WordsLeft<'_>, other: WordsLeft<'_>) -> bool
    ensures { result ≡ words_eq one.entry other.entry }
{
    let mut mine = one;
    let mut theirs = other;
    while let Some(word) = mine.next() {
        match theirs.next() {
            None => return false,
            Some(found) => {
                if word != found {
                    return false;
                }
            }
        }
    }
    theirs.next().is_none()
}

fn same_words(one: &WordList, other: &WordList) -> bool
    ensures { result ≡ words_eq one.now other.now }
{
    match (&one.listed, &other.listed) {
        (Listed::None, Listed::None) => true,
        (Listed::One(word), Listed::One(found)) => word == found,
        _ => one.len() == other.len() && same_left(one.iter(), other.iter()),
    }
}
