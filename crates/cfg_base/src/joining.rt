//! Words that are joined to a list.

ghost use Rattle.std.specs.Prelude.{◌≡◌, ◌&&◌, ◌||◌, List, ℕ, length, not, take, OnOk, IfOk};
ghost use Rattle.std.specs.List.{IsDistinct, list_all};
ghost use Rattle.std.specs.BTreeSet as set;
ghost use Rattle.cfg_base.specs.Order.{word_cmp};
ghost use Rattle.cfg_base.specs.Words.{same_word, lists, with_word, joined, Misses};

use crate::fault::NoMemory;
use crate::lookup::{FEW, set_of};
use crate::word::Word;
use crate::word_list::WordList;
use std::alloc::Global;
use std::collections::BTreeSet;

/// Puts a word at the end, where the list hasn't it.
fn add(words: &mut WordList, word: &Word) -> Result<(), NoMemory>
    ensures { OnOk result (words.new ≡ with_word words.old word.now) }
{
    if !words.has(word) {
        words.push(word.clone()?)?;
    }
    Ok(())
}

/// Each of the given words is compared with all.
fn join_few(list: &WordList, given: &[Word]) -> Result<WordList, NoMemory>
    ensures { IfOk result (λ words. words ≡ joined list.now given.now) }
{
    let mut words = list.clone()?;
    for word in given {
        add(&mut words, word)?;
    }
    Ok(words)
}

/// Takes a word out of a set, and reports whether it was there.
fn strike(missing: &mut BTreeSet<Word>, word: &Word) -> bool
    ensures was { result ≡ set.contains word_cmp missing.old word.now }
    ensures left { (other : List ℕ) → set.contains word_cmp missing.new other ≡ (not (same_word other word.now) && set.contains word_cmp missing.old other) }
{
    missing.remove(word)
}

/// The set of the given words that a list hasn't.
fn missing_set(alloc: Global, list: &WordList, given: &[Word]) -> Result<BTreeSet<Word>, NoMemory>
    ensures { IfOk result (Misses list.now given.now) }
{
    let mut missing = set_of(alloc, given)?;
    let mut words = list.iter();
    while let Some(word) = words.next() {
        let _ = strike(&mut missing, word);
    }
    Ok(missing)
}

/// Puts a word at the end, where it is one of those that are missing.
fn add_missing(
    words: &mut WordList,
    missing: &mut BTreeSet<Word>,
    word: &Word,
) -> Result<(), NoMemory>
    requires { set.contains word_cmp missing.old word.now ≡ not (lists words.old word.now) }
    ensures word { OnOk result (words.new ≡ with_word words.old word.now) }
    ensures left { OnOk result ((other : List ℕ) → set.contains word_cmp missing.new other ≡ (not (same_word other word.now) && set.contains word_cmp missing.old other)) }
{
    if strike(missing, word) {
        words.push(word.clone()?)?;
    }
    Ok(())
}

/// Each of the given words is looked up in the set of those that are missing.
fn join_many(alloc: Global, list: &WordList, given: &[Word]) -> Result<WordList, NoMemory>
    ensures { IfOk result (λ words. words ≡ joined list.now given.now) }
{
    let mut missing = missing_set(alloc, list, given)?;
    let mut words = list.clone()?;
    for word in given {
        add_missing(&mut words, &mut missing, word)?;
    }
    Ok(words)
}

impl WordList {
    /// This list, and then the given words that it hasn't, each once.
    pub fn joined(&self, alloc: Global, given: &[Word]) -> Result<WordList, NoMemory>
        ensures { IfOk result (λ list. list ≡ joined self.now given.now) }
    {
        if given.len() <= FEW {
            join_few(self, given)
        } else {
            join_many(alloc, self, given)
        }
    }

    /// Whether the list has all of these words.
    pub fn has_all(&self, alloc: Global, asked: &[Word]) -> Result<bool, NoMemory>
        ensures { IfOk result (λ all. all ≡ list_all (lists self.now) asked.now) }
    {
        // Joining adds each word that the list hasn't.
        let joined = self.joined(alloc, asked)?;
        Ok(joined.len() == self.len())
    }
}

/// A joined list is the old one and then words that it hasn't, each once: exactly the words of both.
pub fn joined_is_the_union()
    ensures front { (old given : List (List ℕ)) → take (length old) (joined old given) ≡ old }
    ensures once { (old given : List (List ℕ)) → IsDistinct same_word old → IsDistinct same_word (joined old given) }
    ensures union { (old given : List (List ℕ)) (word : List ℕ) → lists (joined old given) word ≡ (lists old word || lists given word) }
{}
