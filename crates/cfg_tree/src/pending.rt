//! A statement that is met several times, with what is still to be joined to it.

ghost use Rattle.std.specs.Prelude.{◌≡◌, ◌++◌, List, ℕ, false, IfOk};
ghost use Rattle.cfg_tree.specs.Gather.{words_of_both, is_many_at, value_of_both};

use cfg_base::{NoMemory, Path, Shape, Value, Word, WordList};
use cfg_schema::{Place, row};
use std::alloc::Global;
use std::marker::Model;

fn is_many(path: &Path) -> bool
    ensures { result ≡ is_many_at path.now }
{
    match Place::of(path.steps()) {
        Some(here) => matches!(row(here.row).shape, Shape::Many),
        None => false,
    }
}

/// Words, and those of a list after them.
fn with_all(words: Vec<Word>, given: &WordList) -> Result<Vec<Word>, NoMemory>
    ensures { IfOk result (λ all. all.items ≡ words.items ++ given.now) }
{
    let mut all = words;
    let mut left = given.iter();
    while let Some(word) = left.next() {
        all.push(word.clone()?)?;
    }
    Ok(all)
}

/// Those of a list, where there are some.
fn later(words: Vec<Word>, given: &WordList) -> Result<Vec<Word>, NoMemory>
    ensures { IfOk result (λ all. all.items ≡ words_of_both false words.items given.now) }
{
    if given.is_empty() {
        return Ok(words);
    }
    let mut all = words;
    all.clear();
    with_all(all, given)
}

/// The words that are to be joined, with those of one time more.
#[tactic(auto, using(crate::proofs::JoinLemmas::many_more, crate::proofs::JoinLemmas::few_more))]
fn with_words(many: bool, words: Vec<Word>, given: &WordList) -> Result<Vec<Word>, NoMemory>
    ensures { IfOk result (λ all. (old : List (List ℕ)) → words_of_both many old all.items ≡ words_of_both many (words_of_both many old words.items) given.now) }
{
    if many {
        with_all(words, given)
    } else {
        later(words, given)
    }
}

/// The words of a statement that is met again.
fn words_of_both(
    alloc: Global,
    many: bool,
    old: WordList,
    new: Vec<Word>,
) -> Result<WordList, NoMemory>
    ensures { IfOk result (λ words. words ≡ words_of_both many old new.items) }
{
    if many {
        return old.joined(alloc, &new);
    }
    if new.is_empty() {
        return Ok(old);
    }
    WordList::of(alloc, &new)
}

/// The words of the statement of a path, with those that are to be joined to them. Most statements are met once, and have none.
#[tactic(auto, using(crate::proofs::JoinLemmas::nothing_more))]
fn with_later(
    alloc: Global,
    path: &Path,
    old: WordList,
    new: Vec<Word>,
) -> Result<WordList, NoMemory>
    ensures { IfOk result (λ words. words ≡ words_of_both (is_many_at path.now) old new.items) }
{
    if new.is_empty() {
        return Ok(old);
    }
    words_of_both(alloc, is_many(path), old, new)
}

/// A statement, and the names and words that are to be joined to its own.
#[derive(Debug, Drop)]
pub struct Pending {
    path: Path,
    value: Value,
    order: Vec<Word>,
    words: Vec<Word>,
}

impl Model for Pending {
    ghost use Rattle.cfg_base.specs.declared.value.Value as stored;
    ghost use Rattle.cfg_entries.specs.EntryMap.{Pair};
    ghost use Rattle.cfg_tree.specs.Gather.{with_more};

    ghost Value = { Pair stored.Value };

    ghost view = { λ p. (p.path, with_more p.path p.value p.order.items p.words.items) };
}

impl Pending {
    /// A statement that is met for the first time.
    pub fn of(alloc: Global, path: Path, value: Value) -> Pending
        ensures { result ≡ (path, value) }
    {
        Pending {
            path,
            value,
            order: Vec::new(alloc),
            words: Vec::new(alloc),
        }
    }

    /// Its path.
    pub fn path(&self) -> &Path
        ensures { result.now ≡ self.now.0 }
    {
        &self.path
    }

    /// The same, met once more with this value.
    pub fn met(self, new: &Value) -> Result<Pending, NoMemory>
        ensures { IfOk result (λ both. both ≡ (self.0, value_of_both self.0 self.1 new.now)) }
    {
        let Pending {
            path,
            value,
            order,
            words,
        } = self;
        let order = with_all(order, &new.order)?;
        let words = with_words(is_many(&path), words, &new.words)?;
        Ok(Pending {
            path,
            value: Value {
                inactive: value.inactive | new.inactive,
                protected: value.protected | new.protected,
                order: value.order,
                words: value.words,
            },
            order,
            words,
        })
    }

    /// The path, and the value of all times.
    pub fn entry(self, alloc: Global) -> Result<(Path, Value), NoMemory>
        ensures { IfOk result (λ entry. entry ≡ self) }
    {
        let Pending {
            path,
            value,
            order,
            words,
        } = self;
        let words = with_later(alloc, &path, value.words, words)?;
        let order = value.order.joined(alloc, &order)?;
        Ok((
            path,
            Value {
                inactive: value.inactive,
                protected: value.protected,
                order,
                words,
            },
        ))
    }
}
