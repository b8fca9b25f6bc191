//! The rights of a user.

ghost use Rattle.std.specs.Prelude.{◌≡◌, [], ◌∷◌, length, ◌<◌, IfOk};
ghost use Rattle.std.specs.FinMap as finite;
ghost use Rattle.cfg_base.specs.Words.{same_word};
ghost use Rattle.access_rules.specs.Rights.{class_of, first_or, given_words, has_right, login_path, rights_of, words_of_class};

use crate::lookup::login_path;
use crate::right::{Right, gives};
use cfg_base::{NoMemory, UserName, Word, WordList};
use cfg_tree::Full;
use std::alloc::Global;
use std::marker::Model;

/// What a user may do, as the words that give the rights.
#[derive(Debug, Drop)]
pub struct Rights {
    words: WordList,
}

impl Model for Rights {
    ghost use Rattle.std.specs.Prelude.{List, ℕ};

    ghost Value = { List (List ℕ) };

    ghost view = { λ r. r.words };
}

/// Whether a word has these bytes.
fn is_bytes(word: &Word, bytes: &[u8]) -> bool
    ensures { result ≡ same_word word.now bytes.now }
{
    word.as_bytes() == bytes
}

/// The list of one word.
fn one_word(alloc: Global, word: &'static [u8]) -> Result<WordList, NoMemory>
    requires { length word.now < 256 }
    ensures { IfOk result (λ words. words ≡ word.now ∷ []) }
{
    let mut words = WordList::new(alloc);
    words.push(Word::short(alloc, word)?)?;
    Ok(words)
}

/// The first of these words, or another one where there is none.
fn first_or(alloc: Global, other: &'static [u8], words: &WordList) -> Result<Word, NoMemory>
    requires { length other.now < 256 }
    ensures { IfOk result (λ word. word ≡ first_or other.now words.now) }
{
    let mut left = words.iter();
    match left.next() {
        Some(word) => Ok(word.clone()?),
        None => Word::short(alloc, other),
    }
}

/// The words of a statement below a class or a user.
fn given_words(
    alloc: Global,
    full: &Full,
    head: &'static [u8],
    name: &Word,
    below: &'static [u8],
) -> Result<WordList, NoMemory>
    requires head { length head.now < 256 }
    requires below { length below.now < 256 }
    ensures { IfOk result (λ words. words ≡ given_words (finite.get full.now (login_path head.now name.now below.now))) }
{
    let path = login_path(alloc, head, name, below)?;
    match full.at(&path) {
        Some(given) => Ok(given.words.clone()?),
        None => Ok(WordList::new(alloc)),
    }
}

/// The class of a user.
fn class_of(alloc: Global, full: &Full, user: &Word) -> Result<Word, NoMemory>
    ensures { IfOk result (λ class. class ≡ class_of full.now user.now) }
{
    let words = given_words(alloc, full, b"user", user, b"class")?;
    first_or(alloc, b"unauthorized", &words)
}

/// The words of a class.
fn words_of_class(alloc: Global, full: &Full, class: &Word) -> Result<WordList, NoMemory>
    ensures { IfOk result (λ words. words ≡ words_of_class full.now class.now) }
{
    if is_bytes(class, b"super-user") {
        return one_word(alloc, b"all");
    }
    if is_bytes(class, b"operator") {
        let mut words = one_word(alloc, b"clear")?;
        words.push(Word::short(alloc, b"view")?)?;
        return Ok(words);
    }
    if is_bytes(class, b"read-only") {
        return one_word(alloc, b"view");
    }
    if is_bytes(class, b"unauthorized") {
        return Ok(WordList::new(alloc));
    }
    given_words(alloc, full, b"class", class, b"permissions")
}

impl Rights {
    /// The rights of a user, by the expansion of the active configuration.
    pub fn of(alloc: Global, full: &Full, user: &UserName) -> Result<Rights, NoMemory>
        ensures { IfOk result (λ rights. rights ≡ rights_of full.now user.now) }
    {
        let user = user.as_word();
        if is_bytes(user, b"root") {
            return Ok(Rights {
                words: one_word(alloc, b"all")?,
            });
        }
        let class = class_of(alloc, full, user)?;
        Ok(Rights {
            words: words_of_class(alloc, full, &class)?,
        })
    }

    /// Whether a right is among them.
    pub fn has(&self, right: Right) -> bool
        ensures { result ≡ has_right self.now right }
    {
        any_gives(&self.words, right)
    }
}

/// Whether one of these words gives a right.
fn any_gives(words: &WordList, right: Right) -> bool
    ensures { result ≡ has_right words.now right }
{
    let mut left = words.iter();
    while let Some(word) = left.next() {
        if gives(word.as_bytes(), right) {
            return true;
        }
    }
    false
}
