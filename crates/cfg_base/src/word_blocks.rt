//! Words in blocks that copies share, and how many they are.

ghost use Rattle.std.specs.Prelude.{◌≡◌, ◌∷◌, [], ◌++◌, length, OnOk, OnErr, IfOk};
ghost use Rattle.std.specs.List.{list_any};
ghost use Rattle.cfg_base.specs.Blocks.{flat, IsSized, AreSized};
ghost use Rattle.cfg_base.specs.Words.{lists, words_without};

use crate::blocks::{push_block, push_word};
use crate::fault::NoMemory;
use crate::lookup::Lookup;
use crate::shared::Shared;
use crate::word::Word;
use std::alloc::{AllocError, Global};
use std::marker::Model;

/// Words in blocks. A copy costs one count for each block.
#[derive(Debug, Drop)]
pub(crate) struct WordBlocks {
    alloc: Global,
    blocks: Vec<Shared<Word>>,
    len: usize,
}

impl Model for WordBlocks {
    ghost use Rattle.std.specs.Prelude.{List, ℕ};
    ghost use Rattle.cfg_base.specs.Blocks.{flat};
    ghost use Rattle.cfg_base.specs.Words.{AreListed};

    ghost Value = { List (List ℕ) };

    ghost view = { λ w. flat w.blocks.items };

    ghost invariant = { λ w. AreListed w.blocks.items w.len };
}

impl WordBlocks {
    /// No words.
    fn new(alloc: Global) -> WordBlocks
        ensures { result ≡ [] }
    {
        WordBlocks {
            alloc,
            blocks: Vec::new(alloc),
            len: 0,
        }
    }

    /// Two words.
    pub fn two(alloc: Global, first: Word, second: Word) -> Result<WordBlocks, NoMemory>
        ensures { IfOk result (λ words. words ≡ first ∷ second ∷ []) }
    {
        let mut words = WordBlocks::new(alloc);
        words.push(first)?;
        words.push(second)?;
        Ok(words)
    }

    /// How many words there are.
    pub fn len(&self) -> usize
        ensures { result ≡ length self.now }
    {
        self.len
    }

    /// The blocks, in order.
    pub fn blocks(&self) -> &[Shared<Word>]
        ensures words { flat result.now ≡ self.now }
        ensures sized { AreSized result.now }
    {
        &self.blocks
    }

    /// Puts a word at the end.
    pub fn push(&mut self, word: Word) -> Result<(), NoMemory>
        ensures ok { OnOk result (self.new ≡ self.old ++ word ∷ []) }
        ensures unchanged { OnErr result (self.new ≡ self.old) }
    {
        // There is no memory for as many words as no number counts.
        let len = self.len.checked_add(1).ok_or(NoMemory)?;
        push_word(self.alloc, &mut self.blocks, word)?;
        self.len = len;
        Ok(())
    }

    /// Puts a block of words at the end.
    fn append(&mut self, block: Shared<Word>) -> Result<(), NoMemory>
        requires { IsSized block }
        ensures { OnOk result (self.new ≡ self.old ++ block) }
    {
        // There is no memory for as many words as no number counts.
        let len = self.len.checked_add(block.items().len()).ok_or(NoMemory)?;
        push_block(&mut self.blocks, block)?;
        self.len = len;
        Ok(())
    }

    /// The words that aren't among those that go. It shares each block that has none of these.
    pub fn without(&self, gone: &Lookup<'_>) -> Result<WordBlocks, NoMemory>
        ensures { IfOk result (λ left. left ≡ words_without self.now gone.now) }
    {
        left_of(self.alloc, &self.blocks, gone)
    }
}

/// Whether any of these words goes.
fn loses(words: &[Word], gone: &Lookup<'_>) -> bool
    ensures { result ≡ list_any (lists gone.now) words.now }
{
    words.iter().any(|word| gone.has(word))
}

/// The words of a block that don't go.
fn kept(alloc: Global, words: &[Word], gone: &Lookup<'_>) -> Result<Vec<Word>, NoMemory>
    ensures { IfOk result (λ left. left.items ≡ words_without words.now gone.now) }
{
    let mut left = Vec::new(alloc);
    for word in words {
        if !gone.has(word) {
            left.push(word.clone()?)?;
        }
    }
    Ok(left)
}

/// Puts those words of a block that don't go at the end of a list.
fn keep(
    alloc: Global,
    left: &mut WordBlocks,
    block: &Shared<Word>,
    gone: &Lookup<'_>,
) -> Result<(), NoMemory>
    requires { IsSized block.now }
    ensures { OnOk result (left.new ≡ left.old ++ words_without block.now gone.now) }
{
    if !loses(block.items(), gone) {
        return left.append(block.clone()?);
    }
    let words = kept(alloc, block.items(), gone)?;
    if words.is_empty() {
        return Ok(());
    }
    left.append(Shared::new(alloc, words)?)
}

/// The words of these blocks that don't go.
fn left_of(
    alloc: Global,
    blocks: &[Shared<Word>],
    gone: &Lookup<'_>,
) -> Result<WordBlocks, NoMemory>
    requires { AreSized blocks.now }
    ensures { IfOk result (λ left. left ≡ words_without (flat blocks.now) gone.now) }
{
    let mut left = WordBlocks::new(alloc);
    for block in blocks {
        keep(alloc, &mut left, block, gone)?;
    }
    Ok(left)
}

impl Clone for WordBlocks {
    ghost is_clone = { λ source copy. copy ≡ source };

    fn clone(&self) -> Result<WordBlocks, AllocError> {
        Ok(WordBlocks {
            alloc: self.alloc,
            blocks: self.blocks.clone()?,
            len: self.len,
        })
    }
}
