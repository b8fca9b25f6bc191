//! Words in blocks that copies share.

ghost use Rattle.std.specs.Prelude.{◌≡◌, ◌∷◌, [], ◌++◌, true, OnOk, OnErr, IfOk};
ghost use Rattle.cfg_base.specs.Blocks.{flat, IsSized, AreSized};
ghost use Rattle.cfg_base.specs.Words.{HasRoom, lists};

use crate::fault::NoMemory;
use crate::lookup::has_word;
use crate::shared::{MAX_ITEMS, Shared};
use crate::word::Word;
use std::alloc::Global;

/// The words of a block with one more.
fn longer(alloc: Global, words: &[Word], word: Word) -> Result<Vec<Word>, NoMemory>
    ensures { IfOk result (λ made. made.items ≡ words.now ++ word ∷ []) }
{
    let mut made = Vec::with_capacity(alloc, words.len().saturating_add(1))?;
    made.extend_with_clones(words)?;
    made.push(word)?;
    Ok(made)
}

/// Whether the last block takes one more word.
fn has_room(blocks: &[Shared<Word>]) -> bool
    ensures { HasRoom blocks.now result }
{
    match blocks.last() {
        Some(block) => block.items().len() < MAX_ITEMS,
        None => false,
    }
}

/// Puts a word into the last block.
fn push_in(alloc: Global, blocks: &mut Vec<Shared<Word>>, word: Word) -> Result<(), NoMemory>
    requires { HasRoom blocks.old.items true }
    ensures same { OnOk result (flat blocks.new.items ≡ flat blocks.old.items ++ word ∷ []) }
    ensures sized { AreSized blocks.old.items → AreSized blocks.new.items }
    ensures unchanged { OnErr result (blocks.new.items ≡ blocks.old.items) }
{
    let last = blocks.len() - 1;
    let words = longer(alloc, blocks[last].items(), word)?;
    blocks[last] = Shared::new(alloc, words)?;
    Ok(())
}

/// Puts a block after the others.
pub(crate) fn push_block(
    blocks: &mut Vec<Shared<Word>>,
    block: Shared<Word>,
) -> Result<(), NoMemory>
    requires { IsSized block }
    ensures same { OnOk result (flat blocks.new.items ≡ flat blocks.old.items ++ block) }
    ensures sized { AreSized blocks.old.items → AreSized blocks.new.items }
    ensures unchanged { OnErr result (blocks.new.items ≡ blocks.old.items) }
{
    blocks.push(block)?;
    Ok(())
}

/// Puts a word into a block of its own.
fn push_alone(alloc: Global, blocks: &mut Vec<Shared<Word>>, word: Word) -> Result<(), NoMemory>
    ensures same { OnOk result (flat blocks.new.items ≡ flat blocks.old.items ++ word ∷ []) }
    ensures sized { AreSized blocks.old.items → AreSized blocks.new.items }
    ensures unchanged { OnErr result (blocks.new.items ≡ blocks.old.items) }
{
    let words = longer(alloc, &[], word)?;
    push_block(blocks, Shared::new(alloc, words)?)
}

/// Puts a word after the others.
pub(crate) fn push_word(
    alloc: Global,
    blocks: &mut Vec<Shared<Word>>,
    word: Word,
) -> Result<(), NoMemory>
    ensures same { OnOk result (flat blocks.new.items ≡ flat blocks.old.items ++ word ∷ []) }
    ensures sized { AreSized blocks.old.items → AreSized blocks.new.items }
    ensures unchanged { OnErr result (blocks.new.items ≡ blocks.old.items) }
{
    if has_room(blocks) {
        push_in(alloc, blocks, word)
    } else {
        push_alone(alloc, blocks, word)
    }
}

/// Whether a word is in one of the blocks.
pub(crate) fn in_blocks(blocks: &[Shared<Word>], word: &Word) -> bool
    ensures { result ≡ lists (flat blocks.now) word.now }
{
    for block in blocks {
        if has_word(block.items(), word) {
            return true;
        }
    }
    false
}
