//! Changes that name two statements, on either side of a mark.

ghost use Rattle.std.specs.Prelude.{◌≡◌, ◌≤◌, length, take, drop, IfOk};
ghost use Rattle.shell_words.specs.Pair.{change_in, tokens_before, words_behind_first};

use crate::form::Symbol;
use crate::item::Item;
use crate::keyword::Keyword;
use crate::walk::give_run;
use cfg_base::{NoMemory, Words};
use commands::{Mover, Op};
use std::alloc::Global;

/// The change of this kind that a line of these tokens asks.
pub(crate) fn change_in(alloc: Global, mover: Mover, items: &[Item<'_>]) -> Result<Op, NoMemory>
    ensures { IfOk result (λ change. change ≡ change_in mover items.now) }
{
    let count = tokens_before(Keyword::Mark(mover), items);
    let front = words_behind_first(alloc, &items[..count])?;
    let back = words_behind_first(alloc, &items[count..])?;
    Ok(mover.op_of(front, back))
}

/// How many tokens stand before the first such mark.
fn tokens_before(mark: Keyword, items: &[Item<'_>]) -> usize
    ensures length { result ≡ tokens_before mark items.now }
    ensures within { result ≤ length items.now }
{
    items.iter().take_while(|item| !item.is_mark(mark)).count()
}

/// The words of the tokens after the first one.
fn words_behind_first(alloc: Global, items: &[Item<'_>]) -> Result<Words, NoMemory>
    ensures { IfOk result (λ words. words ≡ words_behind_first items.now) }
{
    let mut words = Words::new(alloc);
    if let [_, behind @ ..] = items {
        give_run(alloc, &mut words, Symbol::Word, behind)?;
    }
    Ok(words)
}
