//! The words of a statement after a change.

ghost use Rattle.std.specs.Prelude.{◌≡◌, IfOk};
ghost use Rattle.edit_ops.specs.Value.{has_words_at, is_many_at, words_set};

use cfg_base::{NoMemory, Path, Shape, WordList, Words};
use cfg_schema::{Place, row};
use std::alloc::Global;

/// Whether a path is that of a Leaf or a Many.
pub fn has_words(path: &Path) -> bool
    ensures { result ≡ has_words_at path.now }
{
    match Place::of(path.steps()) {
        Some(here) => matches!(row(here.row).shape, Shape::Leaf | Shape::Many),
        None => false,
    }
}

/// Whether a path is that of a Many.
pub fn is_many(path: &Path) -> bool
    ensures { result ≡ is_many_at path.now }
{
    match Place::of(path.steps()) {
        Some(here) => matches!(row(here.row).shape, Shape::Many),
        None => false,
    }
}

/// The words that a statement has after it is set.
pub fn words_set(
    alloc: Global,
    many: bool,
    old: &WordList,
    given: &Words,
) -> Result<WordList, NoMemory>
    ensures { IfOk result (λ words. words ≡ words_set many old.now given.now) }
{
    if many {
        old.joined(alloc, given.as_slice())
    } else {
        WordList::of(alloc, given.as_slice())
    }
}
