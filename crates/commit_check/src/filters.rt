//! Rules of firewall filters: what a unit uses is a filter, and a term ends in one way.

ghost use Rattle.std.specs.Prelude.{◌≡◌, not, IfOk};
ghost use Rattle.std.specs.List.{list_any};
ghost use Rattle.commit_check.specs.Kinds.{is_in, filter_of};
ghost use Rattle.commit_check.specs.Tests.{names_no_filter, ends_twice, two_of};

use crate::kinds::{is_filter_end, is_filter_use};
use crate::lookup::{has_child, has_filter};
use cfg_base::{NoMemory, Path, WordList};
use cfg_tree::Full;
use std::alloc::Global;

/// Whether one of these words is no filter.
fn has_unknown(alloc: Global, full: &Full, words: &WordList) -> Result<bool, NoMemory>
    ensures { IfOk result (λ told. told ≡ list_any (λ name. not (is_in full.now (filter_of name))) words.now) }
{
    let mut left = words.iter();
    while let Some(word) = left.next() {
        if !has_filter(alloc, full, word)? {
            return Ok(true);
        }
    }
    Ok(false)
}

/// Whether a path is that of a use of a filter that isn't there.
pub fn names_no_filter(
    alloc: Global,
    full: &Full,
    path: &Path,
    words: &WordList,
) -> Result<bool, NoMemory>
    ensures { IfOk result (λ told. told ≡ names_no_filter full.now path.now words.now) }
{
    if !is_filter_use(path) {
        return Ok(false);
    }
    has_unknown(alloc, full, words)
}

fn two_of(a: bool, b: bool, c: bool) -> bool
    ensures { result ≡ two_of a b c }
{
    (a && (b || c)) || (b && c)
}

/// Whether a path is that of a `then` with two of `accept`, `discard` and `reject`.
#[tactic(auto, using(crate::proofs::StartLemmas::end_short))]
pub fn ends_twice(alloc: Global, full: &Full, path: &Path) -> Result<bool, NoMemory>
    ensures { IfOk result (λ told. told ≡ ends_twice full.now path.now) }
{
    if !is_filter_end(path) {
        return Ok(false);
    }
    let accept = has_child(alloc, full, path, 112)?;
    let discard = has_child(alloc, full, path, 113)?;
    let reject = has_child(alloc, full, path, 114)?;
    Ok(two_of(accept, discard, reject))
}
