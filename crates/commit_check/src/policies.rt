//! Rules of policies: what an import or export names is a policy statement, and what a policy takes from is a prefix list.

ghost use Rattle.std.specs.Prelude.{◌≡◌, not, IfOk};
ghost use Rattle.std.specs.List.{list_any};
ghost use Rattle.commit_check.specs.Kinds.{is_in, policy_of};
ghost use Rattle.commit_check.specs.Tests.{names_no_policy, names_no_list};

use crate::kinds::{is_from_list, is_policy_list};
use crate::lookup::{has_policy, has_prefix_list};
use cfg_base::{NoMemory, Path, WordList};
use cfg_tree::Full;
use std::alloc::Global;

/// Whether one of these words is no policy statement.
fn has_unknown(alloc: Global, full: &Full, words: &WordList) -> Result<bool, NoMemory>
    ensures { IfOk result (λ told. told ≡ list_any (λ name. not (is_in full.now (policy_of name))) words.now) }
{
    let mut left = words.iter();
    while let Some(word) = left.next() {
        if !has_policy(alloc, full, word)? {
            return Ok(true);
        }
    }
    Ok(false)
}

/// Whether a path is that of a list of policies, one of which isn't there.
pub fn names_no_policy(
    alloc: Global,
    full: &Full,
    path: &Path,
    words: &WordList,
) -> Result<bool, NoMemory>
    ensures { IfOk result (λ told. told ≡ names_no_policy full.now path.now words.now) }
{
    if !is_policy_list(path) {
        return Ok(false);
    }
    has_unknown(alloc, full, words)
}

/// Whether a path is that of a `from prefix-list` whose list isn't there.
pub fn names_no_list(alloc: Global, full: &Full, path: &Path) -> Result<bool, NoMemory>
    ensures { IfOk result (λ told. told ≡ names_no_list full.now path.now) }
{
    if !is_from_list(path) {
        return Ok(false);
    }
    match path.steps().last() {
        Some(step) => Ok(!has_prefix_list(alloc, full, &step.name)?),
        None => Ok(false),
    }
}
