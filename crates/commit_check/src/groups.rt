//! The rule of groups: what a live statement applies or excepts is a live group.

ghost use Rattle.std.specs.Prelude.{◌≡◌, not, [], ◌∷◌, take, drop, codes, true, Some, IfOk, MatchOption};
ghost use Rattle.std.specs.FinMap as map;
ghost use Rattle.std.specs.List.{list_any};
ghost use Rattle.std.specs.Option.{option_copied};
ghost use Rattle.cfg_tree.specs.Tree.{step_of};
ghost use Rattle.group_expand.specs.Live.{is_active, is_live, live_from, live_words};
ghost use Rattle.group_expand.specs.Sources.{groups_step};
ghost use Rattle.group_expand.specs.Expansion.{is_apply};
ghost use Rattle.commit_check.specs.Groups.{is_group, names_no_group};
ghost use Rattle.commit_check.specs.Least.{Nowhere, IsLeast};
ghost use Rattle.commit_check.specs.First.{first_of};

use crate::lookup::{below, plain};
use cfg_base::{NoMemory, Path, Step, Value, Word, WordList};
use cfg_tree::Tree;
use group_expand::is_apply;
use std::alloc::Global;

fn is_active(value: Option<&Value>) -> bool
    ensures { result ≡ is_active (option_copied value.entry) }
{
    match value {
        Some(value) => !value.inactive,
        None => false,
    }
}

/// Whether a path is live: it and all above it stand, and none of them is inactive.
#[tactic(auto, using(crate::proofs::GroupLemmas::live_step))]
fn is_live(tree: &Tree, path: &Path) -> Result<bool, NoMemory>
    ensures { IfOk result (λ live. live ≡ is_live (map.get tree.now) path.now) }
{
    let count = path.steps().len();
    let mut front = 0;
    while front < count {
        front += 1;
        if !is_active(tree.at(&path.prefix(front)?)) {
            return Ok(false);
        }
    }
    Ok(true)
}

/// The path of a group.
#[tactic(auto, using(crate::proofs::GroupLemmas::groups_plain))]
fn group_path(alloc: Global, name: &Word) -> Result<Path, NoMemory>
    ensures { IfOk result (λ path. path ≡ groups_step ∷ step_of [] name.now ∷ []) }
{
    let top = Path::top(alloc);
    let groups = below(&top, plain(alloc, 2)?)?;
    below(
        &groups,
        Step {
            head: Word::empty(alloc),
            name: name.clone()?,
        },
    )
}

/// Whether a live group has this name.
fn is_group(alloc: Global, tree: &Tree, name: &Word) -> Result<bool, NoMemory>
    ensures { IfOk result (λ there. there ≡ is_group tree.now name.now) }
{
    is_live(tree, &group_path(alloc, name)?)
}

/// Whether one of these words is no live group.
fn has_unknown(alloc: Global, tree: &Tree, words: &WordList) -> Result<bool, NoMemory>
    ensures { IfOk result (λ told. told ≡ list_any (λ name. not (is_group tree.now name)) words.now) }
{
    let mut left = words.iter();
    while let Some(word) = left.next() {
        if !is_group(alloc, tree, word)? {
            return Ok(true);
        }
    }
    Ok(false)
}

/// Whether a path applies or excepts groups.
#[tactic(auto, using(crate::proofs::GroupLemmas::apply_last))]
fn is_apply_path(path: &Path) -> bool
    ensures { result ≡ is_apply path.now }
{
    match path.steps().last() {
        Some(step) => is_apply(step),
        None => false,
    }
}

/// Whether a path is that of a live statement that applies or excepts a group which isn't there.
fn names_no_group(alloc: Global, tree: &Tree, path: &Path) -> Result<bool, NoMemory>
    ensures { IfOk result (λ told. told ≡ names_no_group tree.now path.now) }
{
    if !is_apply_path(path) {
        return Ok(false);
    }
    if !is_live(tree, path)? {
        return Ok(false);
    }
    match tree.at(path) {
        Some(value) => has_unknown(alloc, tree, &value.words),
        None => Ok(false),
    }
}

/// The same of a statement that is there.
#[tactic(auto, using(crate::proofs::GroupLemmas::wordless))]
fn names_no_group_at(
    alloc: Global,
    tree: &Tree,
    path: &Path,
    value: &Value,
) -> Result<bool, NoMemory>
    requires { map.get tree.now path.now ≡ Some value.now }
    ensures { IfOk result (λ told. told ≡ names_no_group tree.now path.now) }
{
    // Most statements have no words, and their paths aren't read.
    if value.words.is_empty() {
        return Ok(false);
    }
    names_no_group(alloc, tree, path)
}

/// The first path of a live statement that applies or excepts a group which isn't there.
fn first_unknown(alloc: Global, tree: &Tree) -> Result<Option<Path>, NoMemory>
    ensures { IfOk result (λ found. found ≡ first_of (λ e. names_no_group tree.now e.0) (map.entries tree.now)) }
{
    let mut left = tree.walk();
    while let Some((path, value)) = left.next() {
        if names_no_group_at(alloc, tree, path, value)? {
            return Ok(Some(path.clone()?));
        }
    }
    Ok(None)
}

/// The least path of a live statement that applies or excepts a group which isn't there.
pub fn least_unknown(alloc: Global, tree: &Tree) -> Result<Option<Path>, NoMemory>
    ensures { IfOk result (λ least. MatchOption least (Nowhere (λ path. names_no_group tree.now path ≡ true)) (IsLeast (λ path. names_no_group tree.now path ≡ true))) }
{
    first_unknown(alloc, tree)
}
