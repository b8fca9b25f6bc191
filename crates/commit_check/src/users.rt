//! Rules of users: each has a class, and one that is there.

ghost use Rattle.std.specs.Prelude.{◌≡◌, not, IfOk};
ghost use Rattle.std.specs.List.{list_any};
ghost use Rattle.cfg_schema.specs.Profile.{same_word};
ghost use Rattle.commit_check.specs.Kinds.{is_user};
ghost use Rattle.commit_check.specs.Tests.{lacks_class, names_no_class, is_predefined, is_class};

use crate::kinds::{is_user, is_user_class};
use crate::lookup::{has_child, has_class};
use cfg_base::{NoMemory, Path, Word, WordList};
use cfg_tree::Full;
use std::alloc::Global;

/// Whether a path is that of a user without a class.
#[tactic(auto, using(crate::proofs::StartLemmas::user_short))]
pub fn lacks_class(alloc: Global, full: &Full, path: &Path) -> Result<bool, NoMemory>
    ensures { IfOk result (λ told. told ≡ lacks_class full.now path.now) }
{
    if !is_user(path) {
        return Ok(false);
    }
    Ok(!has_child(alloc, full, path, 17)?)
}

fn is_bytes(word: &Word, bytes: &[u8]) -> bool
    ensures { result ≡ same_word word.now bytes.now }
{
    word.as_bytes() == bytes
}

/// Whether a login class is there without being configured.
fn is_predefined(name: &Word) -> bool
    ensures { result ≡ is_predefined name.now }
{
    is_bytes(name, b"super-user")
        || is_bytes(name, b"operator")
        || is_bytes(name, b"read-only")
        || is_bytes(name, b"unauthorized")
}

fn is_class(alloc: Global, full: &Full, name: &Word) -> Result<bool, NoMemory>
    ensures { IfOk result (λ there. there ≡ is_class full.now name.now) }
{
    if is_predefined(name) {
        return Ok(true);
    }
    has_class(alloc, full, name)
}

/// Whether one of these words is no class.
fn has_unknown(alloc: Global, full: &Full, words: &WordList) -> Result<bool, NoMemory>
    ensures { IfOk result (λ told. told ≡ list_any (λ name. not (is_class full.now name)) words.now) }
{
    let mut left = words.iter();
    while let Some(word) = left.next() {
        if !is_class(alloc, full, word)? {
            return Ok(true);
        }
    }
    Ok(false)
}

/// Whether a path is that of a user's class that isn't there.
pub fn names_no_class(
    alloc: Global,
    full: &Full,
    path: &Path,
    words: &WordList,
) -> Result<bool, NoMemory>
    ensures { IfOk result (λ told. told ≡ names_no_class full.now path.now words.now) }
{
    if !is_user_class(path) {
        return Ok(false);
    }
    has_unknown(alloc, full, words)
}
