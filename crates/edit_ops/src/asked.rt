//! Which statements a change names.

ghost use Rattle.std.specs.Prelude.{◌≡◌, ◌<◌, [], length, Decides, Ok, IfOk, IfErr};
ghost use Rattle.std.specs.Option.{option_copied};
ghost use Rattle.cfg_tree.specs.Statements.{parent_of};
ghost use Rattle.cfg_tree.specs.Typed.{IsTypedPath, IsLevelPath};
ghost use Rattle.cfg_resolve.specs.Resolve.{ResolvesTo, target};
ghost use Rattle.edit_ops.specs.Change.{words_of, second_words};
ghost use Rattle.edit_ops.specs.Answer.{NamesSubject, HasNoWords, IsWhole, IsNameFault, IsWordsFault, unwhole};
ghost use Rattle.edit_ops.specs.Made.{IsTarget, IsBesidePath, IsSubject};
ghost use Rattle.edit_ops.specs.declared.fault.EditFault.TheVariants.{Extra};

use crate::fault::EditFault;
use crate::subject::Subject;
use crate::words::has_words;
use cfg_base::{NoMemory, Path, Words};
use cfg_resolve::{Target, resolve};
use commands::Op;
use std::alloc::Global;

fn words_of(op: &Op) -> &Words
    ensures { result.now ≡ words_of op.now }
{
    match op {
        Op::Set(words)
        | Op::Delete(words)
        | Op::Activate(words)
        | Op::Deactivate(words)
        | Op::Protect(words)
        | Op::Unprotect(words) => words,
        Op::Rename { from, .. } | Op::Copy { from, .. } => from,
        Op::Insert { moved, .. } => moved,
    }
}

fn second_words(op: &Op) -> Option<&Words>
    ensures { option_copied result ≡ second_words op.now }
{
    match op {
        Op::Rename { to, .. } | Op::Copy { to, .. } => Some(to),
        Op::Insert { anchor, .. } => Some(anchor),
        Op::Set(_)
        | Op::Delete(_)
        | Op::Activate(_)
        | Op::Deactivate(_)
        | Op::Protect(_)
        | Op::Unprotect(_) => None,
    }
}

fn is_whole(op: &Op, target: &Target) -> bool
    ensures { Decides result (IsWhole op.now target.now) }
{
    match op {
        Op::Set(_) => !has_words(&target.path) || !target.words.as_slice().is_empty(),
        Op::Delete(_) => true,
        Op::Activate(_)
        | Op::Deactivate(_)
        | Op::Protect(_)
        | Op::Unprotect(_)
        | Op::Rename { .. }
        | Op::Copy { .. }
        | Op::Insert { .. } => target.words.as_slice().is_empty(),
    }
}

fn unwhole(op: &Op, path: Path) -> EditFault
    ensures { result ≡ unwhole op.now path }
{
    match op {
        Op::Set(_) => EditFault::Incomplete(path),
        Op::Delete(_)
        | Op::Activate(_)
        | Op::Deactivate(_)
        | Op::Protect(_)
        | Op::Unprotect(_)
        | Op::Rename { .. }
        | Op::Copy { .. }
        | Op::Insert { .. } => EditFault::Extra(path),
    }
}

/// The statement that a change is of, with the words after it.
fn first(alloc: Global, level: &Path, op: &Op) -> Result<Target, EditFault>
    requires { IsLevelPath level.now }
    ensures names { IfOk result (λ found. ResolvesTo level.now (words_of op.now) (Ok found)) }
    ensures whole { IfOk result (IsWhole op.now) }
    ensures target { IfOk result IsTarget }
    ensures err { IfErr result (IsNameFault level.now (words_of op.now) (IsWhole op.now) (unwhole op.now)) }
{
    let target = resolve(alloc, level, words_of(op))?;
    if is_whole(op, &target) {
        Ok(target)
    } else {
        Err(unwhole(op, target.path))
    }
}

/// The path without its last step.
pub fn parent_of(path: &Path) -> Result<Path, NoMemory>
    requires { 0 < length path.now }
    ensures { IfOk result (λ parent. parent ≡ parent_of path.now) }
{
    path.prefix(path.steps().len() - 1)
}

/// The statement that words name from the parent of another one.
fn second(alloc: Global, path: &Path, words: &Words) -> Result<Path, EditFault>
    requires steps { 0 < length path.now }
    requires typed { IsTypedPath path.now }
    ensures names { IfOk result (λ other. ResolvesTo (parent_of path.now) words.now (Ok (target other []))) }
    ensures beside { IfOk result (IsBesidePath path.now) }
    ensures err { IfErr result (IsNameFault (parent_of path.now) words.now HasNoWords Extra) }
{
    let parent = parent_of(path)?;
    let found = resolve(alloc, &parent, words)?;
    if found.words.as_slice().is_empty() {
        Ok(found.path)
    } else {
        Err(EditFault::Extra(found.path))
    }
}

/// What the words of a change name.
pub fn asked(alloc: Global, level: &Path, op: &Op) -> Result<Subject, EditFault>
    requires { IsLevelPath level.now }
    ensures ok { IfOk result (NamesSubject level.now op.now) }
    ensures subject { IfOk result IsSubject }
    ensures err { IfErr result (IsWordsFault level.now op.now) }
{
    let target = first(alloc, level, op)?;
    match second_words(op) {
        None => Ok(Subject {
            target,
            other: None,
        }),
        Some(words) => {
            let other = second(alloc, &target.path, words)?;
            Ok(Subject {
                target,
                other: Some(other),
            })
        }
    }
}
