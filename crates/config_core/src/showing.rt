//! What a show says.

ghost use Rattle.std.specs.Prelude.{◌≡◌, ◌≤◌, ℕ, List, [], IfOk};
ghost use Rattle.std.specs.FinMap as map;
ghost use Rattle.commands.specs.declared.command.Form.{Form};
ghost use Rattle.cfg_tree.specs.declared.limit.TheConstants.{MAX_EXPANDED};
ghost use Rattle.cfg_tree.specs.Typed.{IsLevelPath};
ghost use Rattle.group_expand.specs.Expansion.{IsExpansion};
ghost use Rattle.config_core.specs.Showing.{ShowAsksFor, IsShow, IsShowActive, ShowsBelow, ShowsExpansion, path_alone};

use crate::position::Position;
use crate::refusing::refusal_of;
use crate::reply::{Refusal, Reply};
use cfg_base::{NoMemory, Path, Words};
use cfg_resolve::{Target, resolve};
use cfg_tree::{Full, Tree};
use commands::{Command, Form};
use curly_print::{print, print_inherited};
use edit_ops::EditFault;
use group_expand::{ExpandFault, expand};
use set_text::print_lines;
use std::alloc::Global;

fn path_alone(target: Target) -> Result<Path, Refusal>
    ensures { result ≡ path_alone target }
{
    if target.words.as_slice().is_empty() {
        Ok(target.path)
    } else {
        Err(Refusal::Extra(target.path))
    }
}

/// The path for which the words of a show ask from a level on, or why they are refused.
fn asked_path(alloc: Global, level: &Path, words: &Words) -> Result<Result<Path, Refusal>, NoMemory>
    requires { IsLevelPath level.now }
    ensures { IfOk result (ShowAsksFor level.now words.now) }
{
    if words.as_slice().is_empty() {
        return Ok(Ok(level.clone()?));
    }
    match resolve(alloc, level, words) {
        Ok(target) => Ok(path_alone(target)),
        Err(why) => Ok(Err(refusal_of(EditFault::from(why)).ok_or(NoMemory)?)),
    }
}

/// What is shown of the expansion of a configuration below a path.
fn expansion_below(alloc: Global, tree: &Tree, path: &Path) -> Result<Reply, NoMemory>
    ensures { IfOk result (ShowsExpansion tree.now path.now) }
{
    match expand(alloc, tree) {
        Ok(full) => Ok(Reply::Text(print_inherited(alloc, &full, path)?)),
        Err(ExpandFault::TooWide) => Ok(Reply::Refused(Refusal::TooWide)),
        Err(ExpandFault::NoMemory) => Err(NoMemory),
    }
}

/// What is shown of a configuration below a path. It is expanded only to show what is inherited.
fn shown_below(alloc: Global, tree: &Tree, form: Form, path: &Path) -> Result<Reply, NoMemory>
    ensures { IfOk result (ShowsBelow form tree.now path.now) }
{
    match form {
        Form::Curly => Ok(Reply::Text(print(alloc, tree, path)?)),
        Form::SetLines => Ok(Reply::Text(print_lines(alloc, tree, path)?)),
        Form::Inherited => expansion_below(alloc, tree, path),
    }
}

/// What a show of a configuration says from a level on.
pub(crate) fn show(
    alloc: Global,
    tree: &Tree,
    level: &Path,
    words: &Words,
    form: Form,
) -> Result<Reply, NoMemory>
    requires { IsLevelPath level.now }
    ensures { IfOk result (IsShow tree.now level.now words.now form) }
{
    match asked_path(alloc, level, words)? {
        Ok(path) => shown_below(alloc, tree, form, &path),
        Err(refusal) => Ok(Reply::Refused(refusal)),
    }
}

/// The same of a configuration whose expansion is at hand.
fn shown_with(
    alloc: Global,
    tree: &Tree,
    full: &Full,
    form: Form,
    path: &Path,
) -> Result<Reply, NoMemory>
    requires expansion { IsExpansion tree.now full.now }
    requires within { map.len full.now ≤ MAX_EXPANDED }
    ensures { IfOk result (ShowsBelow form tree.now path.now) }
{
    match form {
        Form::Inherited => Ok(Reply::Text(print_inherited(alloc, full, path)?)),
        Form::Curly | Form::SetLines => shown_below(alloc, tree, form, path),
    }
}

/// The reply to a show of the active configuration, by that configuration and its expansion alone.
pub fn show_active(
    alloc: Global,
    active: &Tree,
    full: &Full,
    command: &Command,
) -> Result<Reply, NoMemory>
    requires command { IsShowActive command.now }
    requires expansion { IsExpansion active.now full.now }
    requires within { map.len full.now ≤ MAX_EXPANDED }
    ensures { (asked : List (List ℕ)) (form : Form) → command.now ≡ Command.ShowActive asked form
        → IfOk result (IsShow active.now [] asked form) }
{
    let Command::ShowActive { words, form } = command else {
        unreachable!()
    };
    let top = Position::top(alloc);
    match asked_path(alloc, top.level(), words)? {
        Ok(path) => shown_with(alloc, active, full, *form, &path),
        Err(refusal) => Ok(Reply::Refused(refusal)),
    }
}
