//! The rights of a session's user for shows: they are found by the last view that the session's reader has, and kept for as long as
//! it has no more views.

ghost use Rattle.std.specs.Prelude.{◌≡◌, [], length, IfOk, IfSome, Some};
ghost use Rattle.active_snapshot.specs.Views.{IsLast};
ghost use Rattle.session_threads.specs.Access.{Finds, Lacks};
ghost use Rattle.session_threads.specs.Found.{KnowsRights, WereFound};

use access_rules::{AccessFault, Right, Rights};
use active_snapshot::{Naming, Shown, SnapReader};
use cfg_base::{NoMemory, Path, UserName};
use commands::Command;
use group_expand::expansion_is_one;
use std::alloc::Global;

/// A user's rights by the last of so many views.
#[derive(Drop)]
pub(crate) struct FoundRights {
    views: u64,
    rights: Rights,
}

/// Finds a user's rights by the last view of a reader.
fn find_rights<J: Naming>(
    alloc: Global,
    user: &UserName,
    reader: &SnapReader<J>,
    view: &Shown,
) -> Result<FoundRights, NoMemory>
    requires { IsLast reader.now.list view.now }
    ensures views { IfOk result (λ found. found.views ≡ length reader.now.list) }
    ensures found { IfOk result (WereFound (Some user.now) reader.now.list) }
{
    expansion_is_one();
    Ok(FoundRights {
        views: reader.kept(),
        rights: Rights::of(alloc, view.full(), user)?,
    })
}

/// The rights that were found, where a reader has no more views since.
fn found_last<'a, J: Naming>(
    found: &'a Option<FoundRights>,
    reader: &SnapReader<J>,
) -> Option<&'a FoundRights>
    ensures is { IfSome result (λ last. found.now ≡ Some last.now) }
    ensures views { IfSome result (λ last. last.now.views ≡ length reader.now.list) }
{
    match found {
        Some(last) if last.views == reader.kept() => Some(last),
        _ => None,
    }
}

/// The first right that a user lacks for a command at the top, by the last view of a reader.
fn lacking<J: Naming>(
    alloc: Global,
    found: &mut Option<FoundRights>,
    user: &UserName,
    reader: &SnapReader<J>,
    view: &Shown,
    command: &Command,
) -> Result<Option<Right>, NoMemory>
    requires last { IsLast reader.now.list view.now }
    requires knows { KnowsRights (Some user.now) reader.now.list found.old }
    ensures lacks { IfOk result (Lacks view.now user.now [] command.now) }
    ensures knows { KnowsRights (Some user.now) reader.now.list found.new }
{
    let top = Path::top(alloc);
    if let Some(last) = found_last(found, reader) {
        return Ok(last.rights.missing(&top, command));
    }
    let now = find_rights(alloc, user, reader, view)?;
    let missing = now.rights.missing(&top, command);
    *found = Some(now);
    Ok(missing)
}

/// What is found of a user's rights for a command at the top, by the last view of a reader, where they are asked.
pub(crate) fn find_by_reader<J: Naming>(
    alloc: Global,
    found: &mut Option<FoundRights>,
    user: &Option<UserName>,
    reader: &SnapReader<J>,
    view: &Shown,
    command: &Command,
) -> Result<(), AccessFault>
    requires last { IsLast reader.now.list view.now }
    requires knows { KnowsRights user.now reader.now.list found.old }
    ensures finds { Finds user.now view.now [] command.now result }
    ensures knows { KnowsRights user.now reader.now.list found.new }
{
    let Some(user) = user else {
        return Ok(());
    };
    match lacking(alloc, found, user, reader, view, command)? {
        Some(right) => Err(AccessFault::Denied(right)),
        None => Ok(()),
    }
}
