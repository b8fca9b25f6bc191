//! The first fault of the members of a JSON object, in the order of their walk.

ghost use Rattle.std.specs.Prelude.{◌≡◌, ◌≢◌, ◌≤◌, ◌<◌, ◌+◌, ◌⊎◌, ◌∷◌, ◌++◌, [], ℕ, List, true, None, Some, length, is_some, string_bytes, IfOk, MatchResult};
ghost use Rattle.cfg_base.specs.declared.path.TheConstants.{MAX_STEPS};
ghost use Rattle.cfg_schema.specs.Profile.{profile, row_of, rows_below};
ghost use Rattle.serde_json.specs.Data.{Items, boolean, item};
ghost use Rattle.serde_json.specs.Find.{get_member};
ghost use Rattle.serde_json.specs.View.{view, items_view, members_view};
ghost use Rattle.json_text.specs.declared.fault.JsonFault.TheVariants.{Form};
ghost use Rattle.json_text.specs.Checking.{HasFault, LevelFits, NextItem, ObjectFits, Tracks, spot};
ghost use Rattle.json_text.specs.Faults.{AreMarksAt, AreNoMarksAt, FaultInside, ItemsFault, LevelFault, ListFault, MemberFault, MemberFits, MembersFault, MembersFit, ObjectFault, RowFault, RowFits, key_kind};
ghost use Rattle.json_text.specs.Keys.{key_of};
ghost use Rattle.json_text.specs.Said.{AreInOrder, Item, SaysEach, SaysInside, SaysList, single_of};

use crate::building::key_text;
use crate::fault::ReadFault;
use crate::key::{KeyKind, is_named, key_kind};
use crate::marks::are_marks_at;
use crate::names::{Names, member, next_child, no_names};
use crate::refusal::{form, key_fault, single_path};
use crate::words::{check_leaf, check_many};
use cfg_base::{NoMemory, Path, Shape};
use cfg_schema::{Place, RowId, row, rows_below};
use serde_json::{Map, Value};
use std::alloc::Global;

/// The rows below a level, whose own row is one of the table.
fn rows_at(alloc: Global, here: &Place) -> Result<Vec<RowId>, NoMemory>
    ensures rows { IfOk result (λ rows. rows.items ≡ rows_below here.now.row here.now.in_group) }
    ensures within { here.now.row < length profile }
{
    let _ = here.row.number();
    rows_below(alloc, here.row, here.in_group)
}

/// Whether a row's statement stands among the members of an object.
fn has_row(alloc: Global, members: &Map<String, Value>, id: RowId) -> Result<bool, NoMemory>
    ensures { IfOk result (λ there. there ≡ is_some (get_member (key_of id) (members_view members.now.entries))) }
{
    let key = key_text(alloc, id)?;
    Ok(member(members, key.as_str()).is_some())
}

/// Marks beside a row's statement.
fn check_marks(
    alloc: Global,
    path: &Path,
    members: &Map<String, Value>,
    id: RowId,
    value: &Value,
) -> Result<(), ReadFault>
    requires { length path.now < MAX_STEPS }
    ensures { MatchResult result
        (λ _. AreMarksAt (Some (view value.now)) × (is_some (get_member (key_of id) (members_view members.now.entries)) ≡ true))
        (HasFault (λ fault. (AreNoMarksAt (Some (view value.now)) ⊎ (get_member (key_of id) (members_view members.now.entries) ≡ None))
        × (fault ≡ Form (path.now ++ single_of id ∷ [])))) }
{
    if are_marks_at(Some(value)) && has_row(alloc, members, id)? {
        return Ok(());
    }
    Err(form(&single_path(alloc, path, id)?))
}

/// What stands in the place of a Flag, at the Flag's path.
fn check_flag(path: &Path, value: &Value) -> Result<(), ReadFault>
    ensures { MatchResult result (λ _. view value.now ≡ boolean true)
        (HasFault (λ fault. (view value.now ≢ boolean true) × (fault ≡ Form path.now))) }
{
    match value {
        Value::Bool(true) => Ok(()),
        _ => Err(form(path)),
    }
}

/// What stands in a level, so many levels deep.
#[cycle(checking)]
pub(crate) fn check_inside(
    alloc: Global,
    path: &Path,
    here: &Place,
    members: &Map<String, Value>,
    levels: usize,
) -> Result<(), ReadFault>
    requires { length path.now + levels ≤ MAX_STEPS }
    ensures { MatchResult result (λ _. (items : List Item) × SaysInside levels (members_view members.now.entries) (spot path.now here.now) items)
        (HasFault (FaultInside levels (members_view members.now.entries) (spot path.now here.now))) }
{
    if levels == 0 {
        return Err(form(path));
    }
    let rows = rows_at(alloc, here)?;
    check_members(alloc, path, here, &rows, members, levels - 1)
}

/// The members of a level's object, below which are these rows.
#[cycle(checking)]
fn check_members(
    alloc: Global,
    path: &Path,
    here: &Place,
    rows: &[RowId],
    members: &Map<String, Value>,
    levels: usize,
) -> Result<(), ReadFault>
    requires deep { length path.now + levels < MAX_STEPS }
    requires rows { rows.now ≡ rows_below here.now.row here.now.in_group }
    ensures { MatchResult result
        (λ _. MembersFit (SaysInside levels) (spot path.now here.now) (members_view members.now.entries) (members_view members.now.entries))
        (HasFault (MembersFault (SaysInside levels) (FaultInside levels) (spot path.now here.now) (members_view members.now.entries)
        (members_view members.now.entries))) }
{
    for (key, value) in members.iter() {
        match check_member(alloc, path, here, rows, members, key, value, levels) {
            Ok(()) => {}
            Err(fault) => return Err(fault),
        }
    }
    Ok(())
}

/// One member.
#[cycle(checking)]
fn check_member(
    alloc: Global,
    path: &Path,
    here: &Place,
    rows: &[RowId],
    members: &Map<String, Value>,
    key: &String,
    value: &Value,
    levels: usize,
) -> Result<(), ReadFault>
    requires deep { length path.now + levels < MAX_STEPS }
    requires rows { rows.now ≡ rows_below here.now.row here.now.in_group }
    ensures { MatchResult result
        (λ _. MemberFits (SaysInside levels) (spot path.now here.now) (members_view members.now.entries) (key_kind here.now (string_bytes key.now))
        (view value.now))
        (HasFault (MemberFault (SaysInside levels) (FaultInside levels) (spot path.now here.now) (members_view members.now.entries)
        (key_kind here.now (string_bytes key.now)) (string_bytes key.now) (view value.now))) }
{
    match key_kind(here.row, rows, key.as_bytes()) {
        KeyKind::Own => Ok(()),
        KeyKind::OfRow(id) => check_row(alloc, path, here, id, value, levels),
        KeyKind::OfMarks(id) => check_marks(alloc, path, members, id, value),
        KeyKind::NoKey => Err(key_fault(alloc, path, key.as_bytes())),
    }
}

/// What stands at the key of a row.
#[cycle(checking)]
fn check_row(
    alloc: Global,
    path: &Path,
    here: &Place,
    id: RowId,
    value: &Value,
    levels: usize,
) -> Result<(), ReadFault>
    requires { length path.now + levels < MAX_STEPS }
    ensures { MatchResult result (λ _. RowFits (SaysInside levels) (row_of id).shape (spot path.now here.now) id (view value.now))
        (HasFault (RowFault (SaysInside levels) (FaultInside levels) (row_of id).shape (spot path.now here.now) id (view value.now))) }
{
    let row = row(id);
    if is_named(row.shape) {
        return check_list(alloc, path, here, id, value, levels);
    }
    let single = single_path(alloc, path, id)?;
    match row.shape {
        Shape::Leaf => check_leaf(alloc, row.value_kind, &single, value),
        Shape::Flag => check_flag(&single, value),
        Shape::Many => check_many(alloc, row.value_kind, &single, value),
        Shape::Container | Shape::Fixed | Shape::Keyed | Shape::Bare => {
            check_object(alloc, &single, &here.entered(id), value, levels)
        }
    }
}

/// The object of a level.
#[cycle(checking)]
fn check_object(
    alloc: Global,
    path: &Path,
    here: &Place,
    value: &Value,
    levels: usize,
) -> Result<(), ReadFault>
    requires { length path.now + levels ≤ MAX_STEPS }
    ensures { MatchResult result (λ _. ObjectFits (SaysInside levels) (spot path.now here.now) (view value.now))
        (HasFault (ObjectFault (SaysInside levels) (FaultInside levels) (spot path.now here.now) (view value.now))) }
{
    match value {
        Value::Object(members) => check_level(alloc, path, here, members, levels),
        Value::Null | Value::Bool(_) | Value::Number(_) | Value::String(_) | Value::Array(_) => {
            Err(form(path))
        }
    }
}

/// The marks of a level, and what stands in it.
#[cycle(checking)]
fn check_level(
    alloc: Global,
    path: &Path,
    here: &Place,
    members: &Map<String, Value>,
    levels: usize,
) -> Result<(), ReadFault>
    requires { length path.now + levels ≤ MAX_STEPS }
    ensures { MatchResult result (λ _. LevelFits (SaysInside levels) (spot path.now here.now) (members_view members.now.entries))
        (HasFault (LevelFault (SaysInside levels) (FaultInside levels) (spot path.now here.now) (members_view members.now.entries))) }
{
    if !are_marks_at(member(members, "@")) {
        return Err(form(path));
    }
    check_inside(alloc, path, here, members, levels)
}

/// The list of a row's statements.
#[cycle(checking)]
fn check_list(
    alloc: Global,
    path: &Path,
    here: &Place,
    id: RowId,
    value: &Value,
    levels: usize,
) -> Result<(), ReadFault>
    requires { length path.now + levels < MAX_STEPS }
    ensures { MatchResult result (λ _. (own : List Item) × SaysList (SaysInside levels) (spot path.now here.now) id (view value.now) own)
        (HasFault (ListFault (SaysInside levels) (FaultInside levels) (spot path.now here.now) id (view value.now))) }
{
    match value {
        Value::Array(values) => {
            if values.is_empty() {
                return Err(form(path));
            }
            check_items(alloc, path, here, id, values, levels)
        }
        Value::Null | Value::Bool(_) | Value::Number(_) | Value::String(_) | Value::Object(_) => {
            Err(form(path))
        }
    }
}

/// The objects of a list.
#[cycle(checking)]
fn check_items(
    alloc: Global,
    path: &Path,
    here: &Place,
    id: RowId,
    values: &[Value],
    levels: usize,
) -> Result<(), ReadFault>
    requires { length path.now + levels < MAX_STEPS }
    ensures { MatchResult result (λ _. (names : List (List ℕ)) × (own : List Item)
        × SaysEach (SaysInside levels) (spot path.now here.now) id (items_view values.now) names own × AreInOrder (row_of id).ordered names)
        (HasFault (ItemsFault (SaysInside levels) (FaultInside levels) (spot path.now here.now) id [] (items_view values.now))) }
{
    let mut names = no_names(alloc);
    for value in values {
        match check_item(alloc, path, here, id, value, &mut names, levels) {
            Ok(()) => {}
            Err(fault) => return Err(fault),
        }
    }
    Ok(())
}

/// The next object of a list, behind those whose names were met.
#[cycle(checking)]
fn check_item(
    alloc: Global,
    path: &Path,
    here: &Place,
    id: RowId,
    value: &Value,
    names: &mut Names,
    levels: usize,
) -> Result<(), ReadFault>
    requires { length path.now + levels < MAX_STEPS }
    ensures { (seen : List (List ℕ)) → Tracks (row_of id).ordered seen names.old → MatchResult result
        (λ _. (name : List ℕ) × NextItem (SaysInside levels) (spot path.now here.now) id (view value.now) seen name
        × Tracks (row_of id).ordered (seen ++ name ∷ []) names.new)
        (HasFault (λ fault. (ds : Items) → ItemsFault (SaysInside levels) (FaultInside levels) (spot path.now here.now) id seen
        (item (view value.now) ds) fault)) }
{
    let members = match value {
        Value::Object(members) => members,
        Value::Null | Value::Bool(_) | Value::Number(_) | Value::String(_) | Value::Array(_) => {
            return Err(form(path));
        }
    };
    let child = match next_child(alloc, path, here, id, members, names) {
        Ok(child) => child,
        Err(fault) => return Err(fault),
    };
    check_level(alloc, &child, &here.entered(id), members, levels)
}
