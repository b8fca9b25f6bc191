//! The configuration that a JSON value says.

ghost use Rattle.std.specs.Prelude.{◌≡◌, ◌≤◌, ◌<◌, ◌+◌, List, length, IfOk, IsErrOf, option_map};
ghost use Rattle.cfg_base.specs.declared.path.TheConstants.{MAX_STEPS};
ghost use Rattle.cfg_schema.specs.Profile.{row_of};
ghost use Rattle.cfg_tree.specs.Statements.{Statements, size_of};
ghost use Rattle.cfg_tree.specs.declared.limit.TheConstants.{MAX_STATEMENTS};
ghost use Rattle.serde_json.specs.View.{view, items_view};
ghost use Rattle.json_text.specs.Collecting.{AreWordsIn, Collects, SaysItems, TellsEach, TellsNamed, members_in, spot_in};
ghost use Rattle.json_text.specs.Said.{Item, Says, SaysInside, SaysLevel, SaysList, SaysRowIf, SaysRows, SaysWords, single_of};
ghost use Rattle.json_text.specs.Keys.{key_of, marks_key};
ghost use Rattle.serde_json.specs.Find.{get_member};

use crate::building::key_of;
use crate::collected::{CollectFault, Collected};
use crate::here::Here;
use crate::key::{is_level, is_named};
use crate::words_in::{marks_beside, member, name_in, value_in, words_of_row};
use cfg_base::{MAX_STEPS, NoMemory, Shape, Step, Word, WordList};
use cfg_schema::{RowId, fixed_name, head, row, rows_below};
use cfg_tree::Tree;
use serde_json::Value;
use std::alloc::Global;

/// A word of the profile.
fn copied(alloc: Global, bytes: &[u8]) -> Result<Word, NoMemory>
    ensures { IfOk result (λ word. word ≡ bytes.now) }
{
    match Word::of(alloc, bytes) {
        Ok(word) => Ok(word),
        Err(_) => Err(NoMemory),
    }
}

/// The one step of a row whose statements have no name of the user's own.
fn single_step(alloc: Global, id: RowId) -> Result<Step, NoMemory>
    ensures { IfOk result (λ step. step ≡ single_of id) }
{
    let head = copied(alloc, head(id))?;
    let name = match row(id).shape {
        Shape::Fixed => copied(alloc, fixed_name(id))?,
        _ => Word::empty(alloc),
    };
    Ok(Step { head, name })
}

/// Collects a statement that is no level.
fn collect_alone(
    alloc: Global,
    value: &Value,
    marks: Option<&Value>,
    here: &Here,
    id: RowId,
    items: &mut Collected,
) -> Result<(), CollectFault>
    requires room { length here.now.path < MAX_STEPS }
    requires says { (told : List Item) × SaysWords (AreWordsIn (row_of id).shape (row_of id).value_kind (view value.now))
        (spot_in here.now) id (option_map (λ v. view v.now) marks) told }
    ensures { Collects (SaysWords (AreWordsIn (row_of id).shape (row_of id).value_kind (view value.now))
        (spot_in here.now) id (option_map (λ v. view v.now) marks.entry)) items.old items.new result }
{
    let words = words_of_row(alloc, id, value)?;
    let child = here.below(id, single_step(alloc, id)?)?;
    items.push(child.path, value_in(alloc, marks, words))
}

/// Collects what the object of a level says, so many levels deep.
#[cycle(collecting)]
fn collect_inside(
    alloc: Global,
    value: &Value,
    here: &Here,
    levels: usize,
    items: &mut Collected,
) -> Result<(), CollectFault>
    requires room { length here.now.path + levels ≤ MAX_STEPS }
    requires says { (told : List Item) × SaysInside levels (members_in (view value.now)) (spot_in here.now) told }
    ensures { Collects (SaysInside levels (members_in (view value.now)) (spot_in here.now)) items.old items.new result }
{
    let fewer = levels - 1;
    let rows = rows_below(alloc, here.place.row, here.place.in_group)?;
    collect_rows(alloc, value, here, &rows, fewer, items)
}

/// Collects what the members of these rows say.
#[cycle(collecting)]
fn collect_rows(
    alloc: Global,
    value: &Value,
    here: &Here,
    rows: &[RowId],
    levels: usize,
    items: &mut Collected,
) -> Result<(), CollectFault>
    requires room { length here.now.path + levels < MAX_STEPS }
    requires says { (told : List Item) × SaysRows (SaysInside levels) (spot_in here.now) (members_in (view value.now)) rows.now told }
    ensures { Collects (SaysRows (SaysInside levels) (spot_in here.now) (members_in (view value.now)) rows.now)
        items.old items.new result }
{
    for id in rows {
        collect_row(alloc, value, here, *id, levels, items)?;
    }
    Ok(())
}

/// Collects what the member of a row says.
#[cycle(collecting)]
fn collect_row(
    alloc: Global,
    value: &Value,
    here: &Here,
    id: RowId,
    levels: usize,
    items: &mut Collected,
) -> Result<(), CollectFault>
    requires room { length here.now.path + levels < MAX_STEPS }
    requires says { (told : List Item) × SaysRowIf (SaysInside levels) (spot_in here.now) id
        (get_member (key_of id) (members_in (view value.now)))
        (get_member (marks_key (key_of id)) (members_in (view value.now))) told }
    ensures { Collects (SaysRowIf (SaysInside levels) (spot_in here.now) id
        (get_member (key_of id) (members_in (view value.now)))
        (get_member (marks_key (key_of id)) (members_in (view value.now)))) items.old items.new result }
{
    let key = key_of(alloc, id)?;
    let found = match member(value, &key) {
        None => return Ok(()),
        Some(found) => found,
    };
    if !is_level(row(id).shape) {
        let marks = marks_beside(alloc, value, &key)?;
        return collect_alone(alloc, found, marks, here, id, items);
    }
    if is_named(row(id).shape) {
        return collect_list(alloc, found, here, id, levels, items);
    }
    let step = single_step(alloc, id)?;
    collect_level(alloc, found, here, id, step, levels, items)
}

/// Collects the statement of a level, and what its object says.
#[cycle(collecting)]
fn collect_level(
    alloc: Global,
    value: &Value,
    here: &Here,
    id: RowId,
    step: Step,
    levels: usize,
    items: &mut Collected,
) -> Result<(), CollectFault>
    requires room { length here.now.path + levels < MAX_STEPS }
    requires says { (told : List Item) × SaysLevel (SaysInside levels) (spot_in here.now) id step (members_in (view value.now)) told }
    ensures { Collects (SaysLevel (SaysInside levels) (spot_in here.now) id step (members_in (view value.now)))
        items.old items.new result }
{
    let child = here.below(id, step)?;
    let marks = member(value, b"@".as_slice());
    let own = value_in(alloc, marks, WordList::new(alloc));
    items.push(child.path.clone()?, own)?;
    collect_inside(alloc, value, &child, levels, items)
}

/// Collects the statements of a row with names.
#[cycle(collecting)]
fn collect_list(
    alloc: Global,
    value: &Value,
    here: &Here,
    id: RowId,
    levels: usize,
    items: &mut Collected,
) -> Result<(), CollectFault>
    requires room { length here.now.path + levels < MAX_STEPS }
    requires says { (told : List Item) × SaysList (SaysInside levels) (spot_in here.now) id (view value.now) told }
    ensures { Collects (SaysList (SaysInside levels) (spot_in here.now) id (view value.now)) items.old items.new result }
{
    match value {
        Value::Array(objects) => collect_each(alloc, objects, here, id, levels, items),
        Value::Null | Value::Bool(_) | Value::Number(_) | Value::String(_) | Value::Object(_) =>
            unreachable!(),
    }
}

/// Collects what the objects of a list say.
#[cycle(collecting)]
fn collect_each(
    alloc: Global,
    objects: &Vec<Value>,
    here: &Here,
    id: RowId,
    levels: usize,
    items: &mut Collected,
) -> Result<(), CollectFault>
    requires room { length here.now.path + levels < MAX_STEPS }
    requires says { (told : List Item) × TellsEach levels (spot_in here.now) id (items_view objects.now.items) told }
    ensures { Collects (TellsEach levels (spot_in here.now) id (items_view objects.now.items)) items.old items.new result }
{
    for object in objects {
        collect_named(alloc, object, here, id, levels, items)?;
    }
    Ok(())
}

/// Collects what an object with a name says.
#[cycle(collecting)]
fn collect_named(
    alloc: Global,
    value: &Value,
    here: &Here,
    id: RowId,
    levels: usize,
    items: &mut Collected,
) -> Result<(), CollectFault>
    requires room { length here.now.path + levels < MAX_STEPS }
    requires says { (told : List Item) × TellsNamed levels (spot_in here.now) id (members_in (view value.now)) told }
    ensures { Collects (TellsNamed levels (spot_in here.now) id (members_in (view value.now))) items.old items.new result }
{
    let bytes = match member(value, b"name".as_slice()) {
        Some(Value::String(text)) => text.as_bytes(),
        _ => unreachable!(),
    };
    let name = name_in(alloc, here.place.in_group, row(id).name_kind, bytes)?;
    let head = copied(alloc, head(id))?;
    collect_level(alloc, value, here, id, Step { head, name }, levels, items)
}

/// Collects what a whole value says.
fn collect_all(alloc: Global, value: &Value, items: &mut Collected) -> Result<(), CollectFault>
    requires says { (told : List Item) × SaysItems (view value.now) told }
    ensures { Collects (SaysItems (view value.now)) items.old items.new result }
{
    match member(value, b"configuration".as_slice()) {
        Some(members) => collect_inside(alloc, members, &Here::top(alloc), MAX_STEPS, items),
        None => unreachable!(),
    }
}

/// The configuration that a value says.
pub(crate) fn collect(alloc: Global, value: &Value) -> Result<Tree, CollectFault>
    requires says { (m : Statements) × Says (view value.now) m }
    ensures ok { IfOk result (λ tree. Says (view value.now) tree) }
    ensures few { IfOk result (λ tree. size_of tree ≤ MAX_STATEMENTS) }
    ensures many { IsErrOf result CollectFault.TooMany → (m : Statements) → Says (view value.now) m → MAX_STATEMENTS < size_of m }
{
    let mut items = Collected::new(alloc);
    collect_all(alloc, value, &mut items)?;
    Ok(Tree::of_statements(alloc, &Tree::empty(alloc), items.into_items())?)
}
