//! The names of the objects of a list.

ghost use Rattle.std.specs.Prelude.{◌≡◌, ◌<◌, ◌+◌, ◌∷◌, ◌++◌, [], ℕ, Bool, true, List, Some, length, option_map, option_and_then, IfOk, MatchResult};
ghost use Rattle.cfg_base.specs.declared.path.TheConstants.{MAX_STEPS};
ghost use Rattle.cfg_schema.specs.Profile.{row_of, head_of};
ghost use Rattle.cfg_tree.specs.Tree.{step_of};
ghost use Rattle.serde_json.specs.Find.{as_str, get_member};
ghost use Rattle.serde_json.specs.View.{view, members_view};
ghost use Rattle.json_text.specs.declared.fault.JsonFault.TheVariants.{BadValue};
ghost use Rattle.json_text.specs.Checking.{HasFault, NextName, NextNameFault, Tracks, is_after, spot};
ghost use Rattle.json_text.specs.Faults.{HasName, NameFault, is_placed, shown_path};
ghost use Rattle.json_text.specs.Keys.{name_key};
ghost use Rattle.json_text.specs.Said.{IsNameIn};

use crate::fault::ReadFault;
use crate::refusal::{bad_name, form};
use crate::spelling::name_in;
use cfg_base::{NoMemory, Path, Word, learn};
use cfg_schema::{Place, RowId, head, row};
use printing_order::named_child;
use serde_json::{Map, Value};
use std::alloc::Global;
use std::collections::BTreeSet;

/// What is kept of the names that were met in a list: those of a row that keeps the user's order, or the last of others.
#[derive(Debug, Drop)]
pub(crate) struct Names {
    known: BTreeSet<Word>,
    last: Option<Word>,
}

/// No names.
pub(crate) fn no_names(alloc: Global) -> Names
    ensures { (ordered : Bool) → Tracks ordered [] result }
{
    Names {
        known: BTreeSet::new(alloc),
        last: None,
    }
}

/// Whether a name is after the last, if there is one.
fn is_after(last: &Option<Word>, name: &Word) -> bool
    ensures { result ≡ is_after last.now name.now }
{
    match last {
        Some(other) => other.cmp(name).is_lt(),
        None => true,
    }
}

/// Puts a name in the place of the last, if it is after that, and reports whether it is.
fn put_last(last: &mut Option<Word>, name: &Word) -> Result<bool, NoMemory>
    ensures placed { IfOk result (λ placed. placed ≡ is_after last.old name.now) }
    ensures last { IfOk result (λ placed. placed ≡ true → last.new ≡ Some name.now) }
{
    if !is_after(last, name) {
        return Ok(false);
    }
    *last = Some(name.clone()?);
    Ok(true)
}

/// Puts a name behind those that were met, if it may stand there, and reports whether it may.
fn put_name(names: &mut Names, ordered: bool, name: &Word) -> Result<bool, NoMemory>
    ensures { (seen : List (List ℕ)) → Tracks ordered seen names.old → IfOk result (λ placed. (placed ≡ is_placed ordered seen name.now)
        × (placed ≡ true → Tracks ordered (seen ++ name.now ∷ []) names.new)) }
{
    if ordered {
        learn(&mut names.known, name)
    } else {
        put_last(&mut names.last, name)
    }
}

/// The value at a key.
pub(crate) fn member<'v>(members: &'v Map<String, Value>, key: &str) -> Option<&'v Value>
    ensures { option_map (λ value. view value.now) result ≡ get_member key.now (members_view members.now.entries) }
{
    members.get(key)
}

/// The string at a key.
fn text_at<'v>(members: &'v Map<String, Value>, key: &str) -> Option<&'v str>
    ensures { option_map (λ text. text.now) result ≡ option_and_then as_str (get_member key.now (members_view members.now.entries)) }
{
    match member(members, key) {
        Some(value) => value.as_str(),
        None => None,
    }
}

/// The name that bytes are, if they are one of a row's below a level.
fn read_name(
    alloc: Global,
    path: &Path,
    here: &Place,
    id: RowId,
    bytes: &[u8],
) -> Result<Word, ReadFault>
    requires { length path.now < MAX_STEPS }
    ensures { MatchResult result (IsNameIn here.now id (row_of id).shape bytes.now)
        (HasFault (λ fault. ((name : List ℕ) → ¬ (IsNameIn here.now id (row_of id).shape bytes.now name))
        × (fault ≡ BadValue (shown_path path.now (head_of id) bytes.now)))) }
{
    match name_in(alloc, here, id, bytes) {
        Ok(Some(name)) => Ok(name),
        Ok(None) => Err(bad_name(alloc, path, head(id), bytes)),
        Err(_) => Err(ReadFault::NoMemory),
    }
}

/// The name of an object of a list.
fn name_of(
    alloc: Global,
    path: &Path,
    here: &Place,
    id: RowId,
    members: &Map<String, Value>,
) -> Result<Word, ReadFault>
    requires { length path.now < MAX_STEPS }
    ensures { MatchResult result (HasName (spot path.now here.now) id (members_view members.now.entries))
        (HasFault (NameFault (spot path.now here.now) id (get_member name_key (members_view members.now.entries)))) }
{
    match text_at(members, "name") {
        Some(text) => read_name(alloc, path, here, id, text.as_bytes()),
        None => Err(form(path)),
    }
}

/// The path of the next object of a list, behind those whose names were met.
pub(crate) fn next_child(
    alloc: Global,
    path: &Path,
    here: &Place,
    id: RowId,
    members: &Map<String, Value>,
    names: &mut Names,
) -> Result<Path, ReadFault>
    requires { length path.now < MAX_STEPS }
    ensures longer { IfOk result (λ child. length child ≡ length path.now + 1) }
    ensures next { (seen : List (List ℕ)) → Tracks (row_of id).ordered seen names.old → MatchResult result
        (λ child. (name : List ℕ) × NextName (spot path.now here.now) id (members_view members.now.entries) seen name
        × (child ≡ path.now ++ step_of (head_of id) name ∷ []) × Tracks (row_of id).ordered (seen ++ name ∷ []) names.new)
        (HasFault (NextNameFault (spot path.now here.now) id (members_view members.now.entries) seen)) }
{
    let name = match name_of(alloc, path, here, id, members) {
        Ok(name) => name,
        Err(fault) => return Err(fault),
    };
    let child = named_child(alloc, path, head(id), &name)?;
    match put_name(names, row(id).ordered, &name) {
        Ok(true) => Ok(child),
        Ok(false) => Err(form(&child)),
        Err(_) => Err(ReadFault::NoMemory),
    }
}
