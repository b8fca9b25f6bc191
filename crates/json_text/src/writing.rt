//! A configuration as JSON text.

ghost use Rattle.std.specs.Prelude.{◌≡◌, [], ◌∷◌, ◌++◌, codes, Some, IfOk, OnOk};
ghost use Rattle.cfg_base.specs.declared.path.TheConstants.{MAX_STEPS};
ghost use Rattle.cfg_tree.specs.Tree.{IsTree};
ghost use Rattle.serde_json.specs.Read.{read};
ghost use Rattle.serde_json.specs.View.{view, members_view};
ghost use Rattle.serde_json.specs.Written.{compact_text};
ghost use Rattle.json_text.specs.Reading.{IsReadAs};
ghost use Rattle.json_text.specs.Written.{json_of, pairs_below, put_all};

use crate::building::put_at;
use crate::writer::Writer;
use cfg_base::{Bytes, MAX_STEPS, NoMemory, Path};
use cfg_schema::Place;
use cfg_tree::Tree;
use printing_order::statements_below;
use serde_json::{Map, Value};
use std::alloc::Global;

/// Puts the statements of a tree among the members of an object.
fn put_top(alloc: Global, members: &mut Map<String, Value>, tree: &Tree) -> Result<(), NoMemory>
    ensures put { OnOk result (members_view members.new.entries
        ≡ put_all (members_view members.old.entries) (pairs_below MAX_STEPS tree.now [])) }
    ensures tree { IsTree tree.now }
{
    if tree.count() == 0 {
        return Ok(());
    }
    let top = Path::top(alloc);
    let inside = statements_below(alloc, tree, &top)?;
    Writer::of(alloc, tree).put_below(members, &top, &Place::top(), &inside, MAX_STEPS)
}

/// A configuration as a JSON value.
fn value_of(alloc: Global, tree: &Tree) -> Result<Value, NoMemory>
    ensures value { IfOk result (λ value. view value ≡ json_of tree.now) }
    ensures tree { IfOk result (λ _. IsTree tree.now) }
{
    let mut members = Map::new(alloc);
    put_top(alloc, &mut members, tree)?;
    let mut whole = Map::new(alloc);
    put_at(
        &mut whole,
        alloc,
        b"configuration".as_slice(),
        Value::Object(members),
    )?;
    Ok(Value::Object(whole))
}

/// A configuration as JSON text: the compact text of its value, and a line feed. It fails for want of memory alone.
pub fn write(alloc: Global, tree: &Tree) -> Result<Bytes, NoMemory>
    ensures text { IfOk result (λ text. text ≡ compact_text (json_of tree.now) ++ 10 ∷ []) }
    ensures back { IfOk result (λ text. read text ≡ Some (json_of tree.now)) }
    ensures read_as { IfOk result (λ text. IsReadAs text tree.now) }
{
    let value = value_of(alloc, tree)?;
    let mut text = value.to_vec(alloc)?;
    text.push(b'\n')?;
    Ok(Bytes::from(text))
}
