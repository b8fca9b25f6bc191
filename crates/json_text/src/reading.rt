//! What a JSON text says.

ghost use Rattle.std.specs.Prelude.{◌≡◌, ◌≢◌, codes, IfErr, IfOk, MatchOption, MatchResult};
ghost use Rattle.cfg_tree.specs.Statements.{Statements};
ghost use Rattle.serde_json.specs.Data.{Members, member, no_members, object};
ghost use Rattle.serde_json.specs.View.{view, members_view};
ghost use Rattle.json_text.specs.Checking.{HasFault};
ghost use Rattle.json_text.specs.Faults.{IsFirstFault, whole};
ghost use Rattle.json_text.specs.Reading.{IsJson, IsReadAs, IsRefused};
ghost use Rattle.json_text.specs.Said.{Says};

use crate::checker::check_inside;
use crate::collected::CollectFault;
use crate::collecting::collect;
use crate::fault::{JsonFault, ReadFault};
use crate::names::member;
use crate::refusal::form;
use cfg_base::{MAX_STEPS, Path};
use cfg_schema::Place;
use cfg_tree::Tree;
use serde_json::{Map, Value};
use std::alloc::Global;

/// The value that a text is.
fn parse(alloc: Global, text: &[u8]) -> Result<Value, ReadFault>
    ensures ok { IfOk result (λ value. IsJson text.now (view value)) }
    ensures refused { IfErr result (λ fault. IsRefused text.now fault) }
{
    match Value::from_slice(alloc, text) {
        Ok(value) => Ok(value),
        Err(e) => Err(if e.is_memory() {
            ReadFault::NoMemory
        } else {
            ReadFault::Json(JsonFault::NotJson)
        }),
    }
}

/// The object at the member `configuration`, where an object has that one alone.
fn only_member(members: &Map<String, Value>) -> Option<&Map<String, Value>>
    ensures { MatchOption result
        ((ms : Members) → members_view members.now.entries ≢ member (codes "configuration") (object ms) no_members)
        (λ inside. members_view members.now.entries
        ≡ member (codes "configuration") (object (members_view inside.now.entries)) no_members) }
{
    if members.len() != 1 {
        return None;
    }
    match member(members, "configuration") {
        Some(value) => value.as_object(),
        None => None,
    }
}

/// The members of the top, where a value is a whole one.
fn top_members(value: &Value) -> Option<&Map<String, Value>>
    ensures { MatchOption result ((ms : Members) → view value.now ≢ whole ms)
        (λ members. view value.now ≡ whole (members_view members.now.entries)) }
{
    match value.as_object() {
        Some(members) => only_member(members),
        None => None,
    }
}

/// The first fault of a value, where it says no configuration.
fn check(alloc: Global, value: &Value) -> Result<(), ReadFault>
    ensures { MatchResult result (λ _. (m : Statements) × Says (view value.now) m) (HasFault (IsFirstFault (view value.now))) }
{
    let top = Path::top(alloc);
    match top_members(value) {
        Some(members) => check_inside(alloc, &top, &Place::top(), members, MAX_STEPS),
        None => Err(form(&top)),
    }
}

/// The value that a text is, where it says a configuration.
fn checked(alloc: Global, text: &[u8]) -> Result<Value, ReadFault>
    ensures ok { IfOk result (λ value. IsJson text.now (view value) × ((m : Statements) × Says (view value) m)) }
    ensures refused { IfErr result (λ fault. IsRefused text.now fault) }
{
    let value = match parse(alloc, text) {
        Ok(value) => value,
        Err(fault) => return Err(fault),
    };
    match check(alloc, &value) {
        Ok(()) => Ok(value),
        Err(fault) => Err(fault),
    }
}

/// The configuration that a JSON text says. A text that isn't read has one fault, but for want of memory.
pub fn read(alloc: Global, text: &[u8]) -> Result<Tree, ReadFault>
    ensures ok { IfOk result (λ tree. IsReadAs text.now tree) }
    ensures refused { IfErr result (λ fault. IsRefused text.now fault) }
{
    let value = match checked(alloc, text) {
        Ok(value) => value,
        Err(fault) => return Err(fault),
    };
    match collect(alloc, &value) {
        Ok(tree) => Ok(tree),
        Err(CollectFault::TooMany) => Err(ReadFault::Json(JsonFault::TooMany)),
        Err(CollectFault::NoMemory) => Err(ReadFault::NoMemory),
    }
}
