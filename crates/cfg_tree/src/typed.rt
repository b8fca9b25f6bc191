//! Whether a path and a value are of the profile.

ghost use Rattle.std.specs.Prelude.{◌≡◌, ◌<◌, length, IfOk, IfErr, OnOk, Decides, MatchOption, None, Some};
ghost use Rattle.cfg_schema.specs.Place.{place_of, place_after, and_then};
ghost use Rattle.cfg_values.specs.Spelling.{IsCanonical};
ghost use Rattle.cfg_tree.specs.Typed.{IsOpenKind, IsName, IsNameBy, IsRight, AreCanonical};
ghost use Rattle.cfg_tree.specs.Change.{FitsProfile, IsAlmostFit, IsFitFault};

use crate::fault::TreeFault;
use cfg_base::{Kind, NoMemory, Path, Shape, Step, Value, Word, WordList};
use cfg_schema::{Place, Row, row};
use cfg_values::{ValueFault, is_pattern, read_value};
use std::alloc::Global;

fn is_canonical(alloc: Global, kind: Kind, bytes: &[u8]) -> Result<bool, NoMemory>
    ensures { IfOk result (λ answer. Decides answer (IsCanonical kind bytes.now)) }
{
    match read_value(alloc, kind, bytes) {
        Ok(word) => Ok(word.as_bytes() == bytes),
        Err(ValueFault::NotOfKind(_)) => Ok(false),
        Err(ValueFault::NoMemory) => Err(NoMemory),
    }
}

/// Whether a wildcard name may stand in a group for a name of the kind.
pub fn is_open_kind(kind: Kind) -> bool
    ensures { Decides result (IsOpenKind kind) }
{
    !matches!(kind, Kind::OneOf(_))
}

fn is_name(alloc: Global, in_group: bool, kind: Kind, bytes: &[u8]) -> Result<bool, NoMemory>
    ensures { IfOk result (λ answer. Decides answer (IsName in_group kind bytes.now)) }
{
    if in_group && is_open_kind(kind) && is_pattern(bytes) {
        return Ok(true);
    }
    is_canonical(alloc, kind, bytes)
}

fn is_name_by(
    alloc: Global,
    in_group: bool,
    shape: Shape,
    kind: Kind,
    name: &[u8],
) -> Result<bool, NoMemory>
    ensures { IfOk result (λ answer. Decides answer (IsNameBy in_group shape kind name.now)) }
{
    match shape {
        Shape::Keyed | Shape::Bare => is_name(alloc, in_group, kind, name),
        Shape::Container | Shape::Fixed | Shape::Leaf | Shape::Flag | Shape::Many => Ok(true),
    }
}

fn are_canonical(alloc: Global, kind: Kind, words: &WordList) -> Result<bool, NoMemory>
    ensures { IfOk result (λ answer. Decides answer (AreCanonical kind words.now)) }
{
    let mut left = words.iter();
    while let Some(word) = left.next() {
        if !is_canonical(alloc, kind, word.as_bytes())? {
            return Ok(false);
        }
    }
    Ok(true)
}

/// Where a path's last step leads from, and where to.
#[derive(Clone, Copy, Debug, PartialEq, Eq)]
struct Last {
    here: Place,
    next: Place,
}

fn last_place(above: &[Step], last: &Step) -> Option<Last>
    ensures { MatchOption result (and_then (λ here. place_after here last.now) (place_of above.now) ≡ None)
        (λ found. (place_of above.now ≡ Some found.here) × (place_after found.here last.now ≡ Some found.next)) }
{
    let here = Place::of(above)?;
    let next = here.after(last)?;
    Some(Last { here, next })
}

fn is_right(
    alloc: Global,
    row: Row,
    in_group: bool,
    name: &Word,
    words: &WordList,
) -> Result<bool, NoMemory>
    ensures { IfOk result (λ answer. Decides answer (IsRight row in_group name.now words.now)) }
{
    if !is_name_by(alloc, in_group, row.shape, row.name_kind, name.as_bytes())? {
        return Ok(false);
    }
    are_canonical(alloc, row.value_kind, words)
}

/// Checks that a path and a value are of the profile.
pub fn check(alloc: Global, path: &Path, value: &Value) -> Result<(), TreeFault>
    requires { IsAlmostFit path.now value.now }
    ensures ok { OnOk result (FitsProfile path.now value.now) }
    ensures err { IfErr result (λ fault. IsFitFault path.now value.now fault) }
{
    let steps = path.steps();
    let (above, _) = steps.split_at(steps.len() - 1);
    let last = &steps[steps.len() - 1];
    let found = match last_place(above, last) {
        None => return Err(TreeFault::Unknown(path.clone()?)),
        Some(found) => found,
    };
    let row = row(found.next.row);
    if is_right(alloc, row, found.here.in_group, &last.name, &value.words)? {
        Ok(())
    } else {
        Err(TreeFault::BadValue(path.clone()?))
    }
}
