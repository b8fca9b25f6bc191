//! The faults of what stands at a path.

ghost use Rattle.std.specs.Prelude.{◌≡◌, ◌<◌, ◌∷◌, ◌++◌, [], length, IfOk};
ghost use Rattle.std.specs.List.{list_all};
ghost use Rattle.cfg_base.specs.Bytes.{is_printing};
ghost use Rattle.cfg_base.specs.declared.path.TheConstants.{MAX_STEPS};
ghost use Rattle.cfg_tree.specs.Tree.{step_of};
ghost use Rattle.json_text.specs.declared.fault.JsonFault.TheVariants.{BadValue, Form};
ghost use Rattle.json_text.specs.Checking.{HasFault};
ghost use Rattle.json_text.specs.Faults.{is_shown, key_fault, shown_path};
ghost use Rattle.json_text.specs.Said.{single_of};

use crate::fault::{JsonFault, ReadFault};
use cfg_base::{MAX_BYTES, NoMemory, Path, Shape, Word};
use cfg_schema::{RowId, fixed_name, head, row};
use printing_order::named_child;
use std::alloc::Global;

/// What stands at a path hasn't the form that the layout has there.
pub(crate) fn form(path: &Path) -> ReadFault
    ensures { HasFault (λ fault. fault ≡ Form path.now) result }
{
    match path.clone() {
        Ok(path) => ReadFault::Json(JsonFault::Form(path)),
        Err(_) => ReadFault::NoMemory,
    }
}

/// What stands at a path isn't of its kind.
pub(crate) fn bad_value(path: &Path) -> ReadFault
    ensures { HasFault (λ fault. fault ≡ BadValue path.now) result }
{
    match path.clone() {
        Ok(path) => ReadFault::Json(JsonFault::BadValue(path)),
        Err(_) => ReadFault::NoMemory,
    }
}

fn is_printing(byte: u8) -> bool
    ensures { result ≡ is_printing byte }
{
    matches!(byte, b' '..=b'~')
}

fn are_printing(bytes: &[u8]) -> bool
    ensures { result ≡ list_all is_printing bytes.now }
{
    bytes.iter().all(|&byte| is_printing(byte))
}

/// Whether bytes may stand in a path.
fn is_shown(bytes: &[u8]) -> bool
    ensures { result ≡ is_shown bytes.now }
{
    bytes.len() <= MAX_BYTES && are_printing(bytes)
}

/// The path of the child with this head and these bytes as its name, which are few.
pub(crate) fn child_with(
    alloc: Global,
    path: &Path,
    head: &[u8],
    name: &[u8],
) -> Result<Path, NoMemory>
    requires { length path.now < MAX_STEPS }
    ensures { IfOk result (λ child. child ≡ path.now ++ step_of head.now name.now ∷ []) }
{
    match Word::of(alloc, name) {
        Ok(name) => named_child(alloc, path, head, &name),
        Err(_) => Err(NoMemory),
    }
}

/// The path of the one statement of a row without names.
pub(crate) fn single_path(alloc: Global, path: &Path, id: RowId) -> Result<Path, NoMemory>
    requires { length path.now < MAX_STEPS }
    ensures { IfOk result (λ single. single ≡ path.now ++ single_of id ∷ []) }
{
    let name = match row(id).shape {
        Shape::Fixed => fixed_name(id),
        Shape::Container | Shape::Keyed | Shape::Bare | Shape::Leaf | Shape::Flag | Shape::Many =>
            b"",
    };
    child_with(alloc, path, head(id), name)
}

/// A path that ends in a name as it was read, or, where that can't be shown, the level's.
fn shown_path(alloc: Global, path: &Path, head: &[u8], name: &[u8]) -> Result<Path, NoMemory>
    requires { length path.now < MAX_STEPS }
    ensures { IfOk result (λ shown. shown ≡ shown_path path.now head.now name.now) }
{
    if is_shown(name) {
        child_with(alloc, path, head, name)
    } else {
        Ok(path.clone()?)
    }
}

/// A name, as it was read, isn't of its kind.
pub(crate) fn bad_name(alloc: Global, path: &Path, head: &[u8], name: &[u8]) -> ReadFault
    requires { length path.now < MAX_STEPS }
    ensures { HasFault (λ fault. fault ≡ BadValue (shown_path path.now head.now name.now)) result }
{
    match shown_path(alloc, path, head, name) {
        Ok(path) => ReadFault::Json(JsonFault::BadValue(path)),
        Err(_) => ReadFault::NoMemory,
    }
}

/// The fault of a key that is of nothing.
pub(crate) fn key_fault(alloc: Global, path: &Path, key: &[u8]) -> ReadFault
    requires { length path.now < MAX_STEPS }
    ensures { HasFault (λ fault. fault ≡ key_fault path.now key.now) result }
{
    if !is_shown(key) {
        return form(path);
    }
    match child_with(alloc, path, key, b"") {
        Ok(path) => ReadFault::Json(JsonFault::Unknown(path)),
        Err(_) => ReadFault::NoMemory,
    }
}
