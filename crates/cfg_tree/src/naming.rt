//! The names of ordered children, as items of their parents.

ghost use Rattle.std.specs.Prelude.{◌≡◌, IfOk};
ghost use Rattle.cfg_tree.specs.Naming.{naming, named_in_parent, with_child_names};

use crate::reorder::is_ordered;
use cfg_base::{NoMemory, Path, Value, Word, WordList};
use std::alloc::Global;
use std::slice::from_ref;

fn naming(alloc: Global, name: &Word) -> Result<Value, NoMemory>
    ensures { IfOk result (λ value. value ≡ naming name.now) }
{
    Ok(Value {
        inactive: false,
        protected: false,
        order: WordList::of(alloc, from_ref(name))?,
        words: WordList::new(alloc),
    })
}

/// What a path adds to its parent.
fn named_in_parent(alloc: Global, path: &Path) -> Result<Option<(Path, Value)>, NoMemory>
    ensures { IfOk result (λ item. item ≡ named_in_parent path.now) }
{
    if !is_ordered(path) {
        return Ok(None);
    }
    let above = path.steps().len() - 1;
    let value = naming(alloc, &path.steps()[above].name)?;
    Ok(Some((path.prefix(above)?, value)))
}

/// Statements, and after each what it adds to its parent.
pub fn with_child_names(
    alloc: Global,
    items: Vec<(Path, Value)>,
) -> Result<Vec<(Path, Value)>, NoMemory>
    ensures { IfOk result (λ all. all.items ≡ with_child_names items.items) }
{
    let mut all = Vec::with_capacity(alloc, items.len())?;
    for (path, value) in items {
        let name = named_in_parent(alloc, &path)?;
        all.push((path, value))?;
        if let Some(item) = name {
            all.push(item)?;
        }
    }
    Ok(all)
}
