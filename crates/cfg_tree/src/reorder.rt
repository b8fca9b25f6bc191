//! The order of the children of an ordered row, which stands with their parent.

ghost use Rattle.std.specs.Prelude.{◌≡◌, ◌≤◌, ◌<◌, ◌++◌, ◌∷◌, [], length, filter, not, true, Option, IfOk, OnOk, OnErr, IsTrue};
ghost use Rattle.cfg_base.specs.declared.path.TheConstants.{MAX_STEPS};
ghost use Rattle.cfg_schema.specs.Profile.{same_word};
ghost use Rattle.cfg_schema.specs.declared.place.Place.{Place};
ghost use Rattle.cfg_schema.specs.Place.{place_of};
ghost use Rattle.cfg_tree.specs.Shown.{shown};
ghost use Rattle.cfg_tree.specs.Tree.{ordered_head};
ghost use Rattle.cfg_tree.specs.Change.{has_head, is_ordered, without, put_last};
ghost use Rattle.cfg_tree.specs.Renaming.{changed_names, IsOrderOfParent, IsReorder, IsListedAs, reordered_by};

use crate::store::{Entries, set_order};
use cfg_base::{NoMemory, Path, Step, Word, WordList, same_bytes};
use cfg_schema::{Place, head};
use std::alloc::Global;
use std::slice::from_ref;

/// What becomes of a name in its parent's order.
#[derive(Clone, Copy, Debug, PartialEq, Eq)]
pub enum Change {
    /// It goes last.
    Last,
    /// It is taken out.
    Without,
}

/// The new order of a parent.
#[derive(Debug, Drop)]
pub struct Reorder {
    pub parent: Path,
    pub order: WordList,
}

fn has_ordered_head(above: &[Step], last: &Step) -> bool
    ensures { result ≡ has_head (ordered_head (place_of above.now)) last.now }
{
    match Place::of(above) {
        None => false,
        Some(here) => match here.ordered_row() {
            None => false,
            Some(row) => head(row) == last.head.as_bytes(),
        },
    }
}

/// Whether a step may be one of an ordered row: those rows have no head, or this one.
fn may_be_ordered(last: &Step) -> bool
    ensures { (here : Option Place) → has_head (ordered_head here) last.now ≡ true → result ≡ true }
{
    let head = last.head.as_bytes();
    head.is_empty() || same_bytes(head, b"term")
}

/// Whether a path is that of a child of an ordered row.
pub fn is_ordered(path: &Path) -> bool
    ensures is { result ≡ is_ordered path.now }
    ensures steps { IsTrue result → 0 < length path.now }
{
    let steps = path.steps();
    if steps.is_empty() {
        return false;
    }
    let (above, _) = steps.split_at(steps.len() - 1);
    let last = &steps[steps.len() - 1];
    // Most statements have heads of rows without an order, and their place isn't looked for.
    may_be_ordered(last) && has_ordered_head(above, last)
}

pub fn pushed(path: &Path, step: &Step) -> Result<Path, NoMemory>
    requires { length path.now < MAX_STEPS }
    ensures { IfOk result (λ longer. longer ≡ path.now ++ step.now ∷ []) }
{
    match path.push(step.clone()?) {
        Ok(longer) => Ok(longer),
        Err(_) => Err(NoMemory),
    }
}

/// The path of these steps.
pub fn path_of(alloc: Global, steps: &[Step]) -> Result<Path, NoMemory>
    requires { length steps.now ≤ MAX_STEPS }
    ensures { IfOk result (λ path. path ≡ steps.now) }
{
    let mut path = Path::top(alloc);
    for step in steps {
        path = pushed(&path, step)?;
    }
    Ok(path)
}

fn with_last(order: &WordList, name: &Word) -> Result<WordList, NoMemory>
    ensures { IfOk result (λ names. names ≡ put_last name.now order.now) }
{
    let mut names = order.clone()?;
    names.push(name.clone()?)?;
    Ok(names)
}

fn without(order: &WordList, name: &Word) -> Result<WordList, NoMemory>
    ensures { IfOk result (λ names. names ≡ without name.now order.now) }
{
    order.without(from_ref(name))
}

fn changed(change: Change, order: &WordList, name: &Word) -> Result<WordList, NoMemory>
    ensures { IfOk result (λ names. names ≡ changed_names change name.now order.now) }
{
    match change {
        Change::Last => with_last(order, name),
        Change::Without => without(order, name),
    }
}

fn of_parent(
    entries: &Entries,
    parent: Path,
    name: &Word,
    change: Change,
) -> Result<Option<Reorder>, NoMemory>
    ensures { IfOk result (λ reorder. IsOrderOfParent (shown entries.now) parent name.now change reorder) }
{
    let order = match entries.get(&parent) {
        Some(value) => changed(change, &value.order, name)?,
        None => return Ok(None),
    };
    Ok(Some(Reorder { parent, order }))
}

/// The change of the order of a path's parent, where the path is that of a child of an ordered row.
pub fn reorder_of(
    alloc: Global,
    entries: &Entries,
    path: &Path,
    change: Change,
) -> Result<Option<Reorder>, NoMemory>
    ensures { IfOk result (λ reorder. IsReorder (shown entries.now) path.now change reorder) }
{
    if !is_ordered(path) {
        return Ok(None);
    }
    let steps = path.steps();
    let (above, _) = steps.split_at(steps.len() - 1);
    let parent = path_of(alloc, above)?;
    of_parent(entries, parent, &steps[steps.len() - 1].name, change)
}

/// The same where the path is new, and no change elsewhere.
pub fn listing_of(
    alloc: Global,
    entries: &Entries,
    path: &Path,
    new: bool,
) -> Result<Option<Reorder>, NoMemory>
    ensures { IfOk result (λ reorder. IsListedAs new (shown entries.now) path.now reorder) }
{
    if new {
        reorder_of(alloc, entries, path, Change::Last)
    } else {
        Ok(None)
    }
}

/// Carries the change out.
pub fn carry_out(entries: &mut Entries, reorder: Option<Reorder>) -> Result<(), NoMemory>
    ensures ok { OnOk result (shown entries.new ≡ reordered_by reorder (shown entries.old)) }
    ensures unchanged { OnErr result (entries.new ≡ entries.old) }
{
    match reorder {
        None => Ok(()),
        Some(Reorder { parent, order }) => set_order(entries, &parent, order),
    }
}
