//! The children of a path in printing order.

ghost use Rattle.std.specs.Prelude.{◌≡◌, ◌++◌, map, filter, IfOk, OnOk};
ghost use Rattle.std.specs.List.{flat_map};
ghost use Rattle.std.specs.FinMap as finite;
ghost use Rattle.cfg_schema.specs.Profile.{is_step_of};
ghost use Rattle.cfg_tree.specs.Shown.{shown};
ghost use Rattle.cfg_tree.specs.Tree.{step_of};
ghost use Rattle.cfg_tree.specs.Children.{order_in, row_steps, children_of};

use crate::below::steps_below;
use crate::store::Entries;
use cfg_base::{NoMemory, Path, Step, Word, WordList};
use cfg_schema::{Place, RowId, RowWords, head, row, rows_below};
use std::alloc::Global;

fn order_at(alloc: Global, entries: &Entries, path: &Path) -> Result<WordList, NoMemory>
    ensures { IfOk result (λ order. order ≡ order_in (finite.get (shown entries.now) path.now)) }
{
    match entries.get(path) {
        Some(value) => Ok(value.order.clone()?),
        None => Ok(WordList::new(alloc)),
    }
}

// The word of bytes that are part of a word.
fn copied(alloc: Global, bytes: &[u8]) -> Result<Word, NoMemory>
    ensures { IfOk result (λ word. word ≡ bytes.now) }
{
    match Word::of(alloc, bytes) {
        Ok(word) => Ok(word),
        Err(_) => Err(NoMemory),
    }
}

fn named_step(alloc: Global, head: &[u8], name: &Word) -> Result<Step, NoMemory>
    ensures { IfOk result (λ step. step ≡ step_of head.now name.now) }
{
    Ok(Step {
        head: copied(alloc, head)?,
        name: name.clone()?,
    })
}

fn push_named(
    alloc: Global,
    steps: &mut Vec<Step>,
    head: &[u8],
    names: &WordList,
) -> Result<(), NoMemory>
    ensures { OnOk result (steps.new.items ≡ steps.old.items ++ map (step_of head.now) names.now) }
{
    let mut left = names.iter();
    while let Some(name) = left.next() {
        steps.push(named_step(alloc, head, name)?)?;
    }
    Ok(())
}

fn push_own(steps: &mut Vec<Step>, words: &RowWords, below: &[Step]) -> Result<(), NoMemory>
    ensures { OnOk result (steps.new.items ≡ steps.old.items ++ filter (is_step_of words.now) below.now) }
{
    for step in below {
        if words.tell(step) {
            steps.push(step.clone()?)?;
        }
    }
    Ok(())
}

fn push_row(
    alloc: Global,
    steps: &mut Vec<Step>,
    id: RowId,
    names: &WordList,
    below: &[Step],
) -> Result<(), NoMemory>
    ensures { OnOk result (steps.new.items ≡ steps.old.items ++ row_steps id names.now below.now) }
{
    if row(id).ordered {
        push_named(alloc, steps, head(id), names)
    } else {
        push_own(steps, &RowWords::of(id), below)
    }
}

fn by_rows(
    alloc: Global,
    rows: &[RowId],
    names: &WordList,
    below: &[Step],
) -> Result<Vec<Step>, NoMemory>
    ensures { IfOk result (λ steps. steps.items ≡ flat_map (λ id. row_steps id names.now below.now) rows.now) }
{
    let mut steps = Vec::new(alloc);
    for id in rows {
        push_row(alloc, &mut steps, *id, names, below)?;
    }
    Ok(steps)
}

/// The steps of the children of a path, in printing order.
pub fn children_in(alloc: Global, entries: &Entries, path: &Path) -> Result<Vec<Step>, NoMemory>
    ensures { IfOk result (λ steps. steps.items ≡ children_of (shown entries.now) path.now) }
{
    let here = match Place::of(path.steps()) {
        None => return Ok(Vec::new(alloc)),
        Some(here) => here,
    };
    let below = steps_below(alloc, entries, path)?;
    let rows = rows_below(alloc, here.row, here.in_group)?;
    let order = order_at(alloc, entries, path)?;
    let steps = by_rows(alloc, &rows, &order, &below)?;
    Ok(steps)
}
