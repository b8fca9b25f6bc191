//! The path that a walk over statements has come to.

ghost use Rattle.std.specs.Prelude.{◌≡◌, ◌<◌, ◌-◌, ◌++◌, ◌∷◌, [], length, slice_get, Some, IfOk, OnOk};
ghost use Rattle.std.specs.List.{flat_map};
ghost use Rattle.cfg_schema.specs.Place.{place_of};
ghost use Rattle.cfg_tree.specs.OwnWords.{words_of_step};
ghost use Rattle.cfg_tree.specs.Statements.{last_of};
ghost use Rattle.set_text.specs.Printed.{spaced};
ghost use Rattle.set_text.specs.Trail.{own_text, ComesAt, place_behind};

use crate::line::push_step;
use cfg_base::{NoMemory, Path, Step};
use cfg_schema::Place;
use std::alloc::Global;
use std::marker::Model;

/// How far the own words of a path go in a text, and the place of the path.
#[derive(Debug, Drop)]
pub(crate) struct Mark {
    pub end: usize,
    pub place: Option<Place>,
}

/// The path of a statement, its own words as lines have them, and a mark for each path from the top down to it.
#[derive(Debug, Drop)]
pub(crate) struct Trail<'a> {
    path: &'a Path,
    text: Vec<u8>,
    marks: Vec<Mark>,
}

impl<'a> Model for Trail<'a> {
    ghost use Rattle.std.specs.Prelude.{List};
    ghost use Rattle.cfg_base.specs.declared.path.Step.{Step};
    ghost use Rattle.set_text.specs.Trail.{IsTrail};

    ghost Value = { List Step };

    ghost view = { λ t. t.path.now };

    ghost invariant = { λ t. IsTrail t.path.now t.text.items t.marks.items };
}

/// The place, once more.
fn same_place(place: &Option<Place>) -> Option<Place>
    ensures { result ≡ place.now }
{
    match place {
        None => None,
        Some(here) => Some(Place {
            row: here.row,
            in_group: here.in_group,
        }),
    }
}

/// The mark of the path that has so many steps.
fn mark_at(marks: &[Mark], steps: usize) -> Mark
    requires { steps < length marks.now }
    ensures { slice_get marks.now steps ≡ Some result }
{
    let mark = &marks[steps];
    Mark {
        end: mark.end,
        place: same_place(&mark.place),
    }
}

/// The mark of the path to which marks lead down.
fn last_mark(marks: &[Mark]) -> Mark
    requires { 0 < length marks.now }
    ensures { slice_get marks.now (length marks.now - 1) ≡ Some result }
{
    mark_at(marks, marks.len() - 1)
}

fn last_of(steps: &[Step]) -> &Step
    requires { 0 < length steps.now }
    ensures { result.now ≡ last_of steps.now }
{
    &steps[steps.len() - 1]
}

/// The place that a step leads to from another one, where there is one.
fn place_behind(above: Option<Place>, step: &Step) -> Option<Place>
    ensures { result ≡ place_behind above step.now }
{
    match above {
        None => None,
        Some(here) => here.after(step),
    }
}

/// Puts a step after the path that a text and its marks have come to.
fn push_mark(
    text: &mut Vec<u8>,
    marks: &mut Vec<Mark>,
    above: Option<Place>,
    step: &Step,
) -> Result<(), NoMemory>
    ensures text { OnOk result (text.new.items ≡ text.old.items ++ flat_map spaced (words_of_step step.now)) }
    ensures marks { OnOk result (marks.new.items
        ≡ marks.old.items ++ record { end = length text.new.items; place = place_behind above step.now } ∷ []) }
{
    push_step(text, step)?;
    let end = text.len();
    let place = place_behind(above, step);
    marks.push(Mark { end, place })?;
    Ok(())
}

impl<'a> Trail<'a> {
    /// The trail of a path.
    pub(crate) fn of(alloc: Global, path: &'a Path) -> Result<Trail<'a>, NoMemory>
        ensures { IfOk result (λ trail. trail ≡ path.now) }
    {
        let mut text = Vec::new(alloc);
        let mut marks = Vec::new(alloc);
        let place = Some(Place::top());
        marks.push(Mark { end: 0, place })?;
        for step in path.steps() {
            let Mark { end: _, place } = last_mark(&marks);
            push_mark(&mut text, &mut marks, place, step)?;
        }
        Ok(Trail { path, text, marks })
    }

    /// The trail of a path that stands right below this one's, or right below one above it.
    pub(crate) fn gone_to(self, path: &'a Path) -> Result<Trail<'a>, NoMemory>
        requires { ComesAt path.now self }
        ensures { IfOk result (λ trail. trail ≡ path.now) }
    {
        let Trail {
            path: _,
            mut text,
            mut marks,
        } = self;
        let steps = path.steps();
        let last = steps.len() - 1;
        let Mark { end, place } = mark_at(&marks, last);
        text.truncate(end);
        marks.truncate(last + 1);
        push_mark(&mut text, &mut marks, place, last_of(steps))?;
        Ok(Trail { path, text, marks })
    }

    /// The own words of the path, each after a space.
    pub(crate) fn words(&self) -> &[u8]
        ensures { result.now ≡ own_text self.now }
    {
        &self.text
    }

    /// The place of the path.
    pub(crate) fn place(&self) -> Option<Place>
        ensures { result ≡ place_of self.now }
    {
        let Mark { end: _, place } = last_mark(&self.marks);
        place
    }
}
