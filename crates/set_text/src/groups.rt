//! The lines of statements, in three groups: `set` lines, and those of the two marks.

ghost use Rattle.std.specs.Prelude.{◌≡◌, ◌++◌, [], OnOk, IfOk};
ghost use Rattle.cfg_schema.specs.Place.{place_of};
ghost use Rattle.set_text.specs.Printed.{printed_lines, sets_at};
ghost use Rattle.set_text.specs.Groups.{IsStatement};

use crate::line::{push_bytes, push_own_line_if, push_sets};
use crate::trail::Trail;
use cfg_base::{NoMemory, Value, WordList};
use cfg_schema::row;
use commands::Verb;
use std::alloc::Global;

/// The three groups, each as far as it is written.
#[derive(Debug, Drop)]
pub(crate) struct Groups {
    pub sets: Vec<u8>,
    pub deactivates: Vec<u8>,
    pub protects: Vec<u8>,
}

fn push_sets_at(
    text: &mut Vec<u8>,
    at: &Trail<'_>,
    childless: bool,
    words: &WordList,
) -> Result<(), NoMemory>
    ensures { OnOk result (text.new.items ≡ text.old.items ++ printed_lines (sets_at (place_of at.now) at.now childless words.now)) }
{
    match at.place() {
        None => Ok(()),
        Some(here) => push_sets(text, row(here.row).shape, at, childless, words),
    }
}

impl Groups {
    pub(crate) fn new(alloc: Global) -> Groups
        ensures sets { result.sets.items ≡ [] }
        ensures deactivates { result.deactivates.items ≡ [] }
        ensures protects { result.protects.items ≡ [] }
    {
        Groups {
            sets: Vec::new(alloc),
            deactivates: Vec::new(alloc),
            protects: Vec::new(alloc),
        }
    }

    /// The groups, one after the other.
    pub(crate) fn joined(self) -> Result<Vec<u8>, NoMemory>
        ensures { IfOk result (λ text. text.items ≡ self.sets.items ++ (self.deactivates.items ++ self.protects.items)) }
    {
        let mut text = self.sets;
        push_bytes(&mut text, &self.deactivates)?;
        push_bytes(&mut text, &self.protects)?;
        Ok(text)
    }
}

/// Puts the lines of a statement at the end of each group.
pub(crate) fn push_statement(
    groups: &mut Groups,
    at: &Trail<'_>,
    value: &Value,
    childless: bool,
) -> Result<(), NoMemory>
    ensures { OnOk result (IsStatement at.now value.now childless groups.old groups.new) }
{
    push_sets_at(&mut groups.sets, at, childless, &value.words)?;
    push_own_line_if(
        &mut groups.deactivates,
        Verb::Deactivate,
        at,
        value.inactive,
    )?;
    push_own_line_if(&mut groups.protects, Verb::Protect, at, value.protected)
}
