//! What is given below a path of an expansion, as curly text.

ghost use Rattle.std.specs.Prelude.{◌≡◌, ◌<◌, ◌≤◌, ◌+◌, ◌*◌, [], ◌++◌, ◌∷◌, length, map, true, OnOk};
ghost use Rattle.std.specs.List.{flat_map};
ghost use Rattle.std.specs.FinMap as finite;
ghost use Rattle.cfg_base.specs.declared.path.TheConstants.{MAX_STEPS};
ghost use Rattle.cfg_tree.specs.Children.{is_child};
ghost use Rattle.cfg_tree.specs.Statements.{last_of};
ghost use Rattle.cfg_tree.specs.Tree.{step_of};
ghost use Rattle.curly_print.specs.Printed.{ended, spaces};
ghost use Rattle.curly_print.specs.Inherited.{given_below, given_order, note_of, unmarked_line};
ghost use Rattle.curly_print.specs.Inheriting.{HasInside, entry_if, entry_text, front_longer, given_child_text, row_text};

use crate::entries::{Entry, entries_inside, front_longer};
use crate::line::{push_bytes, push_spaces, push_unmarked_line};
use crate::note::push_note;
use crate::printing::INDENT;
use cfg_base::{NoMemory, Path, Word};
use cfg_schema::{Place, RowId, RowWords, head, row, rows_below};
use cfg_tree::Full;
use printing_order::named_child;
use std::alloc::Global;

/// Puts the note, the spaces and the line of what is given at a path at the end of a text, up to the line's end.
pub(crate) fn push_front(
    text: &mut Vec<u8>,
    entry: &Entry<'_>,
    indent: usize,
) -> Result<(), NoMemory>
    ensures { OnOk result (text.new.items
        ≡ text.old.items ++ (note_of indent (last_of entry.now.0) entry.now.1.group
        ++ (spaces indent ++ unmarked_line (last_of entry.now.0) entry.now.1.words))) }
{
    let step = entry.step();
    let given = entry.given();
    push_note(text, indent, step, &given.group)?;
    push_spaces(text, indent)?;
    push_unmarked_line(text, step, &given.words)
}

/// An expansion that is printed.
#[derive(Debug, Drop)]
pub(crate) struct Printer<'a> {
    alloc: Global,
    full: &'a Full,
}

impl<'a> Printer<'a> {
    pub fn of(alloc: Global, full: &'a Full) -> Printer<'a>
        ensures { result.full.now ≡ full.now }
    {
        Printer { alloc, full }
    }

    /// Puts what is given below a path at the end of a text, so many levels deep.
    #[cycle(inherited)]
    pub fn push_below(
        &self,
        text: &mut Vec<u8>,
        path: &Path,
        inside: &[Entry<'a>],
        levels: usize,
        indent: usize,
    ) -> Result<(), NoMemory>
        requires inside { HasInside self.now.full.now path.now inside.now }
        requires near { indent + 4 * levels ≤ 64 }
        ensures { OnOk result (text.new.items ≡ text.old.items ++ given_below levels self.now.full.now path.now indent) }
    {
        if levels == 0 {
            return Ok(());
        }
        if inside.is_empty() {
            return Ok(());
        }
        let here = match Place::of(path.steps()) {
            None => return Ok(()),
            Some(here) => here,
        };
        let rows = rows_below(self.alloc, here.row, here.in_group)?;
        self.push_rows(text, path, inside, &rows, levels - 1, indent)
    }

    /// Puts what is given below a path by these rows at the end of a text.
    #[cycle(inherited)]
    fn push_rows(
        &self,
        text: &mut Vec<u8>,
        path: &Path,
        inside: &[Entry<'a>],
        rows: &[RowId],
        levels: usize,
        indent: usize,
    ) -> Result<(), NoMemory>
        requires short { length path.now < MAX_STEPS }
        requires inside { HasInside self.now.full.now path.now inside.now }
        requires near { indent + 4 * levels ≤ 60 }
        ensures { OnOk result (text.new.items ≡ text.old.items ++ flat_map (row_text levels self.now.full.now path.now indent) rows.now) }
    {
        for id in rows {
            self.push_row(text, path, inside, *id, levels, indent)?;
        }
        Ok(())
    }

    #[cycle(inherited)]
    fn push_row(
        &self,
        text: &mut Vec<u8>,
        path: &Path,
        inside: &[Entry<'a>],
        id: RowId,
        levels: usize,
        indent: usize,
    ) -> Result<(), NoMemory>
        requires short { length path.now < MAX_STEPS }
        requires inside { HasInside self.now.full.now path.now inside.now }
        requires near { indent + 4 * levels ≤ 60 }
        ensures { OnOk result (text.new.items ≡ text.old.items ++ row_text levels self.now.full.now path.now indent id) }
    {
        if row(id).ordered {
            self.push_named(text, path, head(id), levels, indent)
        } else {
            self.push_unordered(text, path, inside, &RowWords::of(id), levels, indent)
        }
    }

    /// Puts the children with a head at the end of a text, in the order of their level.
    #[cycle(inherited)]
    fn push_named(
        &self,
        text: &mut Vec<u8>,
        path: &Path,
        head: &[u8],
        levels: usize,
        indent: usize,
    ) -> Result<(), NoMemory>
        requires short { length path.now < MAX_STEPS }
        requires near { indent + 4 * levels ≤ 60 }
        ensures { OnOk result (text.new.items ≡ text.old.items ++ flat_map (given_child_text levels self.now.full.now path.now indent)
            (map (step_of head.now) (given_order (finite.get self.now.full.now path.now)))) }
    {
        let given = match self.full.at(path) {
            None => return Ok(()),
            Some(given) => given,
        };
        let mut left = given.order.iter();
        while let Some(name) = left.next() {
            self.push_child(text, path, head, name, levels, indent)?;
        }
        Ok(())
    }

    #[cycle(inherited)]
    fn push_child(
        &self,
        text: &mut Vec<u8>,
        path: &Path,
        head: &[u8],
        name: &Word,
        levels: usize,
        indent: usize,
    ) -> Result<(), NoMemory>
        requires short { length path.now < MAX_STEPS }
        requires near { indent + 4 * levels ≤ 60 }
        ensures { OnOk result (text.new.items
            ≡ text.old.items ++ given_child_text levels self.now.full.now path.now indent (step_of head.now name.now)) }
    {
        let child = named_child(self.alloc, path, head, name)?;
        match self.full.at(&child) {
            None => Ok(()),
            Some(given) => {
                let inside = entries_inside(self.alloc, self.full, &child)?;
                self.push_entry(text, &Entry::of(&child, given), &inside, levels, indent)
            }
        }
    }

    /// Puts the children of a row without an order at the end of a text, in the order of paths.
    #[cycle(inherited)]
    fn push_unordered(
        &self,
        text: &mut Vec<u8>,
        path: &Path,
        inside: &[Entry<'a>],
        words: &RowWords,
        levels: usize,
        indent: usize,
    ) -> Result<(), NoMemory>
        requires inside { HasInside self.now.full.now path.now inside.now }
        requires near { indent + 4 * levels ≤ 60 }
        ensures { OnOk result (text.new.items
            ≡ text.old.items ++ flat_map (entry_if path.now words.now levels self.now.full.now indent) inside.now) }
    {
        let count = path.steps().len() + 1;
        for at in 0..inside.len() {
            let (_, behind) = inside.split_at(at + 1);
            self.push_if_of_row(
                text,
                path,
                &inside[at],
                behind,
                count,
                words,
                levels,
                indent,
            )?;
        }
        Ok(())
    }

    /// Puts an entry at the end of a text, where it is right below a path and of a row.
    #[cycle(inherited)]
    fn push_if_of_row(
        &self,
        text: &mut Vec<u8>,
        path: &Path,
        entry: &Entry<'a>,
        behind: &[Entry<'a>],
        count: usize,
        words: &RowWords,
        levels: usize,
        indent: usize,
    ) -> Result<(), NoMemory>
        requires inside { is_child path.now entry.now.0 ≡ true → HasInside self.now.full.now entry.now.0 (front_longer entry.now.0 behind.now) }
        requires count { count ≡ length path.now + 1 }
        requires near { indent + 4 * levels ≤ 60 }
        ensures { OnOk result (text.new.items ≡ text.old.items ++ entry_if path.now words.now levels self.now.full.now indent entry.now) }
    {
        if !entry.is_of_row(path, count, words) {
            return Ok(());
        }
        self.push_entry(text, entry, front_longer(entry, behind), levels, indent)
    }

    /// Puts what is given at a path at the end of a text, with what stands in it.
    #[cycle(inherited)]
    fn push_entry(
        &self,
        text: &mut Vec<u8>,
        entry: &Entry<'_>,
        inside: &[Entry<'a>],
        levels: usize,
        indent: usize,
    ) -> Result<(), NoMemory>
        requires inside { HasInside self.now.full.now entry.now.0 inside.now }
        requires near { indent + 4 * levels ≤ 60 }
        ensures { OnOk result (text.new.items ≡ text.old.items ++ entry_text levels self.now.full.now indent entry.now) }
    {
        push_front(text, entry, indent)?;
        self.push_end(text, entry.path(), inside, levels, indent)
    }

    /// Puts the end of a statement's line at the end of a text, and what stands in it before that.
    #[cycle(inherited)]
    fn push_end(
        &self,
        text: &mut Vec<u8>,
        path: &Path,
        inside: &[Entry<'a>],
        levels: usize,
        indent: usize,
    ) -> Result<(), NoMemory>
        requires inside { HasInside self.now.full.now path.now inside.now }
        requires near { indent + 4 * levels ≤ 60 }
        ensures { OnOk result (text.new.items ≡ text.old.items ++ ended indent (given_below levels self.now.full.now path.now (indent + 4))) }
    {
        let end = text.len();
        push_bytes(text, b" {\n".as_slice())?;
        let within = text.len();
        self.push_below(text, path, inside, levels, indent + INDENT)?;
        // What its order names may not be there, so that only the text shows whether something stands in it.
        if text.len() == within {
            text.truncate(end);
            return push_bytes(text, b";\n".as_slice());
        }
        push_spaces(text, indent)?;
        push_bytes(text, b"}\n".as_slice())
    }
}
