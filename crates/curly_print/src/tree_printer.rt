//! The statements below a path of a tree, as curly text.

ghost use Rattle.std.specs.Prelude.{◌≡◌, ◌<◌, ◌≤◌, ◌+◌, ◌*◌, ◌++◌, length, map, Some, OnOk};
ghost use Rattle.std.specs.List.{flat_map};
ghost use Rattle.std.specs.FinMap as finite;
ghost use Rattle.cfg_base.specs.declared.path.TheConstants.{MAX_STEPS};
ghost use Rattle.cfg_schema.specs.Place.{place_of, place_after};
ghost use Rattle.cfg_tree.specs.Children.{order_in};
ghost use Rattle.cfg_tree.specs.Statements.{last_of};
ghost use Rattle.cfg_tree.specs.Tree.{step_of, IsTree};
ghost use Rattle.printing_order.specs.Inside.{front_inside, statements_inside};
ghost use Rattle.curly_print.specs.Printed.{ended, text_below};
ghost use Rattle.curly_print.specs.Printing.{child_text, own_if_of_row, own_row, own_text};

use crate::line::{push_bytes, push_line, push_spaces};
use crate::printing::INDENT;
use cfg_base::{NoMemory, Path, Word};
use cfg_schema::{Place, RowId, RowWords, head, row, rows_below};
use cfg_tree::Tree;
use printing_order::{Statement, front_inside, named_child, statements_below};
use std::alloc::Global;

/// A tree that is printed.
#[derive(Debug, Drop)]
pub(crate) struct TreePrinter<'a> {
    alloc: Global,
    tree: &'a Tree,
}

impl<'a> TreePrinter<'a> {
    pub fn of(alloc: Global, tree: &'a Tree) -> TreePrinter<'a>
        ensures { result.tree.now ≡ tree.now }
    {
        TreePrinter { alloc, tree }
    }

    /// Puts the statements below a path of this place at the end of a text, so many levels deep.
    #[cycle(printing)]
    pub fn push_below(
        &self,
        text: &mut Vec<u8>,
        path: &Path,
        here: &Place,
        inside: &[Statement<'a>],
        levels: usize,
        indent: usize,
    ) -> Result<(), NoMemory>
        requires here { place_of path.now ≡ Some here.now }
        requires inside { inside.now ≡ statements_inside self.now.tree.now path.now }
        requires tree { IsTree self.now.tree.now }
        requires near { indent + 4 * levels ≤ 64 }
        ensures { OnOk result (text.new.items ≡ text.old.items ++ text_below levels self.now.tree.now path.now indent) }
    {
        if levels == 0 {
            return Ok(());
        }
        let rows = rows_below(self.alloc, here.row, here.in_group)?;
        self.push_rows(text, path, here, inside, &rows, levels - 1, indent)
    }

    /// Puts the statements that stand in a statement at the end of a text, so many levels deep; `above` is the place of the path
    /// right above it.
    #[cycle(printing)]
    fn push_within(
        &self,
        text: &mut Vec<u8>,
        above: &Place,
        statement: &Statement<'_>,
        inside: &[Statement<'a>],
        levels: usize,
        indent: usize,
    ) -> Result<(), NoMemory>
        requires above { place_of statement.now.0 ≡ place_after above.now (last_of statement.now.0) }
        requires inside { inside.now ≡ statements_inside self.now.tree.now statement.now.0 }
        requires tree { IsTree self.now.tree.now }
        requires near { indent + 4 * levels ≤ 64 }
        ensures { OnOk result (text.new.items ≡ text.old.items ++ text_below levels self.now.tree.now statement.now.0 indent) }
    {
        if inside.is_empty() {
            return Ok(());
        }
        match above.after(statement.step()) {
            None => Ok(()),
            Some(here) => self.push_below(text, statement.path(), &here, inside, levels, indent),
        }
    }

    /// Puts the statements below a path by these rows at the end of a text.
    #[cycle(printing)]
    fn push_rows(
        &self,
        text: &mut Vec<u8>,
        path: &Path,
        here: &Place,
        inside: &[Statement<'a>],
        rows: &[RowId],
        levels: usize,
        indent: usize,
    ) -> Result<(), NoMemory>
        requires short { length path.now < MAX_STEPS }
        requires here { place_of path.now ≡ Some here.now }
        requires inside { inside.now ≡ statements_inside self.now.tree.now path.now }
        requires tree { IsTree self.now.tree.now }
        requires near { indent + 4 * levels ≤ 60 }
        ensures { OnOk result (text.new.items ≡ text.old.items ++ flat_map (own_row levels self.now.tree.now path.now indent) rows.now) }
    {
        for id in rows {
            self.push_row(text, path, here, inside, *id, levels, indent)?;
        }
        Ok(())
    }

    #[cycle(printing)]
    fn push_row(
        &self,
        text: &mut Vec<u8>,
        path: &Path,
        here: &Place,
        inside: &[Statement<'a>],
        id: RowId,
        levels: usize,
        indent: usize,
    ) -> Result<(), NoMemory>
        requires short { length path.now < MAX_STEPS }
        requires here { place_of path.now ≡ Some here.now }
        requires inside { inside.now ≡ statements_inside self.now.tree.now path.now }
        requires tree { IsTree self.now.tree.now }
        requires near { indent + 4 * levels ≤ 60 }
        ensures { OnOk result (text.new.items ≡ text.old.items ++ own_row levels self.now.tree.now path.now indent id) }
    {
        if row(id).ordered {
            self.push_named(text, path, here, head(id), levels, indent)
        } else {
            self.push_unordered(text, path, here, inside, &RowWords::of(id), levels, indent)
        }
    }

    /// Puts the children with a head at the end of a text, in the user's order.
    #[cycle(printing)]
    fn push_named(
        &self,
        text: &mut Vec<u8>,
        path: &Path,
        here: &Place,
        head: &[u8],
        levels: usize,
        indent: usize,
    ) -> Result<(), NoMemory>
        requires short { length path.now < MAX_STEPS }
        requires here { place_of path.now ≡ Some here.now }
        requires tree { IsTree self.now.tree.now }
        requires near { indent + 4 * levels ≤ 60 }
        ensures { OnOk result (text.new.items ≡ text.old.items ++ flat_map (child_text levels self.now.tree.now path.now indent)
            (map (step_of head.now) (order_in (finite.get self.now.tree.now path.now)))) }
    {
        let value = match self.tree.at(path) {
            None => return Ok(()),
            Some(value) => value,
        };
        let mut left = value.order.iter();
        while let Some(name) = left.next() {
            self.push_child(text, path, here, head, name, levels, indent)?;
        }
        Ok(())
    }

    #[cycle(printing)]
    fn push_child(
        &self,
        text: &mut Vec<u8>,
        path: &Path,
        here: &Place,
        head: &[u8],
        name: &Word,
        levels: usize,
        indent: usize,
    ) -> Result<(), NoMemory>
        requires short { length path.now < MAX_STEPS }
        requires here { place_of path.now ≡ Some here.now }
        requires tree { IsTree self.now.tree.now }
        requires near { indent + 4 * levels ≤ 60 }
        ensures { OnOk result (text.new.items
            ≡ text.old.items ++ child_text levels self.now.tree.now path.now indent (step_of head.now name.now)) }
    {
        let child = named_child(self.alloc, path, head, name)?;
        match self.tree.at(&child) {
            None => Ok(()),
            Some(value) => {
                let inside = statements_below(self.alloc, self.tree, &child)?;
                let statement = Statement::of(&child, value);
                self.push_statement(text, here, &statement, &inside, levels, indent)
            }
        }
    }

    /// Puts the children of a row without an order at the end of a text, in the order of paths.
    #[cycle(printing)]
    fn push_unordered(
        &self,
        text: &mut Vec<u8>,
        path: &Path,
        here: &Place,
        inside: &[Statement<'a>],
        words: &RowWords,
        levels: usize,
        indent: usize,
    ) -> Result<(), NoMemory>
        requires here { place_of path.now ≡ Some here.now }
        requires inside { inside.now ≡ statements_inside self.now.tree.now path.now }
        requires tree { IsTree self.now.tree.now }
        requires near { indent + 4 * levels ≤ 60 }
        ensures { OnOk result (text.new.items
            ≡ text.old.items ++ flat_map (own_if_of_row words.now (length path.now + 1) levels self.now.tree.now indent) inside.now) }
    {
        let count = path.steps().len() + 1;
        let mut at = 0;
        while at < inside.len() {
            let statement = &inside[at];
            let (_, behind) = inside.split_at(at + 1);
            // What stands in a child is no child.
            let within = front_inside(statement, behind);
            self.push_if_of_row(text, here, statement, within, count, words, levels, indent)?;
            at += 1 + within.len();
        }
        Ok(())
    }

    /// Puts a statement at the end of a text, where its path has so many steps, and the last of them is one of a row; `above` is the
    /// place of the path right above it.
    #[cycle(printing)]
    fn push_if_of_row(
        &self,
        text: &mut Vec<u8>,
        above: &Place,
        statement: &Statement<'a>,
        inside: &[Statement<'a>],
        count: usize,
        words: &RowWords,
        levels: usize,
        indent: usize,
    ) -> Result<(), NoMemory>
        requires above { length statement.now.0 ≡ count → place_of statement.now.0 ≡ place_after above.now (last_of statement.now.0) }
        requires inside { inside.now ≡ statements_inside self.now.tree.now statement.now.0 }
        requires tree { IsTree self.now.tree.now }
        requires near { indent + 4 * levels ≤ 60 }
        ensures { OnOk result (text.new.items ≡ text.old.items ++ own_if_of_row words.now count levels self.now.tree.now indent statement.now) }
    {
        if !statement.is_of_row(count, words) {
            return Ok(());
        }
        self.push_statement(text, above, statement, inside, levels, indent)
    }

    /// Puts a statement at the end of a text, with what stands in it; `above` is the place of the path right above it.
    #[cycle(printing)]
    fn push_statement(
        &self,
        text: &mut Vec<u8>,
        above: &Place,
        statement: &Statement<'_>,
        inside: &[Statement<'a>],
        levels: usize,
        indent: usize,
    ) -> Result<(), NoMemory>
        requires above { place_of statement.now.0 ≡ place_after above.now (last_of statement.now.0) }
        requires inside { inside.now ≡ statements_inside self.now.tree.now statement.now.0 }
        requires tree { IsTree self.now.tree.now }
        requires near { indent + 4 * levels ≤ 60 }
        ensures { OnOk result (text.new.items ≡ text.old.items ++ own_text levels self.now.tree.now indent statement.now) }
    {
        push_spaces(text, indent)?;
        push_line(text, statement.step(), statement.value())?;
        self.push_end(text, above, statement, inside, levels, indent)
    }

    /// Puts the end of a statement's line at the end of a text, and what stands in it before that.
    #[cycle(printing)]
    fn push_end(
        &self,
        text: &mut Vec<u8>,
        above: &Place,
        statement: &Statement<'_>,
        inside: &[Statement<'a>],
        levels: usize,
        indent: usize,
    ) -> Result<(), NoMemory>
        requires above { place_of statement.now.0 ≡ place_after above.now (last_of statement.now.0) }
        requires inside { inside.now ≡ statements_inside self.now.tree.now statement.now.0 }
        requires tree { IsTree self.now.tree.now }
        requires near { indent + 4 * levels ≤ 60 }
        ensures { OnOk result (text.new.items
            ≡ text.old.items ++ ended indent (text_below levels self.now.tree.now statement.now.0 (indent + 4))) }
    {
        let end = text.len();
        push_bytes(text, b" {\n".as_slice())?;
        let within = text.len();
        self.push_within(text, above, statement, inside, levels, indent + INDENT)?;
        if text.len() == within {
            text.truncate(end);
            return push_bytes(text, b";\n".as_slice());
        }
        push_spaces(text, indent)?;
        push_bytes(text, b"}\n".as_slice())
    }
}
