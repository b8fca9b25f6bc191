//! The statements below a path of a tree, in printing order.

ghost use Rattle.std.specs.Prelude.{◌≡◌, ◌<◌, ◌+◌, ◌++◌, length, map, IfOk, OnOk};
ghost use Rattle.std.specs.List.{flat_map};
ghost use Rattle.std.specs.FinMap as finite;
ghost use Rattle.cfg_base.specs.declared.path.TheConstants.{MAX_STEPS};
ghost use Rattle.cfg_tree.specs.Children.{order_in};
ghost use Rattle.cfg_tree.specs.Tree.{step_of, IsTree};
ghost use Rattle.printing_order.specs.Inside.{front_inside, statements_inside};
ghost use Rattle.printing_order.specs.Listed.{items_below};
ghost use Rattle.printing_order.specs.Listing.{child_items, items_if_of_row, own_items, row_items};

use crate::item::Item;
use crate::named::named_child;
use crate::statements::{Statement, front_inside, statement_at, statements_below};
use cfg_base::{NoMemory, Path, Word};
use cfg_schema::{Place, RowId, RowWords, head, row, rows_below};
use cfg_tree::Tree;
use std::alloc::Global;

/// A tree whose statements are listed.
#[derive(Debug, Drop)]
struct Lister<'a> {
    alloc: Global,
    tree: &'a Tree,
}

impl<'a> Lister<'a> {
    /// Puts the statements below a path at the end of a list, so many levels deep.
    #[cycle(listing)]
    fn push_below(
        &self,
        items: &mut Vec<Item<'a>>,
        path: &Path,
        inside: &[Statement<'a>],
        levels: usize,
    ) -> Result<(), NoMemory>
        requires inside { inside.now ≡ statements_inside self.now.tree.now path.now }
        requires tree { IsTree self.now.tree.now }
        ensures { OnOk result (items.new.items ≡ items.old.items ++ items_below levels self.now.tree.now path.now) }
    {
        if levels == 0 {
            return Ok(());
        }
        if inside.is_empty() {
            return Ok(());
        }
        let here = match Place::of(path.steps()) {
            None => return Ok(()),
            Some(here) => here,
        };
        let rows = rows_below(self.alloc, here.row, here.in_group)?;
        self.push_rows(items, path, inside, &rows, levels - 1)
    }

    /// Puts the statements below a path by these rows at the end of a list.
    #[cycle(listing)]
    fn push_rows(
        &self,
        items: &mut Vec<Item<'a>>,
        path: &Path,
        inside: &[Statement<'a>],
        rows: &[RowId],
        levels: usize,
    ) -> Result<(), NoMemory>
        requires short { length path.now < MAX_STEPS }
        requires inside { inside.now ≡ statements_inside self.now.tree.now path.now }
        requires tree { IsTree self.now.tree.now }
        ensures { OnOk result (items.new.items ≡ items.old.items ++ flat_map (row_items levels self.now.tree.now path.now) rows.now) }
    {
        for id in rows {
            self.push_row(items, path, inside, *id, levels)?;
        }
        Ok(())
    }

    #[cycle(listing)]
    fn push_row(
        &self,
        items: &mut Vec<Item<'a>>,
        path: &Path,
        inside: &[Statement<'a>],
        id: RowId,
        levels: usize,
    ) -> Result<(), NoMemory>
        requires short { length path.now < MAX_STEPS }
        requires inside { inside.now ≡ statements_inside self.now.tree.now path.now }
        requires tree { IsTree self.now.tree.now }
        ensures { OnOk result (items.new.items ≡ items.old.items ++ row_items levels self.now.tree.now path.now id) }
    {
        if row(id).ordered {
            self.push_named(items, path, head(id), levels)
        } else {
            self.push_unordered(items, path, inside, &RowWords::of(id), levels)
        }
    }

    /// Puts the children with a head at the end of a list, in the user's order.
    #[cycle(listing)]
    fn push_named(
        &self,
        items: &mut Vec<Item<'a>>,
        path: &Path,
        head: &[u8],
        levels: usize,
    ) -> Result<(), NoMemory>
        requires short { length path.now < MAX_STEPS }
        requires tree { IsTree self.now.tree.now }
        ensures { OnOk result (items.new.items ≡ items.old.items ++ flat_map (child_items levels self.now.tree.now path.now)
            (map (step_of head.now) (order_in (finite.get self.now.tree.now path.now)))) }
    {
        let value = match self.tree.at(path) {
            None => return Ok(()),
            Some(value) => value,
        };
        let mut left = value.order.iter();
        while let Some(name) = left.next() {
            self.push_child(items, path, head, name, levels)?;
        }
        Ok(())
    }

    #[cycle(listing)]
    fn push_child(
        &self,
        items: &mut Vec<Item<'a>>,
        path: &Path,
        head: &[u8],
        name: &Word,
        levels: usize,
    ) -> Result<(), NoMemory>
        requires short { length path.now < MAX_STEPS }
        requires tree { IsTree self.now.tree.now }
        ensures { OnOk result (items.new.items
            ≡ items.old.items ++ child_items levels self.now.tree.now path.now (step_of head.now name.now)) }
    {
        let child = named_child(self.alloc, path, head, name)?;
        match statement_at(self.tree, &child) {
            None => Ok(()),
            Some(statement) => {
                let inside = statements_below(self.alloc, self.tree, &child)?;
                self.push_statement(items, &statement, &inside, levels)
            }
        }
    }

    /// Puts the children of a row without an order at the end of a list, in the order of paths.
    #[cycle(listing)]
    fn push_unordered(
        &self,
        items: &mut Vec<Item<'a>>,
        path: &Path,
        inside: &[Statement<'a>],
        words: &RowWords,
        levels: usize,
    ) -> Result<(), NoMemory>
        requires inside { inside.now ≡ statements_inside self.now.tree.now path.now }
        requires tree { IsTree self.now.tree.now }
        ensures { OnOk result (items.new.items
            ≡ items.old.items ++ flat_map (items_if_of_row words.now (length path.now + 1) levels self.now.tree.now) inside.now) }
    {
        let count = path.steps().len() + 1;
        for at in 0..inside.len() {
            let (_, behind) = inside.split_at(at + 1);
            self.push_if_of_row(items, &inside[at], behind, count, words, levels)?;
        }
        Ok(())
    }

    /// Puts a statement at the end of a list, where its path has so many steps, and the last of them is one of a row.
    #[cycle(listing)]
    fn push_if_of_row(
        &self,
        items: &mut Vec<Item<'a>>,
        statement: &Statement<'a>,
        behind: &[Statement<'a>],
        count: usize,
        words: &RowWords,
        levels: usize,
    ) -> Result<(), NoMemory>
        requires inside { front_inside statement.now.0 behind.now ≡ statements_inside self.now.tree.now statement.now.0 }
        requires tree { IsTree self.now.tree.now }
        ensures { OnOk result (items.new.items ≡ items.old.items ++ items_if_of_row words.now count levels self.now.tree.now statement.now) }
    {
        if !statement.is_of_row(count, words) {
            return Ok(());
        }
        self.push_statement(items, statement, front_inside(statement, behind), levels)
    }

    /// Puts a statement at the end of a list, and after it those that stand in it.
    #[cycle(listing)]
    fn push_statement(
        &self,
        items: &mut Vec<Item<'a>>,
        statement: &Statement<'a>,
        inside: &[Statement<'a>],
        levels: usize,
    ) -> Result<(), NoMemory>
        requires inside { inside.now ≡ statements_inside self.now.tree.now statement.now.0 }
        requires tree { IsTree self.now.tree.now }
        ensures { OnOk result (items.new.items ≡ items.old.items ++ own_items levels self.now.tree.now statement.now) }
    {
        let at = items.len();
        items.push(Item::of(statement.path(), statement.value()))?;
        self.push_below(items, statement.path(), inside, levels)?;
        let count = items.len() - at - 1;
        items[at].hold(count);
        Ok(())
    }
}

/// The statements below a path in printing order, so many levels deep, each with how many of those right after it stand
/// in it.
pub fn items_below<'a>(
    alloc: Global,
    tree: &'a Tree,
    path: &Path,
    levels: usize,
) -> Result<Vec<Item<'a>>, NoMemory>
    ensures items { IfOk result (λ items. items.items ≡ items_below levels tree.now path.now) }
    ensures tree { IsTree tree.now }
{
    let mut items = Vec::new(alloc);
    if tree.count() == 0 {
        return Ok(items);
    }
    let inside = statements_below(alloc, tree, path)?;
    Lister { alloc, tree }.push_below(&mut items, path, &inside, levels)?;
    Ok(items)
}
