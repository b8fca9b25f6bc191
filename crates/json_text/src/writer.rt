//! The statements below a path of a tree, as members of a JSON object.

ghost use Rattle.std.specs.Prelude.{◌≡◌, ◌<◌, ◌+◌, ◌++◌, [], length, map, flat_map, Some, IfOk, OnOk};
ghost use Rattle.std.specs.FinMap as finite;
ghost use Rattle.cfg_base.specs.declared.path.TheConstants.{MAX_STEPS};
ghost use Rattle.cfg_schema.specs.Place.{place_of, place_after};
ghost use Rattle.cfg_tree.specs.Children.{order_in};
ghost use Rattle.cfg_tree.specs.Statements.{last_of};
ghost use Rattle.cfg_tree.specs.Tree.{step_of, IsTree};
ghost use Rattle.printing_order.specs.Inside.{front_inside, statements_inside};
ghost use Rattle.serde_json.specs.View.{view, members_view};
ghost use Rattle.json_text.specs.Written.{level_object, pairs_below, put_all};
ghost use Rattle.json_text.specs.Writing.{IsIn, alone_if_of_row, named_child, object_if_of_row, own_alone, own_object, own_row, row_objects};

use crate::building::{
    first_of, key_of, put_at, put_marked, put_objects, put_own, string_of, strings_of,
};
use crate::key::is_named;
use cfg_base::{NoMemory, Path, Shape, Word};
use cfg_schema::{Place, RowId, RowWords, head, row, rows_below};
use cfg_tree::Tree;
use printing_order::{Statement, front_inside, named_child, statements_below};
use serde_json::{Map, Value};
use std::alloc::Global;

/// A tree that is written.
#[derive(Debug, Drop)]
pub(crate) struct Writer<'a> {
    alloc: Global,
    tree: &'a Tree,
}

impl<'a> Writer<'a> {
    pub fn of(alloc: Global, tree: &'a Tree) -> Writer<'a>
        ensures { result.tree.now ≡ tree.now }
    {
        Writer { alloc, tree }
    }

    /// Puts the statements below a path of this place among the members of an object, so many levels deep.
    #[cycle(writing)]
    pub fn put_below(
        &self,
        members: &mut Map<String, Value>,
        path: &Path,
        here: &Place,
        inside: &[Statement<'a>],
        levels: usize,
    ) -> Result<(), NoMemory>
        requires here { place_of path.now ≡ Some here.now }
        requires inside { inside.now ≡ statements_inside self.now.tree.now path.now }
        requires tree { IsTree self.now.tree.now }
        ensures { OnOk result (members_view members.new.entries
            ≡ put_all (members_view members.old.entries) (pairs_below levels self.now.tree.now path.now)) }
    {
        if levels == 0 {
            return Ok(());
        }
        let rows = rows_below(self.alloc, here.row, here.in_group)?;
        self.put_rows(members, path, here, inside, &rows, levels - 1)
    }

    /// Puts the statements that stand in a statement among the members of an object, so many levels deep; `above` is the place
    /// of the path right above it.
    #[cycle(writing)]
    fn put_within(
        &self,
        members: &mut Map<String, Value>,
        above: &Place,
        statement: &Statement<'_>,
        inside: &[Statement<'a>],
        levels: usize,
    ) -> Result<(), NoMemory>
        requires above { place_of statement.now.0 ≡ place_after above.now (last_of statement.now.0) }
        requires inside { inside.now ≡ statements_inside self.now.tree.now statement.now.0 }
        requires tree { IsTree self.now.tree.now }
        ensures { OnOk result (members_view members.new.entries
            ≡ put_all (members_view members.old.entries) (pairs_below levels self.now.tree.now statement.now.0)) }
    {
        if inside.is_empty() {
            return Ok(());
        }
        match above.after(statement.step()) {
            None => Ok(()),
            Some(here) => self.put_below(members, statement.path(), &here, inside, levels),
        }
    }

    /// Puts the statements below a path by these rows among the members of an object.
    #[cycle(writing)]
    fn put_rows(
        &self,
        members: &mut Map<String, Value>,
        path: &Path,
        here: &Place,
        inside: &[Statement<'a>],
        rows: &[RowId],
        levels: usize,
    ) -> Result<(), NoMemory>
        requires short { length path.now < MAX_STEPS }
        requires here { place_of path.now ≡ Some here.now }
        requires inside { inside.now ≡ statements_inside self.now.tree.now path.now }
        requires tree { IsTree self.now.tree.now }
        ensures { OnOk result (members_view members.new.entries
            ≡ put_all (members_view members.old.entries) (flat_map (own_row levels self.now.tree.now path.now) rows.now)) }
    {
        for id in rows {
            self.put_row(members, path, here, inside, *id, levels)?;
        }
        Ok(())
    }

    #[cycle(writing)]
    fn put_row(
        &self,
        members: &mut Map<String, Value>,
        path: &Path,
        here: &Place,
        inside: &[Statement<'a>],
        id: RowId,
        levels: usize,
    ) -> Result<(), NoMemory>
        requires short { length path.now < MAX_STEPS }
        requires here { place_of path.now ≡ Some here.now }
        requires inside { inside.now ≡ statements_inside self.now.tree.now path.now }
        requires tree { IsTree self.now.tree.now }
        ensures { OnOk result (members_view members.new.entries
            ≡ put_all (members_view members.old.entries) (own_row levels self.now.tree.now path.now id)) }
    {
        if is_named(row(id).shape) {
            let mut objects = Vec::new(self.alloc);
            self.push_row(&mut objects, path, here, inside, id, levels)?;
            put_objects(members, self.alloc, id, objects)
        } else {
            self.put_single(members, path, here, inside, &RowWords::of(id), id, levels)
        }
    }

    /// Puts the objects of a row's statements at the end of a list.
    #[cycle(writing)]
    fn push_row(
        &self,
        objects: &mut Vec<Value>,
        path: &Path,
        here: &Place,
        inside: &[Statement<'a>],
        id: RowId,
        levels: usize,
    ) -> Result<(), NoMemory>
        requires short { length path.now < MAX_STEPS }
        requires here { place_of path.now ≡ Some here.now }
        requires inside { inside.now ≡ statements_inside self.now.tree.now path.now }
        requires tree { IsTree self.now.tree.now }
        ensures { OnOk result (map view objects.new.items
            ≡ map view objects.old.items ++ row_objects levels self.now.tree.now path.now id) }
    {
        if row(id).ordered {
            self.push_named(objects, path, here, head(id), levels)
        } else {
            self.push_unordered(objects, path, here, inside, &RowWords::of(id), levels)
        }
    }

    /// Puts the objects of the children with a head at the end of a list, in the user's order.
    #[cycle(writing)]
    fn push_named(
        &self,
        objects: &mut Vec<Value>,
        path: &Path,
        here: &Place,
        head: &[u8],
        levels: usize,
    ) -> Result<(), NoMemory>
        requires short { length path.now < MAX_STEPS }
        requires here { place_of path.now ≡ Some here.now }
        requires tree { IsTree self.now.tree.now }
        ensures { OnOk result (map view objects.new.items
            ≡ map view objects.old.items ++ flat_map (named_child levels self.now.tree.now path.now)
            (map (step_of head.now) (order_in (finite.get self.now.tree.now path.now)))) }
    {
        let value = match self.tree.at(path) {
            None => return Ok(()),
            Some(value) => value,
        };
        let mut left = value.order.iter();
        while let Some(name) = left.next() {
            self.push_child(objects, path, here, head, name, levels)?;
        }
        Ok(())
    }

    #[cycle(writing)]
    fn push_child(
        &self,
        objects: &mut Vec<Value>,
        path: &Path,
        here: &Place,
        head: &[u8],
        name: &Word,
        levels: usize,
    ) -> Result<(), NoMemory>
        requires short { length path.now < MAX_STEPS }
        requires here { place_of path.now ≡ Some here.now }
        requires tree { IsTree self.now.tree.now }
        ensures { OnOk result (map view objects.new.items
            ≡ map view objects.old.items ++ named_child levels self.now.tree.now path.now (step_of head.now name.now)) }
    {
        let child = named_child(self.alloc, path, head, name)?;
        match self.tree.at(&child) {
            None => Ok(()),
            Some(value) => {
                let inside = statements_below(self.alloc, self.tree, &child)?;
                let statement = Statement::of(&child, value);
                self.push_object(objects, here, &statement, &inside, levels)
            }
        }
    }

    /// Puts the objects of a row's statements at the end of a list, in the order of paths.
    #[cycle(writing)]
    fn push_unordered(
        &self,
        objects: &mut Vec<Value>,
        path: &Path,
        here: &Place,
        inside: &[Statement<'a>],
        words: &RowWords,
        levels: usize,
    ) -> Result<(), NoMemory>
        requires here { place_of path.now ≡ Some here.now }
        requires inside { inside.now ≡ statements_inside self.now.tree.now path.now }
        requires tree { IsTree self.now.tree.now }
        ensures { OnOk result (map view objects.new.items
            ≡ map view objects.old.items ++ flat_map (object_if_of_row words.now (length path.now + 1) levels self.now.tree.now) inside.now) }
    {
        let count = path.steps().len() + 1;
        let mut at = 0;
        while at < inside.len() {
            let statement = &inside[at];
            let (_, behind) = inside.split_at(at + 1);
            // What stands in a child is no child.
            let within = front_inside(statement, behind);
            self.push_if_of_row(objects, here, statement, within, count, words, levels)?;
            at += 1 + within.len();
        }
        Ok(())
    }

    /// Puts the object of a statement at the end of a list, where its path has so many steps, and the last of them is one
    /// of a row.
    #[cycle(writing)]
    fn push_if_of_row(
        &self,
        objects: &mut Vec<Value>,
        above: &Place,
        statement: &Statement<'a>,
        inside: &[Statement<'a>],
        count: usize,
        words: &RowWords,
        levels: usize,
    ) -> Result<(), NoMemory>
        requires found { IsIn self.now.tree.now statement.now }
        requires above { length statement.now.0 ≡ count → place_of statement.now.0 ≡ place_after above.now (last_of statement.now.0) }
        requires inside { inside.now ≡ statements_inside self.now.tree.now statement.now.0 }
        requires tree { IsTree self.now.tree.now }
        ensures { OnOk result (map view objects.new.items
            ≡ map view objects.old.items ++ object_if_of_row words.now count levels self.now.tree.now statement.now) }
    {
        if !statement.is_of_row(count, words) {
            return Ok(());
        }
        self.push_object(objects, above, statement, inside, levels)
    }

    /// Puts the object of a statement with a name at the end of a list.
    #[cycle(writing)]
    fn push_object(
        &self,
        objects: &mut Vec<Value>,
        above: &Place,
        statement: &Statement<'_>,
        inside: &[Statement<'a>],
        levels: usize,
    ) -> Result<(), NoMemory>
        requires found { IsIn self.now.tree.now statement.now }
        requires above { place_of statement.now.0 ≡ place_after above.now (last_of statement.now.0) }
        requires inside { inside.now ≡ statements_inside self.now.tree.now statement.now.0 }
        requires tree { IsTree self.now.tree.now }
        ensures { OnOk result (map view objects.new.items
            ≡ map view objects.old.items ++ own_object levels self.now.tree.now statement.now) }
    {
        let object = self.level(true, above, statement, inside, levels)?;
        objects.push(object)?;
        Ok(())
    }

    /// Puts the statement of a row without names among the members of an object.
    #[cycle(writing)]
    fn put_single(
        &self,
        members: &mut Map<String, Value>,
        path: &Path,
        here: &Place,
        inside: &[Statement<'a>],
        words: &RowWords,
        id: RowId,
        levels: usize,
    ) -> Result<(), NoMemory>
        requires words { words.now ≡ id }
        requires here { place_of path.now ≡ Some here.now }
        requires inside { inside.now ≡ statements_inside self.now.tree.now path.now }
        requires tree { IsTree self.now.tree.now }
        ensures { OnOk result (members_view members.new.entries
            ≡ put_all (members_view members.old.entries)
            (flat_map (alone_if_of_row id (length path.now + 1) levels self.now.tree.now) inside.now)) }
    {
        let count = path.steps().len() + 1;
        let mut at = 0;
        while at < inside.len() {
            let statement = &inside[at];
            let (_, behind) = inside.split_at(at + 1);
            // What stands in a child is no child.
            let within = front_inside(statement, behind);
            self.put_if_of_row(members, here, statement, within, count, words, id, levels)?;
            at += 1 + within.len();
        }
        Ok(())
    }

    /// Puts a statement among the members of an object, where its path has so many steps, and the last of them is one of a
    /// row.
    #[cycle(writing)]
    fn put_if_of_row(
        &self,
        members: &mut Map<String, Value>,
        above: &Place,
        statement: &Statement<'a>,
        inside: &[Statement<'a>],
        count: usize,
        words: &RowWords,
        id: RowId,
        levels: usize,
    ) -> Result<(), NoMemory>
        requires words { words.now ≡ id }
        requires found { IsIn self.now.tree.now statement.now }
        requires above { length statement.now.0 ≡ count → place_of statement.now.0 ≡ place_after above.now (last_of statement.now.0) }
        requires inside { inside.now ≡ statements_inside self.now.tree.now statement.now.0 }
        requires tree { IsTree self.now.tree.now }
        ensures { OnOk result (members_view members.new.entries
            ≡ put_all (members_view members.old.entries) (alone_if_of_row id count levels self.now.tree.now statement.now)) }
    {
        if !statement.is_of_row(count, words) {
            return Ok(());
        }
        self.put_alone(members, above, statement, inside, id, levels)
    }

    /// Puts a statement of a row without names among the members of an object.
    #[cycle(writing)]
    fn put_alone(
        &self,
        members: &mut Map<String, Value>,
        above: &Place,
        statement: &Statement<'a>,
        inside: &[Statement<'a>],
        id: RowId,
        levels: usize,
    ) -> Result<(), NoMemory>
        requires found { IsIn self.now.tree.now statement.now }
        requires above { place_of statement.now.0 ≡ place_after above.now (last_of statement.now.0) }
        requires inside { inside.now ≡ statements_inside self.now.tree.now statement.now.0 }
        requires tree { IsTree self.now.tree.now }
        ensures { OnOk result (members_view members.new.entries
            ≡ put_all (members_view members.old.entries) (own_alone id levels self.now.tree.now statement.now)) }
    {
        let key = key_of(self.alloc, id)?;
        let value = statement.value();
        match row(id).shape {
            Shape::Keyed | Shape::Bare => Ok(()),
            Shape::Container | Shape::Fixed => {
                let object = self.level(false, above, statement, inside, levels)?;
                put_at(members, self.alloc, &key, object)
            }
            Shape::Leaf => {
                let word = string_of(self.alloc, first_of(&value.words))?;
                put_marked(members, self.alloc, &key, word, value)
            }
            Shape::Flag => put_marked(members, self.alloc, &key, Value::Bool(true), value),
            Shape::Many => {
                let words = Value::Array(strings_of(self.alloc, &value.words)?);
                put_marked(members, self.alloc, &key, words, value)
            }
        }
    }

    /// The object of a level that is a statement.
    #[cycle(writing)]
    fn level(
        &self,
        named: bool,
        above: &Place,
        statement: &Statement<'_>,
        inside: &[Statement<'a>],
        levels: usize,
    ) -> Result<Value, NoMemory>
        requires found { IsIn self.now.tree.now statement.now }
        requires above { place_of statement.now.0 ≡ place_after above.now (last_of statement.now.0) }
        requires inside { inside.now ≡ statements_inside self.now.tree.now statement.now.0 }
        requires tree { IsTree self.now.tree.now }
        ensures { IfOk result (λ value. view value
            ≡ level_object named (last_of statement.now.0) statement.now.1 (pairs_below levels self.now.tree.now statement.now.0)) }
    {
        let mut members = Map::new(self.alloc);
        put_own(
            &mut members,
            self.alloc,
            named,
            statement.step(),
            statement.value(),
        )?;
        self.put_within(&mut members, above, statement, inside, levels)?;
        Ok(Value::Object(members))
    }
}
