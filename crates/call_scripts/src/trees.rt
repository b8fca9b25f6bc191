//! The trees that a script keeps.

use crate::changes::{change, look, op_of};
use crate::followed::follow;
use crate::kept::keep;
use crate::level::level_of;
use crate::{access_calls, check_calls, group_calls, puts};
use cfg_tree::Tree;
use commands::Op;
use kept_expansion::Expanded;
use script_lines::{Arg, Fault, Text, say_flag};
use std::alloc::Global;
use std::mem;

#[derive(Drop)]
pub(crate) struct Trees {
    pub tree: Tree,
    /// Another tree, for a while.
    other: Tree,
    /// Trees that were made anew, the last one last.
    kept: Vec<Tree>,
    /// Expansions that follow one another, the last one last.
    followed: Vec<Expanded>,
    /// The words of the level from which changes are read.
    level: Vec<Arg>,
}

impl Trees {
    pub(crate) fn new(alloc: Global) -> Trees {
        Trees {
            tree: Tree::empty(alloc),
            other: Tree::empty(alloc),
            kept: Vec::new(alloc),
            followed: Vec::new(alloc),
            level: Vec::new(alloc),
        }
    }

    fn clear(&mut self, alloc: Global) {
        self.tree = Tree::empty(alloc);
        self.kept = Vec::new(alloc);
        self.followed = Vec::new(alloc);
    }

    fn swap(&mut self) {
        mem::swap(&mut self.tree, &mut self.other);
    }

    /// copy: the other tree is the same from now on
    fn copy(&mut self) -> Result<(), Fault> {
        self.other = self.tree.copy()?;
        Ok(())
    }

    /// Takes a line of the trees as a whole, where it is one.
    pub(crate) fn keep(
        &mut self,
        alloc: Global,
        name: &str,
        args: &[Arg],
        out: &mut Text,
    ) -> Option<Result<(), Fault>> {
        match (name, args) {
            ("clear", []) => self.clear(alloc),
            ("copy", []) => return Some(self.copy()),
            ("swap", []) => self.swap(),
            ("keep", []) => return Some(keep(alloc, &mut self.kept, &self.tree, out)),
            ("follow", []) => return Some(follow(alloc, &mut self.followed, &self.tree, out)),
            ("same", []) => say_flag(out, self.tree.same(&self.other)),
            _ => return None,
        }
        Some(Ok(()))
    }

    /// From now on changes are read from the level that these words name.
    pub(crate) fn set_level(&mut self, args: Vec<Arg>) {
        self.level = args;
    }

    /// Asks whether a user may do what a line asks at the level.
    pub(crate) fn ask_allows(
        &self,
        alloc: Global,
        text: &str,
        out: &mut Text,
    ) -> Result<(), Fault> {
        let level = level_of(alloc, &self.level)?;
        access_calls::ask_allows(alloc, &self.tree, &level, text, out)
    }

    /// Makes a change of the tree.
    fn make(&mut self, alloc: Global, op: &Op, out: &mut Text) -> Result<(), Fault> {
        let level = level_of(alloc, &self.level)?;
        change(alloc, &mut self.tree, &level, op, out);
        Ok(())
    }

    /// Makes a change of the tree, where the call is one.
    fn change(
        &mut self,
        alloc: Global,
        name: &str,
        args: &[Arg],
        out: &mut Text,
    ) -> Option<Result<(), Fault>> {
        match op_of(alloc, name, args) {
            Ok(Some(op)) => Some(self.make(alloc, &op, out)),
            Ok(None) => None,
            Err(fault) => Some(Err(fault)),
        }
    }

    /// Answers a call that leaves the tree as it is, where it is one.
    fn look(
        &self,
        alloc: Global,
        name: &str,
        args: &[Arg],
        out: &mut Text,
    ) -> Option<Result<(), Fault>> {
        if check_calls::ask(alloc, &self.tree, name, out) {
            return Some(Ok(()));
        }
        if name == "rights" {
            return Some(access_calls::ask_rights(alloc, &self.tree, args, out));
        }
        if let Some(done) = look(alloc, &self.tree, name, args, out) {
            return Some(done);
        }
        group_calls::ask(alloc, &self.tree, name, args, out)
    }

    /// Answers a call of the tree, where it is one.
    pub(crate) fn ask(
        &mut self,
        alloc: Global,
        name: &str,
        args: &[Arg],
        out: &mut Text,
    ) -> Option<Result<(), Fault>> {
        if let Some(done) = self.change(alloc, name, args, out) {
            return Some(done);
        }
        if let Some(done) = puts::ask(alloc, &mut self.tree, name, args, out) {
            return Some(done);
        }
        self.look(alloc, name, args, out)
    }
}
