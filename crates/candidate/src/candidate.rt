ghost use Rattle.std.specs.Prelude.{◌≡◌, ◌||◌, false, OnOk, OnErr, IfOk, IfErr};
ghost use Rattle.cfg_tree.specs.Typed.{IsLevelPath};
ghost use Rattle.edit_ops.specs.Answer.{IsEditFault};
ghost use Rattle.candidate.specs.Edits.{fresh, IsEdited, IsCandidateChange};

use cfg_base::{NoMemory, Path};
use cfg_tree::Tree;
use commands::Op;
use edit_ops::{EditFault, apply};
use std::alloc::Global;
use std::marker::Model;

/// Whether a candidate is modified after a command, of which it is known whether it changed the map.
fn modified_after(modified: bool, changed: bool) -> bool
    ensures { result ≡ (modified || changed) }
{
    modified | changed
}

/// What a session edits: the commit that it is based on, and edits over that commit's map.
#[derive(Debug, Drop)]
pub struct Candidate {
    number: u64,
    base: Tree,
    tree: Tree,
    modified: bool,
}

impl Model for Candidate {
    ghost use Rattle.std.specs.Prelude.{◌≡◌, false};
    ghost use Rattle.std.specs.Coded.{codes};
    ghost use Rattle.cfg_tree.specs.Statements.{statements_code};
    ghost use Rattle.candidate.specs.Edits.{CandidateView};

    ghost Value = { CandidateView };

    ghost coded = { Prim.hlevel (codes, statements_code) };

    ghost view = { λ c. record { number = c.number; base = c.base; map = c.tree; modified = c.modified } };

    ghost invariant = { λ c. c.modified ≡ false → c.tree ≡ c.base };
}

impl Candidate {
    /// The candidate of a commit, without edits. Both maps are the commit's.
    pub fn fresh(base: u64, base_tree: Tree, tree: Tree) -> Candidate
        requires { tree ≡ base_tree }
        ensures { result ≡ fresh base base_tree }
    {
        Candidate {
            number: base,
            base: base_tree,
            tree,
            modified: false,
        }
    }

    /// The number of the commit that it is based on.
    pub fn base(&self) -> u64
        ensures { result ≡ self.now.number }
    {
        self.number
    }

    /// The map of that commit.
    pub fn base_tree(&self) -> &Tree
        ensures { result.now ≡ self.now.base }
    {
        &self.base
    }

    /// Its own map.
    pub fn tree(&self) -> &Tree
        ensures { result.now ≡ self.now.map }
    {
        &self.tree
    }

    /// Whether it has edits. Without them its map is that of the commit.
    pub fn is_modified(&self) -> bool
        ensures modified { result ≡ self.now.modified }
        ensures base { self.now.modified ≡ false → self.now.map ≡ self.now.base }
    {
        self.modified
    }

    /// A copy, which shares the pages of both maps.
    pub fn copy(&self) -> Result<Candidate, NoMemory>
        ensures { IfOk result (λ copy. copy ≡ self.now) }
    {
        Ok(Candidate {
            number: self.number,
            base: self.base.copy()?,
            tree: self.tree.copy()?,
            modified: self.modified,
        })
    }

    /// Makes one change, its words read from a level.
    pub fn change(&mut self, alloc: Global, level: &Path, op: &Op) -> Result<(), EditFault>
        requires { IsLevelPath level.now }
        ensures ok { OnOk result (IsCandidateChange self.old self.new level.now op.now) }
        ensures err { IfErr result (IsEditFault self.old.map level.now op.now) }
        ensures unchanged { OnErr result (self.new ≡ self.old) }
    {
        match apply(alloc, &mut self.tree, level, op) {
            Ok(changed) => {
                self.modified = modified_after(self.modified, changed);
                Ok(())
            }
            Err(fault) => Err(fault),
        }
    }

    /// Takes the map that a load made of a copy.
    pub fn load(&mut self, loaded: Tree)
        ensures { IsEdited self.old self.new loaded }
    {
        self.replace(loaded);
    }

    /// Takes another map: that of a commit, or one that was merged.
    pub fn replace(&mut self, tree: Tree)
        ensures { IsEdited self.old self.new tree }
    {
        if self.modified || !self.tree.same(&tree) {
            self.tree = tree;
            self.modified = true;
        }
    }

    /// Becomes the candidate of a commit, without edits. Both maps are the commit's.
    pub fn reset(&mut self, base: u64, base_tree: Tree, tree: Tree)
        requires { tree ≡ base_tree }
        ensures { self.new ≡ fresh base base_tree }
    {
        *self = Candidate::fresh(base, base_tree, tree);
    }
}
