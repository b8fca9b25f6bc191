//! The expansion of a configuration: what stands at each path once groups are applied.

ghost use Rattle.std.specs.Prelude.{◌≡◌, ◌<◌, ◌≤◌, [], ◌∷◌, ◌++◌, length, filter, nat_le, IfOk, OnOk, OnErr, MatchOption};
ghost use Rattle.std.specs.Option.{option_copied};
ghost use Rattle.std.specs.Ordering.{is_le};
ghost use Rattle.std.specs.Map.{keys_of};
ghost use Rattle.std.specs.List.Sorted.{IsStrictlySortedBy};
ghost use Rattle.std.specs.FinMap as map;
ghost use Rattle.cfg_base.specs.Order.{path_cmp};
ghost use Rattle.cfg_tree.specs.Full.{IsWithin};
ghost use Rattle.cfg_tree.specs.declared.limit.TheConstants.{MAX_EXPANDED};

use crate::limit::MAX_EXPANDED;
use cfg_base::{NoMemory, Path, Word, WordList};
use cfg_entries::{Entries, Maker, Rest, Same};
use std::alloc::Global;
use std::marker::Model;

/// What stands at a path: its words, the order of its ordered children, and the group that it comes from, which is
/// empty for the configuration's own statements.
#[derive(Clone, Debug, Drop, PartialEq, Eq)]
pub struct Given {
    pub words: WordList,
    pub order: WordList,
    pub group: Word,
}

impl Same for Given {
    fn is_same(&self, other: &Given) -> bool {
        self == other
    }
}

/// An expansion: a map from paths to what is given there.
#[derive(Debug, Drop)]
pub struct Full {
    entries: Entries<Given>,
}

impl Model for Full {
    ghost use Rattle.std.specs.FinMap as map;
    ghost use Rattle.cfg_tree.specs.Full.{Expansion, expansion_code, IsWithin};

    ghost Value = { Expansion };

    ghost coded = { expansion_code };

    ghost view = { λ f. map.from_entries f.entries.entries };

    ghost invariant = { λ f. IsWithin (map.from_entries f.entries.entries) };
}

impl Full {
    /// No paths.
    pub fn empty(alloc: Global) -> Full
        ensures { result ≡ map.empty }
    {
        Full {
            entries: Entries::new(alloc),
        }
    }

    /// A copy of the expansion.
    pub fn copy(&self) -> Result<Full, NoMemory>
        ensures same { IfOk result (λ full. full ≡ self.now) }
        ensures within { IfOk result IsWithin }
    {
        let entries = self.entries.clone()?;
        Ok(Full { entries })
    }

    /// What is given at a path, where it is there.
    pub fn at(&self, path: &Path) -> Option<&Given>
        ensures { option_copied result ≡ map.get self.now path.now }
    {
        self.entries.get(path)
    }

    /// How many paths there are.
    pub fn count(&self) -> u32
        ensures { result ≡ map.len self.now }
    {
        self.entries.len() as u32
    }

    /// Whether there are as many paths as an expansion has at most.
    pub fn is_full(&self) -> bool
        ensures { result ≡ nat_le MAX_EXPANDED (map.len self.now) }
    {
        self.entries.len() >= MAX_EXPANDED
    }

    /// Puts what is given at a path. What doesn't change is shared with the copies.
    pub fn put(&mut self, path: Path, given: Given) -> Result<(), NoMemory>
        requires { map.len self.old < MAX_EXPANDED }
        ensures ok { OnOk result (self.new ≡ map.insert self.old path given) }
        ensures unchanged { OnErr result (self.new ≡ self.old) }
        ensures within { IsWithin self.new }
    {
        self.entries.insert(path, given)
    }

    /// Takes a path away.
    pub fn remove(&mut self, path: &Path) -> Result<(), NoMemory>
        ensures ok { OnOk result (self.new ≡ map.remove self.old path.now) }
        ensures unchanged { OnErr result (self.new ≡ self.old) }
        ensures within { IsWithin self.new }
    {
        self.entries.remove(path)
    }

    /// All paths, in their order.
    pub fn walk(&self) -> FullWalk<'_>
        ensures { result ≡ map.entries self.now }
    {
        FullWalk {
            rest: self.entries.iter(),
        }
    }

    /// The paths from one on, in their order.
    pub fn walk_from(&self, path: &Path) -> FullWalk<'_>
        ensures { result ≡ filter (λ e. is_le (path_cmp path.now e.0)) (map.entries self.now) }
    {
        FullWalk {
            rest: self.entries.from(path),
        }
    }
}

/// The paths that are left of a walk.
#[derive(Debug, Drop)]
pub struct FullWalk<'a> {
    rest: Rest<'a, Given>,
}

impl<'a> Model for FullWalk<'a> {
    ghost use Rattle.std.specs.Prelude.{List};
    ghost use Rattle.cfg_base.specs.declared.path.Step.{Step};
    ghost use Rattle.cfg_tree.specs.declared.full.Given as given;

    ghost Value = { List (List Step × given.Given) };

    ghost view = { λ w. w.rest };
}

impl<'a> FullWalk<'a> {
    /// The next path, and what is given there.
    pub fn next(&mut self) -> Option<(&'a Path, &'a Given)>
        ensures { MatchOption result (self.old ≡ []) (λ found. self.old ≡ (found.0.now, found.1.now) ∷ self.new) }
    {
        let entry = self.rest.next()?;
        Some((entry.path(), entry.value()))
    }
}

/// An expansion that is made from paths that come in their order. What an older one has too is shared with it.
#[derive(Debug, Drop)]
pub struct FullMaker<'a> {
    maker: Maker<'a, Given>,
    count: usize,
}

impl<'a> Model for FullMaker<'a> {
    ghost use Rattle.std.specs.Prelude.{List, length, ◌≡◌, ◌≤◌};
    ghost use Rattle.cfg_base.specs.declared.path.Step.{Step};
    ghost use Rattle.cfg_tree.specs.declared.full.Given as given;
    ghost use Rattle.cfg_tree.specs.declared.limit.TheConstants.{MAX_EXPANDED};

    ghost Value = { List (List Step × given.Given) };

    ghost view = { λ m. m.maker };

    ghost invariant = { λ m. (m.count ≡ length m.maker) × (m.count ≤ MAX_EXPANDED) };
}

impl<'a> FullMaker<'a> {
    /// No paths, beside an older expansion.
    pub fn beside(alloc: Global, older: &'a Full) -> FullMaker<'a>
        ensures { result ≡ [] }
    {
        FullMaker {
            maker: Maker::beside(alloc, &older.entries),
            count: 0,
        }
    }

    /// Whether there are as many paths as an expansion has at most.
    pub fn is_full(&self) -> bool
        ensures { result ≡ nat_le MAX_EXPANDED (length self.now) }
    {
        self.count >= MAX_EXPANDED
    }

    /// One more path at the end.
    pub fn push(self, path: Path, given: Given) -> Result<FullMaker<'a>, NoMemory>
        requires { length self < MAX_EXPANDED }
        ensures { IfOk result (λ maker. maker ≡ self.entry ++ (path, given) ∷ []) }
    {
        let FullMaker { maker, count } = self;
        let maker = maker.push(path, given)?;
        Ok(FullMaker {
            maker,
            count: count + 1,
        })
    }

    /// The expansion of these paths.
    pub fn finish(self) -> Result<Full, NoMemory>
        requires { IsStrictlySortedBy path_cmp (keys_of self) }
        ensures made { IfOk result (λ full. full ≡ map.from_entries self.entry) }
        ensures within { length self.entry ≤ MAX_EXPANDED }
    {
        let FullMaker { maker, .. } = self;
        let entries = maker.finish()?;
        Ok(Full { entries })
    }
}
