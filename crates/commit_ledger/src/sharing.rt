//! Maps that share with an older one what is equal in both.

ghost use Rattle.std.specs.Prelude.{◌≡◌, IfOk};
ghost use Rattle.commit_ledger.specs.Ready.{ready_for};

use crate::entry::{Commit, Entry, Scheduled};
use crate::ledger::Ledger;
use crate::ready::Ready;
use cfg_base::NoMemory;
use cfg_tree::Tree;
use std::alloc::Global;

/// A map of so many statements takes little memory: to share its pages would cost more than it saves.
const SMALL: u32 = 32;

/// The same map, which shares with an older one what is equal in both, where it isn't small and there is memory to make it so.
fn shared_with(alloc: Global, older: &Tree, tree: Tree) -> Tree
    ensures { result ≡ tree }
{
    if tree.count() <= SMALL {
        return tree;
    }
    match tree.beside(alloc, older) {
        Ok(made) => made,
        Err(NoMemory) => tree,
    }
}

impl Commit {
    fn shared_with(self, alloc: Global, older: &Tree) -> Commit
        ensures { result ≡ self }
    {
        let Commit {
            number,
            user,
            via,
            moment,
            comment,
            tree,
            minutes,
        } = self;
        Commit {
            number,
            user,
            via,
            moment,
            comment,
            tree: shared_with(alloc, older, tree),
            minutes,
        }
    }
}

impl Scheduled {
    fn shared_with(self, alloc: Global, older: &Tree) -> Scheduled
        ensures { result ≡ self }
    {
        let Scheduled {
            number,
            user,
            moment,
            at,
            comment,
            tree,
        } = self;
        Scheduled {
            number,
            user,
            moment,
            at,
            comment,
            tree: shared_with(alloc, older, tree),
        }
    }
}

/// A commit whose map shares with that of the last of others what is equal in both.
pub(crate) fn beside_last(alloc: Global, commits: &[Commit], commit: Commit) -> Commit
    ensures { result ≡ commit }
{
    match commits.last() {
        Some(before) => commit.shared_with(alloc, &before.tree),
        None => commit,
    }
}

impl Ledger {
    /// Makes an entry ready, whose map shares with the last one what is equal in both.
    pub(crate) fn prepare_shared(&self, alloc: Global, entry: Entry) -> Result<Ready, NoMemory>
        ensures { IfOk result (λ ready. ready ≡ ready_for self.now entry) }
    {
        match entry {
            Entry::Commit(commit) => {
                self.prepare(Entry::Commit(commit.shared_with(alloc, self.active())))
            }
            Entry::Scheduled(waiting) => {
                self.prepare(Entry::Scheduled(waiting.shared_with(alloc, self.active())))
            }
            Entry::Confirm(_) | Entry::Cleared(_) => self.prepare(entry),
        }
    }
}
