ghost use Rattle.std.specs.Prelude.{◌≡◌, ◌≤◌, ◌+◌, ◌↔◌, IsSome, IsErr, IfOk, IfErr, Some, None};
ghost use Rattle.std.specs.Option.{option_map};
ghost use Rattle.commit_ledger.specs.declared.limit.TheConstants.{MAX_ENTRIES};
ghost use Rattle.commit_ledger.specs.Kept.{factory, active_of, nth_last, kept_commits, target_of, HasOneWaiting};

use crate::entry::{Commit, Scheduled, Via};
use cfg_base::{Moment, NoMemory, UserName, Word};
use cfg_tree::Tree;
use std::alloc::Global;
use std::marker::Model;
use thiserror::Error;

/// Room for the commits beside the last one, and one more.
pub(crate) const ROOM: usize = 50;

/// A run of commits that isn't confirmed yet.
#[derive(Debug, Drop)]
pub(crate) struct Run {
    pub(crate) deadline: u64,
    pub(crate) target: Commit,
}

/// When an unconfirmed run is rolled back, in seconds since 1970, and the number of the commit that it goes back to.
#[derive(Clone, Copy, Debug, PartialEq, Eq)]
pub struct Pending {
    pub deadline: u64,
    pub target: u64,
}

/// That commit isn't kept: so many are.
#[derive(Clone, Copy, Debug, PartialEq, Eq, Error)]
#[error("no rollback {n}, {kept} kept")]
pub struct NoRollback {
    pub n: u32,
    pub kept: u32,
}

/// What is kept of the list of entries.
#[derive(Debug, Drop)]
pub struct Ledger {
    pub(crate) count: u64,
    pub(crate) last: Commit,
    pub(crate) older: Vec<Commit>,
    pub(crate) pending: Option<Run>,
    pub(crate) scheduled: Option<Scheduled>,
    pub(crate) moment: Moment,
}

impl Model for Ledger {
    ghost use Rattle.std.specs.Prelude.{◌≡◌, ◌≤◌, ◌⊎◌, ◌+◌, length, vec_capacity, None, IsSome};
    ghost use Rattle.std.specs.Option.{option_map};
    ghost use Rattle.std.specs.Coded.{codes};
    ghost use Rattle.cfg_tree.specs.Statements.{statements_code};
    ghost use Rattle.commit_ledger.specs.declared.limit.TheConstants.{MAX_ENTRIES};
    ghost use Rattle.commit_ledger.specs.declared.ledger.Run.{Run};
    ghost use Rattle.commit_ledger.specs.Kept.{Kept};

    ghost Value = { Kept };

    ghost coded = { Prim.hlevel (codes, statements_code) };

    ghost view = { λ l. record {
      count = l.count;
      last = l.last;
      older = l.older.items;
      pending = option_map (λ (r : Run). record { deadline = r.deadline; target = r.target }) l.pending;
      scheduled = l.scheduled;
      moment = l.moment;
    } };

    ghost invariant = { λ l. (l.last.number ≤ l.count) × (l.count ≤ MAX_ENTRIES + 1) × (length l.older.items ≤ 49)
        × (50 ≤ vec_capacity l.older) × (IsSome l.pending → l.count ≤ MAX_ENTRIES) × (IsSome l.scheduled → l.count ≤ MAX_ENTRIES)
        × ((l.pending ≡ None) ⊎ (l.scheduled ≡ None)) };
}

fn factory_commit(alloc: Global) -> Result<Commit, NoMemory>
    ensures { IfOk result (λ commit. commit ≡ Rattle.commit_ledger.specs.Kept.factory_commit) }
{
    Ok(Commit {
        number: 1,
        user: UserName::root(alloc)?,
        via: Via::Other,
        moment: Moment::of(0),
        comment: Word::empty(alloc),
        tree: Tree::empty(alloc),
        minutes: 0,
    })
}

impl Ledger {
    /// The list with the factory commit alone: number 1, by `root`, of no statement, at moment 0.
    pub fn factory(alloc: Global) -> Result<Ledger, NoMemory>
        ensures { IfOk result (λ ledger. ledger ≡ factory) }
    {
        let last = factory_commit(alloc)?;
        let older = Vec::with_capacity(alloc, ROOM)?;
        Ok(Ledger {
            count: 1,
            moment: last.moment,
            last,
            older,
            pending: None,
            scheduled: None,
        })
    }

    /// The number of entries.
    pub fn count(&self) -> u64
        ensures count { result ≡ self.now.count }
        ensures within { result ≤ MAX_ENTRIES + 1 }
    {
        self.count
    }

    /// The number of commits that are kept, which are rollbacks 0 and up.
    pub fn kept(&self) -> u32
        ensures number { result ≡ kept_commits self.now }
        ensures within { result ≤ 50 }
    {
        self.older.len() as u32 + 1
    }

    /// The last entry's moment.
    pub fn moment(&self) -> Moment
        ensures { result ≡ self.now.moment }
    {
        self.moment
    }

    /// The last commit.
    pub fn last(&self) -> &Commit
        ensures last { result.now ≡ self.now.last }
        ensures within { self.now.last.number ≤ MAX_ENTRIES + 1 }
        ensures counted { self.now.last.number ≤ self.now.count }
    {
        &self.last
    }

    /// The active configuration: the last commit's map.
    pub fn active(&self) -> &Tree
        ensures { result.now ≡ active_of self.now }
    {
        &self.last.tree
    }

    /// The deadline of an unconfirmed run. While one is unconfirmed there is room for the entry of its revert.
    pub fn pending(&self) -> Option<Pending>
        ensures told { result
            ≡ option_map (λ run. record { deadline = run.deadline; target = run.target.number }) self.now.pending }
        ensures room { IsSome self.now.pending → self.now.count ≤ MAX_ENTRIES }
    {
        match &self.pending {
            Some(run) => Some(Pending {
                deadline: run.deadline,
                target: run.target.number,
            }),
            None => None,
        }
    }

    /// The commit that is scheduled. While one is there is room for the entry of the commit that it becomes, and no run is
    /// unconfirmed.
    pub fn scheduled(&self) -> Option<&Scheduled>
        ensures is { option_map (λ waiting. waiting.now) result ≡ self.now.scheduled }
        ensures room { IsSome self.now.scheduled → self.now.count ≤ MAX_ENTRIES }
        ensures one { HasOneWaiting self.now }
    {
        self.scheduled.as_ref()
    }

    /// The map that an unconfirmed run goes back to.
    pub fn target_tree(&self) -> Option<&Tree>
        ensures { option_map (λ tree. tree.now) result ≡ option_map (λ run. run.target.tree) self.now.pending }
    {
        match &self.pending {
            Some(run) => Some(&run.target.tree),
            None => None,
        }
    }

    /// What an unconfirmed run goes back to, and without one a new run.
    pub(crate) fn target(&self) -> &Commit
        ensures { result.now ≡ target_of self.now }
    {
        match &self.pending {
            Some(run) => &run.target,
            None => &self.last,
        }
    }

    fn nth_last(&self, n: u32) -> Option<&Commit>
        ensures { option_map (λ commit. commit.now) result ≡ nth_last self.now n }
    {
        if n == 0 {
            return Some(&self.last);
        }
        let back = n as usize;
        if back > self.older.len() {
            return None;
        }
        Some(&self.older[self.older.len() - back])
    }

    /// The n-th last commit's map, counted from 0.
    pub fn rollback(&self, n: u32) -> Result<&Tree, NoRollback>
        ensures ok { IfOk result (λ tree. option_map (λ commit. commit.tree) (nth_last self.now n) ≡ Some tree.now) }
        ensures err { IsErr result ↔ (kept_commits self.now ≤ n) }
        ensures none { IsErr result ↔ (nth_last self.now n ≡ None) }
        ensures told { IfErr result (λ fault. fault ≡ record { n = n; kept = kept_commits self.now }) }
    {
        match self.nth_last(n) {
            Some(commit) => Ok(&commit.tree),
            None => Err(NoRollback {
                n,
                kept: self.kept(),
            }),
        }
    }
}
