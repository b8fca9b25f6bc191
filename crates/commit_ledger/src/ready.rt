//! How an entry is taken in: all memory first.

ghost use Rattle.std.specs.Prelude.{◌≡◌, ◌≤◌, ◌++◌, ◌∷◌, [], Option, Some, IfOk};
ghost use Rattle.std.specs.Option.{option_map};
ghost use Rattle.confirm_timer.specs.Deadline.{after_minutes};
ghost use Rattle.commit_ledger.specs.declared.entry.Commit.{Commit};
ghost use Rattle.commit_ledger.specs.Kept.{append_entry, target_for, target_of, newest, HasOneWaiting, NumberFits, RoomFor, Unconfirmed};
ghost use Rattle.commit_ledger.specs.Ready.{ready_for};

use crate::entry::{Commit, Entry};
use crate::ledger::{Ledger, Run};
use cfg_base::NoMemory;
use confirm_timer::deadline_of;
use std::marker::Model;
use std::mem;

/// How many commits are kept beside the last one.
const OLDER: usize = 49;

/// An entry with all that a ledger takes in with it.
#[derive(Debug, Drop)]
pub struct Ready {
    entry: Entry,
    target: Option<Commit>,
}

impl Model for Ready {
    ghost use Rattle.std.specs.Coded.{codes};
    ghost use Rattle.cfg_tree.specs.Statements.{statements_code};
    ghost use Rattle.commit_ledger.specs.Ready.{ReadyView};

    ghost Value = { ReadyView };

    ghost coded = { Prim.hlevel (codes, statements_code) };

    ghost view = { λ r. record { entry = r.entry; target = r.target } };
}

impl Ready {
    /// The entry.
    pub fn entry(&self) -> &Entry
        ensures { result.now ≡ self.now.entry }
    {
        &self.entry
    }
}

fn run_of(commit: &Commit, target: Option<Commit>) -> Option<Run>
    ensures { result ≡ option_map (λ (t : Commit). record {
      deadline = after_minutes commit.now.moment commit.now.minutes;
      target = t;
    }) target }
{
    match target {
        None => None,
        Some(target) => Some(Run {
            deadline: deadline_of(commit.moment, commit.minutes),
            target,
        }),
    }
}

impl Ledger {
    fn target_for(&self, entry: &Entry) -> Result<Option<Commit>, NoMemory>
        ensures { IfOk result (λ target. target ≡ target_for self.now entry.now) }
    {
        match entry {
            Entry::Confirm(_) | Entry::Scheduled(_) | Entry::Cleared(_) => Ok(None),
            Entry::Commit(commit) => {
                if commit.minutes == 0 {
                    Ok(None)
                } else {
                    Ok(Some(self.target().copy()?))
                }
            }
        }
    }

    /// Makes an entry ready to be taken in by this ledger as it stands.
    pub fn prepare(&self, entry: Entry) -> Result<Ready, NoMemory>
        ensures { IfOk result (λ ready. ready ≡ ready_for self.now entry) }
    {
        let target = self.target_for(&entry)?;
        Ok(Ready { entry, target })
    }

    /// Takes an entry in that was made ready by this ledger as it stands.
    pub fn accept(&mut self, ready: Ready)
        requires room { RoomFor self.old ready.entry }
        requires number { NumberFits self.old ready.entry }
        requires target { ready.target ≡ target_for self.old ready.entry }
        requires one { HasOneWaiting (append_entry self.old ready.entry) }
        ensures { self.new ≡ append_entry self.old ready.entry }
    {
        let Ready { entry, target } = ready;
        self.count += 1;
        match entry {
            Entry::Confirm(confirm) => {
                self.moment = confirm.moment;
                self.pending = None;
            }
            Entry::Commit(commit) => {
                self.moment = commit.moment;
                self.pending = run_of(&commit, target);
                self.scheduled = None;
                self.put(commit);
            }
            Entry::Scheduled(waiting) => {
                self.moment = waiting.moment;
                self.scheduled = Some(waiting);
            }
            Entry::Cleared(cleared) => {
                self.moment = cleared.moment;
                self.scheduled = None;
            }
        }
    }

    fn put(&mut self, commit: Commit)
        requires { commit.number ≤ self.old.count }
        ensures { self.new ≡ record self.old { last = commit; older = newest 49 (self.old.older ++ self.old.last ∷ []) } }
    {
        let before = mem::replace(&mut self.last, commit);
        self.older.push_reserved(before);
        if self.older.len() > OLDER {
            self.older.remove(0);
        }
    }
}
