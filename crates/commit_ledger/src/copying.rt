//! A ledger that is kept twice.

ghost use Rattle.std.specs.Prelude.{◌≡◌, ◌≤◌, ◌+◌, ◌++◌, length, vec_capacity, IfOk, OnOk};
ghost use Rattle.std.specs.Option.{option_map};

use crate::entry::{Commit, Scheduled};
use crate::ledger::{Ledger, ROOM, Run};
use cfg_base::NoMemory;
use std::alloc::Global;

/// Puts copies of commits after others.
fn copy_behind(commits: &[Commit], copies: &mut Vec<Commit>) -> Result<(), NoMemory>
    requires { length copies.old.items + length commits.now ≤ vec_capacity copies.old }
    ensures ok { OnOk result (copies.new.items ≡ copies.old.items ++ commits.now) }
    ensures capacity { vec_capacity copies.new ≡ vec_capacity copies.old }
{
    match commits {
        [] => Ok(()),
        [first, rest @ ..] => match first.copy() {
            Ok(copy) => {
                copies.push_reserved(copy);
                copy_behind(rest, copies)
            }
            Err(NoMemory) => Err(NoMemory),
        },
    }
}

fn copied(alloc: Global, commits: &[Commit]) -> Result<Vec<Commit>, NoMemory>
    requires { length commits.now ≤ 49 }
    ensures { IfOk result (λ copies. (copies.items ≡ commits.now) × (50 ≤ vec_capacity copies)) }
{
    let mut copies = Vec::with_capacity(alloc, ROOM)?;
    copy_behind(commits, &mut copies)?;
    Ok(copies)
}

fn copied_run(pending: &Option<Run>) -> Result<Option<Run>, NoMemory>
    ensures { IfOk result (λ copy. copy ≡ pending.now) }
{
    match pending {
        Some(run) => Ok(Some(Run {
            deadline: run.deadline,
            target: run.target.copy()?,
        })),
        None => Ok(None),
    }
}

fn copied_waiting(scheduled: &Option<Scheduled>) -> Result<Option<Scheduled>, NoMemory>
    ensures { IfOk result (λ copy. copy ≡ scheduled.now) }
{
    match scheduled {
        Some(waiting) => Ok(Some(waiting.copy()?)),
        None => Ok(None),
    }
}

impl Ledger {
    /// A copy, whose maps share their pages.
    pub fn copy(&self, alloc: Global) -> Result<Ledger, NoMemory>
        ensures { IfOk result (λ copy. copy ≡ self.now) }
    {
        Ok(Ledger {
            count: self.count,
            last: self.last.copy()?,
            older: copied(alloc, &self.older)?,
            pending: copied_run(&self.pending)?,
            scheduled: copied_waiting(&self.scheduled)?,
            moment: self.moment,
        })
    }
}
