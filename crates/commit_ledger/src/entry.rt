ghost use Rattle.std.specs.Prelude.{◌≡◌, IfOk};
ghost use Rattle.commit_ledger.specs.Kept.{moment_of};

use cfg_base::{Moment, NoMemory, UserName, Word};
use cfg_tree::Tree;

/// How a commit came: by a session, or in another way, as by the service itself.
#[derive(Clone, Copy, Debug, PartialEq, Eq)]
pub enum Via {
    Cli,
    Other,
}

/// A configuration that became the active one.
#[derive(Debug, Drop)]
pub struct Commit {
    /// Rises by 1 from the factory commit's 1.
    pub number: u64,
    pub user: UserName,
    pub via: Via,
    pub moment: Moment,
    /// Without bytes where there is none.
    pub comment: Word,
    pub tree: Tree,
    /// Within how many minutes it must be confirmed; 0 where it needs no confirmation.
    pub minutes: u32,
}

/// A confirmation of commits that had a deadline.
#[derive(Debug, Drop)]
pub struct Confirm {
    /// The number of the last commit.
    pub number: u64,
    pub user: UserName,
    pub moment: Moment,
}

/// A commit that is set for a later time. Its configuration is fixed by then.
#[derive(Debug, Drop)]
pub struct Scheduled {
    /// The number that the commit will have.
    pub number: u64,
    pub user: UserName,
    pub moment: Moment,
    /// When it is to become a commit.
    pub at: Moment,
    /// Without bytes where there is none.
    pub comment: Word,
    pub tree: Tree,
}

/// A scheduled commit that was called off.
#[derive(Debug, Drop)]
pub struct Cleared {
    /// The number that the commit would have had.
    pub number: u64,
    pub user: UserName,
    pub moment: Moment,
}

/// One entry of the list.
#[derive(Debug, Drop)]
pub enum Entry {
    Commit(Commit),
    Confirm(Confirm),
    Scheduled(Scheduled),
    Cleared(Cleared),
}

impl Commit {
    /// A copy, whose map shares its pages.
    pub fn copy(&self) -> Result<Commit, NoMemory>
        ensures { IfOk result (λ commit. commit ≡ self.now) }
    {
        Ok(Commit {
            number: self.number,
            user: self.user.clone()?,
            via: self.via,
            moment: self.moment,
            comment: self.comment.clone()?,
            tree: self.tree.copy()?,
            minutes: self.minutes,
        })
    }
}

impl Scheduled {
    /// A copy, whose map shares its pages.
    pub fn copy(&self) -> Result<Scheduled, NoMemory>
        ensures { IfOk result (λ scheduled. scheduled ≡ self.now) }
    {
        Ok(Scheduled {
            number: self.number,
            user: self.user.clone()?,
            moment: self.moment,
            at: self.at,
            comment: self.comment.clone()?,
            tree: self.tree.copy()?,
        })
    }
}

impl Confirm {
    fn copy(&self) -> Result<Confirm, NoMemory>
        ensures { IfOk result (λ confirm. confirm ≡ self.now) }
    {
        Ok(Confirm {
            number: self.number,
            user: self.user.clone()?,
            moment: self.moment,
        })
    }
}

impl Cleared {
    fn copy(&self) -> Result<Cleared, NoMemory>
        ensures { IfOk result (λ cleared. cleared ≡ self.now) }
    {
        Ok(Cleared {
            number: self.number,
            user: self.user.clone()?,
            moment: self.moment,
        })
    }
}

impl Entry {
    /// A copy, whose map shares its pages.
    pub fn copy(&self) -> Result<Entry, NoMemory>
        ensures { IfOk result (λ entry. entry ≡ self.now) }
    {
        match self {
            Entry::Commit(commit) => Ok(Entry::Commit(commit.copy()?)),
            Entry::Confirm(confirm) => Ok(Entry::Confirm(confirm.copy()?)),
            Entry::Scheduled(waiting) => Ok(Entry::Scheduled(waiting.copy()?)),
            Entry::Cleared(cleared) => Ok(Entry::Cleared(cleared.copy()?)),
        }
    }

    /// When it was made.
    pub fn moment(&self) -> Moment
        ensures { result ≡ moment_of self.now }
    {
        match self {
            Entry::Commit(commit) => commit.moment,
            Entry::Confirm(confirm) => confirm.moment,
            Entry::Scheduled(waiting) => waiting.moment,
            Entry::Cleared(cleared) => cleared.moment,
        }
    }
}
