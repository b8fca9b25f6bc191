//! Which candidate a session edits: its own one in private mode, or else the shared one.

ghost use Rattle.std.specs.Prelude.{◌≡◌, ◌-◌, ◌<◌, length, is_some, IfOk, IfSome, slice_set};
ghost use Rattle.std.specs.Option.{option_map};
ghost use Rattle.config_core.specs.State.{fresh_of};
ghost use Rattle.config_core.specs.Callers.{IsCaller, candidate_of, own_for, own_of, with_candidate};

use crate::core_state::Core;
use candidate::Candidate;
use cfg_base::NoMemory;
use commands::Mode;
use commit_ledger::Commit;

/// The candidate of a commit, without edits.
pub(crate) fn fresh_of(commit: &Commit) -> Result<Candidate, NoMemory>
    ensures { IfOk result (λ fresh. fresh ≡ fresh_of commit.now) }
{
    let base = commit.tree.copy()?;
    let tree = commit.tree.copy()?;
    Ok(Candidate::fresh(commit.number, base, tree))
}

impl Core {
    /// The candidate of the last commit, without edits.
    pub(crate) fn fresh(&self) -> Result<Candidate, NoMemory>
        ensures { IfOk result (λ fresh. fresh ≡ fresh_of self.now.kept.last) }
    {
        fresh_of(self.ledger.last())
    }

    /// The own candidate of a session that enters configuration mode.
    pub(crate) fn own_for(&self, mode: Mode) -> Result<Option<Candidate>, NoMemory>
        ensures { IfOk result (λ own. own ≡ own_for mode self.now.kept) }
    {
        match mode {
            Mode::Private => Ok(Some(self.fresh()?)),
            Mode::Shared | Mode::Exclusive => Ok(None),
        }
    }

    // The place of the caller's own candidate.
    fn own_place(&self, caller: u32) -> Option<usize>
        ensures there { is_some result ≡ is_some (own_of self.now caller) }
        ensures place { IfSome result (λ place. (place ≡ caller - 1) × (place < length self.now.own)) }
    {
        let place = (caller as usize).saturating_sub(1);
        if place < self.own.len() && self.own[place].is_some() {
            Some(place)
        } else {
            None
        }
    }

    /// The caller's own candidate, which it has in private mode.
    pub(crate) fn own(&self, caller: u32) -> Option<&Candidate>
        ensures { option_map (λ own. own.now) result ≡ own_of self.now caller }
    {
        match self.own_place(caller) {
            Some(place) => self.own[place].as_ref(),
            None => None,
        }
    }

    /// The candidate that the caller edits.
    pub(crate) fn candidate(&self, caller: u32) -> &Candidate
        ensures { result.now ≡ candidate_of self.now caller }
    {
        self.own(caller).unwrap_or(&self.shared)
    }

    /// The caller edits this candidate from now on.
    pub(crate) fn put_candidate(&mut self, caller: u32, next: Candidate)
        ensures { self.new ≡ with_candidate self.old caller next }
    {
        match self.own_place(caller) {
            Some(place) => self.own[place] = Some(next),
            None => self.shared = next,
        }
    }

    /// The caller has this candidate of its own, or none.
    pub(crate) fn put_own(&mut self, caller: u32, own: Option<Candidate>)
        requires { IsCaller self.old caller }
        ensures { self.new ≡ record self.old { own = slice_set self.old.own (caller - 1) own } }
    {
        self.own[caller as usize - 1] = own;
    }
}
