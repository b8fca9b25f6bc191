//! How a prepared step is carried out, and what becomes of the entry in flight.

ghost use Rattle.std.specs.Prelude.{◌≡◌, IfSome, None, Some};
ghost use Rattle.config_core.specs.declared.effect.Effect.{Effect};
ghost use Rattle.config_core.specs.Callers.{IsCaller, entered, out_of_mode, own_for, with_caller};
ghost use Rattle.config_core.specs.Entries.{followed_by, taken};
ghost use Rattle.config_core.specs.Plan.{made_of};
ghost use Rattle.config_core.specs.Prepared.{CanApply, Follows, IsReady, applied, committed_by, discarded, effected, new_in, replied, settled_in, with_new};

use crate::core_state::Core;
use crate::effect::{Appending, Effect, Fresh, Maker};
use crate::event::Outcome;
use crate::position::Position;
use crate::prepared::Prepared;
use crate::reply::{Refusal, Reply};
use candidate::Candidate;
use commands::Mode;
use kept_expansion::Expanded;

impl Core {
    /// Carries out a prepared step. It can't fail and takes no memory.
    pub fn accept(&mut self, prepared: Prepared, outcome: Outcome) -> Reply
        requires { Follows prepared self.old }
        ensures state { self.new ≡ applied prepared outcome self.old }
        ensures reply { result ≡ replied prepared.effect prepared.reply outcome }
    {
        let Prepared {
            caller,
            moment,
            effect,
            reply,
            full: _,
            checked,
        } = prepared;
        self.note_checked(checked);
        self.greatest = moment;
        match effect {
            Effect::Stay => reply,
            Effect::Leave(fresh) => {
                self.leave(caller);
                self.discard(fresh);
                reply
            }
            Effect::Enter { mode, own } => {
                self.enter(caller, mode, own);
                reply
            }
            Effect::Move(position) => {
                self.callers[caller as usize - 1].position = position;
                reply
            }
            Effect::Edit(next) => {
                self.put_candidate(caller, next);
                reply
            }
            Effect::Settle(is_kept) => {
                self.settle(is_kept);
                reply
            }
            Effect::Append(appending) => self.append(caller, appending, reply, outcome),
        }
    }

    // The next check may begin with the expansion that this one made.
    fn note_checked(&mut self, checked: Option<Expanded>)
        ensures { self.new ≡ self.old }
    {
        if checked.is_some() {
            self.last = checked;
        }
    }

    fn place(&mut self, caller: u32, mode: Option<Mode>, position: Position)
        requires { IsCaller self.old caller }
        ensures { self.new ≡ with_caller self.old caller mode position }
    {
        let session = &mut self.callers[caller as usize - 1];
        session.mode = mode;
        session.position = position;
    }

    // The caller edits so, at the top.
    fn enter(&mut self, caller: u32, mode: Mode, own: Option<Candidate>)
        requires caller { IsCaller self.old caller }
        requires own { own ≡ own_for mode self.old.kept }
        ensures { self.new ≡ entered self.old caller mode }
    {
        self.place(caller, Some(mode), Position::top(self.alloc));
        self.put_own(caller, own);
        if mode == Mode::Exclusive {
            self.exclusive = Some(caller);
        }
    }

    // The caller is in operational mode, and not in exclusive mode any more.
    fn leave(&mut self, caller: u32)
        requires { IsCaller self.old caller }
        ensures { self.new ≡ out_of_mode self.old caller }
    {
        self.place(caller, None, Position::top(self.alloc));
        self.put_own(caller, None);
        if self.holds(caller) {
            self.exclusive = None;
        }
    }

    // The shared candidate becomes this one.
    fn discard(&mut self, fresh: Option<Candidate>)
        ensures { self.new ≡ discarded self.old fresh }
    {
        if let Some(fresh) = fresh {
            self.shared = fresh;
        }
    }

    fn settle(&mut self, is_kept: bool)
        ensures { self.new ≡ settled_in self.old.flight is_kept self.old }
    {
        if let Some(appending) = self.flight.take()
            && is_kept
        {
            self.take_in(appending);
        }
    }

    fn append(&mut self, caller: u32, appending: Appending, reply: Reply, outcome: Outcome) -> Reply
        requires { CanApply (Effect.Append appending) caller self.old }
        ensures state { self.new ≡ effected (Effect.Append appending) caller outcome self.old }
        ensures reply { result ≡ replied (Effect.Append appending) reply outcome }
    {
        match outcome {
            Outcome::Fault => {
                self.put_in_flight(appending);
                Reply::Refused(Refusal::DiskFault)
            }
            Outcome::Done => {
                let quit = appending.quit;
                self.take_in(appending);
                if quit {
                    self.leave(caller);
                }
                reply
            }
        }
    }

    // It isn't known whether the entry is kept.
    fn put_in_flight(&mut self, appending: Appending)
        requires { IsReady self.old.kept appending }
        ensures { self.new ≡ record self.old { flight = Some (made_of appending) } }
    {
        self.flight = Some(appending);
    }

    // The list gets the entry, and candidates follow.
    fn take_in(&mut self, appending: Appending)
        requires { IsReady self.old.kept appending }
        ensures { self.new ≡ taken self.old (made_of appending) }
    {
        let Appending {
            ready,
            fresh,
            maker,
            quit: _,
        } = appending;
        self.flight = None;
        self.follow(fresh, maker);
        self.ledger.accept(ready);
    }

    // After a commit a shared candidate that isn't modified, or that has the map of a scheduled one, and the one that its maker
    // edits, is the commit's.
    fn follow(&mut self, fresh: Option<Fresh>, maker: Maker)
        requires flight { self.old.flight ≡ None }
        requires same { IfSome fresh (λ new. new.shared ≡ new.own) }
        ensures { self.new ≡ with_new self.old maker (new_in fresh) }
    {
        if let Some(Fresh { shared, own }) = fresh {
            self.follow_shared(maker, shared);
            self.follow_own(maker, own);
        }
    }

    fn follow_shared(&mut self, maker: Maker, new: Candidate)
        ensures { self.new ≡ record self.old { shared = followed_by maker self.old.shared new } }
    {
        if matches!(maker, Maker::Schedule { same: true }) || !self.shared.is_modified() {
            self.shared = new;
        }
    }

    // The candidate that a caller commits is the commit's.
    fn follow_own(&mut self, maker: Maker, new: Candidate)
        ensures { self.new ≡ committed_by self.old maker new }
    {
        if let Maker::Command(caller) = maker {
            self.put_candidate(caller, new);
        }
    }
}
