ghost use Rattle.std.specs.Prelude.{◌≡◌, ◌<◌, ◌≤◌, [], length};
ghost use Rattle.disk_model.specs.Pair.{pair_of};
ghost use Rattle.std.specs.Arc.{arc_value};
ghost use Rattle.commands.specs.Sound.{IsSound};
ghost use Rattle.config_core.specs.Callers.{level_of};
ghost use Rattle.session_history.specs.Events.{IsLegal, StaysAccepted};
ghost use Rattle.active_snapshot.specs.Views.{AreViews};
ghost use Rattle.trace_list.specs.declared.trace.TheConstants.{MOST};
ghost use Rattle.config_db.specs.View.{AreParts, opened};
ghost use Rattle.config_db.specs.Shown.{Shows};
ghost use Rattle.config_db.specs.Appended.{AreAppended};
ghost use Rattle.config_db.specs.Answers.{Answers, IsClear, IsNext, MakesWay, PublishesFirst, moment_at};
ghost use Rattle.config_db.specs.Closing.{IsClosed};

use crate::answer::{Answered, ClosedBook, Ticked};
use crate::holding::Held;
use active_snapshot::{Naming, Shown, SnapNote, SnapReaders, SnapWriter};
use cfg_base::{Moment, Path, Users};
use commands::Command;
use commit_journal::Journal;
use commit_ledger::{EntryList, Ledger};
use config_core::Core;
use disk_model::Disk;
use session_history::{Happened, histories_stay_accepted};
use std::alloc::Global;
use std::marker::Model;
use std::mem;
use std::sync::{Arc, Wait};
use trace_list::Trace;

/// The machine with its journal and with what readers are shown: the list over which it began, the users of its callers, and what
/// happened. It is not `Drop`: end it by `close`.
pub struct Database<D: Disk, J: Naming> {
    pub(crate) alloc: Global,
    pub(crate) journal: Journal<D>,
    pub(crate) opening: Ledger,
    pub(crate) users: Users,
    pub(crate) events: Trace<Happened>,
    pub(crate) core: Core,
    pub(crate) held: Held,
    pub(crate) shown: SnapWriter<J>,
    pub(crate) readers: SnapReaders<J>,
}

impl<D: Disk, J: Naming> Model for Database<D, J> {
    ghost use Rattle.std.specs.Prelude.{◌<◌, IsSome};
    ghost use Rattle.std.specs.Coded.{codes};
    ghost use Rattle.cfg_tree.specs.Statements.{statements_code};
    ghost use Rattle.config_db.specs.View.{DatabaseView};
    ghost use Rattle.config_db.specs.Book.{IsBook};
    ghost use Rattle.config_db.specs.Appended.{HoldsAdded};
    ghost use Rattle.config_core.specs.State.{opening_of};

    ghost Value = { DatabaseView };

    ghost coded = { Prim.hlevel (codes, statements_code) };

    ghost view = { λ d. record {
      journal = d.journal;
      opening = d.opening;
      users = d.users;
      events = d.events.items;
      state = d.core;
      shown = d.shown;
      readers = d.readers;
    } };

    // After an entry in flight there is room for its settling. What is held are the newest of the entries that the events added.
    ghost invariant = { λ d. IsBook (record {
      journal = d.journal;
      opening = d.opening;
      users = d.users;
      events = d.events.items;
      state = d.core;
      shown = d.shown;
      readers = d.readers;
    }) × (IsSome d.core.flight → 0 < d.events.spare)
        × HoldsAdded (opening_of d.opening d.users) d.events.items d.core d.held };
}

impl<D: Disk, J: Naming> Database<D, J> {
    /// How many events there are. They are a legal history, in which the active configuration stays accepted.
    pub fn count(&self) -> u64
        ensures count { result ≡ length self.now.events }
        ensures most { result ≤ MOST }
        ensures legal { IsLegal (opened self.now) self.now.events }
        ensures accepted { StaysAccepted (opened self.now) self.now.events }
    {
        histories_stay_accepted();
        self.events.len() as u64
    }

    /// Asks a command of a caller, at that moment or at the greatest one so far. A settling comes first, and then a revert or a
    /// scheduled commit, where they are needed.
    pub fn step<R: Wait>(
        &mut self,
        rt: &R,
        caller: u32,
        moment: Moment,
        command: Command,
    ) -> Answered
        requires caller { (0 < caller) × (caller ≤ length self.old.users) }
        requires sound { IsSound command }
        ensures answers { Answers caller (moment_at moment self.old) command result self.old self.new }
        ensures next { IsClear (moment_at moment self.old) self.old → IsNext result self.old.events self.new.events }
        ensures shown { PublishesFirst (result ≡ Answered.NoMemory) self.old self.new }
    {
        let moment = moment.later(self.core.greatest());
        self.publish_and_answer(rt, caller, moment, command)
    }

    /// Looks at the time: settles, and reverts or makes a scheduled commit, where that is needed, as nobody's command.
    pub fn tick<R: Wait>(&mut self, rt: &R, moment: Moment) -> Ticked
        ensures way { MakesWay 0 (moment_at moment self.old) result self.old self.new }
        ensures shown { PublishesFirst (result ≡ Ticked.NoMemory) self.old self.new }
    {
        let moment = moment.later(self.core.greatest());
        self.make_way(rt, 0, moment)
    }

    /// Does in a caller's name what its next command would wait for: settles, and reverts or makes a scheduled commit, where that
    /// is needed. Unless it is answered `DiskFault` or `NoMemory`, nothing comes before a command of that moment.
    pub fn ready<R: Wait>(&mut self, rt: &R, caller: u32, moment: Moment) -> Ticked
        requires { (0 < caller) × (caller ≤ length self.old.users) }
        ensures way { MakesWay caller (moment_at moment self.old) result self.old self.new }
        ensures shown { PublishesFirst (result ≡ Ticked.NoMemory) self.old self.new }
    {
        let moment = moment.later(self.core.greatest());
        self.make_way(rt, caller, moment)
    }

    /// The level at which a caller stands.
    pub fn level(&self, caller: u32) -> &Path
        requires { (0 < caller) × (caller ≤ length self.now.users) }
        ensures { result.now ≡ level_of self.now.state caller }
    {
        self.core.level(caller)
    }

    /// Takes the readers: one for each user, and one where there is no user. The second time there are none.
    pub fn readers(&mut self) -> SnapReaders<J>
        ensures taken { result ≡ self.old.readers }
        ensures rest { self.new ≡ record self.old { readers = [] } }
    {
        mem::replace(&mut self.readers, SnapReaders::none(self.alloc))
    }

    /// How far the list of views goes: from the opening's to that of what is kept now.
    pub fn note(&self) -> SnapNote<J>
        ensures list { result.list ≡ self.now.shown.list }
        ensures published { result.published ≡ self.now.shown.published }
        ensures views { AreViews self.now.shown.list }
        ensures shows { Shows (opened self.now) self.now.events self.now.state self.now.shown }
    {
        self.shown.note()
    }

    /// The view of what is kept now.
    pub fn view(&self) -> &Arc<Shown, Global>
        ensures { arc_value result.now ≡ self.now.state.kept }
    {
        self.shown.view()
    }

    /// What is kept now.
    pub fn ledger(&self) -> &Ledger
        ensures { result.now ≡ self.now.state.kept }
    {
        self.core.ledger()
    }

    /// Copies of the entries that are added are held from now on, where there is memory for them.
    pub fn hold_entries(&mut self)
        ensures { self.new ≡ self.old }
    {
        self.held.ask();
    }

    /// The entries that were added since the opening, as many of the newest as are held.
    pub fn appended(&self) -> &EntryList
        ensures { AreAppended self.now result.now }
    {
        self.held.entries()
    }

    /// The journal, the list over which the database began, and the users of its callers.
    pub fn parts(&self) -> (&Journal<D>, &Ledger, &Users)
        ensures { AreParts self.now result.0.now result.1.now result.2.now }
    {
        (&self.journal, &self.opening, &self.users)
    }

    /// Ends: what is in flight is settled, and what happened is handed back with the disks. It needs no memory.
    pub fn close<R: Wait>(self, rt: &R) -> ClosedBook<D>
        ensures { IsClosed self result.history result.fault (pair_of D.view result.a result.b) }
    {
        let mut book = self;
        let fault = book.settle_last(rt);
        book.hand_back(rt, fault)
    }
}
