//! What a caller asks of the database under the lock: a command, where its user's rights allow it.

ghost use Rattle.std.specs.Prelude.{◌≡◌, ◌<◌, ◌≤◌, true, false, length};
ghost use Rattle.std.specs.Arc.{arc_value};
ghost use Rattle.commands.specs.Sound.{IsSound};
ghost use Rattle.config_core.specs.Callers.{level_of};
ghost use Rattle.config_db.specs.Answers.{IsClear, moment_at};
ghost use Rattle.session_threads.specs.Access.{Finds, IsFree, NeedsRight};
ghost use Rattle.session_threads.specs.Adding.{given_of};
ghost use Rattle.session_threads.specs.Asking.{Asks, Puts, Readies, asker_at};
ghost use Rattle.session_threads.specs.Served.{IsUnderway};

use crate::noted::Note;
use crate::served::Served;
use access_rules::{AccessFault, allows, needs_no_right};
use active_snapshot::{Naming, Shown};
use cfg_base::{Moment, Path, UserName};
use commands::Command;
use config_core::others_stay_where_they_are;
use config_db::{Answered, Ticked};
use disk_model::Disk;
use group_expand::expansion_is_one;
use session_history::histories_have_one_outcome;
use session_shell::Given0;
use std::alloc::Global;
use std::sync::{Arc, Wait};

/// What resulted from making way for a command.
#[derive(Clone, Copy)]
pub(crate) enum Readied {
    /// Nothing comes before it.
    Ready,
    /// A disk failed, and an entry is in flight.
    Unready,
    /// What was needed is not all done.
    NoMemory,
}

/// What is found of a user's rights on what is kept, where they are asked.
pub(crate) fn find(
    alloc: Global,
    view: &Shown,
    user: &Option<UserName>,
    level: &Path,
    command: &Command,
) -> Result<(), AccessFault>
    ensures { Finds user.now view.now level.now command.now result }
{
    let Some(user) = user else {
        return Ok(());
    };
    expansion_is_one();
    allows(alloc, view.full(), user, level, command)
}

/// Whether a command needs no right at a level, or nobody's are asked.
fn is_free(user: &Option<UserName>, level: &Path, command: &Command) -> bool
    ensures free { result ≡ true → IsFree user.now level.now command.now }
    ensures bound { result ≡ false → NeedsRight user.now level.now command.now }
{
    match user {
        None => true,
        Some(_) => needs_no_right(level, command),
    }
}

/// What the database answered, as a door gives it.
fn given(answered: Answered) -> Given0
    ensures { result ≡ given_of answered }
{
    match answered {
        Answered::Kept { place, reply } => Given0::Kept { place, reply },
        Answered::NoMemory => Given0::NoMemory,
    }
}

impl<D: Disk, J: Naming> Served<D, J> {
    /// Tells contracts what holds of it, and does nothing.
    pub(crate) fn tell_underway(&self)
        ensures { IsUnderway self.now }
    {
        let _ = &self.database;
    }

    /// The view of what is kept now.
    fn view(&self) -> &Arc<Shown, Global>
        ensures { arc_value result.now ≡ self.now.database.state.kept }
    {
        self.database.view()
    }

    /// The level at which a caller stands.
    fn level(&self, caller: u32) -> &Path
        requires { (0 < caller) × (caller ≤ length self.now.first.users) }
        ensures { result.now ≡ level_of self.now.database.state caller }
    {
        self.database.level(caller)
    }

    /// Asks the database a command of a caller.
    fn put<R: Wait>(&mut self, rt: &R, caller: u32, moment: Moment, command: Command) -> Answered
        requires caller { (0 < caller) × (caller ≤ length self.old.first.users) }
        requires sound { IsSound command }
        ensures { Puts caller moment command result self.old self.new }
    {
        self.database.step(rt, caller, moment, command)
    }

    /// Does in a caller's name what its next command would wait for. Of a disk's fault it writes a note, for which it takes the
    /// room first.
    fn make_ready<R: Wait>(&mut self, rt: &R, caller: u32, moment: Moment) -> Readied
        requires { (0 < caller) × (caller ≤ length self.old.first.users) }
        ensures { Readies caller moment result self.old self.new }
    {
        if self.notes.reserve(1).is_err() {
            return Readied::NoMemory;
        }
        match self.database.ready(rt, caller, moment) {
            Ticked::Nothing | Ticked::Settled | Ticked::Reverted | Ticked::Carried => {
                Readied::Ready
            }
            Ticked::DiskFault => {
                let before = self.database.count();
                self.notes.push_reserved(Note { before, caller });
                Readied::Unready
            }
            Ticked::NoMemory => Readied::NoMemory,
        }
    }

    /// Asks a command before which nothing comes, where it is allowed.
    fn ask_ready<R: Wait>(
        &mut self,
        rt: &R,
        alloc: Global,
        caller: u32,
        user: &Option<UserName>,
        moment: Moment,
        command: Command,
    ) -> Given0
        requires caller { (0 < caller) × (caller ≤ length self.old.first.users) }
        requires sound { IsSound command }
        requires clear { IsClear (moment_at moment self.old.database) self.old.database }
        ensures { Asks (asker_at self.old.first caller user.now) command moment result self.old self.new }
    {
        self.tell_underway();
        match find(alloc, self.view(), user, self.level(caller), &command) {
            Ok(()) => given(self.put(rt, caller, moment, command)),
            Err(AccessFault::Denied(right)) => Given0::Denied {
                front: self.view().front(),
                right,
            },
            Err(AccessFault::NoMemory) => Given0::NoMemory,
        }
    }

    /// Asks a command of a caller, where it is allowed by what is kept once all that it waits for was done. A command that needs
    /// no right, or of which none is asked, is asked at once.
    pub(crate) fn ask<R: Wait>(
        &mut self,
        rt: &R,
        alloc: Global,
        caller: u32,
        user: &Option<UserName>,
        moment: Moment,
        command: Command,
    ) -> Given0
        requires caller { (0 < caller) × (caller ≤ length self.old.first.users) }
        requires sound { IsSound command }
        ensures { Asks (asker_at self.old.first caller user.now) command moment result self.old self.new }
    {
        self.tell_underway();
        histories_have_one_outcome();
        others_stay_where_they_are();
        if is_free(user, self.level(caller), &command) {
            return given(self.put(rt, caller, moment, command));
        }
        let readied = self.make_ready(rt, caller, moment);
        self.tell_underway();
        match readied {
            Readied::Ready => self.ask_ready(rt, alloc, caller, user, moment, command),
            Readied::Unready => Given0::Unready {
                front: self.view().front(),
            },
            Readied::NoMemory => Given0::NoMemory,
        }
    }
}
