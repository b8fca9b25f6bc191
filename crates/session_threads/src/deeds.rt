//! What is done in one turn: a command is asked, the time is looked at, a session ends.

ghost use Rattle.std.specs.Prelude.{◌≡◌, ◌<◌, ◌≤◌, [], length, IfSome};
ghost use Rattle.std.specs.Arc.{arc_value};
ghost use Rattle.active_snapshot.specs.Views.{IsLast};
ghost use Rattle.commands.specs.Sound.{IsSound};
ghost use Rattle.config_db.specs.View.{opened};
ghost use Rattle.session_history.specs.Events.{StaysAccepted};
ghost use Rattle.session_shell.specs.Shows.{PrintsWhole};
ghost use Rattle.session_threads.specs.Access.{IsJudged};
ghost use Rattle.session_threads.specs.Adding.{answered_of};
ghost use Rattle.session_threads.specs.Asking.{asker_at};
ghost use Rattle.session_threads.specs.Gates.{TellsKept};
ghost use Rattle.session_threads.specs.Looks.{LooksAlone};
ghost use Rattle.session_threads.specs.Noted.{GoesOnBy, events_of};
ghost use Rattle.session_threads.specs.Passes.{FollowsAlone, notes_given};

use crate::served::Served;
use crate::waking::Waker;
use active_snapshot::{Naming, Shown, SnapNote};
use cfg_base::{Moment, UserName};
use commands::Command;
use config_db::Database;
use disk_model::Disk;
use session_history::histories_have_one_outcome;
use session_shell::Given0;
use std::alloc::Global;
use std::sync::{Arc, Wait};
use turn_lock::Deed;

/// Asks a command, at an answer of the caller's clock, and first the rights of the caller's user, where they are asked.
#[derive(Drop)]
pub(crate) struct Ask<'u> {
    pub alloc: Global,
    pub moment: Moment,
    pub command: Command,
    pub user: &'u Option<UserName>,
}

/// What was given for a command, how far the list of commits goes after that, and the last view of it.
#[derive(Drop)]
pub(crate) struct Asked<J: Naming> {
    pub given: Given0,
    pub note: SnapNote<J>,
    /// None where there was no memory to count it once more.
    pub view: Option<Arc<Shown, Global>>,
}

/// Counts a view once more, where there is memory for it.
fn again(view: &Arc<Shown, Global>) -> Option<Arc<Shown, Global>>
    ensures { IfSome result (λ copy. arc_value copy ≡ arc_value view.now) }
{
    Arc::try_clone(view).ok()
}

/// Tells contracts that the active configuration stays accepted, and does nothing.
fn tell_accepted<D: Disk, J: Naming>(database: &Database<D, J>)
    ensures { StaysAccepted (opened database.now) database.now.events }
{
    let _count = database.count();
}

impl<'u, D: Disk, J: Naming> Deed<Served<D, J>> for Ask<'u> {
    type Answer = Asked<J>;

    ghost may = { λ deed caller first. IsSound deed.command × (0 < caller) × (caller ≤ length first.users) };

    ghost says = { λ deed caller first before after asked.
        GoesOnBy (λ were are. FollowsAlone first caller were deed.command deed.moment (answered_of asked.given) are
        × (IsJudged (asker_at first caller deed.user.now) are deed.command asked.given
        × (TellsKept (opened first) are asked.note.list
        × (IfSome asked.view (λ view. IsLast asked.note.list (arc_value view))
        × PrintsWhole deed.command asked.given)))) (notes_given caller asked.given) before after };

    fn act<R: Wait>(self, rt: &R, caller: u32, served: &mut Served<D, J>) -> Asked<J> {
        let Ask {
            alloc,
            moment,
            command,
            user,
        } = self;
        histories_have_one_outcome();
        let given = served.ask(rt, alloc, caller, user, moment, command);
        served.tell_underway();
        tell_accepted(&served.database);
        let note = served.database.note();
        let view = again(served.database.view());
        Asked { given, note, view }
    }
}

/// Looks at the time, at an answer of the ticker's clock. It reports whether a session is served still.
#[derive(Drop)]
pub(crate) struct Look {
    pub moment: Moment,
}

impl<D: Disk, J: Naming> Deed<Served<D, J>> for Look {
    type Answer = bool;

    ghost may = { λ deed caller first. caller ≡ 0 };

    ghost says = { λ deed caller first before after serves. GoesOnBy (LooksAlone (opened first) deed.moment) [] before after };

    fn act<R: Wait>(self, rt: &R, _caller: u32, served: &mut Served<D, J>) -> bool {
        let _looked = served.database.tick(rt, self.moment);
        served.waiting > 0
    }
}

/// A session has ended; the first such turn of a session tells the ticker.
#[derive(Drop)]
pub(crate) struct Leave {
    pub is_first: bool,
}

/// How many sessions have not ended, after a turn of one that has.
fn waiting_after(waiting: u32, is_first: bool) -> u32 {
    if is_first {
        waiting.saturating_sub(1)
    } else {
        waiting
    }
}

/// Wakes the ticker where no session is served any more.
fn wake_after(waiting: u32, waker: &Option<Waker>) {
    if waiting > 0 {
        return;
    }
    if let Some(waker) = waker {
        waker.wake();
    }
}

impl<D: Disk, J: Naming> Deed<Served<D, J>> for Leave {
    type Answer = SnapNote<J>;

    ghost may = { λ deed caller first. Unit {0} };

    ghost says = { λ deed caller first before after note.
        (after ≡ before) × TellsKept (opened first) (events_of after) note.list };

    fn act<R: Wait>(self, _rt: &R, _caller: u32, served: &mut Served<D, J>) -> SnapNote<J> {
        served.waiting = waiting_after(served.waiting, self.is_first);
        wake_after(served.waiting, &served.waker);
        served.database.note()
    }
}
