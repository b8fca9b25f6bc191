//! The lock with the pass and the reader of the caller that asks: the door of that caller's session. A show of the active
//! configuration or of the commits is answered from the reader, without a turn. Where rights are asked, a show is allowed by the
//! view that it is read from, and any other command in its turn. There is no backup: a commit that is to be synchronized is told so.

ghost use Rattle.std.specs.Prelude.{◌≡◌, false, true, IfOk, IfSome};
ghost use Rattle.std.specs.Arc.{arc_value};
ghost use Rattle.active_snapshot.specs.Views.{IsLast};
ghost use Rattle.cfg_tree.specs.Tree.{IsTree};
ghost use Rattle.commands.specs.Sound.{IsSound};
ghost use Rattle.commit_ledger.specs.Kept.{active_of};
ghost use Rattle.config_db.specs.View.{DatabaseView};
ghost use Rattle.session_shell.specs.Shows.{IsActiveShow, PrintsWhole, SaysWhole};
ghost use Rattle.session_threads.specs.Found.{KnowsRights};
ghost use Rattle.session_threads.specs.Gates.{FollowsIn, GivesView, HadNoMore, Held, Learns, LooksIn, NamesIn, ReadsShow, TookIn};
ghost use Rattle.session_threads.specs.History.{ShowsKept};
ghost use Rattle.session_threads.specs.Naming.{keeps_names, keeps_synced, names_given, prints_given, shows_given};
ghost use Rattle.session_threads.specs.Passes.{IsReady};
ghost use Rattle.session_threads.specs.Syncs.{WithoutBackup};

use crate::begun::Begun;
use crate::deeds::{Ask, Asked};
use crate::found::{FoundRights, find_by_reader};
use crate::noted::Noted;
use crate::served::Served;
use access_rules::AccessFault;
use active_snapshot::{Naming, Read, Shown, SnapNote, SnapReader};
use cfg_base::{Moment, NoMemory, UserName};
use cfg_tree::Tree;
use commands::Command;
use commit_ledger::Synced;
use config_core::{Reply, show_active};
use disk_model::Disk;
use session_shell::{Door, Given0, SyncedTurn};
use std::alloc::Global;
use std::marker::Model;
use std::sync::{Arc, Wait};
use turn_lock::{Pass, Turns};

/// The lock, the pass and the reader of the caller that asks, and its user where rights are asked, with what was found of them.
pub(crate) struct Gate<'a, D: Disk, J: Naming> {
    alloc: Global,
    lock: &'a Turns<Served<D, J>>,
    pass: Pass<Noted, Begun<D>>,
    reader: SnapReader<J>,
    user: Option<UserName>,
    found: Option<FoundRights>,
}

impl<'a, D: Disk, J: Naming> Model for Gate<'a, D, J> {
    ghost use Rattle.std.specs.Coded.{codes};
    ghost use Rattle.cfg_tree.specs.Statements.{statements_code};
    ghost use Rattle.config_db.specs.View.{DatabaseView};
    ghost use Rattle.session_threads.specs.Found.{KnowsRights};
    ghost use Rattle.session_threads.specs.Gates.{GateView};
    ghost use Rattle.session_threads.specs.Passes.{IsReady};

    ghost Value = { GateView };

    ghost coded = { Prim.hlevel (codes, statements_code) };

    ghost view = { λ g. record { pass = g.pass; reader = g.reader; asks = g.user } };

    ghost invariant = { λ g. ((first : DatabaseView) × IsReady g.lock.now first g.pass) × KnowsRights g.user g.reader.list g.found };
}

/// Whether a command shows the active configuration or the commits.
fn is_active_show(command: &Command) -> bool
    ensures shows { result ≡ true → IsActiveShow command.now }
    ensures other { result ≡ false → IsActiveShow command.now → ⊥ }
{
    match command {
        Command::ShowActive { .. } | Command::ShowCommits => true,
        _ => false,
    }
}

/// The active configuration of a view.
fn active_in(view: &Shown) -> &Tree
    ensures is { result.now ≡ active_of view.now }
    ensures tree { IsTree (active_of view.now) }
{
    let active = view.active();
    let _count = active.count();
    active
}

/// What a view says to a show.
fn shown_in(alloc: Global, view: &Shown, command: &Command) -> Result<Reply, NoMemory>
    requires { IsActiveShow command.now }
    ensures shows { IfOk result (λ reply. ShowsKept view.now command.now reply) }
    ensures whole { IfOk result (SaysWhole command.now) }
{
    let active = active_in(view);
    match command {
        Command::ShowActive { .. } => show_active(alloc, active, view.full(), command),
        Command::ShowCommits => Ok(Reply::Text(view.history_lines(alloc)?)),
        _ => unreachable!(),
    }
}

/// The same, as a door gives it, where the view, which is the last one of a reader, allows it.
fn given_in<J: Naming>(
    alloc: Global,
    found: &mut Option<FoundRights>,
    user: &Option<UserName>,
    reader: &SnapReader<J>,
    front: u64,
    view: &Shown,
    command: &Command,
) -> Given0
    requires show { IsActiveShow command.now }
    requires last { IsLast reader.now.list view.now }
    requires knows { KnowsRights user.now reader.now.list found.old }
    ensures gives { GivesView user.now command.now front view.now result }
    ensures prints { PrintsWhole command.now result }
    ensures knows { KnowsRights user.now reader.now.list found.new }
{
    match find_by_reader(alloc, found, user, reader, view, command) {
        Ok(()) => match shown_in(alloc, view, command) {
            Ok(reply) => Given0::Seen { front, reply },
            Err(NoMemory) => Given0::NoMemory,
        },
        Err(AccessFault::Denied(right)) => Given0::Denied { front, right },
        Err(AccessFault::NoMemory) => Given0::NoMemory,
    }
}

/// Asks a reader for a show. It has no answer where a deadline has come.
fn read_show<J: Naming>(
    alloc: Global,
    reader: &mut SnapReader<J>,
    found: &mut Option<FoundRights>,
    user: &Option<UserName>,
    moment: Moment,
    command: &Command,
) -> Option<Given0>
    requires show { IsActiveShow command.now }
    requires knows { KnowsRights user.now reader.old.list found.old }
    ensures reads { ReadsShow user.now command.now moment result reader.old reader.new }
    ensures knows { KnowsRights user.now reader.new.list found.new }
{
    match reader.read(moment) {
        Ok(Read::At { front, view }) => {
            Some(given_in(alloc, found, user, reader, front, &view, command))
        }
        Ok(Read::Due { .. }) => None,
        Err(NoMemory) => Some(Given0::NoMemory),
    }
}

/// What is told of what a turn gave. A refusal rests on the list as the turn left it, so it is told only to a reader that knew no
/// more. None knows more, since a view is published in a turn; but no contract says that, and without it want of memory is told.
fn held<J: Naming>(given: Given0, reader: &SnapReader<J>, note: &SnapNote<J>) -> Given0
    ensures { Held given note.now.list reader.now result }
{
    match given {
        Given0::Denied { .. } | Given0::Unready { .. } => {
            if reader.knows_no_more(note) {
                given
            } else {
                Given0::NoMemory
            }
        }
        Given0::Kept { .. } | Given0::Seen { .. } | Given0::NoMemory => given,
    }
}

/// Tells a reader what a command's turn reported, unless memory ran out for it.
fn learn<J: Naming>(
    reader: &mut SnapReader<J>,
    given: &Given0,
    note: &SnapNote<J>,
    view: Option<Arc<Shown, Global>>,
)
    requires view { IfSome view (λ view. IsLast note.now.list (arc_value view)) }
    requires had { HadNoMore given.now note.now.list reader.old }
    ensures { Learns given.now note.now.list reader.old reader.new }
{
    match given {
        Given0::Kept { .. } | Given0::Denied { .. } | Given0::Unready { .. } => {
            reader.learn(note, view);
        }
        Given0::Seen { .. } | Given0::NoMemory => {}
    }
}

/// Lets go of a command that was answered without a turn.
fn let_go(_command: Command) {}

impl<'a, D: Disk, J: Naming> Gate<'a, D, J> {
    /// The door of the caller whose pass it is.
    pub(crate) fn of(
        alloc: Global,
        lock: &'a Turns<Served<D, J>>,
        pass: Pass<Noted, Begun<D>>,
        reader: SnapReader<J>,
        user: Option<UserName>,
    ) -> Gate<'a, D, J>
        requires { (first : DatabaseView) × IsReady lock.now first pass }
        ensures { result ≡ record { pass = pass; reader = reader; asks = user } }
    {
        Gate {
            alloc,
            lock,
            pass,
            reader,
            user,
            found: None,
        }
    }

    /// The pass and the reader.
    pub(crate) fn into_parts(self) -> (Pass<Noted, Begun<D>>, SnapReader<J>)
        ensures { self.entry ≡ record { pass = result.0; reader = result.1; asks = self.entry.asks } }
    {
        let Gate {
            alloc: _,
            lock: _,
            pass,
            reader,
            user: _,
            found: _,
        } = self;
        (pass, reader)
    }

    // Looks whether a command is answered without a turn.
    fn look(&mut self, moment: Moment, command: &Command) -> Option<Given0>
        ensures { LooksIn self.old command.now moment result self.new }
    {
        if is_active_show(command) {
            read_show(
                self.alloc,
                &mut self.reader,
                &mut self.found,
                &self.user,
                moment,
                command,
            )
        } else {
            None
        }
    }

    // The turn of a command.
    fn take_turn<R: Wait>(&mut self, rt: &R, moment: Moment, command: Command) -> Given0
        requires { IsSound command }
        ensures { TookIn self.old command moment result self.new }
    {
        let ask = Ask {
            alloc: self.alloc,
            moment,
            command,
            user: &self.user,
        };
        let Asked { given, note, view } = self.lock.turn(rt, &mut self.pass, ask);
        let given = held(given, &self.reader, &note);
        learn(&mut self.reader, &given, &note, view);
        given
    }
}

impl<'a, D: Disk, J: Naming> Door for Gate<'a, D, J> {
    ghost names = { NamesIn };

    ghost follows = { FollowsIn };

    ghost syncs = { WithoutBackup };

    fn ask<R: Wait>(&mut self, rt: &R, moment: Moment, command: Command) -> Given0 {
        match self.look(moment, &command) {
            Some(given) => {
                let_go(command);
                given
            }
            None => self.take_turn(rt, moment, command),
        }
    }

    fn synchronize<R: Wait>(&mut self, _rt: &R) -> SyncedTurn {
        SyncedTurn::Synced(Synced::Alone)
    }

    ghost named = { names_given };

    ghost keeps = { keeps_names };

    ghost keeps_synced = { keeps_synced };

    ghost shows = { shows_given };

    ghost prints = { prints_given };
}
