//! One session, from its seat back to it.

ghost use Rattle.std.specs.Prelude.{◌≡◌, true, [], Some, IfOk};
ghost use Rattle.config_db.specs.View.{DatabaseView};
ghost use Rattle.session_shell.specs.Opened.{end_view};
ghost use Rattle.session_threads.specs.Access.{asks_of};
ghost use Rattle.session_threads.specs.Passes.{CallerPass, IsReady, KnowsOwn, Waited};
ghost use Rattle.session_threads.specs.Sessions.{CanServe, HasLeft, IsSeated, IsWithin, RunsOne, ServesOne, ServesSeat, gate_of, result_of};

use crate::begun::Begun;
use crate::deeds::Leave;
use crate::gate::Gate;
use crate::noted::Noted;
use crate::served::Served;
use active_snapshot::{Naming, SnapReader, fronts_never_fall};
use cfg_base::{Limits, NoMemory, UserName};
use disk_model::Disk;
use io_edge::{Clock, Sink, Source};
use session_history::histories_have_one_outcome;
use session_shell::{End, Ended, How, NoSession, Session, TurnList};
use std::alloc::Global;
use std::mem::replace;
use std::sync::Wait;
use turn_lock::{Pass, Turns};

/// What a session is served with, and what resulted.
pub(crate) struct Seat<S, K, C, F, J: Naming> {
    pub pass: Pass<Noted, F>,
    pub reader: SnapReader<J>,
    pub end: End<S, K, C>,
    pub how: How,
    pub turns: TurnList,
}

/// The user of an end, where rights are asked.
fn user_of<S, K, C>(end: &End<S, K, C>, access: bool) -> Result<Option<UserName>, NoMemory>
    ensures { IfOk result (λ user. user ≡ asks_of access end.now.user) }
{
    if access {
        Ok(Some(end.user.clone()?))
    } else {
        Ok(None)
    }
}

/// The seat of a session that didn't begin, since there was no memory for it.
fn unbegun<S, K, C, F, J: Naming>(
    alloc: Global,
    pass: Pass<Noted, F>,
    reader: SnapReader<J>,
    end: End<S, K, C>,
) -> Seat<S, K, C, F, J>
    ensures same { (result.pass ≡ pass) × (result.reader ≡ reader) × (result.end ≡ end) }
    ensures none { (result.how ≡ How.NoMemory) × (result.turns ≡ []) }
{
    Seat {
        pass,
        reader,
        end,
        how: How::NoMemory,
        turns: TurnList::none(alloc),
    }
}

/// Runs the session of a seat, whose turns are kept as values, or aren't, and whose user's rights are asked, or aren't. Without
/// memory for it none begins.
fn run_session<R: Wait, S: Source, K: Sink, C: Clock, D: Disk, J: Naming>(
    rt: &R,
    alloc: Global,
    lock: &Turns<Served<D, J>>,
    seat: Seat<S, K, C, Begun<D>, J>,
    limits: Limits,
    keeps: bool,
    access: bool,
) -> Seat<S, K, C, Begun<D>, J>
    requires { (first : DatabaseView) × IsReady lock.now first seat.pass }
    ensures { RunsOne (end_view S.view K.view C.coming) limits.input (gate_of access seat)
        (record { pass = result.pass; reader = result.reader; asks = asks_of access seat.end.user }) (result_of seat result) }
{
    let Seat {
        pass,
        reader,
        end,
        how: _,
        turns: _,
    } = seat;
    let Ok(user) = user_of(&end, access) else {
        return unbegun(alloc, pass, reader, end);
    };
    match Session::new(alloc, pass.caller(), end, limits, keeps) {
        Ok(session) => {
            let mut gate = Gate::of(alloc, lock, pass, reader, user);
            let Ended {
                number: _,
                how,
                end,
                turns,
            } = session.run(rt, &mut gate);
            let (pass, reader) = gate.into_parts();
            Seat {
                pass,
                reader,
                end,
                how,
                turns,
            }
        }
        Err(NoSession { end }) => unbegun(alloc, pass, reader, end),
    }
}

/// One turn of a session that has ended. It reports whether all that its reader has was kept by then.
fn ask_leave<R: Wait, D: Disk, J: Naming>(
    rt: &R,
    lock: &Turns<Served<D, J>>,
    pass: &mut Pass<Noted, Begun<D>>,
    reader: &SnapReader<J>,
    is_first: bool,
) -> bool
    requires { pass.old.lock ≡ lock.now }
    ensures waited { (start : CallerPass) → Waited start pass.old → Waited start pass.new }
    ensures within { (first : DatabaseView) → pass.old.fixed ≡ Some first → result ≡ true
        → IsWithin first pass.new reader.now }
{
    let note = lock.turn(rt, pass, Leave { is_first });
    reader.is_within(&note)
}

/// Takes turns until the database has kept all that a session's reader has: a view may be shown before the turn is passed on
/// that has kept it.
fn leave<R: Wait, D: Disk, J: Naming>(
    rt: &R,
    lock: &Turns<Served<D, J>>,
    pass: &mut Pass<Noted, Begun<D>>,
    reader: &SnapReader<J>,
)
    requires { (pass.old.lock ≡ lock.now) × KnowsOwn pass.old }
    ensures { (first : DatabaseView) → pass.old.fixed ≡ Some first → HasLeft first pass.old pass.new reader.now }
{
    let mut is_first = true;
    for _ in rt.forever() {
        if ask_leave(rt, lock, pass, reader, is_first) {
            return;
        }
        is_first = false;
    }
    unreachable!()
}

/// Serves the session of a seat, and tells the ticker that it has ended.
fn serve_one<R: Wait, S: Source, K: Sink, C: Clock, D: Disk, J: Naming>(
    rt: &R,
    alloc: Global,
    lock: &Turns<Served<D, J>>,
    seat: Seat<S, K, C, Begun<D>, J>,
    limits: Limits,
    keeps: bool,
    access: bool,
) -> Seat<S, K, C, Begun<D>, J>
    requires { (first : DatabaseView) × CanServe lock.now first seat.pass seat.reader }
    ensures { (first : DatabaseView) → CanServe lock.now first seat.pass seat.reader
        → ServesOne (end_view S.view K.view C.coming) limits.input access first seat.pass result.pass
        (result_of seat result) }
{
    fronts_never_fall();
    histories_have_one_outcome();
    let mut seat = run_session(rt, alloc, lock, seat, limits, keeps, access);
    leave(rt, lock, &mut seat.pass, &seat.reader);
    seat
}

/// Serves the session of the seat at a place.
pub(crate) fn serve_at<R: Wait, S: Source, K: Sink, C: Clock, D: Disk, J: Naming>(
    rt: &R,
    alloc: Global,
    lock: &Turns<Served<D, J>>,
    place: &mut Option<Seat<S, K, C, Begun<D>, J>>,
    limits: Limits,
    keeps: bool,
    access: bool,
)
    requires { (first : DatabaseView) × IsSeated lock.now first place.old }
    ensures { (first : DatabaseView) → IsSeated lock.now first place.old
        → ServesSeat (end_view S.view K.view C.coming) limits.input access first place.old place.new }
{
    let Some(seat) = place.take() else {
        unreachable!()
    };
    let served = serve_one(rt, alloc, lock, seat, limits, keeps, access);
    let nothing = replace(place, Some(served));
    let None = nothing else { unreachable!() };
}
