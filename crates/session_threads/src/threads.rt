//! Each session on a thread of its own, and the ticker beside them.

ghost use Rattle.std.specs.Prelude.{◌≡◌, ℕ, Bool, All};
ghost use Rattle.std.specs.Thread.{IsSend, IsSync};
ghost use Rattle.atomic_table.specs.Seated.{TableId};
ghost use Rattle.config_db.specs.View.{DatabaseView};
ghost use Rattle.session_shell.specs.Opened.{end_view};
ghost use Rattle.session_threads.specs.Looks.{ticker_view};
ghost use Rattle.session_threads.specs.Rows.{Pairs};
ghost use Rattle.session_threads.specs.Sessions.{IsSeated, ServesSeat};
ghost use Rattle.session_threads.specs.Ticks.{IsTickersPass, TicksOn};

use crate::begun::Begun;
use crate::noted::Noted;
use crate::seat::{Seat, serve_at};
use crate::served::Served;
use crate::ticking::{Ticker, tick_along};
use active_snapshot::Naming;
use cfg_base::Limits;
use disk_model::Disk;
use io_edge::{Beat, Clock, Sink, Source};
use std::alloc::Global;
use std::sync::Wait;
use std::thread::{Threads, join_mut};
use turn_lock::{Pass, Turns};

/// What can be served over a lock. Below, the seats are of a type parameter, since the borrow checker covers no closure
/// over a row of generic structs.
pub(crate) trait Serve<D: Disk, J: Naming> {
    /// It can be served over that lock, over a database that began so.
    ghost can_serve: { Self → TableId → DatabaseView → Type 0 };

    /// It was served, with that many bytes of input at most, and with rights asked or not, over a database that began so.
    ghost serves: { ℕ → Bool → DatabaseView → Self → Self → Type 0 };

    fn serve<R: Wait>(
        &mut self,
        rt: &R,
        alloc: Global,
        lock: &Turns<Served<D, J>>,
        limits: Limits,
        keeps: bool,
        access: bool,
    )
        requires { (first : DatabaseView) × can_serve self.old lock.now first }
        ensures { (first : DatabaseView) → can_serve self.old lock.now first
            → serves limits.input access first self.old self.new };
}

impl<S: Source, K: Sink, C: Clock, D: Disk, J: Naming> Serve<D, J>
    for Option<Seat<S, K, C, Begun<D>, J>> {
    ghost can_serve = { λ seat lock first. IsSeated lock first seat };

    ghost serves = { λ limit access first old new. ServesSeat (end_view S.view K.view C.coming) limit access first old new };

    fn serve<R: Wait>(
        &mut self,
        rt: &R,
        alloc: Global,
        lock: &Turns<Served<D, J>>,
        limits: Limits,
        keeps: bool,
        access: bool,
    ) {
        serve_at(rt, alloc, lock, self, limits, keeps, access);
    }
}

/// Serves the sessions of a row of seats, the first one on this thread and the rest on another one, with the ticker
/// after the last. Where no thread can be made the sessions are served one after another, and the ticker comes last.
#[cycle(threads)]
pub(crate) fn serve_seats<R, T, B, C, D, J>(
    rt: &R,
    alloc: Global,
    lock: &Turns<Served<D, J>>,
    limits: Limits,
    keeps: bool,
    access: bool,
    seats: &mut [T],
    pass: &mut Pass<Noted, Begun<D>>,
    ticker: &mut Ticker<B, C>,
)
where
    R: Threads + Wait + Sync,
    T: Serve<D, J> + Send,
    B: Beat + Send,
    C: Clock + Send,
    D: Disk + Send,
    J: Naming + Send + Sync,
    requires { (first : DatabaseView) × IsTickersPass lock.now first pass.old
        × All (λ seat. T.can_serve seat lock.now first) seats.old }
    ensures seats { (first : DatabaseView) → IsTickersPass lock.now first pass.old
        → All (λ seat. T.can_serve seat lock.now first) seats.old
        → Pairs (T.serves limits.input access first) seats.old seats.new }
    ensures ticker { (first : DatabaseView) → IsTickersPass lock.now first pass.old
        → TicksOn first pass.old pass.new (ticker_view B.coming C.coming ticker.old)
        (ticker_view B.coming C.coming ticker.new) }
{
    match seats.split_first_mut() {
        None => tick_along(rt, lock, pass, ticker),
        Some((seat, others)) => {
            serve_both(
                rt, alloc, lock, limits, keeps, access, seat, others, pass, ticker,
            );
        }
    }
}

/// Serves the session of a seat on this thread, and the others on another one.
#[cycle(threads)]
fn serve_both<R, T, B, C, D, J>(
    rt: &R,
    alloc: Global,
    lock: &Turns<Served<D, J>>,
    limits: Limits,
    keeps: bool,
    access: bool,
    seat: &mut T,
    others: &mut [T],
    pass: &mut Pass<Noted, Begun<D>>,
    ticker: &mut Ticker<B, C>,
)
where
    R: Threads + Wait + Sync,
    T: Serve<D, J> + Send,
    B: Beat + Send,
    C: Clock + Send,
    D: Disk + Send,
    J: Naming + Send + Sync,
    requires { (first : DatabaseView) × IsTickersPass lock.now first pass.old × T.can_serve seat.old lock.now first
        × All (λ seat. T.can_serve seat lock.now first) others.old }
    ensures seat { (first : DatabaseView) → T.can_serve seat.old lock.now first
        → T.serves limits.input access first seat.old seat.new }
    ensures others { (first : DatabaseView) → IsTickersPass lock.now first pass.old
        → All (λ seat. T.can_serve seat lock.now first) others.old
        → Pairs (T.serves limits.input access first) others.old others.new }
    ensures ticker { (first : DatabaseView) → IsTickersPass lock.now first pass.old
        → TicksOn first pass.old pass.new (ticker_view B.coming C.coming ticker.old)
        (ticker_view B.coming C.coming ticker.new) }
{
    let mut apart = move ||
        requires { IsSync R.row × IsSend T.row × IsSend B.row × IsSend C.row × IsSend D.row × IsSend J.row × IsSync J.row
            × ((first : DatabaseView) × IsTickersPass lock.now first pass.now
            × All (λ seat. T.can_serve seat lock.now first) others.now) }
        ensures { ((first : DatabaseView) → IsTickersPass lock.entry.now first pass.entry.now
            → All (λ seat. T.can_serve seat lock.entry.now first) others.entry.now
            → Pairs (T.serves limits.input access first) others.entry.now others.exit.now)
            × ((first : DatabaseView) → IsTickersPass lock.entry.now first pass.entry.now
            → TicksOn first pass.entry.now pass.exit.now (ticker_view B.coming C.coming ticker.entry.now)
            (ticker_view B.coming C.coming ticker.exit.now)) }
    { serve_seats(rt, alloc, lock, limits, keeps, access, others, pass, ticker) };
    let mut here = move ||
        requires { (first : DatabaseView) × T.can_serve seat.now lock.now first }
        ensures { (first : DatabaseView) → T.can_serve seat.entry.now lock.entry.now first
            → T.serves limits.input access first seat.entry.now seat.exit.now }
    { seat.serve(rt, alloc, lock, limits, keeps, access) };
    join_mut(rt, &mut apart, &mut here);
}
