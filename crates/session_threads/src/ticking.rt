//! The ticker: it looks at the time at each beat.

ghost use Rattle.std.specs.Prelude.{◌≡◌, Some};
ghost use Rattle.config_db.specs.View.{DatabaseView};
ghost use Rattle.session_threads.specs.Looks.{ticker_view};
ghost use Rattle.session_threads.specs.Ticks.{IsTickersPass, Ticks, TicksOn};

use crate::begun::Begun;
use crate::deeds::Look;
use crate::noted::Noted;
use crate::served::Served;
use crate::waking::Waker;
use active_snapshot::Naming;
use disk_model::Disk;
use io_edge::{Beat, Clock};
use std::sync::Wait;
use turn_lock::{Pass, Turns};

/// What tells when another look at the time is due, and the time of it; and what wakes the beat once all sessions have
/// ended, where it sleeps.
#[derive(Drop)]
pub struct Ticker<B, C> {
    pub beat: B,
    pub clock: C,
    pub waker: Option<Waker>,
}

impl<B, C> Ticker<B, C> {
    /// What wakes it, where it has that and it can be counted once more. Without it the run goes on up to the next beat.
    pub(crate) fn waker_again(&self) -> Option<Waker> {
        match &self.waker {
            Some(waker) => waker.again().ok(),
            None => None,
        }
    }
}

/// Waits for the beat, and looks at the time. It reports whether another look may be due.
fn look<R: Wait, B: Beat, C: Clock, D: Disk, J: Naming>(
    rt: &R,
    lock: &Turns<Served<D, J>>,
    pass: &mut Pass<Noted, Begun<D>>,
    ticker: &mut Ticker<B, C>,
) -> bool
    requires { (first : DatabaseView) × IsTickersPass lock.now first pass.old }
    ensures { (first : DatabaseView) → IsTickersPass lock.now first pass.old
        → Ticks result first pass.old pass.new (ticker_view B.coming C.coming ticker.old)
        (ticker_view B.coming C.coming ticker.new) }
{
    if !ticker.beat.beat() {
        return false;
    }
    let moment = ticker.clock.now();
    lock.turn(rt, pass, Look { moment })
}

/// Looks at the time at each beat, until the beat says that none is due or all sessions have ended.
pub(crate) fn tick_along<R: Wait, B: Beat, C: Clock, D: Disk, J: Naming>(
    rt: &R,
    lock: &Turns<Served<D, J>>,
    pass: &mut Pass<Noted, Begun<D>>,
    ticker: &mut Ticker<B, C>,
)
    requires { (first : DatabaseView) × IsTickersPass lock.now first pass.old }
    ensures { (first : DatabaseView) → IsTickersPass lock.now first pass.old
        → TicksOn first pass.old pass.new (ticker_view B.coming C.coming ticker.old)
        (ticker_view B.coming C.coming ticker.new) }
{
    for _ in rt.forever() {
        if !look(rt, lock, pass, ticker) {
            return;
        }
    }
    unreachable!()
}
