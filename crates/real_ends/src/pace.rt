//! How often the time is looked at.

ghost use Rattle.std.specs.Prelude.{None};

use io_edge::Beat;
use service::Waker;
use std::sync::Wait;
use std::time::Duration;

/// How many seconds the ticker sleeps between two looks. Deadlines are in whole seconds.
const PAUSE: u64 = 1;

/// A beat once a second, and at once when all sessions have ended.
#[derive(Drop)]
pub(crate) struct Pace<R: Wait + Drop> {
    rt: R,
    waker: Waker,
}

impl<R: Wait + Drop> Pace<R> {
    /// A beat that sleeps until it is woken by this.
    pub(crate) fn new(rt: R, waker: Waker) -> Pace<R> {
        Pace { rt, waker }
    }
}

impl<R: Wait + Drop> Beat for Pace<R> {
    ghost coming = { λ _. None };

    fn beat(&mut self) -> bool {
        self.waker.sleep(&self.rt, Duration::from_secs(PAUSE));
        true
    }
}
