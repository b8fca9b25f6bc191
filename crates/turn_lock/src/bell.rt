//! Where a caller sleeps until its turn comes: a bell for each ticket modulo the number of callers.
//!
//! No wake is lost, by the order of the steps below, each of which is sequentially consistent.
//! 1. A waiter reads how often its bell has rung, then looks which ticket is served, and then sleeps, unless
//!    the bell has rung since it was read. Who passes on serves the next ticket, and then rings. So after a
//!    look that came before the ticket was served comes the ring, which ends the sleep or lets none begin.
//! 2. A sleeper is counted, and then compares the rings; a ring is counted, and then looks for sleepers. So
//!    one of the two sees the other, and a bell at which nobody sleeps rings without a call of the system.
//! 3. A ring wakes whoever sleeps at the bell, and each looks again. Of two tickets that are waited with, the
//!    numbers are less apart than there are callers, so mostly each has a bell alone; after 2^64 tickets the
//!    numbers begin anew, and two of them may share one. Who waits and who rings go by the same number.
//! 4. A sleep compares the last 32 bits of the count. From a caller's ticket to its turn each other caller
//!    rings once at most, since the ticket that it takes after that ring is a later one; so fewer than 2^32
//!    rings lie between the reading and the sleep, and none is mistaken for another.
//!
//! Leaves to others: whose turn it is, which the words of the lock's table say. A bell says nothing of it: a
//! sleep may end for no reason.

ghost use Rattle.std.specs.Prelude.{◌≤◌, vec_len};

use std::alloc::Global;
use std::sync::Wait;
use std::sync::atomic::{AtomicU64, Ordering};
use std::thread;

/// How often a waiter yields and looks again before it sleeps. A turn that writes to no disk is often over sooner than
/// a sleep and a wake would be, which are two calls of the system; who waits longer leaves its processor to others.
const LOOKS: u32 = 20;

/// How far from the served ticket a waiter looks again at all. Who stands farther away has several turns to wait for, each
/// of which may write to a disk, and sleeps at once.
const NEAR: u64 = 3;

/// A place to sleep.
#[derive(Drop)]
pub(crate) struct Bell {
    rings: AtomicU64,
    sleepers: AtomicU64,
}

impl Bell {
    fn new() -> Bell {
        Bell {
            rings: AtomicU64::new(0),
            sleepers: AtomicU64::new(0),
        }
    }

    /// How often it has rung, modulo 2^32.
    pub(crate) fn rings(&self) -> u32 {
        (self.rings.load(Ordering::SeqCst) & 0xffff_ffff) as u32
    }

    /// Rests after so many looks in vain, before the last of which it had rung so often; at that look the ticket stood so
    /// far from the one that is served.
    pub(crate) fn rest<R: Wait>(&self, rt: &R, looks: u32, heard: u32, ahead: u64) {
        if ahead <= NEAR && looks < LOOKS {
            thread::yield_now();
        } else {
            self.sleep(rt, heard);
        }
    }

    /// Sleeps until it rings, unless it has rung since it had rung so often.
    fn sleep<R: Wait>(&self, rt: &R, heard: u32) {
        self.sleepers.fetch_add(1, Ordering::SeqCst);
        self.rings.park(rt, heard);
        self.sleepers.fetch_sub(1, Ordering::SeqCst);
    }

    fn ring(&self) {
        self.rings.fetch_add(1, Ordering::SeqCst);
        if self.sleepers.load(Ordering::SeqCst) != 0 {
            self.rings.wake_all();
        }
    }
}

/// The ring that the caller of the next ticket is owed by who passes on. It isn't `Drop`, so it ends in `Bells::ring`.
pub(crate) struct OwedRing {
    pub(crate) ticket: u64,
}

/// The bells of a lock.
#[derive(Drop)]
pub(crate) struct Bells {
    bells: Vec<Bell>,
    ghost not_empty: { 1 ≤ vec_len bells },
}

impl Bells {
    /// So many bells, or `None` for want of memory.
    pub(crate) fn make(alloc: Global, count: u32) -> Option<Bells>
        requires { 1 ≤ count }
    {
        let mut bells = Vec::new(alloc);
        for _ in 0..count {
            bells.push(Bell::new()).ok()?;
        }
        Some(Bells { bells })
    }

    /// The bell of a ticket.
    pub(crate) fn of(&self, ticket: u64) -> &Bell {
        &self.bells[(ticket % self.bells.len() as u64) as usize]
    }

    /// Wakes the caller of that ticket, where it sleeps.
    pub(crate) fn ring(&self, owed: OwedRing) {
        let OwedRing { ticket } = owed;
        self.of(ticket).ring();
    }
}

#[cfg(test)]
impl Bells {
    /// At how many bells somebody sleeps, or is about to.
    pub(crate) fn asleep(&self) -> usize {
        self.bells
            .iter()
            .filter(|bell| bell.sleepers.load(Ordering::SeqCst) != 0)
            .count()
    }
}
