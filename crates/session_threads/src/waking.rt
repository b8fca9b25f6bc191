//! What ends the ticker's sleep.
//!
//! No wake is lost: a sleep begins only while the word is as it was made, which the system compares as the sleep
//! begins, and who wakes changes the word first. It is changed once, and from then on nobody sleeps.

use cfg_base::NoMemory;
use std::alloc::Global;
use std::sync::atomic::{AtomicU64, Ordering};
use std::sync::{Arc, Wait};
use std::time::Duration;

/// What the word is once it was changed.
const AWAKE: u64 = 1;

/// A word that a beat may sleep on between two looks, and that the end of the last session changes. Copies share it.
#[derive(Drop)]
pub struct Waker {
    word: Arc<AtomicU64, Global>,
}

impl Waker {
    /// A word of its own.
    pub fn new(alloc: Global) -> Result<Waker, NoMemory> {
        match Arc::new(alloc, AtomicU64::new(0)) {
            Ok(word) => Ok(Waker { word }),
            Err(_) => Err(NoMemory),
        }
    }

    /// The same word once more.
    pub fn again(&self) -> Result<Waker, NoMemory> {
        match Arc::try_clone(&self.word) {
            Ok(word) => Ok(Waker { word }),
            Err(_) => Err(NoMemory),
        }
    }

    /// Sleeps for so long at most, and not at all once it was woken.
    pub fn sleep<R: Wait>(&self, rt: &R, longest: Duration) {
        self.word.park_timeout(rt, 0, longest);
    }

    /// Wakes who sleeps, for good.
    pub fn wake(&self) {
        self.word.store(AWAKE, Ordering::SeqCst);
        self.word.wake_all();
    }
}
