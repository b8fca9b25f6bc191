ghost use Rattle.std.specs.Prelude.{◌≡◌, ◌<◌, ◌≤◌, ℕ, List, Bool, Option, length};
ghost use Rattle.io_edge.specs.Ends.{SinkView, SourceView, onto, held_after, IsUsedUp, TakesAnswer};
ghost use Rattle.cfg_base.specs.Counts.{Rose};
ghost use Rattle.io_edge.specs.Taken.{taken, TakesAtMost};
ghost use Rattle.io_edge.specs.Written.{written, GivesAtMost};

use cfg_base::Moment;

/// What a read gave.
#[derive(Clone, Copy, Debug, PartialEq, Eq)]
pub enum Got {
    /// So many bytes.
    Bytes(usize),
    /// Nothing is left.
    End,
    Failed,
}

/// What a write took.
#[derive(Clone, Copy, Debug, PartialEq, Eq)]
pub enum Put {
    /// So many bytes.
    Took(usize),
    Failed,
}

/// What bytes are read from.
pub trait Source {
    // what is told of it
    ghost view: { Self → SourceView };

    /// Takes the next bytes, from one up to as many as fit.
    fn read(&mut self, into: &mut [u8]) -> Got
        requires { 0 < length into.old }
        ensures count { TakesAtMost result (length into.old) }
        // What was left is what was taken and what is left now; no call changes whether it is told.
        ensures bytes { (view self.old).left ≡ onto (taken result into.new) (view self.new).left }
        ensures end { result ≡ Got.End → IsUsedUp (view self.new).left }
        ensures later { (view self.old).faults ≤ (view self.new).faults }
        ensures failed { result ≡ Got.Failed → Rose (view self.old).faults (view self.new).faults };
}

/// What bytes are written to.
pub trait Sink {
    // what is told of it
    ghost view: { Self → SinkView };

    /// Appends the first bytes of the piece, one at least.
    fn write(&mut self, piece: &[u8]) -> Put
        requires { 0 < length piece.now }
        ensures count { GivesAtMost result (length piece.now) }
        // What it holds now is what it held and what was written.
        ensures bytes { (view self.new).held ≡ held_after (view self.old).held (written result piece.now) }
        ensures later { (view self.old).faults ≤ (view self.new).faults }
        ensures failed { result ≡ Put.Failed → Rose (view self.old).faults (view self.new).faults };
}

/// What tells the time.
pub trait Clock {
    // the answers to come, by their number from 0, where they are told
    ghost coming: { Self → Option (ℕ → ℕ) };

    fn now(&mut self) -> Moment
        ensures { TakesAnswer (coming self.old) (coming self.new) result };
}

/// What says whether another tick is due.
pub trait Beat {
    // the answers to come, by their number from 0, where they are told
    ghost coming: { Self → Option (ℕ → Bool) };

    fn beat(&mut self) -> bool
        ensures { TakesAnswer (coming self.old) (coming self.new) result };
}
