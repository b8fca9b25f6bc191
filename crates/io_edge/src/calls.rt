ghost use Rattle.std.specs.Prelude.{◌≡◌, ◌≤◌, IsTrue};
ghost use Rattle.cfg_base.specs.Counts.{Rose};
ghost use Rattle.io_edge.specs.Calls.{is_next_failing, no_calls, with_call, with_fault};
ghost use Rattle.io_edge.specs.Calls.{next_count};

use std::marker::Model;

/// The calls of an end in memory: those that are to fail, by their number from 1, and how many were
/// made and how many failed.
#[derive(Debug, Drop)]
pub struct Calls {
    failing: Vec<u64>,
    made: u64,
    faults: u64,
}

impl Model for Calls {
    ghost use Rattle.io_edge.specs.Calls.{Calls};

    ghost Value = { Calls };

    ghost view = { λ c. record { failing = c.failing.items; made = c.made; faults = c.faults } };
}

fn next_count(count: u64) -> u64
    ensures { result ≡ next_count count }
{
    count.saturating_add(1)
}

impl Calls {
    /// No call was made yet.
    pub fn new(failing: Vec<u64>) -> Calls
        ensures { result ≡ no_calls failing.items }
    {
        Calls {
            failing,
            made: 0,
            faults: 0,
        }
    }

    /// Counts a call, and a fault where it is one that is to fail.
    pub fn fails(&mut self) -> bool
        ensures answer { result ≡ is_next_failing self.old }
        ensures after { self.new ≡ with_call self.old }
        ensures later { self.old.faults ≤ self.new.faults }
        ensures rose { IsTrue result → Rose self.old.faults self.new.faults }
    {
        self.made = next_count(self.made);
        let fails = self.failing.contains(&self.made);
        if fails {
            self.faults = next_count(self.faults);
        }
        fails
    }

    /// Counts a fault.
    pub fn fault(&mut self)
        ensures after { self.new ≡ with_fault self.old }
        ensures later { self.old.faults ≤ self.new.faults }
        ensures rose { Rose self.old.faults self.new.faults }
    {
        self.faults = next_count(self.faults);
    }
}
