ghost use Rattle.std.specs.Prelude.{Some, ◌≡◌, ◌+◌, ℕ};
ghost use Rattle.io_edge.specs.Ends.{TakesAnswer};
ghost use Rattle.io_edge.specs.Forms.{beat_at};

use crate::ends::Beat;

/// A beat in memory: past its list it answers false.
#[derive(Debug, Drop)]
pub struct ListBeat {
    answers: Vec<bool>,
    at: usize,
}

impl ListBeat {
    /// A beat with these answers.
    pub fn new(answers: Vec<bool>) -> ListBeat
        ensures { ⟦<ListBeat as Beat>⟧.coming result ≡ Some (beat_at answers.items) }
    {
        ListBeat { answers, at: 0 }
    }
}

impl Beat for ListBeat {
    ghost coming = { λ b. Some (λ k. beat_at b.answers.items (b.at + k)) };

    fn beat(&mut self) -> bool {
        match self.answers.get(self.at) {
            Some(answer) => {
                self.at += 1;
                *answer
            }
            None => false,
        }
    }
}
