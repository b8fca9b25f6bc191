ghost use Rattle.std.specs.Prelude.{Some, ◌≡◌, ◌+◌, ℕ};
ghost use Rattle.io_edge.specs.Ends.{TakesAnswer};
ghost use Rattle.io_edge.specs.Forms.{moment_at};

use crate::ends::Clock;
use cfg_base::Moment;

/// A clock in memory: past its list it repeats its last answer, which is 0 where the list is empty.
#[derive(Debug, Drop)]
pub struct ListClock {
    answers: Vec<Moment>,
    at: usize,
}

impl ListClock {
    /// A clock with these answers.
    pub fn new(answers: Vec<Moment>) -> ListClock
        ensures { ⟦<ListClock as Clock>⟧.coming result ≡ Some (moment_at answers.items) }
    {
        ListClock { answers, at: 0 }
    }
}

fn answer_at(answers: &[Moment], place: usize) -> Moment
    ensures { result ≡ moment_at answers.now place }
{
    if answers.is_empty() {
        Moment::of(0)
    } else {
        answers[place.min(answers.len() - 1)]
    }
}

impl Clock for ListClock {
    ghost coming = { λ c. Some (λ k. moment_at c.answers.items (c.at + k)) };

    fn now(&mut self) -> Moment {
        let answer = answer_at(&self.answers, self.at);
        if self.at < self.answers.len() {
            self.at += 1;
        }
        answer
    }
}
