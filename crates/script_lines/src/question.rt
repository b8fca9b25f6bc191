//! A question, and what it answers beside what is expected of it.

use crate::report::Report;
use std::alloc::Global;

/// The last question, and what it answered.
#[derive(Drop)]
pub(crate) struct Question {
    /// Its answers, each with an LF after it.
    answer: String,
    /// How many bytes of them are as expected.
    seen: usize,
    /// Whether one was not.
    differs: bool,
}

impl Question {
    /// A question that was answered so.
    pub(crate) fn answered(answer: String) -> Question {
        Question {
            answer,
            seen: 0,
            differs: false,
        }
    }

    /// A question without an answer.
    pub(crate) fn none(alloc: Global) -> Question {
        Question::answered(String::new(alloc))
    }

    /// A line that can't be asked: nothing is expected of it.
    pub(crate) fn refused(alloc: Global) -> Question {
        Question {
            answer: String::new(alloc),
            seen: 0,
            differs: true,
        }
    }

    pub(crate) fn has_answers(&self) -> bool {
        !self.answer.is_empty()
    }

    /// The answers that are to be expected still.
    fn rest(&self) -> &str {
        self.answer.as_str().get(self.seen..).unwrap_or("")
    }

    /// The next answer that is to be expected.
    fn next(&self) -> &str {
        let rest = self.rest();
        match rest.split_once('\n') {
            Some((answer, _)) => answer,
            None if rest.is_empty() => "nothing more",
            None => rest,
        }
    }

    /// Compares an expected answer with the one that came, until one differs.
    pub(crate) fn expect(&mut self, report: &mut Report, line: &str) {
        report.count_expected();
        if self.differs {
            return;
        }
        if self.next() == line {
            self.seen = self.seen.saturating_add(line.len()).saturating_add(1);
            return;
        }
        self.differs = true;
        report.differs(line, self.next());
    }

    /// No answer is left that is not expected.
    pub(crate) fn close(&mut self, report: &mut Report) {
        if self.differs || self.rest().is_empty() {
            return;
        }
        self.differs = true;
        report.differs("nothing more", self.next());
    }
}
