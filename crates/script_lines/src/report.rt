use crate::fault::Fault;
use crate::writing::Text;
use std::alloc::{AllocError, Global};
use std::io;

/// What resulted from a script.
#[derive(Drop)]
pub(crate) struct Report {
    name: Text,
    /// The number of the line that is read, from 1.
    line: u64,
    questions: u64,
    expected: u64,
    wrong: u64,
    text: Text,
}

impl Report {
    pub(crate) fn new(alloc: Global, name: &str) -> Report {
        let mut named = Text::new(alloc);
        named.put(name);
        Report {
            name: named,
            line: 0,
            questions: 0,
            expected: 0,
            wrong: 0,
            text: Text::new(alloc),
        }
    }

    pub(crate) fn is_right(&self) -> bool {
        self.wrong == 0
    }

    /// Another line is read.
    pub(crate) fn next_line(&mut self) {
        self.line = self.line.saturating_add(1);
    }

    /// One question more was answered.
    pub(crate) fn count_question(&mut self) {
        self.questions = self.questions.saturating_add(1);
    }

    /// One answer more is expected.
    pub(crate) fn count_expected(&mut self) {
        self.expected = self.expected.saturating_add(1);
    }

    fn add(&mut self, head: &str, text: &str) {
        self.text.put(self.name.as_str());
        self.text.put(":");
        self.text.put_number(self.line);
        self.text.put(head);
        self.text.put(text);
        self.text.put("\n");
    }

    /// Something of the script is wrong at the line that is read.
    pub(crate) fn wrong(&mut self, why: &str) {
        self.wrong = self.wrong.saturating_add(1);
        self.add(": error: ", why);
    }

    /// The line that is read has no answer.
    pub(crate) fn refused(&mut self, fault: Fault) {
        match fault {
            Fault::Script(why) => self.wrong(why),
            Fault::NoMemory => self.text.lacks_memory(),
        }
    }

    /// What came at the line that is read isn't what is expected there.
    pub(crate) fn differs(&mut self, expected: &str, came: &str) {
        self.wrong = self.wrong.saturating_add(1);
        self.add(": expected ", expected);
        self.add(": came     ", came);
    }

    /// The script is at its end, and has asked something.
    pub(crate) fn close(&mut self) {
        if self.questions == 0 {
            self.wrong("the script asks nothing");
        }
    }

    /// Reports the counts.
    pub(crate) fn tell_counts(&mut self) {
        self.text.put(self.name.as_str());
        self.text.put(": ");
        self.text.put_number(self.questions);
        self.text.put(" questions, ");
        self.text.put_number(self.expected);
        self.text.put(" answers expected, ");
        self.text.put_number(self.wrong);
        self.text.put(" wrong\n");
    }

    /// Prints each difference and the counts, unless memory ran out.
    pub(crate) fn print(&self, rt: &impl Print) -> io::Result<()> {
        if !self.name.is_whole() || !self.text.is_whole() {
            return Err(AllocError.into());
        }
        let text = self.text.as_str();
        print!(rt; "{text}")
    }
}
