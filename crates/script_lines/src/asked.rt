//! A script that is asked line by line.

use crate::expanding::expanded;
use crate::question::Question;
use crate::repeated::{Answers, answer_line};
use crate::report::Report;
use std::alloc::Global;
use std::str;
use std::sync::Wait;
use std::thread::Threads;

/// The last question of a script, and what resulted from the script so far.
#[derive(Drop)]
pub struct Asked {
    pub(crate) report: Report,
    question: Question,
}

impl Asked {
    /// A script of that name, before its first line.
    pub(crate) fn new(alloc: Global, name: &str) -> Asked {
        Asked {
            report: Report::new(alloc, name),
            question: Question::none(alloc),
        }
    }

    /// Asks what a line asks. What it answers is the question from now on.
    fn ask<R: Threads + Wait + Sync, A: Answers>(
        &mut self,
        rt: &R,
        alloc: Global,
        script: &mut A,
        line: &str,
    ) {
        match answer_line(rt, alloc, script, line) {
            Ok(answer) => self.question = Question::answered(answer),
            Err(fault) => {
                self.report.refused(fault);
                self.question = Question::refused(alloc);
            }
        }
        if self.question.has_answers() {
            self.report.count_question();
        }
    }

    /// Takes a line whose copies are written out: an answer that is expected, or the next question.
    fn take_expanded<R: Threads + Wait + Sync, A: Answers>(
        &mut self,
        rt: &R,
        alloc: Global,
        script: &mut A,
        line: &str,
    ) {
        if line.starts_with("=") {
            self.question.expect(&mut self.report, line);
            return;
        }
        self.question.close(&mut self.report);
        self.ask(rt, alloc, script, line);
    }

    fn take_text<R: Threads + Wait + Sync, A: Answers>(
        &mut self,
        rt: &R,
        alloc: Global,
        script: &mut A,
        line: &str,
    ) {
        if line.is_empty() || line.starts_with("#") {
            return;
        }
        match expanded(alloc, line) {
            Ok(text) => self.take_expanded(rt, alloc, script, text.as_str()),
            Err(fault) => self.report.refused(fault),
        }
    }

    /// Takes the next line, which is answered if it asks something.
    pub fn take<R: Threads + Wait + Sync, A: Answers>(
        &mut self,
        rt: &R,
        alloc: Global,
        script: &mut A,
        line: &[u8],
    ) {
        self.report.next_line();
        match str::from_utf8(line) {
            Ok(text) => self.take_text(rt, alloc, script, text),
            Err(_) => self.report.wrong("the line is no UTF-8"),
        }
    }

    /// Takes all of these lines.
    pub fn take_all<R: Threads + Wait + Sync, A: Answers>(
        &mut self,
        rt: &R,
        alloc: Global,
        script: &mut A,
        lines: &[&[u8]],
    ) {
        for line in lines {
            self.take(rt, alloc, script, line);
        }
    }

    /// The script is at its end.
    pub(crate) fn close(&mut self) {
        self.question.close(&mut self.report);
        self.report.close();
    }
}
