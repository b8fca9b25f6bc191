//! What answers the lines of a script, and lines that are asked once for each of some numbers.

ghost use Rattle.std.specs.Thread.{IsSync};

use crate::answers::say_times;
use crate::fault::Fault;
use crate::words::{first_and_rest, number};
use crate::writing::Text;
use std::alloc::Global;
use std::sync::Wait;
use std::thread::Threads;

/// What answers the lines of a script, with what it is lent for that.
pub trait Answers {
    /// Answers a line that is no `each`: each answer is a line that begins with `=`.
    fn answer<R: Threads + Wait + Sync>(
        &mut self,
        rt: &R,
        line: &str,
        out: &mut Text,
    ) -> Result<(), Fault>
        requires { IsSync R.row };
}

/// A line with a number in place of each `%`.
fn with_number(alloc: Global, line: &str, number: u64) -> Result<String, Fault> {
    let mut text = Text::new(alloc);
    for (place, piece) in line.split('%').enumerate() {
        if place > 0 {
            text.put_number(number);
        }
        text.put(piece);
    }
    text.whole()
}

/// The last answer, and how often it came one time after the other.
#[derive(Drop)]
struct Last {
    answer: String,
    times: u64,
}

impl Last {
    /// It, and how often it came.
    fn say(&self, out: &mut Text) {
        if !self.answer.is_empty() {
            say_times(out, self.times);
            out.put(self.answer.as_str());
        }
    }

    /// Takes the next answer. Where it is another one, the last is reported.
    fn take(&mut self, answer: String, out: &mut Text) {
        if answer != self.answer {
            self.say(out);
            self.answer = answer;
            self.times = 0;
        }
        self.times = self.times.saturating_add(1);
    }
}

/// What a line answers that is no `each`.
fn answer_one<R: Threads + Wait + Sync, A: Answers>(
    rt: &R,
    alloc: Global,
    script: &mut A,
    line: &str,
) -> Result<String, Fault> {
    let mut out = Text::new(alloc);
    match script.answer(rt, line, &mut out) {
        Ok(()) => out.whole(),
        Err(fault) => Err(fault),
    }
}

/// What a line answers with that number.
fn answer_at<R: Threads + Wait + Sync, A: Answers>(
    rt: &R,
    alloc: Global,
    script: &mut A,
    line: &str,
    number: u64,
) -> Result<String, Fault> {
    match with_number(alloc, line, number) {
        Ok(line) => answer_one(rt, alloc, script, line.as_str()),
        Err(fault) => Err(fault),
    }
}

/// The line for each number, in order; the last answer is left.
fn answer_between<R: Threads + Wait + Sync, A: Answers>(
    rt: &R,
    alloc: Global,
    script: &mut A,
    line: &str,
    from: u64,
    to: u64,
    last: &mut Last,
    out: &mut Text,
) -> Result<(), Fault> {
    for value in from..=to {
        match answer_at(rt, alloc, script, line, value) {
            Ok(answer) => last.take(answer, out),
            Err(fault) => return Err(fault),
        }
    }
    Ok(())
}

/// each FROM TO LINE: the line for each number, and how often each answer came
fn answer_each<R: Threads + Wait + Sync, A: Answers>(
    rt: &R,
    alloc: Global,
    script: &mut A,
    text: &str,
    out: &mut Text,
) -> Result<(), Fault> {
    let (from, text) = first_and_rest(text);
    let (to, line) = first_and_rest(text);
    let from = number(from.as_bytes())?;
    let to = number(to.as_bytes())?;
    let mut last = Last {
        answer: String::new(alloc),
        times: 0,
    };
    let answered = answer_between(rt, alloc, script, line, from, to, &mut last, out);
    last.say(out);
    answered
}

/// What a line answers.
pub(crate) fn answer_line<R: Threads + Wait + Sync, A: Answers>(
    rt: &R,
    alloc: Global,
    script: &mut A,
    line: &str,
) -> Result<String, Fault> {
    let ("each", rest) = first_and_rest(line) else {
        return answer_one(rt, alloc, script, line);
    };
    let mut out = Text::new(alloc);
    match answer_each(rt, alloc, script, rest, &mut out) {
        Ok(()) => out.whole(),
        Err(fault) => Err(fault),
    }
}
