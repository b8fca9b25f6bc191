//! What a script keeps between its lines, and what a line answers.

use crate::command_calls::ask_words;
use crate::disks::Disks;
use crate::input_calls;
use crate::line_calls::{ask_line, ask_plain, copy_set};
use crate::runs::{ask_hurt, ask_run, make_fresh};
use crate::steps::{Machine, ask_step};
use script_lines::{
    Answers, AnswersAll, Arg, Asked, Fault, KeptText, Stage, Text, args_of, first_and_rest,
};
use std::alloc::Global;
use std::sync::Wait;
use std::thread::Threads;

#[derive(Drop)]
struct Script {
    alloc: Global,
    text: KeptText,
    stage: Stage,
    /// The disks of the next run, which come back from it.
    disks: Disks,
    /// Copies of disks, for more than one run over them.
    kept: Disks,
    machine: Machine,
}

/// Answers a call that has all that it is asked about in its words, where it is one.
fn ask(alloc: Global, name: &str, args: &[Arg], out: &mut Text) -> Option<Result<(), Fault>> {
    match name {
        "is_plain" => Some(ask_plain(args, out)),
        "copy_set" => Some(copy_set(alloc, args, out)),
        "read_words" => Some(ask_words(alloc, args, out)),
        _ => None,
    }
}

impl Script {
    fn new(alloc: Global) -> Result<Script, Fault> {
        let disks = Disks::new(alloc, 0)?;
        let kept = Disks::new(alloc, 0)?;
        Ok(Script {
            alloc,
            text: KeptText::new(alloc),
            stage: Stage::new(alloc),
            disks,
            kept,
            machine: Machine::new(alloc)?,
        })
    }

    /// A line that is cut into words.
    fn answer_words(&mut self, name: &str, args: &[Arg], out: &mut Text) -> Result<(), Fault> {
        if let Some(done) = ask(self.alloc, name, args, out) {
            return done;
        }
        if let Some(done) = input_calls::ask(self.alloc, &mut self.stage, name, args, out) {
            return done;
        }
        if let Some(done) = self.disks.answer(self.alloc, name, args, out) {
            return done;
        }
        match self.machine.answer(self.alloc, name, args, out) {
            Some(done) => done,
            None => Err(Fault::Script("no such call, or not with as many words")),
        }
    }
}

impl Answers for Script {
    fn answer<R: Threads + Wait + Sync>(
        &mut self,
        rt: &R,
        line: &str,
        out: &mut Text,
    ) -> Result<(), Fault> {
        let alloc = self.alloc;
        let (name, rest) = first_and_rest(line);
        if self.text.keep(name, rest)? || self.stage.keep(alloc, name, rest)? {
            return Ok(());
        }
        match name {
            "read_line" => ask_line(alloc, rest, out),
            "step" => ask_step(alloc, &mut self.machine, &mut self.text, false, rest, out),
            "failing_step" => ask_step(alloc, &mut self.machine, &mut self.text, true, rest, out),
            "run" => ask_run(rt, alloc, &mut self.stage, &mut self.disks, true, rest, out),
            "run_output" => ask_run(
                rt,
                alloc,
                &mut self.stage,
                &mut self.disks,
                false,
                rest,
                out,
            ),
            "run_cut" | "run_byte" | "run_more" => {
                ask_hurt(rt, alloc, &mut self.stage, &self.disks, name, rest, out)
            }
            "fresh" => make_fresh(rt, alloc, &mut self.disks),
            "keep-disks" => self.kept.copies_of(alloc, &self.disks),
            "kept-disks" => self.disks.copies_of(alloc, &self.kept),
            _ => self.answer_words(name, &args_of(alloc, rest)?, out),
        }
    }
}

/// Answers a script, which keeps nothing at first.
fn answer_script<R: Threads + Wait + Sync>(
    rt: &R,
    alloc: Global,
    asked: &mut Asked,
    lines: &[&[u8]],
) -> Result<(), Fault> {
    let mut script = Script::new(alloc)?;
    asked.take_all(rt, alloc, &mut script, lines);
    Ok(())
}

/// What answers a script.
pub(crate) struct Whole;

impl AnswersAll for Whole {
    fn answer_all<R: Threads + Wait + Sync>(
        rt: &R,
        alloc: Global,
        asked: &mut Asked,
        lines: &[&[u8]],
    ) -> Result<(), Fault> {
        answer_script(rt, alloc, asked, lines)
    }
}
