//! What a script keeps between its lines, and what a line answers.

use crate::ledger_calls::Records;
use crate::level::ask_resolve;
use crate::load_calls::{ask_load, way_of};
use crate::trees::Trees;
use crate::{base_calls, profile_calls, record_calls, text_calls, value_calls};
use commands::LoadWay;
use script_lines::{
    Answers, AnswersAll, Arg, Asked, Fault, KeptText, Text, args_of, first_and_rest,
};
use std::alloc::Global;
use std::sync::Wait;
use std::thread::Threads;

#[derive(Drop)]
struct Script {
    alloc: Global,
    trees: Trees,
    text: KeptText,
    records: Records,
}

/// Answers a call that has all that it is asked about in its words, where it is one.
fn ask(alloc: Global, name: &str, args: &[Arg], out: &mut Text) -> Option<Result<(), Fault>> {
    if let Some(done) = base_calls::ask(alloc, name, args, out) {
        return Some(done);
    }
    if let Some(done) = value_calls::ask(alloc, name, args, out) {
        return Some(done);
    }
    if let Some(done) = profile_calls::ask(alloc, name, args, out) {
        return Some(done);
    }
    record_calls::ask(alloc, name, args, out)
}

impl Script {
    fn new(alloc: Global) -> Script {
        Script {
            alloc,
            trees: Trees::new(alloc),
            text: KeptText::new(alloc),
            records: Records::new(alloc),
        }
    }

    fn read_text(
        &mut self,
        way: Option<LoadWay>,
        name: &str,
        rest: &str,
        out: &mut Text,
    ) -> Result<(), Fault> {
        let text = self.text.behind(self.alloc, rest)?;
        match way {
            Some(way) => ask_load(self.alloc, &mut self.trees.tree, way, &text, out),
            None => text_calls::ask(self.alloc, &mut self.trees.tree, name, &text, out),
        }
        Ok(())
    }

    /// Answers a call that reads or loads a text, where it is one.
    fn answer_text(&mut self, name: &str, rest: &str, out: &mut Text) -> Option<Result<(), Fault>> {
        let way = way_of(name);
        if way.is_none() && !text_calls::is_call(name) {
            return None;
        }
        Some(self.read_text(way, name, rest, out))
    }

    /// parse_front N
    fn answer_front(&mut self, args: &[Arg], out: &mut Text) -> Result<(), Fault> {
        text_calls::ask_front(
            self.alloc,
            &mut self.trees.tree,
            self.text.as_bytes(),
            args,
            out,
        )
    }

    /// Answers a call of what is kept, where it is one.
    fn answer_kept(
        &mut self,
        name: &str,
        args: &[Arg],
        out: &mut Text,
    ) -> Option<Result<(), Fault>> {
        if let Some(done) = self
            .records
            .ask(self.alloc, &self.trees.tree, name, args, out)
        {
            return Some(done);
        }
        if let Some(done) = self.trees.keep(self.alloc, name, args, out) {
            return Some(done);
        }
        self.trees.ask(self.alloc, name, args, out)
    }

    /// A line that is cut into words.
    fn answer_words(&mut self, name: &str, args: &[Arg], out: &mut Text) -> Result<(), Fault> {
        match name {
            "resolve" => return ask_resolve(self.alloc, args, out),
            "parse_front" => return self.answer_front(args, out),
            _ => {}
        }
        if let Some(done) = ask(self.alloc, name, args, out) {
            return done;
        }
        match self.answer_kept(name, args, out) {
            Some(done) => done,
            None => Err(Fault::Script("no such call, or not with as many words")),
        }
    }
}

impl Answers for Script {
    fn answer<R: Threads + Wait + Sync>(
        &mut self,
        _rt: &R,
        line: &str,
        out: &mut Text,
    ) -> Result<(), Fault> {
        let (name, rest) = first_and_rest(line);
        if self.text.keep(name, rest)? {
            return Ok(());
        }
        if let Some(done) = self.answer_text(name, rest, out) {
            return done;
        }
        if name == "allows" {
            return self.trees.ask_allows(self.alloc, rest, out);
        }
        let args = args_of(self.alloc, rest)?;
        if name == "level" {
            self.trees.set_level(args);
            return Ok(());
        }
        self.answer_words(name, &args, out)
    }
}

/// Answers a script, which keeps nothing at first.
fn answer_script<R: Threads + Wait + Sync>(
    rt: &R,
    alloc: Global,
    asked: &mut Asked,
    lines: &[&[u8]],
) {
    let mut script = Script::new(alloc);
    asked.take_all(rt, alloc, &mut script, lines);
}

/// What answers a script.
pub(crate) struct Whole;

impl AnswersAll for Whole {
    fn answer_all<R: Threads + Wait + Sync>(
        rt: &R,
        alloc: Global,
        asked: &mut Asked,
        lines: &[&[u8]],
    ) -> Result<(), Fault> {
        answer_script(rt, alloc, asked, lines);
        Ok(())
    }
}
