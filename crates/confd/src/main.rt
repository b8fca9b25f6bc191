//! The program of the configuration service: its words, the run that they ask for, and its exit status.
//!
//! Guarantees: the words handed to the run are those of the command line but for the program's own name.
//! Leaves to others: what words ask (`command_line`), the ends, the disks and the run over them (`real_ends`), and the
//! service itself (`service`).
#![tactic(auto)]

ghost use Rattle.std.specs.Prelude.{◌≡◌, ◌<◌, length, drop, map, Err, IfOk, string_bytes};
ghost use Rattle.std.specs.List.{Any};
ghost use Rattle.std.specs.Vec.Iter.{into_iter_items};
ghost use Rattle.command_line.specs.declared.usage.Usage.TheVariants.{Refused};

use cfg_base::{NoMemory, Word, WordFault, Words};
use command_line::Usage;
use real_ends::{Came, line_of, not_run, serve};
use std::alloc::Global;
use std::env;
use std::env::Args;
use std::io::ErrorKind;
use std::process::ExitCode;
use std::rt::Env;

/// The arguments as words.
fn words_from(alloc: Global, args: Args) -> Result<Words, Usage>
    ensures words { IfOk result (λ words. words ≡ map string_bytes (into_iter_items args)) }
    ensures usage { result ≡ Err Refused → Any (λ word. 255 < length word) (map string_bytes (into_iter_items args)) }
{
    let mut words = Words::new(alloc);
    for arg in args {
        match Word::of(alloc, arg.as_str().as_bytes()) {
            Ok(word) => words.push(word)?,
            Err(WordFault::LongWord) => return Err(Usage::Refused),
            Err(WordFault::NoMemory) => return Err(Usage::NoMemory),
        }
    }
    Ok(words)
}

/// The words of a command line's arguments, but for the first, which is the program's own name.
fn words_of(alloc: Global, args: Args) -> Result<Words, Usage>
    ensures words { IfOk result (λ words. words ≡ map string_bytes (drop 1 (into_iter_items args))) }
    ensures usage { result ≡ Err Refused → Any (λ word. 255 < length word) (map string_bytes (drop 1 (into_iter_items args))) }
{
    let mut args = args;
    let _program = args.next();
    words_from(alloc, args)
}

/// The words of the command line.
fn command_words<R: Env + AllocGlobal>(rt: &R) -> Result<Words, Usage> {
    match env::args(rt) {
        Ok(args) => words_of(rt.alloc(), args),
        Err(error) if error.kind() == ErrorKind::OutOfMemory => Err(Usage::NoMemory),
        Err(_) => Err(Usage::Refused),
    }
}

/// Says on standard error why the run did not go as it was asked, if it didn't.
fn tell<R: Eprint + AllocGlobal>(rt: &R, came: &Came) {
    let _told = match line_of(rt.alloc(), came) {
        Ok(Some(line)) => rt.eprintln(line.as_str()),
        Ok(None) => Ok(()),
        Err(_) => rt.eprintln("confd: out of memory"),
    };
}

fn main(rt: HostRuntime) -> ExitCode {
    let came = match command_words(&rt) {
        Ok(words) => match serve(&rt, &words, rt.stdin(), rt.stdout()) {
            Ok(came) => came,
            Err(NoMemory) => not_run(9),
        },
        Err(Usage::Refused) => not_run(1),
        Err(Usage::NoMemory) => not_run(9),
    };
    tell(&rt, &came);
    ExitCode::from(came.status)
}
