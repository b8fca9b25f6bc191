//! Runs of the service by the words of a command line, and what is said of them.

use crate::failing::Failing;
use cfg_base::{NoMemory, Word, WordFault, Words};
use command_line::{Usage, read_words, words_ask_one_thing};
use real_ends::{Came, ends_of, line_of, not_run, open_disks, run_over, serve};
use std::alloc::Global;
use std::fs::File;
use std::io;
use std::io::{ErrorKind, Stdin, Stdout};
use std::rt::{Clock, Files};
use std::sync::Wait;
use std::thread::Threads;

/// The standard input and output.
pub(crate) type Standard = (Stdin, Stdout);

/// The words of a text, which stand between blanks.
fn words_of(alloc: Global, text: &str) -> Result<Words, WordFault> {
    let mut words = Words::new(alloc);
    for part in text.split(' ') {
        words.push(Word::of(alloc, part.as_bytes())?)?;
    }
    Ok(words)
}

/// Says the status of a run, and what the program says of it on standard error.
fn say_came<R: Print + AllocGlobal>(rt: &R, came: Result<Came, NoMemory>) -> io::Result<()> {
    let Ok(came) = came else {
        return Err(io::Error::from(ErrorKind::OutOfMemory));
    };
    let status = came.status;
    match line_of(rt.alloc(), &came)? {
        Some(line) => println!(rt; "status {status}, {line}"),
        None => println!(rt; "status {status}"),
    }
}

/// Does what the words of a text ask.
fn served<R>(rt: &R, text: &str, standard: Standard) -> Result<Came, NoMemory>
where
    R: Threads + Wait + Sync + Send + Clock + Files<File = File> + AllocGlobal + Clone + Drop,
{
    let (input, output) = standard;
    match words_of(rt.alloc(), text) {
        Ok(words) => serve(rt, &words, input, output),
        Err(WordFault::LongWord) => Ok(not_run(1)),
        Err(WordFault::NoMemory) => Err(NoMemory),
    }
}

/// Does what the words of a text ask, and says what resulted.
pub(crate) fn say_run<R>(rt: &R, text: &str, standard: Standard) -> io::Result<()>
where
    R: Threads
        + Wait
        + Sync
        + Send
        + Clock
        + Files<File = File>
        + Print
        + AllocGlobal
        + Clone
        + Drop,
{
    println!(rt; "> {text}")?;
    say_came(rt, served(rt, text, standard))
}

/// The disks of a folder, of which A fails from its third sync on, and B from its second one.
fn failing_disks<R>(rt: &R, folder: &Word) -> Result<(Failing, Failing), NoMemory>
where
    R: Files<File = File> + AllocGlobal,
{
    let (a, b) = open_disks(rt, folder)?;
    Ok((Failing::new(a, 2), Failing::new(b, 1)))
}

/// Does what words ask, over disks that fail.
fn served_failing<R>(rt: &R, words: &Words, standard: Standard) -> Result<Came, NoMemory>
where
    R: Threads + Wait + Sync + Send + Clock + Files<File = File> + AllocGlobal + Clone + Drop,
{
    let (input, output) = standard;
    words_ask_one_thing();
    match read_words(rt.alloc(), words) {
        Ok(asked) => {
            let ends = ends_of(rt, &asked, input, output)?;
            run_over(rt, words, ends, failing_disks(rt, &asked.place))
        }
        Err(Usage::Refused) => Ok(not_run(1)),
        Err(Usage::NoMemory) => Ok(not_run(9)),
    }
}

/// Does what the words of a text ask, over disks that fail, and says what resulted.
pub(crate) fn say_failing<R>(rt: &R, text: &str, standard: Standard) -> io::Result<()>
where
    R: Threads
        + Wait
        + Sync
        + Send
        + Clock
        + Files<File = File>
        + Print
        + AllocGlobal
        + Clone
        + Drop,
{
    println!(rt; "> {text}, over disks whose syncs fail")?;
    match words_of(rt.alloc(), text) {
        Ok(words) => say_came(rt, served_failing(rt, &words, standard)),
        Err(_) => Err(io::Error::from(ErrorKind::OutOfMemory)),
    }
}
