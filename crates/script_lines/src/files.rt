//! The scripts that the command line names.

ghost use Rattle.std.specs.Thread.{IsSync};

use crate::asked::Asked;
use crate::fault::Fault;
use std::alloc::Global;
use std::process::ExitCode;
use std::rt::{Env, Files};
use std::sync::Wait;
use std::thread::Threads;
use std::{env, fs, io};

/// What answers a script as a whole, with what it is lent for that.
pub trait AnswersAll {
    /// Takes the lines of a script, each of them, in order.
    fn answer_all<R: Threads + Wait + Sync>(
        rt: &R,
        alloc: Global,
        asked: &mut Asked,
        lines: &[&[u8]],
    ) -> Result<(), Fault>
        requires { IsSync R.row };
}

/// The lines of a text, without their ends.
fn lines_of(alloc: Global, bytes: &[u8]) -> Result<Vec<&[u8]>, Fault> {
    let mut lines = Vec::new(alloc);
    for line in bytes.split(|byte| *byte == b'\n') {
        lines.push(line)?;
    }
    Ok(lines)
}

/// Answers a script.
fn check<R: Threads + Wait + Sync, A: AnswersAll>(
    rt: &R,
    alloc: Global,
    asked: &mut Asked,
    bytes: &[u8],
) {
    let answered = match lines_of(alloc, bytes) {
        Ok(lines) => A::answer_all(rt, alloc, asked, &lines),
        Err(fault) => Err(fault),
    };
    if let Err(fault) = answered {
        asked.report.refused(fault);
    }
    asked.close();
}

/// Checks a file, prints the report, and says whether all is as expected.
fn report_file<R, A>(rt: &R, name: &str) -> io::Result<bool>
where
    R: Files + Print + AllocGlobal + Threads + Wait + Sync,
    A: AnswersAll,
{
    let alloc = rt.alloc();
    let mut asked = Asked::new(alloc, name);
    match fs::read(rt, name) {
        Ok(bytes) => check::<R, A>(rt, alloc, &mut asked, &bytes),
        Err(_) => asked.report.wrong("the file can't be read"),
    }
    asked.report.tell_counts();
    asked.report.print(rt)?;
    Ok(asked.report.is_right())
}

fn report_files<R, A>(rt: &R) -> io::Result<bool>
where
    R: Env + Files + Print + AllocGlobal + Threads + Wait + Sync,
    A: AnswersAll,
{
    let mut right = true;
    for name in env::args(rt)?.skip(1) {
        let is_right = report_file::<R, A>(rt, name.as_str())?;
        right = right && is_right;
    }
    Ok(right)
}

/// Checks the files that the command line names. The status is 0 where all is as expected, 1 where something differs, and 9 where
/// memory runs out.
pub fn check_files<R, A>(rt: &R) -> ExitCode
where
    R: Env + Files + Print + AllocGlobal + Threads + Wait + Sync,
    A: AnswersAll,
{
    match report_files::<R, A>(rt) {
        Ok(true) => ExitCode::from(0),
        Ok(false) => ExitCode::from(1),
        Err(_) => ExitCode::from(9),
    }
}
