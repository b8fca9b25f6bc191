//! The ends of the sessions that the words of the command line name: standard input and output, or files.

ghost use Rattle.std.specs.Prelude.{◌≡◌, IfOk};
ghost use Rattle.session_threads.specs.Results.{users_of_ends};

use cfg_base::{NoMemory, UserName, Word};
use command_line::Asked;
use io_edge::{StdClock, StdSink, StdSource};
use session_shell::End;
use std::alloc::Global;
use std::io::{ErrorKind, Read, Write};
use std::rt::{Clock, Files};
use std::{fs, io, str};

/// What a session reads: the standard input, a file, or a file that can't be used.
#[derive(Drop)]
pub enum Input<I, F> {
    Standard(I),
    File(F),
    Unusable,
}

impl<I: Read, F: Read> Read for Input<I, F> {
    fn read(&mut self, buf: &mut [u8]) -> io::Result<usize> {
        match self {
            Input::Standard(input) => input.read(buf),
            Input::File(file) => file.read(buf),
            Input::Unusable => Err(io::Error::from(ErrorKind::NotFound)),
        }
    }
}

/// What a session writes to: the standard output, a file, or a file that can't be used.
#[derive(Drop)]
pub enum Output<O, F> {
    Standard(O),
    File(F),
    Unusable,
}

impl<O: Write, F: Write> Write for Output<O, F> {
    fn write(&mut self, buf: &[u8]) -> io::Result<usize> {
        match self {
            Output::Standard(output) => output.write(buf),
            Output::File(file) => file.write(buf),
            Output::Unusable => Err(io::Error::from(ErrorKind::NotFound)),
        }
    }

    fn flush(&mut self) -> io::Result<()> {
        match self {
            Output::Standard(output) => output.flush(),
            Output::File(file) => file.flush(),
            Output::Unusable => Err(io::Error::from(ErrorKind::NotFound)),
        }
    }
}

/// The ends of a session over the system.
pub type StdEnd<R, I, O> = End<
    StdSource<Input<I, <R as Files>::File>>,
    StdSink<Output<O, <R as Files>::File>>,
    StdClock<R>,
>;

/// What is read of the file of that name.
fn file_input<R: Files, I>(rt: &R, file: &Word) -> Input<I, R::File> {
    let Ok(name) = str::from_utf8(file.as_bytes()) else {
        return Input::Unusable;
    };
    match fs::open(rt, name) {
        Ok(opened) => Input::File(opened),
        Err(_) => Input::Unusable,
    }
}

/// What is written of a session whose file has that name: a file with `.out` after the name, made anew.
fn file_output<R: Files, O>(
    rt: &R,
    alloc: Global,
    file: &Word,
) -> Result<Output<O, R::File>, NoMemory> {
    let Ok(name) = str::from_utf8(file.as_bytes()) else {
        return Ok(Output::Unusable);
    };
    let mut path = String::new(alloc);
    path.push_str(name)?;
    path.push_str(".out")?;
    match fs::create(rt, path.as_str()) {
        Ok(created) => Ok(Output::File(created)),
        Err(_) => Ok(Output::Unusable),
    }
}

/// The end of a session of a user.
fn end_of<R, I, O>(
    rt: &R,
    user: &UserName,
    source: Input<I, R::File>,
    sink: Output<O, R::File>,
) -> Result<StdEnd<R, I, O>, NoMemory>
where
    R: Files + Clock + Clone + Drop,
    I: Read + Drop,
    O: Write + Drop,
    ensures { IfOk result (λ end. end.user ≡ user.now) }
{
    let clock = StdClock::new(rt.clone()?);
    Ok(End {
        user: user.clone()?,
        source: StdSource::new(source),
        sink: StdSink::new(sink),
        clock,
    })
}

/// The end of a session over a file, or where none is named over the standard input and output, which one session has.
fn next_end<R, I, O>(
    rt: &R,
    user: &UserName,
    file: Option<&Word>,
    standard: &mut Option<(I, O)>,
) -> Result<StdEnd<R, I, O>, NoMemory>
where
    R: Files + Clock + AllocGlobal + Clone + Drop,
    I: Read + Drop,
    O: Write + Drop,
    ensures { IfOk result (λ end. end.user ≡ user.now) }
{
    let Some(file) = file else {
        let (source, sink) = standard_of(standard.take());
        return end_of(rt, user, source, sink);
    };
    let source = file_input(rt, file);
    match file_output(rt, rt.alloc(), file) {
        Ok(sink) => end_of(rt, user, source, sink),
        Err(NoMemory) => Err(NoMemory),
    }
}

/// The ends that are asked for, each of its user: over files, or where no session is named over the standard input and output.
pub fn ends_of<R, I, O>(
    rt: &R,
    asked: &Asked,
    input: I,
    output: O,
) -> Result<Vec<StdEnd<R, I, O>>, NoMemory>
where
    R: Files + Clock + AllocGlobal + Clone + Drop,
    I: Read + Drop,
    O: Write + Drop,
    ensures { IfOk result (λ ends. users_of_ends ends.items ≡ asked.now.users) }
{
    let mut standard = Some((input, output));
    let mut files = asked.files.as_slice().iter();
    let mut ends = Vec::new(rt.alloc());
    for user in asked.users.as_slice() {
        let end = next_end(rt, user, files.next(), &mut standard)?;
        ends.push(end)?;
    }
    Ok(ends)
}

/// The standard input and output, which one session has.
fn standard_of<I, O, F>(standard: Option<(I, O)>) -> (Input<I, F>, Output<O, F>) {
    match standard {
        Some((input, output)) => (Input::Standard(input), Output::Standard(output)),
        None => (Input::Unusable, Output::Unusable),
    }
}
