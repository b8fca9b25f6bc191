//! The cases, one after another, over one folder.

use crate::files::{ALICE, make_files, put_byte, remove_files, say_kept, say_length, say_text};
use crate::runs::{Standard, say_failing, say_run};
use disk_model::{Disk, FileDisk};
use io_edge::{Sink, Source, StdSink, StdSource};
use std::fs::{File, OpenOptions};
use std::os::fd::AsRawFd;
use std::rt::{Clock, Files};
use std::sync::Wait;
use std::thread::Threads;
use std::{fs, io};

/// A list of commits that is made, and isn't made anew.
fn say_made<R>(rt: &R, standard: Standard) -> io::Result<()>
where
    R: Threads
        + Wait
        + Sync
        + Send
        + Clock
        + Files<File = File>
        + Print
        + AllocGlobal
        + Clone
        + Drop,
{
    say_run(rt, "init edge", standard)?;
    say_length(rt, "edge/journal.a")?;
    say_length(rt, "edge/journal.b")?;
    say_run(rt, "init edge", standard)
}

/// Two sessions that commit side by side, and then one over the standard input and output.
fn say_sessions<R>(rt: &R, standard: Standard) -> io::Result<()>
where
    R: Threads
        + Wait
        + Sync
        + Send
        + Clock
        + Files<File = File>
        + Print
        + AllocGlobal
        + Clone
        + Drop,
{
    say_run(rt, "serve edge alice:edge/alice bob:edge/bob", standard)?;
    say_kept(rt, "edge/alice", ALICE)?;
    say_text(rt, "edge/alice.out")?;
    say_text(rt, "edge/bob.out")?;
    say_run(rt, "check edge", standard)?;
    say_run(rt, "serve edge", standard)
}

/// A second service over a journal that is served: it is refused, and opens no file of its sessions; a check isn't. Once the
/// first one has ended, it is served.
fn say_in_use<R>(rt: &R, standard: Standard) -> io::Result<()>
where
    R: Threads
        + Wait
        + Sync
        + Send
        + Clock
        + Files<File = File>
        + Print
        + AllocGlobal
        + Clone
        + Drop,
{
    let other = OpenOptions::new().read(true).open(rt, "edge/journal.a")?;
    other.try_lock()?;
    say_run(rt, "serve edge dave:edge/dave", standard)?;
    let opened = fs::exists(rt, "edge/dave.out")?;
    println!(rt; "edge/dave.out was made: {opened}")?;
    say_run(rt, "check edge", standard)?;
    drop(other);
    say_run(rt, "serve edge dave:edge/dave", standard)?;
    say_text(rt, "edge/dave.out")
}

/// A commit the last of whose syncs fails, and all syncs after it: its entry stays in flight, and stands in the file.
fn say_fault<R>(rt: &R, standard: Standard) -> io::Result<()>
where
    R: Threads
        + Wait
        + Sync
        + Send
        + Clock
        + Files<File = File>
        + Print
        + AllocGlobal
        + Clone
        + Drop,
{
    say_failing(rt, "serve edge carol:edge/carol", standard)?;
    say_text(rt, "edge/carol.out")?;
    say_run(rt, "check edge", standard)
}

/// Sessions whose files fail: one that isn't there, beside a session that goes on, a folder, and a file that is full.
fn say_failing_sessions<R>(rt: &R, standard: Standard) -> io::Result<()>
where
    R: Threads
        + Wait
        + Sync
        + Send
        + Clock
        + Files<File = File>
        + Print
        + AllocGlobal
        + Clone
        + Drop,
{
    say_run(rt, "serve edge erin:edge/nothing dave:edge/dave", standard)?;
    say_text(rt, "edge/dave.out")?;
    say_run(rt, "serve edge erin:edge/folder", standard)?;
    say_run(rt, "serve edge erin:edge/full", standard)
}

/// Files that hold no list of commits: a first gate that is closed, a damaged digest, another beginning.
fn say_refused<R>(rt: &R, standard: Standard) -> io::Result<()>
where
    R: Threads
        + Wait
        + Sync
        + Send
        + Clock
        + Files<File = File>
        + Print
        + AllocGlobal
        + Clone
        + Drop,
{
    say_run(rt, "init edge/hurt", standard)?;
    put_byte(rt, "edge/hurt/journal.a", 17, 0)?;
    say_run(rt, "check edge/hurt", standard)?;
    put_byte(rt, "edge/hurt/journal.a", 17, 1)?;
    put_byte(rt, "edge/hurt/journal.a", 85, 0)?;
    say_run(rt, "serve edge/hurt", standard)?;
    put_byte(rt, "edge/hurt/journal.b", 0, 0)?;
    say_run(rt, "check edge/hurt", standard)
}

/// Words that ask for no folder's files, or for those of a folder that isn't there.
fn say_others<R>(rt: &R, standard: Standard) -> io::Result<()>
where
    R: Threads
        + Wait
        + Sync
        + Send
        + Clock
        + Files<File = File>
        + Print
        + AllocGlobal
        + Clone
        + Drop,
{
    say_run(rt, "init edge/nowhere", standard)?;
    say_run(rt, "check edge/nowhere", standard)?;
    say_run(rt, "serve", standard)?;
    say_run(rt, "gen 1", standard)
}

/// A disk that can't be written, nor synced.
fn say_full<R: Files<File = File> + Print>(rt: &R) -> io::Result<()> {
    let mut full = FileDisk::open(rt, "/dev/full");
    let wrote = full.write_at(0, b"x");
    let synced = full.sync();
    let faults = full.faults();
    println!(rt; "/dev/full as a disk: write {wrote:?}, sync {synced:?}, {faults} faults")
}

/// A disk that can't be read: a pipe has no places.
fn say_pipe<R: Files<File = File> + Print + AllocGlobal>(rt: &R) -> io::Result<()> {
    let (reader, _writer) = io::pipe(rt)?;
    let number = reader.as_raw_fd();
    let path = format!(in rt.alloc(); "/proc/self/fd/{number}")?;
    let mut pipe = FileDisk::open(rt, path.as_str());
    let length = pipe.len();
    let read = pipe.read_at(0, &mut [0]);
    let faults = pipe.faults();
    println!(rt; "a pipe as a disk: length {length:?}, read {read:?}, {faults} fault")
}

/// A sink whose pipe nobody reads any more.
fn say_closed<R: Files + Print>(rt: &R) -> io::Result<()> {
    let (reader, writer) = io::pipe(rt)?;
    drop(reader);
    let wrote = StdSink::new(writer).write(b"x");
    println!(rt; "a closed pipe as a sink: write {wrote:?}")
}

/// A source over a folder.
fn say_folder<R: Files + Print>(rt: &R) -> io::Result<()> {
    let read = StdSource::new(fs::open(rt, "edge")?).read(&mut [0]);
    println!(rt; "a folder as a source: read {read:?}")
}

/// All that is said.
pub(crate) fn say_all<R>(rt: &R, standard: Standard) -> io::Result<()>
where
    R: Threads
        + Wait
        + Sync
        + Send
        + Clock
        + Files<File = File>
        + Print
        + AllocGlobal
        + Clone
        + Drop,
{
    make_files(rt)?;
    say_made(rt, standard)?;
    say_sessions(rt, standard)?;
    say_in_use(rt, standard)?;
    say_fault(rt, standard)?;
    say_failing_sessions(rt, standard)?;
    say_refused(rt, standard)?;
    say_others(rt, standard)?;
    say_full(rt)?;
    say_pipe(rt)?;
    say_closed(rt)?;
    say_folder(rt)?;
    remove_files(rt)
}
