//! The files of the cases, and what is said of them.

use std::fs::OpenOptions;
use std::os::unix::fs::{FileExt, symlink};
use std::rt::Files;
use std::{fs, io, str};

/// Commits a host name.
pub(crate) const ALICE: &str =
    "configure private\nset system host-name a\nshow system\ncommit\nexit\nexit\n";

/// Commits a description, whatever alice does beside it.
const BOB: &str =
    "configure private\nset interfaces ge-0/0/0 description b\nshow interfaces\ncommit\nexit\nexit\n";

/// Commits another host name, and ends in configuration mode.
const CAROL: &str = "configure\nset system host-name c\ncommit\n";

/// Shows the host name.
const DAVE: &str = "show configuration system\n";

/// Makes the folder of the cases, with the files that their sessions read.
pub(crate) fn make_files<R: Files + AllocGlobal>(rt: &R) -> io::Result<()> {
    // What an earlier run left that was cut off.
    let _removed = fs::remove_dir_all(rt, "edge");
    fs::create_dir(rt, "edge")?;
    fs::create_dir(rt, "edge/hurt")?;
    fs::create_dir(rt, "edge/folder")?;
    fs::write(rt, "edge/alice", ALICE)?;
    fs::write(rt, "edge/bob", BOB)?;
    fs::write(rt, "edge/carol", CAROL)?;
    fs::write(rt, "edge/dave", DAVE)?;
    fs::write(rt, "edge/full", DAVE)?;
    symlink(rt, "/dev/full", "edge/full.out")
}

/// Removes the folder of the cases.
pub(crate) fn remove_files<R: Files + AllocGlobal>(rt: &R) -> io::Result<()> {
    fs::remove_dir_all(rt, "edge")
}

/// Says how many bytes a file has.
pub(crate) fn say_length<R: Files + Print + AllocGlobal>(rt: &R, path: &str) -> io::Result<()> {
    let length = fs::read(rt, path)?.len();
    println!(rt; "{path} has {length} bytes")
}

/// Says whether a file still has its text.
pub(crate) fn say_kept<R: Files + Print + AllocGlobal>(
    rt: &R,
    path: &str,
    text: &str,
) -> io::Result<()> {
    let kept = fs::read_to_string(rt, path)?.as_str() == text;
    println!(rt; "{path} is as it was: {kept}")
}

/// Says what text a file has.
pub(crate) fn say_text<R: Files + Print + AllocGlobal>(rt: &R, path: &str) -> io::Result<()> {
    let text = fs::read_to_string(rt, path)?;
    println!(rt; "{path} has:")?;
    print!(rt; "{text}")
}

/// Puts another byte at a place of a file.
pub(crate) fn put_byte<R: Files<File = fs::File>>(
    rt: &R,
    path: &str,
    place: u64,
    byte: u8,
) -> io::Result<()> {
    let file = OpenOptions::new().write(true).open(rt, path)?;
    file.write_all_at(&[byte], place)
}
