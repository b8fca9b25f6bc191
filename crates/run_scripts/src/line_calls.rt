//! Calls that read a line of a session. What stands after the mode and a blank is the line, blanks and all.

use crate::asking::{load_as, load_json_as, say_command};
use cfg_lex::is_plain;
use commands::{Command, Op};
use script_lines::{
    Arg, Fault, Text, bytes_of, first_and_rest, say, say_counted, say_flag, words_of,
};
use shell_words::{ReadFault, Words0, read_line};
use std::alloc::Global;

/// Whether the mode is configuration mode.
pub(crate) fn is_configuration(mode: &str) -> Result<bool, Fault> {
    match mode {
        "configuration" => Ok(true),
        "operational" => Ok(false),
        _ => Err(Fault::Script("a mode is operational or configuration")),
    }
}

/// What a line is read as.
fn say_read(alloc: Global, configuring: bool, line: &[u8], out: &mut Text) {
    match read_line(alloc, configuring, line) {
        Ok(None) => say(out, "nothing"),
        Ok(Some(Words0::Whole(command))) => say_command(out, &command),
        Ok(Some(Words0::Synchronize(command))) => {
            say(out, "synchronize");
            say_command(out, &command);
        }
        Ok(Some(Words0::ShowJson)) => say(out, "show active json"),
        Ok(Some(Words0::NeedsText(way))) => say(out, load_as(way)),
        Ok(Some(Words0::NeedsJson(way))) => say(out, load_json_as(way)),
        Err(ReadFault::Syntax(place)) => {
            say_counted(out, "syntax error at byte", u64::from(place));
        }
        Err(ReadFault::NoMemory) => out.lacks_memory(),
    }
}

/// read_line operational|configuration LINE
pub(crate) fn ask_line(alloc: Global, text: &str, out: &mut Text) -> Result<(), Fault> {
    let (mode, line) = first_and_rest(text);
    let configuring = is_configuration(mode)?;
    let line = bytes_of(alloc, line)?;
    say_read(alloc, configuring, &line, out);
    Ok(())
}

/// is_plain BYTES
pub(crate) fn ask_plain(args: &[Arg], out: &mut Text) -> Result<(), Fault> {
    match args {
        [bytes] => say_flag(out, is_plain(bytes)),
        _ => return Err(Fault::Script("is_plain BYTES")),
    }
    Ok(())
}

/// copy_set WORDS..
pub(crate) fn copy_set(alloc: Global, args: &[Arg], out: &mut Text) -> Result<(), Fault> {
    let command = Command::Change(Op::Set(words_of(alloc, args)?));
    match command.clone() {
        Ok(copy) => say_flag(out, copy == command),
        Err(_) => out.lacks_memory(),
    }
    say_flag(out, command == Command::CheckOnly);
    Ok(())
}
