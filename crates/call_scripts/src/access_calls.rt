//! Calls of what users may do, by the expansion of the script's tree.

use crate::group_calls::say_expand_fault;
use access_rules::{AccessFault, Right, Rights, Section, allows};
use cfg_base::{Bytes, Path, UserName, Words};
use cfg_tree::{Full, Tree};
use commands::{Command, Form};
use group_expand::expand;
use script_lines::{
    Arg, Fault, Text, bytes_of, first_and_rest, put_bytes, say, say_bytes, say_counted, user_of,
};
use shell_words::{ReadFault, Words0, read_line};
use std::alloc::Global;

/// The word of a right, where it is the user's.
fn put_right(out: &mut Text, rights: &Rights, right: Right) {
    if rights.has(right) {
        put_bytes(out, right.word());
    }
}

/// The words of a section's rights that are the user's.
fn put_section(out: &mut Text, rights: &Rights, section: Section) {
    put_right(out, rights, Right::See(section));
    put_right(out, rights, Right::Alter(section));
}

fn say_rights(out: &mut Text, rights: &Rights) {
    out.put("= rights");
    put_right(out, rights, Right::View);
    put_right(out, rights, Right::Configure);
    put_right(out, rights, Right::Clear);
    put_section(out, rights, Section::System);
    put_section(out, rights, Section::Interface);
    put_section(out, rights, Section::Routing);
    put_section(out, rights, Section::Firewall);
    out.put("\n");
}

fn say_rights_of(alloc: Global, full: &Full, user: &UserName, out: &mut Text) {
    match Rights::of(alloc, full, user) {
        Ok(rights) => say_rights(out, &rights),
        Err(_) => out.lacks_memory(),
    }
}

/// rights USER
pub(crate) fn ask_rights(
    alloc: Global,
    tree: &Tree,
    args: &[Arg],
    out: &mut Text,
) -> Result<(), Fault> {
    let [name] = args else {
        return Err(Fault::Script("rights USER"));
    };
    let user = user_of(alloc, name)?;
    match expand(alloc, tree) {
        Ok(full) => say_rights_of(alloc, &full, &user, out),
        Err(fault) => say_expand_fault(out, fault),
    }
    Ok(())
}

/// What a line asks of the machine; a load without its text.
fn command_of(asked: Words0, alloc: Global) -> Command {
    match asked {
        Words0::Whole(command) | Words0::Synchronize(command) => command,
        Words0::ShowJson => Command::ShowActive {
            words: Words::new(alloc),
            form: Form::Curly,
        },
        Words0::NeedsText(way) | Words0::NeedsJson(way) => Command::Load {
            way,
            text: Bytes::empty(alloc),
        },
    }
}

fn say_allowed(out: &mut Text, answer: Result<(), AccessFault>) {
    match answer {
        Ok(()) => say(out, "allowed"),
        Err(AccessFault::Denied(right)) => say_bytes(out, "denied", right.word()),
        Err(AccessFault::NoMemory) => out.lacks_memory(),
    }
}

/// Whether a command is allowed on the tree's expansion.
fn ask_command(
    alloc: Global,
    tree: &Tree,
    user: &UserName,
    level: &Path,
    command: &Command,
    out: &mut Text,
) {
    match expand(alloc, tree) {
        Ok(full) => say_allowed(out, allows(alloc, &full, user, level, command)),
        Err(fault) => say_expand_fault(out, fault),
    }
}

/// Whether the mode is configuration mode.
fn is_configuration(mode: &str) -> Result<bool, Fault> {
    match mode {
        "configuration" => Ok(true),
        "operational" => Ok(false),
        _ => Err(Fault::Script("a mode is operational or configuration")),
    }
}

/// allows USER operational|configuration LINE
pub(crate) fn ask_allows(
    alloc: Global,
    tree: &Tree,
    level: &Path,
    text: &str,
    out: &mut Text,
) -> Result<(), Fault> {
    let (name, rest) = first_and_rest(text);
    let (mode, line) = first_and_rest(rest);
    let user = user_of(alloc, name.as_bytes())?;
    let line = bytes_of(alloc, line)?;
    match read_line(alloc, is_configuration(mode)?, &line) {
        Ok(Some(asked)) => {
            let command = command_of(asked, alloc);
            ask_command(alloc, tree, &user, level, &command, out);
        }
        Ok(None) => say(out, "nothing"),
        Err(ReadFault::Syntax(place)) => {
            say_counted(out, "syntax error at byte", u64::from(place));
        }
        Err(ReadFault::NoMemory) => out.lacks_memory(),
    }
    Ok(())
}
