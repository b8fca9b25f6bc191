//! The words of the program's command line.

use cfg_base::UserName;
use command_line::{Asked, RunMode, Usage, read_words};
use script_lines::{Arg, Fault, Text, put_bytes, put_words, say, words_of};
use std::alloc::Global;

fn name_of(mode: RunMode) -> &'static str {
    match mode {
        RunMode::Init => "init",
        RunMode::Serve => "serve",
        RunMode::Check => "check",
        RunMode::Gen => "gen",
    }
}

fn put_users(out: &mut Text, users: &[UserName]) {
    for user in users {
        put_bytes(out, user.as_word().as_bytes());
    }
}

fn say_asked(out: &mut Text, asked: &Asked) {
    out.put("= ");
    out.put(name_of(asked.mode));
    put_bytes(out, asked.place.as_bytes());
    out.put(" users [");
    put_users(out, asked.users.as_slice());
    out.put(" ] files [");
    put_words(out, asked.files.as_slice());
    out.put(" ] input ");
    out.put_number(asked.limits.input);
    out.put(" journal ");
    out.put_number(asked.limits.journal);
    if asked.access {
        out.put(" access");
    }
    out.put("\n");
}

/// read_words WORDS..: what they ask
pub(crate) fn ask_words(alloc: Global, args: &[Arg], out: &mut Text) -> Result<(), Fault> {
    match read_words(alloc, &words_of(alloc, args)?) {
        Ok(asked) => say_asked(out, &asked),
        Err(Usage::Refused) => say(out, "refused"),
        Err(Usage::NoMemory) => out.lacks_memory(),
    }
    Ok(())
}
