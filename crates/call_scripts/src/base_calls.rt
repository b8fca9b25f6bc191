//! Calls of words, paths, users and moments.

use cfg_base::{
    Bytes, Moment, NoMemory, Path, PathFault, Step, UserName, Users, Word, WordFault, Words,
};
use script_lines::{
    Arg, Fault, Text, halves, number, say, say_bytes, say_flag, say_number, user_of, words_of,
};
use std::alloc::Global;
use std::cmp::Ordering;

/// word BYTES
fn ask_word(alloc: Global, args: &[Arg], out: &mut Text) -> Result<(), Fault> {
    let [bytes] = args else {
        return Err(Fault::Script("word BYTES"));
    };
    match Word::of(alloc, bytes) {
        Ok(word) => say_bytes(out, "word", word.as_bytes()),
        Err(WordFault::LongWord) => say(out, "too long"),
        Err(WordFault::NoMemory) => out.lacks_memory(),
    }
    Ok(())
}

/// The steps of heads and names in turn.
pub(crate) fn steps_of(alloc: Global, args: &[Arg]) -> Result<Vec<Step>, Fault> {
    let mut steps = Vec::new(alloc);
    for step in args.chunks(2) {
        let [head, name] = step else {
            return Err(Fault::Script("a step is HEAD NAME"));
        };
        steps.push(Step {
            head: Word::of(alloc, head)?,
            name: Word::of(alloc, name)?,
        })?;
    }
    Ok(steps)
}

/// The path of these steps, or `None` where they are too many.
fn path_of(alloc: Global, steps: Vec<Step>) -> Result<Option<Path>, NoMemory> {
    let mut path = Path::top(alloc);
    for step in steps {
        match path.push(step) {
            Ok(longer) => path = longer,
            Err(PathFault::TooDeep) => return Ok(None),
            Err(PathFault::NoMemory) => return Err(NoMemory),
        }
    }
    Ok(Some(path))
}

fn say_steps(out: &mut Text, path: &Path) -> Result<(), Fault> {
    say_number(out, path.steps().len() as u64);
    say_flag(out, path.clone()? == *path);
    Ok(())
}

/// path HEAD NAME ..
fn ask_path(alloc: Global, args: &[Arg], out: &mut Text) -> Result<(), Fault> {
    match path_of(alloc, steps_of(alloc, args)?)? {
        Some(path) => say_steps(out, &path),
        None => {
            say(out, "too deep");
            Ok(())
        }
    }
}

fn say_order(out: &mut Text, order: Ordering) {
    match order {
        Ordering::Less => say(out, "less"),
        Ordering::Equal => say(out, "equal"),
        Ordering::Greater => say(out, "greater"),
    }
}

/// compare_words BYTES BYTES
fn compare_words(alloc: Global, args: &[Arg], out: &mut Text) -> Result<(), Fault> {
    let [left, right] = args else {
        return Err(Fault::Script("compare_words BYTES BYTES"));
    };
    let left = Word::of(alloc, left)?;
    say_order(out, left.cmp(&Word::of(alloc, right)?));
    Ok(())
}

fn path_named(alloc: Global, args: &[Arg]) -> Result<Path, Fault> {
    match path_of(alloc, steps_of(alloc, args)?)? {
        Some(path) => Ok(path),
        None => Err(Fault::Script("a path has at most 16 steps")),
    }
}

/// compare_paths HEAD NAME .. -- HEAD NAME ..
fn compare_paths(alloc: Global, args: &[Arg], out: &mut Text) -> Result<(), Fault> {
    let (left, right) = halves(args)?;
    let left = path_named(alloc, left)?;
    say_order(out, left.cmp(&path_named(alloc, right)?));
    Ok(())
}

/// copy_words WORDS..
fn copy_words(alloc: Global, args: &[Arg], out: &mut Text) -> Result<(), Fault> {
    let words = words_of(alloc, args)?;
    say_flag(out, words.clone()? == words);
    say_flag(out, words == Words::new(alloc));
    Ok(())
}

/// copy_bytes BYTES
fn copy_bytes(alloc: Global, args: &[Arg], out: &mut Text) -> Result<(), Fault> {
    let [bytes] = args else {
        return Err(Fault::Script("copy_bytes BYTES"));
    };
    let bytes = Bytes::from(Vec::from_slice(alloc, bytes)?);
    say_flag(out, bytes.clone()? == bytes);
    say_flag(out, bytes == Bytes::empty(alloc));
    Ok(())
}

/// user_name BYTES
fn ask_user_name(alloc: Global, args: &[Arg], out: &mut Text) -> Result<(), Fault> {
    let [bytes] = args else {
        return Err(Fault::Script("user_name BYTES"));
    };
    say_flag(out, UserName::of(Word::of(alloc, bytes)?).is_some());
    Ok(())
}

fn users_of(alloc: Global, names: &[Arg]) -> Result<Users, Fault> {
    let mut users = Users::new(alloc);
    for name in names {
        users.push(user_of(alloc, name)?)?;
    }
    Ok(users)
}

/// users NAME ..
fn ask_users(alloc: Global, args: &[Arg], out: &mut Text) -> Result<(), Fault> {
    let users = users_of(alloc, args)?;
    say_number(out, users.as_slice().len() as u64);
    for user in users.as_slice() {
        say_bytes(out, "user", user.as_word().as_bytes());
    }
    Ok(())
}

/// moment SECONDS
fn ask_moment(args: &[Arg], out: &mut Text) -> Result<(), Fault> {
    let [seconds] = args else {
        return Err(Fault::Script("moment SECONDS"));
    };
    say_number(out, Moment::of(number(seconds)?).seconds());
    Ok(())
}

/// later SECONDS SECONDS
fn ask_later(args: &[Arg], out: &mut Text) -> Result<(), Fault> {
    let [left, right] = args else {
        return Err(Fault::Script("later SECONDS SECONDS"));
    };
    let left = Moment::of(number(left)?);
    say_number(out, left.later(Moment::of(number(right)?)).seconds());
    Ok(())
}

/// Answers one of these calls, where it is one.
pub(crate) fn ask(
    alloc: Global,
    call: &str,
    args: &[Arg],
    out: &mut Text,
) -> Option<Result<(), Fault>> {
    Some(match call {
        "word" => ask_word(alloc, args, out),
        "path" => ask_path(alloc, args, out),
        "compare_words" => compare_words(alloc, args, out),
        "compare_paths" => compare_paths(alloc, args, out),
        "copy_words" => copy_words(alloc, args, out),
        "copy_bytes" => copy_bytes(alloc, args, out),
        "user_name" => ask_user_name(alloc, args, out),
        "users" => ask_users(alloc, args, out),
        "moment" => ask_moment(args, out),
        "later" => ask_later(args, out),
        _ => return None,
    })
}
