//! Levels, by the words that name them from the top.

ghost use Rattle.std.specs.Prelude.{◌≡◌, [], IfOk, IsTrue, Some, true};
ghost use Rattle.cfg_schema.specs.declared.place.Place.{Place};
ghost use Rattle.cfg_schema.specs.Place.{place_of};
ghost use Rattle.cfg_schema.specs.Profile.{is_level, row_of};
ghost use Rattle.cfg_tree.specs.Typed.{IsLevelPath};
ghost use Rattle.cfg_resolve.specs.Resolve.{IsTargetBelow};

use cfg_base::{Path, Shape, Words};
use cfg_resolve::{Target, WordsFault, resolve};
use cfg_schema::{Place, row};
use script_lines::{Arg, Fault, Text, halves, say_path, say_words, words_of};
use std::alloc::Global;

/// The statement that words name from the top, which is a level.
pub(crate) fn resolved(alloc: Global, words: &Words) -> Result<Target, WordsFault>
    ensures { IfOk result (λ found. IsTargetBelow [] found) }
{
    resolve(alloc, &Path::top(alloc), words)
}

fn is_level(path: &Path) -> bool
    ensures { IsTrue result → (here : Place) → place_of path.now ≡ Some here → is_level (row_of here.row).shape ≡ true }
{
    match Place::of(path.steps()) {
        Some(here) => match row(here.row).shape {
            Shape::Container | Shape::Fixed | Shape::Keyed | Shape::Bare => true,
            Shape::Leaf | Shape::Flag | Shape::Many => false,
        },
        None => false,
    }
}

/// The level that words name from the top.
pub(crate) fn level_of(alloc: Global, args: &[Arg]) -> Result<Path, Fault>
    ensures { IfOk result IsLevelPath }
{
    if args.is_empty() {
        return Ok(Path::top(alloc));
    }
    let words = words_of(alloc, args)?;
    let Ok(target) = resolved(alloc, &words) else {
        return Err(Fault::Script("the words of a level name one"));
    };
    if is_level(&target.path) {
        Ok(target.path)
    } else {
        Err(Fault::Script("the words of a level name one"))
    }
}

fn say_target(out: &mut Text, target: &Target) {
    say_path(out, "statement", &target.path);
    say_words(out, "words", target.words.as_slice());
}

fn say_resolved(out: &mut Text, resolved: Result<Target, WordsFault>) {
    match resolved {
        Ok(target) => say_target(out, &target),
        Err(WordsFault::Unknown(path)) => say_path(out, "unknown", &path),
        Err(WordsFault::BadValue(path)) => say_path(out, "bad value", &path),
        Err(WordsFault::Incomplete(path)) => say_path(out, "incomplete", &path),
        Err(WordsFault::Extra(path)) => say_path(out, "extra", &path),
        Err(WordsFault::NoMemory) => out.lacks_memory(),
    }
}

/// resolve LEVEL.. -- WORDS..
pub(crate) fn ask_resolve(alloc: Global, args: &[Arg], out: &mut Text) -> Result<(), Fault> {
    let (level, words) = halves(args)?;
    let level = level_of(alloc, level)?;
    let words = words_of(alloc, words)?;
    say_resolved(out, resolve(alloc, &level, &words));
    Ok(())
}
