//! Where two configurations differ.

ghost use Rattle.std.specs.Prelude.{◌≡◌, [], ◌∷◌, true, drop, length, MatchOption, IfOk, IfSome};
ghost use Rattle.std.specs.Option.{option_map};
ghost use Rattle.cfg_base.specs.declared.path.Step.{Step};
ghost use Rattle.cfg_base.specs.declared.value.Value as value;
ghost use Rattle.kept_expansion.specs.Changes.{DiffersOnlyAt};
ghost use Rattle.kept_expansion.specs.Differences.{AreApartBy, BeginAlike};

use cfg_base::{NoMemory, Path, Value};
use cfg_entries::Same;
use cfg_tree::{Tree, Walk};
use std::alloc::Global;
use std::cmp::Ordering;
use std::marker::Model;

/// At how many paths two configurations may differ that are told apart: with more of them all is expanded anew.
const MOST: usize = 8;

/// The statements that are left of a walk, of which the next one can be looked at.
#[derive(Debug, Drop)]
struct Left<'a> {
    first: Option<(&'a Path, &'a Value)>,
    rest: Walk<'a>,
}

impl<'a> Model for Left<'a> {
    ghost use Rattle.std.specs.Prelude.{List};
    ghost use Rattle.std.specs.Option.{option_map};
    ghost use Rattle.cfg_base.specs.declared.path.Step.{Step};
    ghost use Rattle.cfg_base.specs.declared.value.Value as value;
    ghost use Rattle.kept_expansion.specs.Differences.{left_of};

    ghost Value = { List (List Step × value.Value) };

    ghost view = { λ l. left_of (option_map (λ e. (e.0.now, e.1.now)) l.first) l.rest };
}

impl<'a> Left<'a> {
    fn of(walk: Walk<'a>) -> Left<'a>
        ensures { result ≡ walk.entry }
    {
        let mut rest = walk;
        let first = rest.next();
        Left { first, rest }
    }

    fn first(&self) -> Option<(&'a Path, &'a Value)>
        ensures { MatchOption result (self.now ≡ []) (λ e. self.now ≡ (e.0.now, e.1.now) ∷ drop 1 self.now) }
    {
        self.first
    }

    fn pass(&mut self)
        ensures { self.new ≡ drop 1 self.old }
    {
        if self.first.is_some() {
            self.first = self.rest.next();
        }
    }
}

/// Whether the same statement is left first.
fn begin_alike(old: &Left<'_>, new: &Left<'_>) -> bool
    ensures { result ≡ true → BeginAlike old.now new.now }
{
    match (old.first(), new.first()) {
        (Some((path, value)), Some((at, found))) => path == at && value.is_same(found),
        _ => false,
    }
}

/// The lesser of the first paths that are left, which is passed.
fn pass_first<'a>(old: &mut Left<'a>, new: &mut Left<'a>) -> Option<&'a Path>
    ensures { AreApartBy old.old new.old old.new new.new (option_map (λ path. path.now) result) }
{
    match (old.first(), new.first()) {
        (None, None) => None,
        (Some((path, _)), None) => {
            old.pass();
            Some(path)
        }
        (None, Some((path, _))) => {
            new.pass();
            Some(path)
        }
        (Some((path, _)), Some((at, _))) => match path.cmp(at) {
            Ordering::Less => {
                old.pass();
                Some(path)
            }
            Ordering::Equal => {
                old.pass();
                new.pass();
                Some(path)
            }
            Ordering::Greater => {
                new.pass();
                Some(at)
            }
        },
    }
}

/// The next path at which two configurations differ.
fn next_apart<'a>(old: &mut Left<'a>, new: &mut Left<'a>) -> Option<&'a Path>
    ensures { AreApartBy old.old new.old old.new new.new (option_map (λ path. path.now) result) }
{
    while begin_alike(old, new) {
        old.pass();
        new.pass();
    }
    pass_first(old, new)
}

/// The paths at which two configurations differ, unless they are many.
pub fn differing<'a>(
    alloc: Global,
    old: &'a Tree,
    new: &'a Tree,
) -> Result<Option<Vec<Path>>, NoMemory>
    ensures { IfOk result (λ paths. IfSome paths (λ paths. DiffersOnlyAt old.now new.now paths.items)) }
{
    let mut paths = Vec::new(alloc);
    let mut before = Left::of(old.walk());
    let mut after = Left::of(new.walk());
    while let Some(path) = next_apart(&mut before, &mut after) {
        if paths.len() >= MOST {
            return Ok(None);
        }
        paths.push(path.clone()?)?;
    }
    Ok(Some(paths))
}
