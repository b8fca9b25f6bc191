//! Which statement words name.

ghost use Rattle.std.specs.Prelude.{◌≡◌, ◌<◌, ◌++◌, ◌∷◌, [], length, IfOk, Some};
ghost use Rattle.cfg_base.specs.declared.path.TheConstants.{MAX_STEPS};
ghost use Rattle.cfg_schema.specs.Place.{place_of};
ghost use Rattle.cfg_tree.specs.Typed.{IsLevelPath};
ghost use Rattle.cfg_tree.specs.Tree.{step_of};
ghost use Rattle.cfg_resolve.specs.Resolve.{first_of, IsNamedLevel, IsLeafWord, AreManyWords, IsStatementOf, SpelledAll, IsBadName, IsBegun, IsFront, IsReadingOf, ResolvesTo, IsTargetBelow, fault_of, NamedBy, SpelledBy};

use crate::front::{Front, Why};
use crate::target::{Target, WordsFault};
use cfg_base::{Kind, NoMemory, Path, Shape, Step, Word, Words};
use cfg_schema::{Child, Place, Row, RowId, child, row};
use cfg_tree::is_open_kind;
use cfg_values::{ValueFault, is_pattern, read_value};
use std::alloc::Global;

// The word of bytes that are part of a word.
fn copied(alloc: Global, bytes: &[u8]) -> Result<Word, NoMemory>
    ensures { IfOk result (λ word. word ≡ bytes.now) }
{
    match Word::of(alloc, bytes) {
        Ok(word) => Ok(word),
        Err(_) => Err(NoMemory),
    }
}

fn spelling_of(alloc: Global, kind: Kind, bytes: &[u8]) -> Result<Option<Word>, NoMemory>
    ensures { IfOk result (λ word. SpelledBy kind bytes.now word) }
{
    match read_value(alloc, kind, bytes) {
        Ok(word) => Ok(Some(word)),
        Err(ValueFault::NotOfKind(_)) => Ok(None),
        Err(ValueFault::NoMemory) => Err(NoMemory),
    }
}

fn name_of(
    alloc: Global,
    in_group: bool,
    kind: Kind,
    bytes: &[u8],
) -> Result<Option<Word>, NoMemory>
    ensures { IfOk result (λ word. NamedBy in_group kind bytes.now word) }
{
    if in_group && is_open_kind(kind) && is_pattern(bytes) {
        return Ok(Some(copied(alloc, bytes)?));
    }
    spelling_of(alloc, kind, bytes)
}

fn first(words: &[Word]) -> &[u8]
    ensures { result.now ≡ first_of words.now }
{
    match words {
        [word, ..] => word.as_bytes(),
        [] => b"",
    }
}

fn step(alloc: Global, head: &[u8], name: &[u8]) -> Result<Step, NoMemory>
    ensures { IfOk result (λ step. step ≡ step_of head.now name.now) }
{
    Ok(Step {
        head: copied(alloc, head)?,
        name: copied(alloc, name)?,
    })
}

fn named_level(
    alloc: Global,
    here: &Place,
    row: &Row,
    head: &[u8],
    bytes: &[u8],
    used: usize,
) -> Result<Front, NoMemory>
    ensures { IfOk result (λ front. IsNamedLevel here.now row.now.id row.now.name_kind head.now bytes.now used front) }
{
    match name_of(alloc, here.in_group, row.name_kind, bytes)? {
        Some(name) => {
            let head = copied(alloc, head)?;
            Ok(Front::Level(Step { head, name }, here.entered(row.id), used))
        }
        None => Ok(Front::Refused(Why::BadValue, step(alloc, head, bytes)?)),
    }
}

fn one_word(alloc: Global, word: Word) -> Result<Words, NoMemory>
    ensures { IfOk result (λ words. words ≡ word ∷ []) }
{
    let mut words = Words::new(alloc);
    words.push(word)?;
    Ok(words)
}

fn leaf(
    alloc: Global,
    kind: Kind,
    step: Step,
    bytes: &[u8],
    count: usize,
) -> Result<Front, NoMemory>
    ensures { IfOk result (λ front. IsLeafWord kind step bytes.now count front) }
{
    match spelling_of(alloc, kind, bytes)? {
        None => Ok(Front::Refused(Why::BadValue, step)),
        Some(word) => {
            if count == 1 {
                Ok(Front::Statement(step, one_word(alloc, word)?))
            } else {
                Ok(Front::Refused(Why::Extra, step))
            }
        }
    }
}

fn spellings_of(alloc: Global, kind: Kind, words: &[Word]) -> Result<Option<Words>, NoMemory>
    ensures { IfOk result (λ spelled. SpelledAll kind words.now spelled) }
{
    let mut spelled = Words::new(alloc);
    for word in words {
        match spelling_of(alloc, kind, word.as_bytes())? {
            Some(word) => spelled.push(word)?,
            None => return Ok(None),
        }
    }
    Ok(Some(spelled))
}

fn many(alloc: Global, kind: Kind, step: Step, words: &[Word]) -> Result<Front, NoMemory>
    ensures { IfOk result (λ front. AreManyWords kind step words.now front) }
{
    match spellings_of(alloc, kind, words)? {
        Some(spelled) => Ok(Front::Statement(step, spelled)),
        None => Ok(Front::Refused(Why::BadValue, step)),
    }
}

fn statement(
    alloc: Global,
    here: &Place,
    row: &Row,
    word: &[u8],
    rest: &[Word],
) -> Result<Front, NoMemory>
    ensures { IfOk result (λ front. IsStatementOf here.now row.now word.now rest.now front) }
{
    match row.shape {
        Shape::Container => Ok(Front::Level(step(alloc, word, b"")?, here.entered(row.id), 1)),
        Shape::Fixed => Ok(Front::Level(step(alloc, word, first(rest))?, here.entered(row.id), 2)),
        Shape::Bare => named_level(alloc, here, row, b"", word, 1),
        Shape::Keyed => {
            if rest.is_empty() {
                return Ok(Front::Refused(Why::Incomplete, step(alloc, word, b"")?));
            }
            named_level(alloc, here, row, word, first(rest), 2)
        }
        Shape::Flag => {
            let step = step(alloc, word, b"")?;
            if rest.is_empty() {
                return Ok(Front::Statement(step, Words::new(alloc)));
            }
            Ok(Front::Refused(Why::Extra, step))
        }
        Shape::Leaf => {
            let step = step(alloc, word, b"")?;
            if rest.is_empty() {
                return Ok(Front::Statement(step, Words::new(alloc)));
            }
            leaf(alloc, row.value_kind, step, first(rest), rest.len())
        }
        Shape::Many => many(alloc, row.value_kind, step(alloc, word, b"")?, rest),
    }
}

fn bad_name(alloc: Global, word: &[u8], rest: &[Word]) -> Result<Front, NoMemory>
    ensures { IfOk result (λ front. IsBadName word.now rest.now front) }
{
    if rest.is_empty() {
        Ok(Front::Refused(Why::Incomplete, step(alloc, word, b"")?))
    } else {
        Ok(Front::Refused(Why::BadValue, step(alloc, word, first(rest))?))
    }
}

fn begun(
    alloc: Global,
    here: &Place,
    begun: Child,
    word: &[u8],
    rest: &[Word],
) -> Result<Front, NoMemory>
    ensures { IfOk result (λ front. IsBegun here.now begun word.now rest.now front) }
{
    match begun {
        Child::Unknown => Ok(Front::Refused(Why::Unknown, step(alloc, word, b"")?)),
        Child::BadName(_) => bad_name(alloc, word, rest),
        Child::Row(id) => statement(alloc, here, &row(id), word, rest),
    }
}

fn front(alloc: Global, here: &Place, words: &[Word]) -> Result<Front, NoMemory>
    requires { 0 < length words.now }
    ensures { IfOk result (λ front. IsFront here.now words.now front) }
{
    let word = first(words);
    let (_, rest) = words.split_at(1);
    let child = child(here.row, here.in_group, word, first(rest));
    begun(alloc, here, child, word, rest)
}

fn fault_of(why: Why, path: Path) -> WordsFault
    ensures { result ≡ fault_of why path }
{
    match why {
        Why::Unknown => WordsFault::Unknown(path),
        Why::BadValue => WordsFault::BadValue(path),
        Why::Incomplete => WordsFault::Incomplete(path),
        Why::Extra => WordsFault::Extra(path),
    }
}

fn longer(path: &Path, step: Step) -> Result<Path, NoMemory>
    requires { length path.now < MAX_STEPS }
    ensures { IfOk result (λ longer. longer ≡ path.now ++ step ∷ []) }
{
    match path.push(step) {
        Ok(longer) => Ok(longer),
        Err(_) => Err(NoMemory),
    }
}

fn read_on(alloc: Global, path: Path, here: Place, words: &[Word]) -> Result<Target, WordsFault>
    requires { place_of path ≡ Some here }
    ensures { IsReadingOf path here words.now result }
{
    if words.is_empty() {
        return Err(WordsFault::Incomplete(path));
    }
    match front(alloc, &here, words)? {
        Front::Refused(why, step) => Err(fault_of(why, longer(&path, step)?)),
        Front::Statement(step, values) => Ok(Target {
            path: longer(&path, step)?,
            words: values,
        }),
        Front::Level(step, next, used) => {
            let path = longer(&path, step)?;
            if words.len() <= used {
                return Ok(Target {
                    path,
                    words: Words::new(alloc),
                });
            }
            let (_, rest) = words.split_at(used);
            read_on(alloc, path, next, rest)
        }
    }
}

/// The statement that words name below a level, read from the left.
pub fn resolve(alloc: Global, level: &Path, words: &Words) -> Result<Target, WordsFault>
    requires { IsLevelPath level.now }
    ensures says { ResolvesTo level.now words.now result }
    ensures target { IfOk result (λ found. IsTargetBelow level.now found) }
{
    match Place::of(level.steps()) {
        Some(here) => read_on(alloc, level.clone()?, here, words.as_slice()),
        None => Err(WordsFault::Unknown(level.clone()?)),
    }
}
