//! The lines of one statement.

ghost use Rattle.std.specs.Prelude.{◌≡◌, ◌++◌, ◌∷◌, [], OnOk};
ghost use Rattle.std.specs.List.{flat_map};
ghost use Rattle.cfg_tree.specs.OwnWords.{own_words, word_if_any, words_of_step};
ghost use Rattle.commands.specs.declared.verb.Verb.TheVariants as verb;
ghost use Rattle.set_text.specs.Printed.{line, own_line_if, printed_line, printed_lines, sets_by, spaced, word_lines};

use crate::trail::Trail;
use cfg_base::{NoMemory, Shape, Step, Word, WordList};
use cfg_lex::push_word;
use commands::Verb;

pub(crate) fn push_bytes(text: &mut Vec<u8>, bytes: &[u8]) -> Result<(), NoMemory>
    ensures { OnOk result (text.new.items ≡ text.old.items ++ bytes.now) }
{
    match text.extend_from_slice(bytes) {
        Ok(()) => Ok(()),
        Err(_) => Err(NoMemory),
    }
}

/// Puts a space and a word at the end of a text.
fn push_spaced(text: &mut Vec<u8>, word: &Word) -> Result<(), NoMemory>
    ensures { OnOk result (text.new.items ≡ text.old.items ++ spaced word.now) }
{
    text.push(b' ')?;
    push_word(text, word.as_bytes())
}

fn push_if_any(text: &mut Vec<u8>, word: &Word) -> Result<(), NoMemory>
    ensures { OnOk result (text.new.items ≡ text.old.items ++ flat_map spaced (word_if_any word.now)) }
{
    if word.as_bytes().is_empty() {
        return Ok(());
    }
    push_spaced(text, word)
}

pub(crate) fn push_step(text: &mut Vec<u8>, step: &Step) -> Result<(), NoMemory>
    ensures { OnOk result (text.new.items ≡ text.old.items ++ flat_map spaced (words_of_step step.now)) }
{
    push_if_any(text, &step.head)?;
    push_if_any(text, &step.name)
}

/// Puts the line of a path's own words at the end of a text.
fn push_own_line(text: &mut Vec<u8>, verb: Verb, at: &Trail<'_>) -> Result<(), NoMemory>
    ensures { OnOk result (text.new.items ≡ text.old.items ++ printed_line (line verb (own_words at.now))) }
{
    push_bytes(text, verb.keyword())?;
    push_bytes(text, at.words())?;
    text.push(b'\n')?;
    Ok(())
}

/// Puts the line of a path's own words and one more at the end of a text.
fn push_word_line(text: &mut Vec<u8>, at: &Trail<'_>, word: &Word) -> Result<(), NoMemory>
    ensures { OnOk result (text.new.items ≡ text.old.items ++ printed_line (line verb.Set (own_words at.now ++ word.now ∷ []))) }
{
    push_bytes(text, Verb::Set.keyword())?;
    push_bytes(text, at.words())?;
    push_spaced(text, word)?;
    text.push(b'\n')?;
    Ok(())
}

fn push_word_lines(text: &mut Vec<u8>, at: &Trail<'_>, words: &WordList) -> Result<(), NoMemory>
    ensures { OnOk result (text.new.items ≡ text.old.items ++ printed_lines (word_lines at.now words.now)) }
{
    let mut left = words.iter();
    while let Some(word) = left.next() {
        push_word_line(text, at, word)?;
    }
    Ok(())
}

/// Puts the line of a path's own words at the end of a text, where that is so.
pub(crate) fn push_own_line_if(
    text: &mut Vec<u8>,
    verb: Verb,
    at: &Trail<'_>,
    is_so: bool,
) -> Result<(), NoMemory>
    ensures { OnOk result (text.new.items ≡ text.old.items ++ printed_lines (own_line_if verb at.now is_so)) }
{
    if is_so {
        push_own_line(text, verb, at)
    } else {
        Ok(())
    }
}

/// Puts the `set` lines of a statement of that shape at the end of a text.
pub(crate) fn push_sets(
    text: &mut Vec<u8>,
    shape: Shape,
    at: &Trail<'_>,
    childless: bool,
    words: &WordList,
) -> Result<(), NoMemory>
    ensures { OnOk result (text.new.items ≡ text.old.items ++ printed_lines (sets_by shape at.now childless words.now)) }
{
    match shape {
        Shape::Leaf | Shape::Many => push_word_lines(text, at, words),
        Shape::Flag => push_own_line_if(text, Verb::Set, at, true),
        Shape::Container | Shape::Fixed | Shape::Keyed | Shape::Bare => {
            push_own_line_if(text, Verb::Set, at, childless)
        }
    }
}
