//! The parts of a statement's line.

ghost use Rattle.std.specs.Prelude.{◌≡◌, [], ◌∷◌, ◌++◌, OnOk, if◌then◌else◌};
ghost use Rattle.cfg_tree.specs.OwnWords.{own_words, word_if_any};
ghost use Rattle.curly_print.specs.Printed.{line_of, mark_text, marks_of, spaces, value_text, words_line};
ghost use Rattle.curly_print.specs.Printing.{blank_words};
ghost use Rattle.curly_print.specs.Inherited.{unmarked_line};

use cfg_base::{NoMemory, Step, Value, WordList};
use cfg_lex::{Mark, push_word};

/// Puts bytes at the end of a text.
pub(crate) fn push_bytes(text: &mut Vec<u8>, bytes: &[u8]) -> Result<(), NoMemory>
    ensures { OnOk result (text.new.items ≡ text.old.items ++ bytes.now) }
{
    match text.extend_from_slice(bytes) {
        Ok(()) => Ok(()),
        Err(_) => Err(NoMemory),
    }
}

/// Puts so many spaces at the end of a text.
pub(crate) fn push_spaces(text: &mut Vec<u8>, count: usize) -> Result<(), NoMemory>
    ensures { OnOk result (text.new.items ≡ text.old.items ++ spaces count) }
{
    for _ in 0..count {
        text.push(b' ')?;
    }
    Ok(())
}

/// Puts a mark at the end of a text, with a blank after it, where it is set.
fn push_mark(text: &mut Vec<u8>, there: bool, mark: Mark) -> Result<(), NoMemory>
    ensures { OnOk result (text.new.items ≡ text.old.items ++ (if there then mark_text mark else [])) }
{
    if there {
        push_bytes(text, mark.word())?;
        push_bytes(text, b" ".as_slice())
    } else {
        Ok(())
    }
}

fn push_marks(text: &mut Vec<u8>, value: &Value) -> Result<(), NoMemory>
    ensures { OnOk result (text.new.items ≡ text.old.items ++ marks_of value.now) }
{
    push_mark(text, value.inactive, Mark::Inactive)?;
    push_mark(text, value.protected, Mark::Protect)
}

fn push_if_any(text: &mut Vec<u8>, word: &[u8]) -> Result<(), NoMemory>
    ensures { OnOk result (text.new.items ≡ text.old.items ++ words_line (word_if_any word.now)) }
{
    if word.is_empty() {
        Ok(())
    } else {
        push_word(text, word)
    }
}

fn push_behind(text: &mut Vec<u8>, word: &[u8]) -> Result<(), NoMemory>
    ensures { OnOk result (text.new.items ≡ text.old.items ++ blank_words (word_if_any word.now)) }
{
    if word.is_empty() {
        return Ok(());
    }
    text.push(b' ')?;
    push_word(text, word)
}

/// Puts the head and the name of a step at the end of a text, those that aren't empty.
#[tactic(auto, using(crate::proofs::PrintingLemmas::headed_line))]
fn push_step(text: &mut Vec<u8>, step: &Step) -> Result<(), NoMemory>
    ensures { OnOk result (text.new.items ≡ text.old.items ++ words_line (own_words (step.now ∷ []))) }
{
    let head = step.head.as_bytes();
    let name = step.name.as_bytes();
    if head.is_empty() {
        return push_if_any(text, name);
    }
    push_word(text, head)?;
    push_behind(text, name)
}

fn push_blank_words(text: &mut Vec<u8>, words: &WordList) -> Result<(), NoMemory>
    ensures { OnOk result (text.new.items ≡ text.old.items ++ blank_words words.now) }
{
    let mut left = words.iter();
    while let Some(word) = left.next() {
        text.push(b' ')?;
        push_word(text, word.as_bytes())?;
    }
    Ok(())
}

/// Puts the words of a value at the end of a text: more than one in brackets.
fn push_words(text: &mut Vec<u8>, words: &WordList) -> Result<(), NoMemory>
    ensures { OnOk result (text.new.items ≡ text.old.items ++ value_text words.now) }
{
    if words.len() < 2 {
        return push_blank_words(text, words);
    }
    push_bytes(text, b" [".as_slice())?;
    push_blank_words(text, words)?;
    push_bytes(text, b" ]".as_slice())
}

/// Puts a statement's step and its words at the end of a text.
pub(crate) fn push_unmarked_line(
    text: &mut Vec<u8>,
    step: &Step,
    words: &WordList,
) -> Result<(), NoMemory>
    ensures { OnOk result (text.new.items ≡ text.old.items ++ unmarked_line step.now words.now) }
{
    push_step(text, step)?;
    push_words(text, words)
}

/// Puts a statement's marks, its step and its words at the end of a text.
pub(crate) fn push_line(text: &mut Vec<u8>, step: &Step, value: &Value) -> Result<(), NoMemory>
    ensures { OnOk result (text.new.items ≡ text.old.items ++ line_of step.now value.now) }
{
    push_marks(text, value)?;
    push_unmarked_line(text, step, &value.words)
}
