//! The note before an inherited statement.

ghost use Rattle.std.specs.Prelude.{◌≡◌, ◌++◌, codes, OnOk};
ghost use Rattle.curly_print.specs.Inherited.{note_edge, note_line, note_lines, note_of, noted_word};

use crate::line::{push_bytes, push_spaces};
use cfg_base::{NoMemory, Step, Word};

fn push_edge(text: &mut Vec<u8>, indent: usize) -> Result<(), NoMemory>
    ensures { OnOk result (text.new.items ≡ text.old.items ++ note_edge indent) }
{
    push_spaces(text, indent)?;
    push_bytes(text, b"##\n".as_slice())
}

/// The name of a step, or its head where it has no name.
fn noted_word(step: &Step) -> &Word
    ensures { result.now ≡ noted_word step.now }
{
    if step.name.as_bytes().is_empty() {
        &step.head
    } else {
        &step.name
    }
}

fn push_origin(text: &mut Vec<u8>, group: &Word) -> Result<(), NoMemory>
    ensures { OnOk result (text.new.items
        ≡ text.old.items ++ (codes "' was inherited from group '" ++ (group.now ++ codes "'\n"))) }
{
    push_bytes(text, b"' was inherited from group '".as_slice())?;
    push_bytes(text, group.as_bytes())?;
    push_bytes(text, b"'\n".as_slice())
}

fn push_line(text: &mut Vec<u8>, indent: usize, word: &Word, group: &Word) -> Result<(), NoMemory>
    ensures { OnOk result (text.new.items ≡ text.old.items ++ note_line indent word.now group.now) }
{
    push_spaces(text, indent)?;
    push_bytes(text, b"## '".as_slice())?;
    push_bytes(text, word.as_bytes())?;
    push_origin(text, group)
}

fn push_lines(text: &mut Vec<u8>, indent: usize, step: &Step, group: &Word) -> Result<(), NoMemory>
    ensures { OnOk result (text.new.items ≡ text.old.items ++ note_lines indent (noted_word step.now) group.now) }
{
    push_edge(text, indent)?;
    push_line(text, indent, noted_word(step), group)?;
    push_edge(text, indent)
}

/// Puts the note of a statement at the end of a text, where it comes from a group.
#[tactic(auto, using(crate::proofs::InheritedLemmas::noted))]
pub(crate) fn push_note(
    text: &mut Vec<u8>,
    indent: usize,
    step: &Step,
    group: &Word,
) -> Result<(), NoMemory>
    ensures { OnOk result (text.new.items ≡ text.old.items ++ note_of indent step.now group.now) }
{
    if group.as_bytes().is_empty() {
        Ok(())
    } else {
        push_lines(text, indent, step, group)
    }
}
