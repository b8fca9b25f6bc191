//! The lines of a text, and what they ask for.

ghost use Rattle.std.specs.Prelude.{◌≡◌, ◌<◌, ◌≤◌, ◌∷◌, length, IfOk, IfErr};
ghost use Rattle.std.specs.List.{prefix_len};
ghost use Rattle.cfg_base.specs.Bytes.{without_last_cr};
ghost use Rattle.cfg_lex.specs.Bytes.{is_in_line};
ghost use Rattle.set_text.specs.Lines.{lines_in, AsksFor, IsLineFault};

use crate::fault::LineFault;
use crate::op_lines::{OpLine, OpLines};
use crate::reading::read_line;
use crate::stop::Stop;
use std::alloc::Global;

/// A line without the CR right before its LF.
fn without_last_cr(line: &[u8]) -> &[u8]
    ensures { result.now ≡ without_last_cr line.now }
{
    match line {
        [front @ .., b'\r'] => front,
        _ => line,
    }
}

/// How many bytes stand before the first LF.
fn line_len(text: &[u8]) -> usize
    ensures length { result ≡ prefix_len is_in_line text.now }
    ensures within { result ≤ length text.now }
{
    text.iter().take_while(|byte| **byte != b'\n').count()
}

/// The first line of a text that has a byte, and what is left after it.
fn first_line(text: &[u8]) -> (&[u8], &[u8])
    requires { 0 < length text.now }
    ensures first { lines_in text.now ≡ result.0.now ∷ lines_in result.1.now }
    ensures shorter { length result.1.now < length text.now }
{
    let count = line_len(text);
    if count == text.len() {
        (text, &[])
    } else {
        (without_last_cr(&text[..count]), &text[count + 1..])
    }
}

/// The changes that a text asks for, one for each line that isn't skipped; or its first line of no form.
pub fn parse_lines(alloc: Global, text: &[u8]) -> Result<OpLines, LineFault>
    ensures ok { IfOk result (λ changes. AsksFor text.now changes) }
    ensures err { IfErr result (λ fault. IsLineFault text.now fault) }
{
    let mut changes = Vec::new(alloc);
    let mut number = 0u32;
    let mut rest = text;
    while !rest.is_empty() {
        let (line, behind) = first_line(rest);
        number = number.saturating_add(1);
        match read_line(alloc, line) {
            Ok(None) => {}
            Ok(Some(op)) => changes.push(OpLine { line: number, op })?,
            Err(Stop::At(place)) => return Err(LineFault::Line {
                line: number,
                place,
            }),
            Err(Stop::NoMemory) => return Err(LineFault::NoMemory),
        }
        rest = behind;
    }
    Ok(OpLines::of(changes))
}
