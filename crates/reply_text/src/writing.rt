//! The pieces of texts, written without memory: words, steps, paths, numbers and dates.

ghost use Rattle.std.specs.Prelude.{◌≤◌, ◌∷◌, ◌++◌, [], OnErr, decimal};
ghost use Rattle.std.specs.List.{flat_map};
ghost use Rattle.cfg_base.specs.Counts.{Rose};
ghost use Rattle.io_edge.specs.Wrote.{Wrote};
ghost use Rattle.cfg_lex.specs.Printed.{escaped, printed_word};
ghost use Rattle.commit_ledger.specs.Date.{date_text_at};
ghost use Rattle.reply_text.specs.Texts.{printed_path, printed_step};

use cfg_base::{Moment, Path, Step, Word};
use cfg_lex::is_plain;
use commit_ledger::date_bytes_at;
use io_edge::{PutFailed, Sink, put_all};
use itoa::Buffer;

/// Writes one text and then another.
pub(crate) fn put_both<K: Sink>(sink: &mut K, first: &[u8], second: &[u8]) -> Result<(), PutFailed>
    ensures wrote { Wrote result (first.now ++ second.now) (K.view sink.old).held (K.view sink.new).held }
    ensures cause { OnErr result (Rose (K.view sink.old).faults (K.view sink.new).faults) }
    ensures later { (K.view sink.old).faults ≤ (K.view sink.new).faults }
{
    match put_all(sink, first) {
        Ok(()) => put_all(sink, second),
        Err(failed) => Err(failed),
    }
}

fn put_escaped_byte<K: Sink>(sink: &mut K, byte: u8) -> Result<(), PutFailed>
    ensures wrote { Wrote result (escaped byte) (K.view sink.old).held (K.view sink.new).held }
    ensures cause { OnErr result (Rose (K.view sink.old).faults (K.view sink.new).faults) }
    ensures later { (K.view sink.old).faults ≤ (K.view sink.new).faults }
{
    if byte == b'"' || byte == b'\\' {
        put_all(sink, &[b'\\', byte])
    } else {
        put_all(sink, &[byte])
    }
}

fn put_escaped<K: Sink>(sink: &mut K, bytes: &[u8]) -> Result<(), PutFailed>
    ensures wrote { Wrote result (flat_map escaped bytes.now) (K.view sink.old).held (K.view sink.new).held }
    ensures cause { OnErr result (Rose (K.view sink.old).faults (K.view sink.new).faults) }
    ensures later { (K.view sink.old).faults ≤ (K.view sink.new).faults }
{
    match bytes {
        [] => Ok(()),
        [byte, rest @ ..] => match put_escaped_byte(sink, *byte) {
            Ok(()) => put_escaped(sink, rest),
            Err(failed) => Err(failed),
        },
    }
}

fn put_end_quoted<K: Sink>(sink: &mut K, bytes: &[u8]) -> Result<(), PutFailed>
    ensures wrote { Wrote result (flat_map escaped bytes.now ++ 34 ∷ []) (K.view sink.old).held (K.view sink.new).held }
    ensures cause { OnErr result (Rose (K.view sink.old).faults (K.view sink.new).faults) }
    ensures later { (K.view sink.old).faults ≤ (K.view sink.new).faults }
{
    match put_escaped(sink, bytes) {
        Ok(()) => put_all(sink, b"\""),
        Err(failed) => Err(failed),
    }
}

fn put_quoted<K: Sink>(sink: &mut K, bytes: &[u8]) -> Result<(), PutFailed>
    ensures wrote { Wrote result (34 ∷ (flat_map escaped bytes.now ++ 34 ∷ [])) (K.view sink.old).held (K.view sink.new).held }
    ensures cause { OnErr result (Rose (K.view sink.old).faults (K.view sink.new).faults) }
    ensures later { (K.view sink.old).faults ≤ (K.view sink.new).faults }
{
    match put_all(sink, b"\"") {
        Ok(()) => put_end_quoted(sink, bytes),
        Err(failed) => Err(failed),
    }
}

fn put_word<K: Sink>(sink: &mut K, word: &Word) -> Result<(), PutFailed>
    ensures wrote { Wrote result (printed_word word.now) (K.view sink.old).held (K.view sink.new).held }
    ensures cause { OnErr result (Rose (K.view sink.old).faults (K.view sink.new).faults) }
    ensures later { (K.view sink.old).faults ≤ (K.view sink.new).faults }
{
    let bytes = word.as_bytes();
    if is_plain(bytes) {
        put_all(sink, bytes)
    } else {
        put_quoted(sink, bytes)
    }
}

fn put_spaced_word<K: Sink>(sink: &mut K, word: &Word) -> Result<(), PutFailed>
    ensures wrote { Wrote result (32 ∷ printed_word word.now) (K.view sink.old).held (K.view sink.new).held }
    ensures cause { OnErr result (Rose (K.view sink.old).faults (K.view sink.new).faults) }
    ensures later { (K.view sink.old).faults ≤ (K.view sink.new).faults }
{
    match put_all(sink, b" ") {
        Ok(()) => put_word(sink, word),
        Err(failed) => Err(failed),
    }
}

fn put_two_words<K: Sink>(sink: &mut K, head: &Word, name: &Word) -> Result<(), PutFailed>
    ensures wrote { Wrote result (printed_word head.now ++ 32 ∷ printed_word name.now) (K.view sink.old).held (K.view sink.new).held }
    ensures cause { OnErr result (Rose (K.view sink.old).faults (K.view sink.new).faults) }
    ensures later { (K.view sink.old).faults ≤ (K.view sink.new).faults }
{
    match put_word(sink, head) {
        Ok(()) => put_spaced_word(sink, name),
        Err(failed) => Err(failed),
    }
}

fn put_step<K: Sink>(sink: &mut K, step: &Step) -> Result<(), PutFailed>
    ensures wrote { Wrote result (printed_step step.now) (K.view sink.old).held (K.view sink.new).held }
    ensures cause { OnErr result (Rose (K.view sink.old).faults (K.view sink.new).faults) }
    ensures later { (K.view sink.old).faults ≤ (K.view sink.new).faults }
{
    if step.name.as_bytes().is_empty() {
        return put_word(sink, &step.head);
    }
    if step.head.as_bytes().is_empty() {
        return put_word(sink, &step.name);
    }
    put_two_words(sink, &step.head, &step.name)
}

fn put_spaced_step<K: Sink>(sink: &mut K, step: &Step) -> Result<(), PutFailed>
    ensures wrote { Wrote result (32 ∷ [] ++ printed_step step.now) (K.view sink.old).held (K.view sink.new).held }
    ensures cause { OnErr result (Rose (K.view sink.old).faults (K.view sink.new).faults) }
    ensures later { (K.view sink.old).faults ≤ (K.view sink.new).faults }
{
    match put_all(sink, b" ") {
        Ok(()) => put_step(sink, step),
        Err(failed) => Err(failed),
    }
}

fn put_spaced_steps<K: Sink>(sink: &mut K, steps: &[Step]) -> Result<(), PutFailed>
    ensures wrote { Wrote result (flat_map (λ step. 32 ∷ [] ++ printed_step step) steps.now) (K.view sink.old).held (K.view sink.new).held }
    ensures cause { OnErr result (Rose (K.view sink.old).faults (K.view sink.new).faults) }
    ensures later { (K.view sink.old).faults ≤ (K.view sink.new).faults }
{
    match steps {
        [] => Ok(()),
        [step, rest @ ..] => match put_spaced_step(sink, step) {
            Ok(()) => put_spaced_steps(sink, rest),
            Err(failed) => Err(failed),
        },
    }
}

pub(crate) fn put_path<K: Sink>(sink: &mut K, path: &Path) -> Result<(), PutFailed>
    ensures wrote { Wrote result (printed_path path.now) (K.view sink.old).held (K.view sink.new).held }
    ensures cause { OnErr result (Rose (K.view sink.old).faults (K.view sink.new).faults) }
    ensures later { (K.view sink.old).faults ≤ (K.view sink.new).faults }
{
    match path.steps() {
        [] => put_all(sink, b"top"),
        [step, rest @ ..] => match put_step(sink, step) {
            Ok(()) => put_spaced_steps(sink, rest),
            Err(failed) => Err(failed),
        },
    }
}

/// Writes a text and the path after it.
pub(crate) fn put_told<K: Sink>(sink: &mut K, front: &[u8], path: &Path) -> Result<(), PutFailed>
    ensures wrote { Wrote result (front.now ++ printed_path path.now) (K.view sink.old).held (K.view sink.new).held }
    ensures cause { OnErr result (Rose (K.view sink.old).faults (K.view sink.new).faults) }
    ensures later { (K.view sink.old).faults ≤ (K.view sink.new).faults }
{
    match put_all(sink, front) {
        Ok(()) => put_path(sink, path),
        Err(failed) => Err(failed),
    }
}

/// Writes a number and a text after it.
pub(crate) fn put_number_before<K: Sink>(
    sink: &mut K,
    number: u32,
    back: &[u8],
) -> Result<(), PutFailed>
    ensures wrote { Wrote result (decimal number ++ back.now) (K.view sink.old).held (K.view sink.new).held }
    ensures cause { OnErr result (Rose (K.view sink.old).faults (K.view sink.new).faults) }
    ensures later { (K.view sink.old).faults ≤ (K.view sink.new).faults }
{
    let mut digits = Buffer::new();
    put_both(sink, digits.format(number).as_bytes(), back)
}

/// Writes a number and a text before it.
pub(crate) fn put_number_behind<K: Sink>(
    sink: &mut K,
    front: &[u8],
    number: u64,
) -> Result<(), PutFailed>
    ensures wrote { Wrote result (front.now ++ decimal number) (K.view sink.old).held (K.view sink.new).held }
    ensures cause { OnErr result (Rose (K.view sink.old).faults (K.view sink.new).faults) }
    ensures later { (K.view sink.old).faults ≤ (K.view sink.new).faults }
{
    let mut digits = Buffer::new();
    put_both(sink, front, digits.format(number).as_bytes())
}

/// Writes a number between two texts.
pub(crate) fn put_number_between<K: Sink>(
    sink: &mut K,
    front: &[u8],
    number: u32,
    back: &[u8],
) -> Result<(), PutFailed>
    ensures wrote { Wrote result (front.now ++ (decimal number ++ back.now)) (K.view sink.old).held (K.view sink.new).held }
    ensures cause { OnErr result (Rose (K.view sink.old).faults (K.view sink.new).faults) }
    ensures later { (K.view sink.old).faults ≤ (K.view sink.new).faults }
{
    match put_all(sink, front) {
        Ok(()) => put_number_before(sink, number, back),
        Err(failed) => Err(failed),
    }
}

/// Writes the date and time of a moment, in UTC, between two texts.
pub(crate) fn put_date_between<K: Sink>(
    sink: &mut K,
    front: &[u8],
    moment: Moment,
    back: &[u8],
) -> Result<(), PutFailed>
    ensures wrote { Wrote result (front.now ++ (date_text_at moment ++ back.now)) (K.view sink.old).held (K.view sink.new).held }
    ensures cause { OnErr result (Rose (K.view sink.old).faults (K.view sink.new).faults) }
    ensures later { (K.view sink.old).faults ≤ (K.view sink.new).faults }
{
    match put_all(sink, front) {
        Ok(()) => put_both(sink, &date_bytes_at(moment), back),
        Err(failed) => Err(failed),
    }
}
