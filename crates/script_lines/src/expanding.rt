//! Texts that are written more than once: `\{3:ab}` stands for `ababab`.

use crate::fault::Fault;
use crate::writing::Text;
use std::alloc::Global;

/// The most copies of one text.
const MOST_COPIES: u64 = 1 << 25;

fn put_copies(text: &mut Text, copied: &str, count: u64) {
    for _ in 0..count {
        text.put(copied);
    }
}

/// COUNT:TEXT
fn add_copies(text: &mut Text, copies: &str) -> Result<(), Fault> {
    let Some((count, copied)) = copies.split_once(':') else {
        return Err(Fault::Script("copies are written \\{COUNT:TEXT}"));
    };
    match count.parse::<u64>() {
        Ok(count) if count <= MOST_COPIES => {
            put_copies(text, copied, count);
            Ok(())
        }
        _ => Err(Fault::Script("there are at most 33554432 copies of a text")),
    }
}

/// COUNT:TEXT}, and what stands after it
fn add_piece(text: &mut Text, piece: &str) -> Result<(), Fault> {
    let Some((copies, rest)) = piece.split_once('}') else {
        return Err(Fault::Script("copies end with }"));
    };
    let added = add_copies(text, copies);
    text.put(rest);
    added
}

fn add_pieces(text: &mut Text, line: &str) -> Result<(), Fault> {
    for (place, piece) in line.split("\\{").enumerate() {
        if place == 0 {
            text.put(piece);
        } else if let Err(fault) = add_piece(text, piece) {
            return Err(fault);
        }
    }
    Ok(())
}

/// A line with its copies written out.
pub(crate) fn expanded(alloc: Global, line: &str) -> Result<String, Fault> {
    let mut text = Text::new(alloc);
    match add_pieces(&mut text, line) {
        Ok(()) => text.whole(),
        Err(fault) => Err(fault),
    }
}
