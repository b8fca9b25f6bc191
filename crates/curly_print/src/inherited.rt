//! Expansions as curly text, with a note before each statement that was inherited.

ghost use Rattle.std.specs.Prelude.{◌≡◌, ◌<◌, [], ◌++◌, length, IfOk, OnOk};
ghost use Rattle.std.specs.FinMap as finite;
ghost use Rattle.cfg_tree.specs.Statements.{last_of};
ghost use Rattle.curly_print.specs.Inherited.{given_text, printed_full};

use crate::entries::{Entry, entries_inside};
use crate::line::push_bytes;
use crate::printer::{Printer, push_front};
use crate::printing::is_level;
use cfg_base::{Bytes, MAX_STEPS, NoMemory, Path};
use cfg_schema::{Place, row};
use cfg_tree::Full;
use std::alloc::Global;

/// Puts what is given at a path at the end of a text, where something is.
fn push_at(text: &mut Vec<u8>, full: &Full, path: &Path) -> Result<(), NoMemory>
    requires { 0 < length path.now }
    ensures { OnOk result (text.new.items ≡ text.old.items ++ given_text 0 (last_of path.now) (finite.get full.now path.now) []) }
{
    match full.at(path) {
        None => Ok(()),
        Some(given) => {
            push_front(text, &Entry::of(path, given), 0)?;
            push_bytes(text, b";\n".as_slice())
        }
    }
}

fn push_text(alloc: Global, text: &mut Vec<u8>, full: &Full, path: &Path) -> Result<(), NoMemory>
    ensures { OnOk result (text.new.items ≡ text.old.items ++ printed_full full.now path.now) }
{
    match Place::of(path.steps()) {
        None => Ok(()),
        Some(here) => {
            if is_level(row(here.row).shape) {
                let inside = entries_inside(alloc, full, path)?;
                Printer::of(alloc, full).push_below(text, path, &inside, MAX_STEPS, 0)
            } else {
                push_at(text, full, path)
            }
        }
    }
}

/// The statements of an expansion below a path as curly text, without marks, and with a note before each that was inherited:
/// of the top or a level what stands in it, of another statement its own note and line, of what isn't there nothing. For want
/// of memory it fails.
pub fn print_inherited(alloc: Global, full: &Full, below: &Path) -> Result<Bytes, NoMemory>
    ensures { IfOk result (λ bytes. bytes ≡ printed_full full.now below.now) }
{
    let mut text = Vec::new(alloc);
    push_text(alloc, &mut text, full, below)?;
    Ok(Bytes::from(text))
}
