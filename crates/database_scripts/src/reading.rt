//! What the readers of a database see.

use active_snapshot::{Naming, Read, Shown, SnapReader};
use cfg_base::{Moment, NoMemory, Path};
use config_db::Database;
use curly_print::print;
use disk_model::MemDisk;
use script_lines::{Fault, Text, say_counted, say_flag, say_text};
use std::alloc::Global;
use std::sync::Arc;

/// The active configuration of a view, after its count of entries.
fn say_view(alloc: Global, out: &mut Text, front: u64, view: &Shown) {
    say_counted(out, "front", front);
    match print(alloc, view.active(), &Path::top(alloc)) {
        Ok(text) => say_text(out, text.as_slice()),
        Err(NoMemory) => out.lacks_memory(),
    }
}

/// A deadline that was missed, after the count of entries.
fn say_due(out: &mut Text, front: u64, deadline: u64) {
    say_counted(out, "front", front);
    say_counted(out, "due at", deadline);
}

/// What a reader shows at a moment.
pub(crate) fn say_read<J: Naming>(
    alloc: Global,
    reader: &mut SnapReader<J>,
    moment: Moment,
    out: &mut Text,
) {
    match reader.read(moment) {
        Ok(Read::At { front, view }) => say_view(alloc, out, front, &view),
        Ok(Read::Due { front, deadline }) => say_due(out, front, deadline),
        Err(NoMemory) => out.lacks_memory(),
    }
}

/// Tells a reader how far the list goes, and hands it the last view.
pub(crate) fn take_in<J: Naming>(
    book: &Database<MemDisk, J>,
    reader: &mut SnapReader<J>,
) -> Result<(), Fault> {
    match Arc::try_clone(book.view()) {
        Ok(view) => {
            reader.learn(&book.note(), Some(view));
            Ok(())
        }
        Err(_) => Err(Fault::NoMemory),
    }
}

/// Whether all that a reader was shown is in the list.
pub(crate) fn say_within<J: Naming>(
    book: &Database<MemDisk, J>,
    reader: &SnapReader<J>,
    out: &mut Text,
) {
    say_flag(out, reader.is_within(&book.note()));
}
