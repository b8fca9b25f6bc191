//! How a writer and its readers begin.

ghost use Rattle.std.specs.Prelude.{◌≡◌, ◌<◌, ◌∷◌, [], replicate, IfOk};
ghost use Rattle.active_snapshot.specs.States.{first_read, first_written};

use crate::book::{Front, Naming, Shelf};
use crate::reader::{Of, SnapReader, SnapReaders};
use crate::slot::Slot;
use crate::view::Shown;
use crate::writer::SnapWriter;
use cfg_base::NoMemory;
use left_right::writer::Writer;
use std::alloc::Global;
use std::snapshot::Snapshot;
use std::sync::Arc;

/// The first view, which is the whole list of an empty book.
fn first_slot(alloc: Global, shelf: &Shelf, front: Front, first: Shown) -> Result<Slot, NoMemory>
    requires shelf { shelf.now ≡ front.book }
    requires empty { front.list ≡ [] }
    ensures { IfOk result (λ slot. slot ≡ record { book = front.book; list = first ∷ [] }) }
{
    let shown = Arc::new(alloc, first)?;
    let mut front = front;
    if !front.add(shelf, &Snapshot::of(&*shown)) {
        return Err(NoMemory);
    }
    Ok(Slot { shown, front })
}

/// So many readers that begin with a view.
fn readers_of<J: Naming>(
    alloc: Global,
    slot: &Slot,
    readers: usize,
) -> Result<Vec<SnapReader<J>>, NoMemory>
    requires { slot.now.book ≡ J.book }
    ensures { IfOk result (λ made. made.items ≡ replicate readers (record { list = slot.now.list; told = slot.now.list })) }
{
    let mut made = Vec::with_capacity(alloc, readers)?;
    for _ in 0..readers {
        made.push(SnapReader::of(slot.again()?))?;
    }
    Ok(made)
}

/// The writer of an empty book, and so many readers. Each of them begins with the first view.
pub fn shown<J: Naming>(
    alloc: Global,
    shelf: Shelf,
    front: Front,
    first: Shown,
    readers: u32,
) -> Result<(SnapWriter<J>, SnapReaders<J>), NoMemory>
    requires book { (front.book ≡ J.book) × (shelf ≡ J.book) }
    requires empty { front.list ≡ [] }
    requires readers { 0 < readers }
    ensures writer { IfOk result (λ ends. ends.0 ≡ first_written first) }
    ensures readers { IfOk result (λ ends. ends.1 ≡ replicate readers (first_read first)) }
{
    let slot = first_slot(alloc, &shelf, front, first)?;
    let one = slot.again()?;
    let two = slot.again()?;
    let made = readers_of(alloc, &slot, readers as usize)?;
    let writer: Writer<Slot, Slot, u8, Of<J>> = Writer::new(alloc, one, two, readers as usize)?;
    let factory = writer.factory().another().ok();
    Ok((
        SnapWriter::of(alloc, writer, shelf, slot),
        SnapReaders::of(made, factory),
    ))
}
