//! What a crash leaves of a disk.

use cfg_base::Bytes;
use disk_model::{Disk, Made, MemDisk, Torn};
use script_lines::Fault;
use std::alloc::Global;

/// What stands after a crash at the places that are pending.
#[derive(Clone, Copy)]
pub(crate) enum Left {
    /// What stood there at the last sync that left nothing pending.
    Old,
    /// What a read gives.
    New,
    /// This byte at each.
    Byte(u8),
}

/// old, new, or one byte
pub(crate) fn left_of(word: &[u8]) -> Result<Left, Fault> {
    match word {
        b"old" => Ok(Left::Old),
        b"new" => Ok(Left::New),
        [byte] => Ok(Left::Byte(*byte)),
        _ => Err(Fault::Script("pending places hold old, new or one byte")),
    }
}

/// The image after a call that leaves nothing pending.
fn plain_image(alloc: Global, disk: &MemDisk, call: u64) -> Result<MemDisk, Fault> {
    torn_image(alloc, disk, call, 0, Bytes::empty(alloc))
}

/// The image after a call, with these bytes at the places that are pending.
fn torn_image(
    alloc: Global,
    disk: &MemDisk,
    call: u64,
    length: u64,
    bytes: Bytes,
) -> Result<MemDisk, Fault> {
    match u32::try_from(call) {
        Ok(call) if u64::from(call) <= disk.count() && length <= disk.room() => {
            Ok(disk.image_after(alloc, call, &Torn { length, bytes })?)
        }
        _ => Err(Fault::Script("so many calls were made of the disk")),
    }
}

/// Writes anew what took effect.
fn write_anew(disk: &mut MemDisk, at: u64, bytes: &[u8]) -> Result<(), Fault> {
    if at <= disk.contents().len() as u64 {
        disk.write_at(at, bytes);
        return Ok(());
    }
    Err(Fault::Script("a write isn't behind the end"))
}

/// Makes calls anew.
fn make_anew(anew: &mut MemDisk, calls: &[Made]) -> Result<(), Fault> {
    for call in calls {
        if let Made::Wrote { at, bytes } = call {
            write_anew(anew, *at, bytes)?;
        }
    }
    Ok(())
}

/// The image of what is durable once a disk is synced.
fn synced_image(alloc: Global, disk: &mut MemDisk) -> Result<MemDisk, Fault> {
    disk.sync();
    plain_image(alloc, disk, disk.count())
}

/// A disk that holds what the first of a disk's calls made of it.
fn made_anew(alloc: Global, disk: &MemDisk, calls: &[Made]) -> Result<MemDisk, Fault> {
    let mut anew = plain_image(alloc, disk, 0)?;
    match make_anew(&mut anew, calls) {
        Ok(()) => synced_image(alloc, &mut anew),
        Err(fault) => Err(fault),
    }
}

/// The calls up to the last sync that left nothing pending.
fn synced<'a, 'b>(calls: &'a [Made<'b>]) -> &'a [Made<'b>] {
    let mut front = &calls[..0];
    for (place, call) in calls.iter().enumerate() {
        if let Made::Synced { cleared: true } = call {
            front = &calls[..=place];
        }
    }
    front
}

/// How many bytes the first of a disk's calls leave.
fn length_of(alloc: Global, disk: &MemDisk, calls: &[Made]) -> Result<usize, Fault> {
    let anew = made_anew(alloc, disk, calls)?;
    Ok(anew.contents().len())
}

/// The image in which pending places hold one byte.
fn filled(
    alloc: Global,
    disk: &MemDisk,
    call: u64,
    length: usize,
    byte: u8,
) -> Result<MemDisk, Fault> {
    let bytes = Vec::from_elem(alloc, byte, length)?;
    torn_image(alloc, disk, call, length as u64, Bytes::from(bytes))
}

/// What a crash after these calls of a disk leaves, the first ones of all.
fn image_of(
    alloc: Global,
    disk: &MemDisk,
    made: &[Made],
    call: u64,
    left: Left,
) -> Result<MemDisk, Fault> {
    match left {
        Left::Old => made_anew(alloc, disk, synced(made)),
        Left::New => made_anew(alloc, disk, made),
        Left::Byte(byte) => filled(alloc, disk, call, length_of(alloc, disk, made)?, byte),
    }
}

/// What a crash after so many calls of a disk leaves.
pub(crate) fn image(
    alloc: Global,
    disk: &MemDisk,
    call: u64,
    left: Left,
) -> Result<MemDisk, Fault> {
    let calls = disk.calls(alloc)?;
    match calls.get(..call as usize) {
        Some(made) => image_of(alloc, disk, made, call, left),
        None => Err(Fault::Script("so many calls were made of the disk")),
    }
}
