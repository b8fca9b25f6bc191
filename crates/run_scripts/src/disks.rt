//! The two disks over which the service runs, and calls of them.

use cfg_base::{Bytes, NoMemory};
use disk_model::{Disk, DiskDone, FailAt, FailMode, MemDisk, Torn};
use script_lines::{Arg, Fault, Text, number, numbers, say, say_bytes, say_number, small_number};
use std::alloc::Global;
use std::mem;

/// How many calls of `write_at` and `sync` each disk takes.
const CALLS: u32 = 4_000;

/// A disk, and the calls that are to fail of the next one in its place.
#[derive(Drop)]
struct StagedDisk {
    disk: MemDisk,
    failing: Vec<FailAt>,
    failing_reads: Vec<u64>,
}

fn empty_disk(alloc: Global, room: u64) -> Result<MemDisk, NoMemory> {
    MemDisk::new(alloc, room, CALLS, Vec::new(alloc), Vec::new(alloc))
}

fn say_contents(out: &mut Text, disk: &MemDisk) {
    let bytes = disk.contents();
    say_number(out, bytes.len() as u64);
    say_bytes(out, "bytes", bytes);
}

/// Writes bytes at a place, and syncs.
fn write(out: &mut Text, disk: &mut MemDisk, at: u64, bytes: &[u8]) -> Result<(), Fault> {
    if at > disk.contents().len() as u64 {
        return Err(Fault::Script("a place that isn't behind the end of the disk"));
    }
    match (disk.write_at(at, bytes), disk.sync()) {
        (DiskDone::Done, DiskDone::Done) => say(out, "done"),
        _ => say(out, "failed"),
    }
    Ok(())
}

fn mode_of(arg: &[u8]) -> Result<FailMode, Fault> {
    match arg {
        b"nothing" => Ok(FailMode::Nothing),
        b"effect" => Ok(FailMode::Effect),
        _ => Err(Fault::Script("a call fails with nothing or effect")),
    }
}

/// What a crash after so many calls of the disk may leave, with these torn bytes.
fn image_of(
    alloc: Global,
    disk: &MemDisk,
    call: u32,
    length: u64,
    bytes: &[u8],
) -> Result<MemDisk, Fault> {
    if u64::from(call) > disk.count() || length > disk.room() {
        return Err(Fault::Script("so many calls were made, and the disk has room for the image"));
    }
    let bytes = Bytes::from(Vec::from_slice(alloc, bytes)?);
    Ok(disk.image_after(alloc, call, &Torn { length, bytes })?)
}

/// The first bytes that a disk holds, so many.
fn front_of(alloc: Global, disk: &MemDisk, length: u64) -> Result<Vec<u8>, Fault> {
    match disk.contents().get(..length as usize) {
        Some(front) => Ok(Vec::from_slice(alloc, front)?),
        None => Err(Fault::Script("a length that the disk has")),
    }
}

/// How a copy of a disk differs from the disk.
#[derive(Clone, Copy)]
pub(crate) enum Hurt {
    /// It has that many of the first bytes.
    Cut(u64),
    /// The byte at a place is this one.
    Byte(u64, u8),
    /// The byte at a place is one more; after 255 comes 0.
    More(u64),
}

/// A copy of bytes, with another one at a place.
fn with_byte(alloc: Global, bytes: &[u8], place: u64, byte: u8) -> Result<Vec<u8>, Fault> {
    let mut copy = Vec::from_slice(alloc, bytes)?;
    match copy.get_mut(place as usize) {
        Some(there) => {
            *there = byte;
            Ok(copy)
        }
        None => Err(Fault::Script("a place that the disk has")),
    }
}

/// A copy of bytes, with one more at a place.
fn with_more(alloc: Global, bytes: &[u8], place: u64) -> Result<Vec<u8>, Fault> {
    match bytes.get(place as usize) {
        Some(byte) => with_byte(alloc, bytes, place, byte.wrapping_add(1)),
        None => Err(Fault::Script("a place that the disk has")),
    }
}

/// What a hurt copy of a disk holds.
fn hurt_bytes(alloc: Global, disk: &MemDisk, hurt: Hurt) -> Result<Vec<u8>, Fault> {
    match hurt {
        Hurt::Cut(length) => front_of(alloc, disk, length),
        Hurt::Byte(place, byte) => with_byte(alloc, disk.contents(), place, byte),
        Hurt::More(place) => with_more(alloc, disk.contents(), place),
    }
}

impl StagedDisk {
    fn new(alloc: Global, room: u64) -> Result<StagedDisk, NoMemory> {
        Ok(StagedDisk {
            disk: empty_disk(alloc, room)?,
            failing: Vec::new(alloc),
            failing_reads: Vec::new(alloc),
        })
    }

    /// An empty disk of so many bytes stands here, whose calls fail as was said.
    fn make(&mut self, alloc: Global, room: u64) -> Result<(), NoMemory> {
        let failing = mem::replace(&mut self.failing, Vec::new(alloc));
        let failing_reads = mem::replace(&mut self.failing_reads, Vec::new(alloc));
        self.disk = MemDisk::new(alloc, room, CALLS, failing, failing_reads)?;
        Ok(())
    }

    /// A disk of the room of another one, which holds these bytes, stands here.
    fn hold(&mut self, alloc: Global, other: &MemDisk, bytes: &[u8]) -> Result<(), Fault> {
        self.make(alloc, other.room())?;
        match (self.disk.write_at(0, bytes), self.disk.sync()) {
            (DiskDone::Done, DiskDone::Done) => Ok(()),
            _ => Err(Fault::Script("a disk that can be copied")),
        }
    }

    /// A copy of another one stands here.
    fn copy_of(&mut self, alloc: Global, other: &MemDisk) -> Result<(), Fault> {
        self.hold(alloc, other, other.contents())
    }

    /// A hurt copy of another one stands here.
    fn hurt_copy_of(&mut self, alloc: Global, other: &MemDisk, hurt: Hurt) -> Result<(), Fault> {
        let bytes = hurt_bytes(alloc, other, hurt)?;
        self.hold(alloc, other, &bytes)
    }

    /// disk-fails a|b nothing|effect CALL ..
    fn fail(&mut self, mode: &[u8], calls: &[Arg]) -> Result<(), Fault> {
        let mode = mode_of(mode)?;
        for call in calls {
            self.failing.push(FailAt {
                call: small_number(call)?,
                mode,
            })?;
        }
        Ok(())
    }

    /// cut a|b LENGTH
    fn cut(&mut self, alloc: Global, length: &[u8], out: &mut Text) -> Result<(), Fault> {
        let left = front_of(alloc, &self.disk, number(length)?)?;
        let room = self.disk.room();
        self.make(alloc, room)?;
        write(out, &mut self.disk, 0, &left)
    }

    /// disk-reads-fail a|b CALL ..
    fn fail_reads(&mut self, alloc: Global, reads: &[Arg]) -> Result<(), Fault> {
        self.failing_reads = numbers(alloc, reads)?;
        Ok(())
    }

    /// image a|b CALL LENGTH BYTES
    fn crash(
        &mut self,
        alloc: Global,
        call: &[u8],
        length: &[u8],
        bytes: &[u8],
    ) -> Result<(), Fault> {
        let call = small_number(call)?;
        let length = number(length)?;
        self.disk = image_of(alloc, &self.disk, call, length, bytes)?;
        Ok(())
    }

    /// disk a|b
    fn ask_contents(&self, out: &mut Text) -> Result<(), Fault> {
        say_contents(out, &self.disk);
        Ok(())
    }

    /// front a|b LENGTH
    fn ask_front(&self, alloc: Global, length: &[u8], out: &mut Text) -> Result<(), Fault> {
        let front = front_of(alloc, &self.disk, number(length)?)?;
        say_number(out, self.disk.contents().len() as u64);
        say_bytes(out, "bytes", &front);
        Ok(())
    }

    /// write_at a|b PLACE BYTES
    fn ask_write(&mut self, at: &[u8], bytes: &[u8], out: &mut Text) -> Result<(), Fault> {
        let at = number(at)?;
        write(out, &mut self.disk, at, bytes)
    }

    /// Answers a call of the disk, where it is one.
    fn ask(
        &mut self,
        alloc: Global,
        name: &str,
        args: &[Arg],
        out: &mut Text,
    ) -> Option<Result<(), Fault>> {
        Some(match (name, args) {
            ("disk", []) => self.ask_contents(out),
            ("front", [length]) => self.ask_front(alloc, length, out),
            ("write_at", [at, bytes]) => self.ask_write(at, bytes, out),
            ("cut", [length]) => self.cut(alloc, length, out),
            ("disk-fails", [mode, calls @ ..]) => self.fail(mode, calls),
            ("disk-reads-fail", reads) => self.fail_reads(alloc, reads),
            ("image", [call, length, bytes]) => self.crash(alloc, call, length, bytes),
            _ => return None,
        })
    }
}

/// Disks `a` and `b`.
#[derive(Drop)]
pub(crate) struct Disks {
    a: StagedDisk,
    b: StagedDisk,
}

impl Disks {
    /// Two disks of so many bytes, which hold nothing.
    pub(crate) fn new(alloc: Global, room: u64) -> Result<Disks, NoMemory> {
        Ok(Disks {
            a: StagedDisk::new(alloc, room)?,
            b: StagedDisk::new(alloc, room)?,
        })
    }

    /// Empty disks of so many bytes stand here.
    pub(crate) fn make(&mut self, alloc: Global, room_a: u64, room_b: u64) -> Result<(), NoMemory> {
        self.a.make(alloc, room_a)?;
        self.b.make(alloc, room_b)
    }

    /// The two, in whose place stand two without room.
    pub(crate) fn take(&mut self, alloc: Global) -> Result<(MemDisk, MemDisk), NoMemory> {
        let none_a = empty_disk(alloc, 0)?;
        let none_b = empty_disk(alloc, 0)?;
        let a = mem::replace(&mut self.a.disk, none_a);
        let b = mem::replace(&mut self.b.disk, none_b);
        Ok((a, b))
    }

    pub(crate) fn put(&mut self, a: MemDisk, b: MemDisk) {
        self.a.disk = a;
        self.b.disk = b;
    }

    /// Copies of two disks stand here.
    pub(crate) fn copies_of(&mut self, alloc: Global, other: &Disks) -> Result<(), Fault> {
        self.a.copy_of(alloc, &other.a.disk)?;
        self.b.copy_of(alloc, &other.b.disk)
    }

    /// Copies of two disks stand here, of which that one is hurt.
    fn hurt_copies_of(
        &mut self,
        alloc: Global,
        other: &Disks,
        which: &[u8],
        hurt: Hurt,
    ) -> Result<(), Fault> {
        match which {
            b"a" => {
                self.a.hurt_copy_of(alloc, &other.a.disk, hurt)?;
                self.b.copy_of(alloc, &other.b.disk)
            }
            b"b" => {
                self.a.copy_of(alloc, &other.a.disk)?;
                self.b.hurt_copy_of(alloc, &other.b.disk, hurt)
            }
            _ => Err(Fault::Script("disk a or b")),
        }
    }

    /// Copies of the two, of which that one is hurt.
    pub(crate) fn hurt(&self, alloc: Global, which: &[u8], hurt: Hurt) -> Result<Disks, Fault> {
        let mut copies = Disks::new(alloc, 0)?;
        match copies.hurt_copies_of(alloc, self, which, hurt) {
            Ok(()) => Ok(copies),
            Err(fault) => Err(fault),
        }
    }

    /// disks ROOM, or disks ROOM ROOM
    fn make_of(&mut self, alloc: Global, room_a: &[u8], room_b: &[u8]) -> Result<(), Fault> {
        let room_a = number(room_a)?;
        let room_b = number(room_b)?;
        self.make(alloc, room_a, room_b)?;
        Ok(())
    }

    /// Answers a call of one of the two, where it is one.
    fn ask(
        &mut self,
        alloc: Global,
        name: &str,
        args: &[Arg],
        out: &mut Text,
    ) -> Option<Result<(), Fault>> {
        let [which, args @ ..] = args else {
            return None;
        };
        match which.as_slice() {
            b"a" => self.a.ask(alloc, name, args, out),
            b"b" => self.b.ask(alloc, name, args, out),
            _ => None,
        }
    }

    /// Answers a call of the disks, where it is one.
    pub(crate) fn answer(
        &mut self,
        alloc: Global,
        name: &str,
        args: &[Arg],
        out: &mut Text,
    ) -> Option<Result<(), Fault>> {
        match (name, args) {
            ("disks", [room]) => Some(self.make_of(alloc, room, room)),
            ("disks", [room_a, room_b]) => Some(self.make_of(alloc, room_a, room_b)),
            _ => self.ask(alloc, name, args, out),
        }
    }
}
