ghost use Rattle.std.specs.Prelude.{◌≡◌, IsTrue, IfSome, IsNone};
ghost use Rattle.disk_model.specs.Disk.{contents_of, HasCause};
ghost use Rattle.std.specs.Prelude.{take, drop, ◌↔◌, ◌≤◌};
ghost use Rattle.std.specs.Int.{w64, from_be_bytes};
ghost use Rattle.commit_journal.specs.Pair.{magic};
ghost use Rattle.commit_journal.specs.Attach.{IsHeaderOf};

use crate::appending::OPEN;
use crate::settling::fill;
use disk_model::{Disk, DiskDone, DiskLen};

/// The first bytes of each file: `CONFDJ1` and a line feed.
pub(crate) const MAGIC: [u8; 8] = *b"CONFDJ1\n";

/// Where the generation stands.
pub(crate) const GENERATION: u64 = 8;

/// Where the gate of the file stands.
pub(crate) const FILE_GATE: u64 = 16;

/// Where the first record's gate stands.
pub(crate) const FIRST_GATE: u64 = 17;

/// What the first bytes of a file say.
#[derive(Clone, Copy, Debug, PartialEq, Eq)]
pub struct Header {
    /// Whether it begins with the magic.
    pub begins: bool,
    /// Whether it is long enough besides.
    pub is_sound: bool,
    pub generation: u64,
    pub is_open: bool,
}

/// Reads the first bytes of a file.
pub(crate) fn read_header<D: Disk>(disk: &mut D) -> Option<Header>
    ensures tells { (D.view disk.new).tells ≡ (D.view disk.old).tells }
    ensures history { (D.view disk.new).history ≡ (D.view disk.old).history }
    ensures header { IsTrue (D.view disk.old).tells → IfSome result (λ h.
        IsHeaderOf (contents_of (D.view disk.old).history) h) }
    ensures cause { HasCause (D.view disk.old).faults (D.view disk.new).faults (IsNone result) }
{
    let len = match disk.len() {
        DiskLen::Len(len) => len,
        DiskLen::Failed => return None,
    };
    let mut bytes = [0u8; 17];
    if let DiskDone::Failed = fill(disk, 0, &mut bytes) {
        return None;
    }
    Some(Header {
        begins: begins_with_magic(&bytes),
        is_sound: is_header(len, &bytes),
        generation: generation_in(&bytes),
        is_open: bytes[16] == OPEN,
    })
}

fn is_header(len: u64, bytes: &[u8; 17]) -> bool
    ensures { IsTrue result ↔ ((17 ≤ len) × (take 8 bytes.now ≡ magic)) }
{
    len >= FIRST_GATE && begins_with_magic(bytes)
}

fn begins_with_magic(bytes: &[u8; 17]) -> bool
    ensures { IsTrue result ↔ (take 8 bytes.now ≡ magic) }
{
    let front = &bytes[..8];
    front == MAGIC.as_slice()
}

fn generation_in(bytes: &[u8; 17]) -> u64
    ensures { result ≡ from_be_bytes w64 (take 8 (drop 8 bytes.now)) }
{
    let [_, _, _, _, _, _, _, _, a, b, c, d, e, f, g, h, _] = *bytes;
    u64::from_be_bytes([a, b, c, d, e, f, g, h])
}
