ghost use Rattle.std.specs.Prelude.{◌≡◌, ◌≤◌, ◌<◌, ◌+◌, ◌^◌, ℕ, Bool, length, IsTrue};
ghost use Rattle.disk_model.specs.Disk.{DiskView, contents_of, TookNoEffect, Wrote, Synced, Gives, HasCause, IfLen, IfRead};

/// A length, if it could be read.
#[derive(Clone, Copy, Debug, PartialEq, Eq)]
pub enum DiskLen {
    Len(u64),
    Failed,
}

/// How many bytes were read, if they could be.
#[derive(Clone, Copy, Debug, PartialEq, Eq)]
pub enum DiskRead {
    Read(usize),
    Failed,
}

/// Whether a write or a sync was done. One that failed may have taken effect.
#[derive(Clone, Copy, Debug, PartialEq, Eq)]
pub enum DiskDone {
    Done,
    Failed,
}

/// A file on a disk that a crash may cut off at any moment.
pub trait Disk {
    /// What is told of it.
    ghost view: { Self → DiskView };

    /// The length.
    fn len(&mut self) -> DiskLen
        ensures tells { (view self.new).tells ≡ (view self.old).tells }
        ensures history { (view self.new).history ≡ (view self.old).history }
        ensures bound { IfLen result (λ n. n ≤ 2 ^ 62) }
        ensures length { IsTrue (view self.old).tells →
            IfLen result (λ n. n ≡ length (contents_of (view self.old).history)) }
        ensures cause { HasCause (view self.old).faults (view self.new).faults (result ≡ DiskLen.Failed) };

    /// Reads the bytes that stand at a place, as many as there are up to the length of `into`.
    fn read_at(&mut self, at: u64, into: &mut [u8]) -> DiskRead
        ensures tells { (view self.new).tells ≡ (view self.old).tells }
        ensures history { (view self.new).history ≡ (view self.old).history }
        ensures bound { IfRead result (λ n. n ≤ length into.old) }
        ensures bytes { IsTrue (view self.old).tells → IfRead result (λ n.
            Gives (contents_of (view self.old).history) at n into.old into.new) }
        ensures cause { HasCause (view self.old).faults (view self.new).faults (result ≡ DiskRead.Failed) };

    /// Writes bytes at a place, which is at most the length. A crash before the next sync may leave
    /// any bytes there and past the old end.
    fn write_at(&mut self, at: u64, piece: &[u8]) -> DiskDone
        requires { IsTrue (view self.old).tells → at ≤ length (contents_of (view self.old).history) }
        ensures tells { (view self.new).tells ≡ (view self.old).tells }
        ensures bound { result ≡ DiskDone.Done → at + length piece.now ≤ 2 ^ 62 }
        // Past the most bytes that a disk holds a write takes no effect.
        ensures past { IsTrue (view self.old).tells → 2 ^ 62 < at + length piece.now →
            TookNoEffect (view self.old).history at (length piece.now) (view self.new).history }
        ensures written { IsTrue (view self.old).tells →
            Wrote (view self.old).history at piece.now (result ≡ DiskDone.Done) (view self.new).history }
        ensures cause { HasCause (view self.old).faults (view self.new).faults (result ≡ DiskDone.Failed) };

    /// After it a crash leaves what a read gives.
    fn sync(&mut self) -> DiskDone
        ensures tells { (view self.new).tells ≡ (view self.old).tells }
        ensures synced { IsTrue (view self.old).tells →
            Synced (view self.old).history (result ≡ DiskDone.Done) (view self.new).history }
        ensures cause { HasCause (view self.old).faults (view self.new).faults (result ≡ DiskDone.Failed) };
}
