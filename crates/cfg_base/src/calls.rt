/// How many calls of `write_at` and `sync` were made of each of the two disks.
#[derive(Clone, Copy, Debug, PartialEq, Eq)]
pub struct Calls {
    pub a: u64,
    pub b: u64,
}
