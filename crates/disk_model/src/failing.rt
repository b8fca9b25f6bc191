/// What a call that fails leaves.
#[derive(Clone, Copy, Debug, PartialEq, Eq)]
pub enum FailMode {
    /// The contents as they were, and the pending places too.
    Nothing,
    /// What the call would have left, had it not failed.
    Effect,
}

/// A call of `write_at` or `sync` that is to fail, by its number among them, counted from 1.
#[derive(Clone, Copy, Debug, PartialEq, Eq)]
pub struct FailAt {
    pub call: u32,
    pub mode: FailMode,
}
