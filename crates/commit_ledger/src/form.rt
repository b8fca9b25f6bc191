use crate::entry::Via;

/// The fields of a commit's payload.
#[derive(Clone, Copy, Debug)]
pub(crate) struct CommitRead<'a> {
    pub(crate) number: u64,
    pub(crate) moment: u64,
    pub(crate) via: Via,
    pub(crate) minutes: u32,
    pub(crate) user: &'a [u8],
    pub(crate) comment: &'a [u8],
    pub(crate) text: &'a [u8],
}

/// The fields of a confirmation's payload, or of what calls a scheduled commit off.
#[derive(Clone, Copy, Debug)]
pub(crate) struct ConfirmRead<'a> {
    pub(crate) number: u64,
    pub(crate) moment: u64,
    pub(crate) user: &'a [u8],
}

/// The fields of a scheduled commit's payload.
#[derive(Clone, Copy, Debug)]
pub(crate) struct ScheduledRead<'a> {
    pub(crate) number: u64,
    pub(crate) moment: u64,
    pub(crate) at: u64,
    pub(crate) user: &'a [u8],
    pub(crate) comment: &'a [u8],
    pub(crate) text: &'a [u8],
}

/// The fields of a checkpoint's first payload.
#[derive(Clone, Copy, Debug)]
pub(crate) struct KeepRead {
    pub(crate) count: u64,
    pub(crate) target: u64,
    pub(crate) commits: u32,
}
