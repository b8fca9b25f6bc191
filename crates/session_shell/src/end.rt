use crate::turn::{How, TurnList};
use cfg_base::UserName;

/// The ends of a session: whose it is, what it reads, what it writes to, and what tells it the time.
#[derive(Drop)]
pub struct End<S, K, C> {
    pub user: UserName,
    pub source: S,
    pub sink: K,
    pub clock: C,
}

/// Memory ran out for a session; its ends come back.
#[derive(Drop)]
pub struct NoSession<S, K, C> {
    pub end: End<S, K, C>,
}

/// A session that has ended, with all that it was given.
#[derive(Drop)]
pub struct Ended<S, K, C> {
    pub number: u32,
    pub how: How,
    pub end: End<S, K, C>,
    pub turns: TurnList,
}
