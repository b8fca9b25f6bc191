use crate::position::Position;
use cfg_base::UserName;
use commands::Mode;

/// A session as the machine knows it: who it is, how it edits (in operational mode where there is no mode), and where
/// it stands.
#[derive(Debug, Drop)]
pub struct Caller {
    pub user: UserName,
    pub mode: Option<Mode>,
    pub position: Position,
}
