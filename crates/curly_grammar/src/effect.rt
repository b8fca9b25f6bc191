use crate::level::Level;
use crate::phase::{Marks, Phase};
use cfg_base::WordList;

/// What a word makes of what has been read of a statement: a further phase, or a whole step with its words.
#[derive(Debug, Drop)]
pub(crate) enum Effect {
    Phase(Phase),
    Statement {
        marks: Marks,
        level: Level,
        words: WordList,
    },
}
