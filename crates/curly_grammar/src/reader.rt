ghost use Rattle.std.specs.Prelude.{◌≡◌};
ghost use Rattle.curly_grammar.specs.Reading.{silent, start};
ghost use Rattle.curly_grammar.specs.Held.{run_in};

use crate::level::Level;
use crate::phase::Phase;
use cfg_base::{Path, Value};
use cfg_schema::Place;
use std::alloc::Global;

/// What a reader has in mind between two tokens, and what has been said before.
#[derive(Debug, Drop)]
pub(crate) struct Reader {
    /// The level whose text is read.
    pub(crate) here: Level,
    /// The levels around it, from the top.
    pub(crate) outer: Vec<Level>,
    pub(crate) phase: Phase,
    /// The statements, in the order in which they are met.
    pub(crate) items: Vec<(Path, Value)>,
    /// The paths that are tagged `replace:`.
    pub(crate) tags: Vec<Path>,
}

impl Reader {
    /// Before the first token.
    pub(crate) fn new(alloc: Global) -> Reader
        ensures { run_in result ≡ silent start }
    {
        Reader {
            here: Level {
                path: Path::top(alloc),
                place: Place::top(),
            },
            outer: Vec::new(alloc),
            phase: Phase::Between,
            items: Vec::new(alloc),
            tags: Vec::new(alloc),
        }
    }
}
