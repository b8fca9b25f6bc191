ghost use Rattle.std.specs.Prelude.{◌≡◌};

use cfg_base::Calls;
use std::marker::Model;

/// A call of a backup's list: how many events the master's history had, as it was last told, how many calls each disk had made by
/// then, and how many entries the backup's list has from then on.
#[derive(Clone, Copy, Debug, PartialEq, Eq)]
pub struct Mark {
    pub events: u64,
    pub calls: Calls,
    pub count: u64,
}

/// Marks, in the order of the calls.
#[derive(Drop)]
pub struct Marks {
    marks: Vec<Mark>,
}

impl Model for Marks {
    ghost use Rattle.std.specs.Prelude.{List};
    ghost use Rattle.sync_link.specs.declared.mark.Mark.{Mark};

    ghost Value = { List Mark };

    ghost view = { λ m. m.marks.items };
}

impl Marks {
    pub(crate) fn of(marks: Vec<Mark>) -> Marks
        ensures { result ≡ marks.items }
    {
        Marks { marks }
    }

    /// All of them.
    pub fn as_slice(&self) -> &[Mark]
        ensures { result.now ≡ self.now }
    {
        &self.marks
    }
}
