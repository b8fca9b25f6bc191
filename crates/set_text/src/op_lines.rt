ghost use Rattle.std.specs.Prelude.{◌≡◌};

use commands::Op;
use std::marker::Model;

/// The change that a line asks for, and the line's number, counted from 1. A number past 2^32 - 1 is reported as
/// 2^32 - 1.
#[derive(Debug, Drop)]
pub struct OpLine {
    pub line: u32,
    pub op: Op,
}

/// The changes of a text, in the order of its lines.
#[derive(Debug, Drop)]
pub struct OpLines {
    lines: Vec<OpLine>,
}

impl Model for OpLines {
    ghost use Rattle.std.specs.Prelude.{List};
    ghost use Rattle.set_text.specs.declared.op_lines.OpLine.{OpLine};

    ghost Value = { List OpLine };

    ghost view = { λ o. o.lines.items };
}

impl OpLines {
    pub(crate) fn of(lines: Vec<OpLine>) -> OpLines
        ensures { result ≡ lines.items }
    {
        OpLines { lines }
    }

    /// The changes, in order.
    pub fn as_slice(&self) -> &[OpLine]
        ensures { result.now ≡ self.now }
    {
        &self.lines
    }
}
