ghost use Rattle.std.specs.Prelude.{◌≡◌, ◌<◌, IfOk, length, filter};
ghost use Rattle.std.specs.List.{AllByRecursion};
ghost use Rattle.cfg_schema.specs.declared.rows.TheConstants.{ROWS};
ghost use Rattle.cfg_schema.specs.Profile.{profile, line_at, stands, rows_in, rows_below};

use crate::level::{Level, level_in};
use crate::rows::RowId;
use crate::search::rows_of;
use crate::table::{Line, lines};
use cfg_base::NoMemory;
use std::alloc::Global;

/// Those of some rows that stand at a level.
fn standing(
    alloc: Global,
    lines: &[Line],
    level: &Level,
    rows: &[u8],
) -> Result<Vec<RowId>, NoMemory>
    requires number { length lines.now ≡ ROWS }
    requires within { AllByRecursion (λ r. r < ROWS) rows.now }
    ensures { IfOk result (λ stood. stood.items ≡ filter (λ row. stands level.now (line_at lines.now row)) rows.now) }
{
    let mut stood = Vec::new(alloc);
    for &row in rows {
        if level.takes(&lines[row as usize]) {
            stood.push(RowId::at(row as usize))?;
        }
    }
    Ok(stood)
}

fn rows_in(alloc: Global, lines: &[Line], level: &Level) -> Result<Vec<RowId>, NoMemory>
    requires rows { lines.now ≡ profile }
    requires number { length lines.now ≡ ROWS }
    requires within { level.now.inner < ROWS }
    ensures { IfOk result (λ rows. rows.items ≡ rows_in lines.now level.now) }
{
    standing(alloc, lines, level, rows_of(level.inner))
}

/// The rows below a row, in the order in which they are printed; `in_group` says that this is inside a group.
pub fn rows_below(alloc: Global, parent: RowId, in_group: bool) -> Result<Vec<RowId>, NoMemory>
    ensures { IfOk result (λ rows. rows.items ≡ rows_below parent in_group) }
{
    let lines = lines();
    let level = level_in(lines, parent.number(), in_group);
    rows_in(alloc, lines, &level)
}
