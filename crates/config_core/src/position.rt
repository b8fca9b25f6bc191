//! Moves through levels.

ghost use Rattle.std.specs.Prelude.{◌≡◌, IfOk};
ghost use Rattle.cfg_tree.specs.Typed.{IsLevelPath};
ghost use Rattle.config_core.specs.Levels.{at_top, moved_to, moved_up, moved_back};

use cfg_base::{NoMemory, Path};
use std::alloc::Global;
use std::marker::Model;

/// Where a session stands: its level, and the levels that `exit` goes back to, the last one first.
#[derive(Debug, Drop)]
pub struct Position {
    level: Path,
    remembered: Vec<Path>,
}

impl Model for Position {
    ghost use Rattle.config_core.specs.Levels.{Position, AreLevels};

    ghost Value = { Position };

    ghost view = { λ p. record { level = p.level; remembered = p.remembered.items } };

    ghost invariant = { λ p. AreLevels (record { level = p.level; remembered = p.remembered.items }) };
}

impl Position {
    /// The top, with no level remembered.
    pub fn top(alloc: Global) -> Position
        ensures { result ≡ at_top }
    {
        Position {
            level: Path::top(alloc),
            remembered: Vec::new(alloc),
        }
    }

    /// The level.
    pub fn level(&self) -> &Path
        ensures level { result.now ≡ self.now.level }
        ensures is_level { IsLevelPath self.now.level }
    {
        &self.level
    }

    /// Where `edit` leads: to that level, with this one remembered.
    pub fn moved_to(&self, alloc: Global, level: Path) -> Result<Position, NoMemory>
        requires { IsLevelPath level }
        ensures { IfOk result (λ position. position ≡ moved_to self.now level) }
    {
        let mut remembered = Vec::from_clones(alloc, self.remembered.as_slice())?;
        remembered.insert(0, self.level.clone()?)?;
        Ok(Position { level, remembered })
    }

    /// Where `up` leads: so many levels up, at most to the top, with none remembered.
    pub fn moved_up(&self, alloc: Global, count: u32) -> Result<Position, NoMemory>
        ensures { IfOk result (λ position. position ≡ moved_up self.now count) }
    {
        let left = self.level.steps().len().saturating_sub(count as usize);
        Ok(Position {
            level: self.level.prefix(left)?,
            remembered: Vec::new(alloc),
        })
    }

    /// Where `exit` leads: to the level that was remembered last, else to the top; nowhere from there.
    pub fn moved_back(&self, alloc: Global) -> Result<Option<Position>, NoMemory>
        ensures { IfOk result (λ position. position ≡ moved_back self.now) }
    {
        match self.remembered.as_slice() {
            [last, more @ ..] => Ok(Some(Position {
                level: last.clone()?,
                remembered: Vec::from_clones(alloc, more)?,
            })),
            [] => {
                if self.level.steps().is_empty() {
                    Ok(None)
                } else {
                    Ok(Some(Position::top(alloc)))
                }
            }
        }
    }
}
