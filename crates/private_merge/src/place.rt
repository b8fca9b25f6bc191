//! A path, and what stands there on the three sides.

ghost use Rattle.std.specs.Prelude.{◌≡◌, Decides, IfOk, None};
ghost use Rattle.std.specs.Option.{option_copied};
ghost use Rattle.private_merge.specs.Merge.{IsMergedValue};
ghost use Rattle.private_merge.specs.Walking.{standing, AreTwo, IsChanged, IsOnBoth, IsUntouched};

use cfg_base::{NoMemory, Path, Value};
use std::marker::Model;

/// Whether the same stands on two sides.
pub fn same(one: Option<&Value>, other: Option<&Value>) -> bool
    ensures { Decides result (option_copied one.entry ≡ option_copied other.entry) }
{
    match (one, other) {
        (None, None) => true,
        (Some(one), Some(other)) => one == other,
        _ => false,
    }
}

/// What is merged of three values of one path.
pub fn merged_of<'a>(
    base: Option<&Value>,
    active: Option<&'a Value>,
    mine: Option<&'a Value>,
) -> Option<&'a Value>
    ensures { IsMergedValue (option_copied base.entry) (option_copied active.entry) (option_copied mine.entry)
        (option_copied result) }
{
    if same(mine, base) { active } else { mine }
}

/// A path, and what stands there on each side.
#[derive(Debug, Drop)]
pub struct Place<'a> {
    path: &'a Path,
    base: Option<&'a Value>,
    active: Option<&'a Value>,
    mine: Option<&'a Value>,
}

impl<'a> Model for Place<'a> {
    ghost use Rattle.std.specs.Option.{option_copied};
    ghost use Rattle.private_merge.specs.Walking.{PlaceView, standing};

    ghost Value = { PlaceView };

    ghost view = { λ p. standing p.path.now (option_copied p.base) (option_copied p.active) (option_copied p.mine) };
}

impl<'a> Place<'a> {
    pub fn of(
        path: &'a Path,
        base: Option<&'a Value>,
        active: Option<&'a Value>,
        mine: Option<&'a Value>,
    ) -> Place<'a>
        ensures { result ≡ standing path.now (option_copied base.entry) (option_copied active.entry)
            (option_copied mine.entry) }
    {
        Place {
            path,
            base,
            active,
            mine,
        }
    }

    pub fn path(&self) -> &'a Path
        ensures { result.now ≡ self.now.path }
    {
        self.path
    }

    /// Whether neither side changed what stands here.
    pub fn is_untouched(&self) -> bool
        ensures { Decides result (IsUntouched self.now) }
    {
        same(self.mine, self.base) && same(self.active, self.base)
    }

    /// Whether both sides changed it, and not to the same.
    pub fn is_changed_twice(&self) -> bool
        ensures { Decides result (AreTwo self.now) }
    {
        !same(self.mine, self.base)
            && !same(self.active, self.base)
            && !same(self.mine, self.active)
    }

    /// Whether a statement stands here on both sides.
    pub fn is_on_both(&self) -> bool
        ensures { Decides result (IsOnBoth self.now) }
    {
        self.active.is_some() && self.mine.is_some()
    }

    /// Whether nothing is merged here.
    pub fn is_gone(&self) -> bool
        ensures { Decides result (IsMergedValue self.now.base self.now.active self.now.mine None) }
    {
        merged_of(self.base, self.active, self.mine).is_none()
    }

    /// Whether what is merged here isn't what is active.
    pub fn is_changed(&self) -> bool
        ensures { Decides result (IsChanged self.now) }
    {
        !same(self.mine, self.base) && !same(self.mine, self.active)
    }

    /// The path, and the candidate's own value.
    pub fn own(&self) -> Result<(Path, Option<Value>), NoMemory>
        ensures { IfOk result (λ own. own ≡ (self.now.path, self.now.mine)) }
    {
        let path = self.path.clone()?;
        match self.mine {
            None => Ok((path, None)),
            Some(value) => Ok((path, Some(value.clone()?))),
        }
    }
}
