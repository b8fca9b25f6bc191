ghost use Rattle.std.specs.Prelude.{◌≡◌, ◌<◌, ◌↔◌, IsSome, IfSome, length};
ghost use Rattle.cfg_schema.specs.declared.rows.TheConstants.{ROWS};

use cfg_base::{Kind, Shape};
use std::marker::Model;

/// The number of rows, the top among them.
pub const ROWS: u8 = 119;

/// The row `groups`.
pub const GROUPS: u8 = 2;

/// The row of a group's name.
pub const GROUP: u8 = 3;

/// The row `apply-groups`.
pub const APPLY_GROUPS: u8 = 4;

/// The row `apply-groups-except`, after it.
pub const APPLY_GROUPS_EXCEPT: u8 = 5;

/// The number of a row of the profile, or 0 for the top.
#[derive(Clone, Copy, Debug, PartialEq, Eq)]
pub struct RowId(u8);

impl Model for RowId {
    ghost use Rattle.std.specs.Prelude.{ℕ, ◌<◌};
    ghost use Rattle.cfg_schema.specs.declared.rows.TheConstants.{ROWS};

    ghost Value = { ℕ };

    ghost view = { λ id. id.0 };

    ghost invariant = { λ id. id.0 < ROWS };

    ghost inverse = { λ n. record { 0 = n } };
}

impl RowId {
    /// The top.
    pub fn top() -> RowId
        ensures { result ≡ 0 }
    {
        RowId(0)
    }

    /// The row of that number, where there is one.
    pub fn of(number: u8) -> Option<RowId>
        ensures found { IsSome result ↔ (number < ROWS) }
        ensures same { IfSome result (λ id. id ≡ number) }
    {
        if number < ROWS {
            Some(RowId(number))
        } else {
            None
        }
    }

    /// The row at that place of the table.
    pub fn at(place: usize) -> RowId
        requires { place < ROWS }
        ensures { result ≡ place }
    {
        RowId(place as u8)
    }

    /// The number of the row.
    pub fn number(self) -> u8
        ensures same { result ≡ self }
        ensures within { result < ROWS }
    {
        self.0
    }
}

/// What is said of a row. Where a row has no name or no value, that kind is `Name`.
#[derive(Clone, Copy, Debug, PartialEq, Eq)]
pub struct Row {
    pub id: RowId,
    pub shape: Shape,
    /// What its names are.
    pub name_kind: Kind,
    /// What its words are.
    pub value_kind: Kind,
    /// Whether its names keep the user's order.
    pub ordered: bool,
}
