//! How words, changes, loads and merges are refused, and which paths are levels.

ghost use Rattle.std.specs.Prelude.{◌≡◌};
ghost use Rattle.config_core.specs.Levels.{is_level_at};
ghost use Rattle.config_core.specs.Showing.{refusal_of, text_refusal_of, line_refusal_of, load_refusal_of, merge_refusal_of};

use crate::reply::Refusal;
use cfg_base::{Path, Shape};
use cfg_schema::{Place, row};
use curly_grammar::TextFault;
use edit_ops::EditFault;
use load_ops::LoadFault;
use private_merge::MergeFault;
use set_text::LineFault;

/// The refusal of a change; none for want of memory.
pub(crate) fn refusal_of(fault: EditFault) -> Option<Refusal>
    ensures { result ≡ refusal_of fault }
{
    match fault {
        EditFault::Unknown(path) => Some(Refusal::Unknown(path)),
        EditFault::BadValue(path) => Some(Refusal::BadValue(path)),
        EditFault::Incomplete(path) => Some(Refusal::Incomplete(path)),
        EditFault::Extra(path) => Some(Refusal::Extra(path)),
        EditFault::NotNamed(path) => Some(Refusal::NotNamed(path)),
        EditFault::NotOrdered(path) => Some(Refusal::NotOrdered(path)),
        EditFault::NotThere(path) => Some(Refusal::NotThere(path)),
        EditFault::AlreadyThere(path) => Some(Refusal::AlreadyThere(path)),
        EditFault::Protected(path) => Some(Refusal::Protected(path)),
        EditFault::TooMany => Some(Refusal::TooMany),
        EditFault::NoMemory => None,
    }
}

fn text_refusal_of(fault: TextFault) -> Option<Refusal>
    ensures { result ≡ text_refusal_of fault }
{
    match fault {
        TextFault::TooMany => Some(Refusal::TooMany),
        TextFault::NoMemory => None,
        fault => Some(Refusal::Text(fault)),
    }
}

fn line_refusal_of(fault: LineFault) -> Option<Refusal>
    ensures { result ≡ line_refusal_of fault }
{
    match fault {
        LineFault::Line { line, place } => Some(Refusal::Line { line, place }),
        LineFault::NoMemory => None,
    }
}

/// The refusal of a load; none for want of memory.
pub(crate) fn load_refusal_of(fault: LoadFault) -> Option<Refusal>
    ensures { result ≡ load_refusal_of fault }
{
    match fault {
        LoadFault::Text(fault) => text_refusal_of(fault),
        LoadFault::Line(fault) => line_refusal_of(fault),
        LoadFault::Edit { line, fault } => Some(Refusal::LineEdit { line, fault }),
        LoadFault::Protected(path) => Some(Refusal::Protected(path)),
        LoadFault::TooMany => Some(Refusal::TooMany),
        LoadFault::NoMemory => None,
    }
}

/// The refusal of a merge; none for want of memory.
pub(crate) fn merge_refusal_of(fault: MergeFault) -> Option<Refusal>
    ensures { result ≡ merge_refusal_of fault }
{
    match fault {
        MergeFault::Conflict(path) => Some(Refusal::Conflict(path)),
        MergeFault::TooMany => Some(Refusal::TooMany),
        MergeFault::NoMemory => None,
    }
}

/// Whether a path is the top or follows a row that is a level.
pub(crate) fn is_level_at(path: &Path) -> bool
    ensures { result ≡ is_level_at path.now }
{
    match Place::of(path.steps()) {
        Some(here) => match row(here.row).shape {
            Shape::Container | Shape::Fixed | Shape::Keyed | Shape::Bare => true,
            Shape::Leaf | Shape::Flag | Shape::Many => false,
        },
        None => false,
    }
}
