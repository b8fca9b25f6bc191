//! The item of a load, whose JSON text has ended.

ghost use Rattle.std.specs.Prelude.{Some, true};
ghost use Rattle.session_shell.specs.Items.{AsksSound, EndsText, IsLoadOf};

use crate::reading::Item;
use cfg_base::{NoMemory, Path};
use cfg_tree::Tree;
use commands::{Command, LoadWay};
use curly_print::print;
use json_text::read;
use reply_text::ShellFault;
use std::alloc::Global;

/// The load of what is printed of a configuration.
fn load_of(alloc: Global, way: LoadWay, tree: &Tree) -> Item
    ensures ends { IsLoadOf way tree.now result }
    ensures sound { AsksSound (Some result) }
{
    match print(alloc, tree, &Path::top(alloc)) {
        Ok(text) => Item::Ask(Command::Load { way, text }),
        Err(NoMemory) => Item::NoMemory,
    }
}

/// The item of a load of a JSON text: the load of the configuration that it says, or its fault.
pub(crate) fn json_item(alloc: Global, way: LoadWay, text: &[u8]) -> Item
    ensures ends { EndsText way true text.now result }
    ensures sound { AsksSound (Some result) }
{
    match read(alloc, text) {
        Ok(tree) => load_of(alloc, way, &tree),
        Err(json_text::ReadFault::Json(fault)) => Item::Wrong(ShellFault::Json(fault)),
        Err(json_text::ReadFault::NoMemory) => Item::NoMemory,
    }
}
