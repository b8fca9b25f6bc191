//! What follows a commit that is synchronized.

ghost use Rattle.std.specs.Prelude.{◌≡◌};
ghost use Rattle.commands.specs.declared.command.Command.{Command};
ghost use Rattle.session_shell.specs.declared.reading.Item.TheVariants.{Synchronize};
ghost use Rattle.session_shell.specs.Exchange.{asked_item};
ghost use Rattle.session_shell.specs.Json.{MayBeWritten};
ghost use Rattle.session_shell.specs.Shows.{is_committed};
ghost use Rattle.session_shell.specs.Transcript.{SyncsBy};

use crate::door::{Door, Given0};
use crate::json_show::Manner;
use config_core::Reply;
use std::sync::Wait;

/// Whether an event was made that is a commit.
fn is_committed(given: &Given0) -> bool
    ensures { result ≡ is_committed given.now }
{
    match given {
        Given0::Kept {
            place: _,
            reply: Reply::Committed { .. },
        } => true,
        _ => false,
    }
}

/// Synchronizes the door, where the commit was made, and says how what was given for it is written.
pub(crate) fn manner_of_commit<D: Door, R: Wait>(rt: &R, door: &mut D, given: &Given0) -> Manner
    ensures synced { SyncsBy D.syncs result door.old door.new }
    ensures written { (command : Command) → MayBeWritten command given.now result }
    ensures item { (command : Command) → asked_item result command ≡ Synchronize command }
{
    if is_committed(given) {
        Manner::Synchronized(door.synchronize(rt))
    } else {
        Manner::NoCommit
    }
}
