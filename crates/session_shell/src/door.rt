//! What a session asks its commands of.

ghost use Rattle.std.specs.Prelude.{ℕ};
ghost use Rattle.commands.specs.Sound.{IsSound};
ghost use Rattle.commands.specs.declared.command.Command.{Command};
ghost use Rattle.session_shell.specs.declared.door.Given0.{Given0};
ghost use Rattle.session_shell.specs.declared.door.SyncedTurn.{SyncedTurn};
ghost use Rattle.session_shell.specs.Shows.{PrintsWhole, SeesShow};

use access_rules::Right;
use cfg_base::Moment;
use commands::Command;
use commit_ledger::Synced;
use config_core::Reply;
use std::sync::Wait;

/// What a door gave for a command.
#[derive(Debug, Drop)]
pub enum Given0 {
    /// The event of the command stands at that place of the history, counted from 0, and that is its reply.
    Kept { place: u64, reply: Reply },
    /// No event was made: the reply was read from a snapshot that has that many entries of the list of commits.
    Seen { front: u64, reply: Reply },
    /// No event was made: the caller's user lacks that right, by the first so many entries of the list of commits.
    Denied { front: u64, right: Right },
    /// No event was made: a disk failed before the command was asked, and the list of commits has that many entries.
    Unready { front: u64 },
    /// Memory ran out.
    NoMemory,
}

/// What a door answered to `synchronize`.
#[derive(Clone, Copy, Debug, PartialEq, Eq)]
pub enum SyncedTurn {
    /// What is known of the backup's list.
    Synced(Synced),
    /// Memory ran out.
    NoMemory,
}

/// What a session asks its commands of: the machine, as one caller sees it.
pub trait Door {
    // what belongs to a command at a moment: the event at its place, or a snapshot, with its reply; or why there is none
    ghost names: { Self → Command → ℕ → Given0 → Type 0 };

    // how the door may stand after one command at a moment, for which that was given
    ghost follows: { Self → Command → ℕ → Given0 → Self → Type 0 };

    // how the door may stand after one `synchronize` that gave that answer
    ghost syncs: { Self → SyncedTurn → Self → Type 0 };

    /// Asks a command at a moment.
    fn ask<R: Wait>(&mut self, rt: &R, moment: Moment, command: Command) -> Given0
        requires { IsSound command }
        ensures { follows self.old command moment result self.new };

    /// Brings the backup's list up to the list of commits, as far as it can. It makes no event and takes no answer of a clock.
    fn synchronize<R: Wait>(&mut self, rt: &R) -> SyncedTurn
        ensures { syncs self.old result self.new };

    // what was given is what the door names
    ghost named: { (d e : Self) (command : Command) (moment : ℕ) (given : Given0) → follows d command moment given e
        → names e command moment given };

    // what was named stays, after a command and after a `synchronize`
    ghost keeps: { (d e : Self) (command : Command) (moment : ℕ) (given : Given0) → follows d command moment given e
        → (asked : Command) (when : ℕ) (was : Given0) → names d asked when was → names e asked when was };

    ghost keeps_synced: { (d e : Self) (synced : SyncedTurn) → syncs d synced e
        → (asked : Command) (when : ℕ) (was : Given0) → names d asked when was → names e asked when was };

    // only a show of the active configuration or of the commits is answered from a snapshot
    ghost shows: { (d e : Self) (command : Command) (moment : ℕ) (given : Given0) → follows d command moment given e
        → SeesShow command given };

    // a text that was given for the show of the whole active configuration in curly form is that of a configuration
    ghost prints: { (d e : Self) (command : Command) (moment : ℕ) (given : Given0) → follows d command moment given e
        → PrintsWhole command given };
}
