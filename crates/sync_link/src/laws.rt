//! What holds of a backup at every moment.

ghost use Rattle.std.specs.Prelude.{◌≡◌, ◌≤◌, ◌<◌, ◌⊎◌, ◌++◌, [], ℕ, List, None};
ghost use Rattle.disk_model.specs.Pair.{DiskPair};
ghost use Rattle.commit_journal.specs.Held.{calls_of};
ghost use Rattle.commit_journal.specs.Journal.{Tell, a_of, b_of};
ghost use Rattle.commit_journal.specs.Spans.{InSpan, IsReckoned, last_calls, next_calls, none_called};
ghost use Rattle.commit_ledger.specs.Checkpoint.{AreAlike};
ghost use Rattle.sync_link.specs.declared.mark.Mark.{Mark};
ghost use Rattle.sync_link.specs.declared.message.Message.{Message};
ghost use Rattle.sync_link.specs.Lines.{IsLine, Line, LineGoesOn};
ghost use Rattle.sync_link.specs.Marks.{SpeltBy, calls_in, last_count};
ghost use Rattle.sync_link.specs.Pairs.{Pair, Happening, Begins, Comes, IsPaired};
ghost use Rattle.sync_link.specs.Takes.{FitsIn, IsOf};
ghost use Rattle.sync_link.specs.Views.{BackupView, IsBacked, IsBegun};

/// Two engines stay paired, whatever is lost, repeated or reordered, and whichever of them stops and is started again.
pub fn pairs_stay_paired<E>()
    ensures { (first last : Pair E) (happened : List (Happening E)) → Begins first → Comes first happened last
        → IsPaired last }
{}

/// A backup is its master's as it starts, where its list is shorter than the master's, or alike.
pub fn backups_begin_their_masters()
    ensures { (line : Line) (disks : DiskPair) (limit : ℕ) (v : BackupView) → IsBegun disks limit v → v.kept ≡ line.own
        → (line.own.count < line.first.count) ⊎ AreAlike line.own line.first → IsBacked line v }
{}

/// A backup stays its master's as the master's list goes on, and as it is told how many events there are.
pub fn backups_stay_their_masters()
    ensures on { (line line' : Line) (v : BackupView) → LineGoesOn v.events line line' → IsBacked line v → IsBacked line' v }
    ensures at { (line : Line) (v : BackupView) (events : ℕ) → v.events ≤ events → IsBacked line v
        → IsBacked line (record v { events = events }) }
{}

/// A backup can take each message of its master's list.
pub fn backups_can_take_what_is_sent()
    ensures { (line : Line) (v : BackupView) (message : Message) → IsLine line → IsOf line message → IsBacked line v
        → FitsIn v message }
{}

/// From a mark on at which the backup had so many entries a crash at any moment leaves no fewer on its disks, and a front of
/// the master's list.
pub fn what_is_synchronized_stays()
    ensures { (line : Line) (v : BackupView) (count : ℕ) (before more after : List Mark) → IsBacked line v
        → v.marks ≡ before ++ (more ++ after) → count ≤ last_count line.own.count before
        → Tell v.files → IsReckoned (a_of v.files) → IsReckoned (b_of v.files) → (c d : List ℕ)
        → InSpan (a_of v.files) (calls_of v.files).a (last_calls calls_in none_called (before ++ more)).a
        (next_calls calls_in (calls_of v.files) after).a c
        → InSpan (b_of v.files) (calls_of v.files).b (last_calls calls_in none_called (before ++ more)).b
        (next_calls calls_in (calls_of v.files) after).b d
        → SpeltBy line (before ++ more) after c d × (count ≤ last_count line.own.count (before ++ more)) }
{}
