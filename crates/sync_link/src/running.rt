//! A master's run, and its line.

ghost use Rattle.std.specs.Prelude.{◌++◌, ◌∷◌, [], List};
ghost use Rattle.commit_ledger.specs.declared.entry.Entry.{Entry};
ghost use Rattle.commit_ledger.specs.Kept.{Kept, after_entries};
ghost use Rattle.sync_link.specs.Lines.{IsLineBehind, IsLineOf, Line};

/// What a master's run leads to.
pub trait Run {
    type Event;

    /// Behind these events this is kept.
    ghost leads: { List Self.Event → Kept → Type 0 };
}

/// A run's line goes on with each event, by the entries that it adds.
pub fn lines_go_on<R: Run>()
    ensures { (events : List R.Event) (event : R.Event) (added : List Entry) (line : Line) → IsLineOf R.leads events line
        → R.leads (events ++ event ∷ []) (after_entries line.first (line.entries ++ added))
        → (line' : Line) × IsLineBehind R.leads events event added line line' }
{}
