//! What the events of a run add to its list.

ghost use Rattle.std.specs.Prelude.{◌≡◌, ◌++◌, ℕ, List};
ghost use Rattle.commit_ledger.specs.declared.entry.Entry.{Entry};
ghost use Rattle.commit_ledger.specs.Kept.{Kept, after_entries};
ghost use Rattle.config_core.specs.State.{State, opening_of};
ghost use Rattle.session_history.specs.declared.history.Happened.{Happened};
ghost use Rattle.session_history.specs.Events.{Leads};
ghost use Rattle.config_db.specs.Added.{Adds, AddsFirst, AddsFront, AllFollow};

use session_history::histories_go_on_in_one_way;

/// The events of a run add one list of entries. Each may be the next one behind those before it; what is kept is what they leave; and the
/// fronts of that list are what some number of the first events add.
pub fn events_add_one_list()
    ensures one { (kept : Kept) (users : List (List ℕ)) (events : List Happened) (last again : State) (entries others : List Entry)
        → Adds (opening_of kept users) events last entries → Adds (opening_of kept users) events again others → entries ≡ others }
    ensures leads { (s last : State) (events : List Happened) (entries : List Entry)
        → Adds s events last entries → Leads s events last }
    ensures kept { (s last : State) (events : List Happened) (entries : List Entry)
        → Adds s events last entries → last.kept ≡ after_entries s.kept entries }
    ensures follow { (s last : State) (events : List Happened) (entries : List Entry)
        → Adds s events last entries → AllFollow s.kept entries }
    ensures behind { (s last : State) (events : List Happened) (entries : List Entry) (count : ℕ)
        → Adds s events last entries → AddsFront s events entries count }
    ensures front { (s last : State) (events : List Happened) (entries front rest : List Entry)
        → Adds s events last entries → entries ≡ front ++ rest → (count : ℕ) × AddsFirst s events count front }
{
    histories_go_on_in_one_way();
}
