//! A history has one outcome, goes on in one way, and keeps the active configuration accepted.

ghost use Rattle.std.specs.Prelude.{◌≡◌, ℕ, List};
ghost use Rattle.commit_ledger.specs.Kept.{Kept};
ghost use Rattle.config_core.specs.Machine.{Steps};
ghost use Rattle.config_core.specs.Serving.{Turned};
ghost use Rattle.config_core.specs.Soundness.{IsSoundState};
ghost use Rattle.config_core.specs.State.{State, opening_of};
ghost use Rattle.config_core.specs.declared.reply.Reply.{Reply};
ghost use Rattle.session_history.specs.declared.history.Happened.{Happened};
ghost use Rattle.session_history.specs.Events.{IsAt, IsLegal, Leads, StaysAccepted};

use config_core::{active_configuration_stays_accepted, steps_have_one_outcome};

/// The events of a run lead to one state, and what happened at a place of them is one event, with one reply.
pub fn histories_have_one_outcome()
    ensures state { (kept : Kept) (users : List (List ℕ)) (events : List Happened) (one other : State)
        → Leads (opening_of kept users) events one → Leads (opening_of kept users) events other → one ≡ other }
    ensures reply { (kept : Kept) (users : List (List ℕ)) (events : List Happened) (place : ℕ) (before again : State)
        (event same : Happened) (one other : Reply) → IsAt (opening_of kept users) events place before event one
        → IsAt (opening_of kept users) events place again same other → (event ≡ same) × (before ≡ again) × (one ≡ other) }
{
    steps_have_one_outcome();
}

/// Behind the events of a run an event with its outcome leaves one state, with one reply and one entry or none.
pub fn histories_go_on_in_one_way()
    ensures { (kept : Kept) (users : List (List ℕ)) (events : List Happened) (s : State) (event : Happened) (one other : Turned)
        → Leads (opening_of kept users) events s → Steps s event.caller event.moment event.event event.outcome one
        → Steps s event.caller event.moment event.event event.outcome other → one ≡ other }
{
    steps_have_one_outcome();
}

/// Where events lead on from a sound state, the active configuration is accepted at the opening and after every one of them.
pub fn histories_stay_accepted()
    ensures { (s : State) (events : List Happened) → IsSoundState s → IsLegal s events → StaysAccepted s events }
{
    active_configuration_stays_accepted();
}
