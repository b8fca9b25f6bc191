//! A step has one outcome, leaves the active configuration accepted, leaves the other callers where they are, and gives a
//! session a candidate of its own exactly in private mode; and it is stated which paths are levels.

ghost use Rattle.std.specs.Prelude.{◌≡◌, ◌<◌, ◌↔◌, ℕ, true, List, IfSome};
ghost use Rattle.cfg_base.specs.declared.path.Step.{Step};
ghost use Rattle.cfg_tree.specs.Typed.{IsTypedPath, IsLevelPath};
ghost use Rattle.commands.specs.declared.command.Command.{Command};
ghost use Rattle.commit_ledger.specs.Kept.{Kept, factory};
ghost use Rattle.config_core.specs.declared.event.Event.{Event};
ghost use Rattle.config_core.specs.declared.event.Outcome.{Outcome};
ghost use Rattle.config_core.specs.declared.reply.Reply.{Reply};
ghost use Rattle.config_core.specs.State.{State, IsActiveAccepted, HasNoneInFlight, fresh_of, opening_of};
ghost use Rattle.config_core.specs.Callers.{caller_of, candidate_of, level_of, own_of};
ghost use Rattle.config_core.specs.Levels.{is_level_at};
ghost use Rattle.config_core.specs.Serving.{Turned};
ghost use Rattle.config_core.specs.Machine.{Fits, IsNotAskedBy, Steps};
ghost use Rattle.config_core.specs.Soundness.{IsSoundKept, IsSoundMade, IsSoundState, OwnByMode};

use candidate::edits_have_one_answer;
use cfg_resolve::words_have_one_answer;
use commit_check::{checks_have_one_answer, nothing_is_accepted};
use commit_ledger::listings_are_one_text;
use edit_ops::changes_have_one_answer;
use group_expand::expansion_is_one;
use load_ops::loads_have_one_answer;
use private_merge::merges_have_one_answer;

/// Of a caller that stands at a level, an event at a moment with an outcome leaves one state, with one reply and one entry or
/// none.
pub fn steps_have_one_outcome()
    ensures { (s : State) (caller moment : ℕ) (event : Event) (outcome : Outcome) (one other : Turned)
        → IsLevelPath (level_of s caller) → Steps s caller moment event outcome one → Steps s caller moment event outcome other
        → one ≡ other }
{
    words_have_one_answer();
    changes_have_one_answer();
    expansion_is_one();
    checks_have_one_answer();
    loads_have_one_answer();
    listings_are_one_text();
    merges_have_one_answer();
    edits_have_one_answer();
}

/// The active configuration is accepted where the list begins, and stays so whatever events come and however they end: a commit
/// whose map breaks a rule isn't made, and neither a settling nor a revert brings one. Each entry that is made may be the next
/// of the list.
pub fn active_configuration_stays_accepted()
    ensures factory { IsSoundKept factory }
    ensures opening { (kept : Kept) (users : List (List ℕ)) → IsSoundKept kept → IsSoundState (opening_of kept users) }
    ensures steps { (s : State) (caller moment : ℕ) (event : Event) (outcome : Outcome) (turned : Turned) → IsSoundState s
        → Fits s caller moment event → Steps s caller moment event outcome turned → IsSoundState turned.state }
    ensures entries { (s : State) (caller moment : ℕ) (event : Event) (outcome : Outcome) (turned : Turned) → IsSoundState s
        → Fits s caller moment event → Steps s caller moment event outcome turned
        → IfSome turned.made (IsSoundMade s.kept moment) }
    ensures accepted { (s : State) → IsSoundState s → IsActiveAccepted s }
{
    nothing_is_accepted();
}

/// Where a caller stands and how it edits is changed by its own commands alone: by no other caller's, and by no settling and no
/// revert, in whoever's turn they come. Nor is a private session's own candidate, with its base, but where its own commit was in
/// flight and is settled.
pub fn others_stay_where_they_are()
    ensures callers { (s : State) (caller other moment : ℕ) (event : Event) (outcome : Outcome) (turned : Turned)
        → 0 < other → IsNotAskedBy other caller event → Steps s caller moment event outcome turned
        → caller_of turned.state other ≡ caller_of s other }
    ensures candidates { (s : State) (caller other moment : ℕ) (event : Event) (outcome : Outcome) (turned : Turned)
        → 0 < other → IsNotAskedBy other caller event → Steps s caller moment event outcome turned
        → HasNoneInFlight s other → own_of turned.state other ≡ own_of s other }
{}

/// A session has a candidate of its own exactly where it is in private mode, from the opening on.
pub fn private_sessions_edit_their_own()
    ensures opening { (kept : Kept) (users : List (List ℕ))
        → OwnByMode (opening_of kept users).own (opening_of kept users).callers }
    ensures steps { (s : State) (caller moment : ℕ) (event : Event) (outcome : Outcome) (turned : Turned)
        → OwnByMode s.own s.callers → Steps s caller moment event outcome turned
        → OwnByMode turned.state.own turned.state.callers }
{}

/// What `rollback 0` leaves is the last commit's candidate, and nothing of it is a change.
pub fn rollback_0_leaves_nothing_modified()
    ensures { (s : State) (caller moment : ℕ) (turned : Turned)
        → Steps s caller moment (Event.Command (Command.Rollback 0)) Outcome.Done turned → turned.reply ≡ Reply.Loaded
        → candidate_of turned.state caller ≡ fresh_of turned.state.kept.last }
{}

/// Of a path that follows the profile's rows it is stated whether it is a level.
pub fn levels_are_told()
    ensures { (path : List Step) → IsTypedPath path → (is_level_at path ≡ true) ↔ IsLevelPath path }
{}
