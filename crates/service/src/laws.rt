//! A session over a history that no fault disturbs has one text, a view's number of entries determines what it is, and mode gen
//! writes one text.

ghost use Rattle.std.specs.Prelude.{◌≡◌, ℕ, List, []};
ghost use Rattle.commands.specs.declared.command.Command.{Command};
ghost use Rattle.commit_ledger.specs.Kept.{Kept};
ghost use Rattle.config_core.specs.State.{opening_of};
ghost use Rattle.config_core.specs.declared.reply.Reply.{Reply};
ghost use Rattle.session_history.specs.declared.history.Happened.{Happened};
ghost use Rattle.session_history.specs.declared.history.History.{History};
ghost use Rattle.session_shell.specs.Law.{Agree, SeeAlike, Undisturbed};
ghost use Rattle.session_shell.specs.Transcript.{SessionView};
ghost use Rattle.session_threads.specs.History.{FollowsAsked, IsKeptThen, Known, Names, ShowsKept, known_first};
ghost use Rattle.session_threads.specs.Syncs.{WithoutBackup};
ghost use Rattle.service.specs.Alone.{AreAlike, IsAlone, unasked};
ghost use Rattle.service.specs.Generating.{IsGenerated};

use config_core::steps_have_one_outcome;
use curly_grammar::texts_say_one_thing;
use curly_text::printed_text_is_read_back;
use group_expand::expansion_is_one;
use json_text::texts_have_one_answer;
use session_history::histories_have_one_outcome;
use shell_words::lines_are_read_in_one_way;

/// In a run whose words don't ask for rights: two sessions over the same bytes and the same clock that nothing disturbs, that
/// each made all the events of their history while no disk failed, and of which the same turns were answered from views of as
/// many entries, have the same turns and the same text, and their histories are one but for the numbers of calls, which are the
/// disks'. In any run a history names one reply at a place, and of so many entries a run names one reply to a show.
pub fn sessions_have_one_text()
    ensures alone { (kept : Kept) (users : List (List ℕ)) (caller limit : ℕ) (bytes : List ℕ) (coming : ℕ → ℕ)
        (after after' : Known) (one other : SessionView)
        → Undisturbed (FollowsAsked (unasked (opening_of kept users) caller) after.events) WithoutBackup limit bytes coming
        (known_first (opening_of kept users) []) after one
        → IsAlone (opening_of kept users) caller after.events
        → Undisturbed (FollowsAsked (unasked (opening_of kept users) caller) after'.events) WithoutBackup limit bytes coming
        (known_first (opening_of kept users) []) after' other
        → IsAlone (opening_of kept users) caller after'.events
        → SeeAlike one.turns other.turns
        → (one.turns ≡ other.turns) × (one.held ≡ other.held) × AreAlike after.events after'.events }
    ensures replies { (kept : Kept) (users : List (List ℕ)) (caller : ℕ) (events : List Happened) (d : Known)
        → Agree (Names (opening_of kept users) caller events) d d }
{
    histories_have_one_outcome();
    lines_are_read_in_one_way();
    texts_have_one_answer();
    printed_text_is_read_back();
    texts_say_one_thing();
    steps_have_one_outcome();
}

/// In one run one list of commits was kept that had so many entries, and of a list that was kept a show says one thing.
pub fn fronts_tell_what_was_kept()
    ensures kept { (kept : Kept) (users : List (List ℕ)) (events : List Happened) (front : ℕ) (one other : Kept)
        → IsKeptThen (opening_of kept users) events front one → IsKeptThen (opening_of kept users) events front other
        → one ≡ other }
    ensures shown { (kept : Kept) (command : Command) (one other : Reply) → ShowsKept kept command one
        → ShowsKept kept command other → one ≡ other }
{
    histories_have_one_outcome();
    steps_have_one_outcome();
}

/// Of so many interfaces and these users mode gen reports one text.
pub fn generated_texts_are_one()
    ensures { (number : ℕ) (users : List (List ℕ)) (one other : History) (text text2 : List ℕ)
        → IsGenerated number users one text → IsGenerated number users other text2 → text ≡ text2 }
{
    histories_have_one_outcome();
    expansion_is_one();
}
