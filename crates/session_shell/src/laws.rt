//! What a door gave stays named, and a session has one text.

ghost use Rattle.std.specs.Prelude.{◌≡◌, ℕ, List};
ghost use Rattle.std.specs.List.{AllByRecursion, flat_map};
ghost use Rattle.session_shell.specs.Exchange.{Exchange};
ghost use Rattle.session_shell.specs.Law.{Agree, IsDetermined, IsNamed, IsShown, SeeAlike, Undisturbed, kept_place, synced_in};
ghost use Rattle.session_shell.specs.Transcript.{GoesBy, SessionView};

use crate::door::Door;
use curly_grammar::texts_say_one_thing;
use curly_text::printed_text_is_read_back;
use json_text::texts_have_one_answer;
use shell_words::lines_are_read_in_one_way;

/// What a door gave for a session is what it names at the end. It answered no command but a show of the active configuration or
/// of the commits from a snapshot.
pub fn replies_are_named<D: Door>()
    ensures named { (exchanges : List Exchange) (d e : D) → GoesBy D.follows D.syncs exchanges d e
        → AllByRecursion (IsNamed D.names e) exchanges }
    ensures shows { (exchanges : List Exchange) (d e : D) → GoesBy D.follows D.syncs exchanges d e
        → AllByRecursion IsShown exchanges }
{}

/// Two sessions over the same bytes and the same clock that nothing disturbs have the same turns and the same text, where their
/// events stand at the same places, the same turns were answered without an event and rest on the same (snapshots of as many
/// entries, rights that are lacking, faults of disks), their synchronized commits were answered the same of the backup, and their
/// doors name the same. Where other callers ask between, places differ. Over one door that leaves no choice nothing more is asked,
/// and it ends alike.
pub fn sessions_have_one_text<D: Door>()
    ensures text { (limit : ℕ) (bytes : List ℕ) (coming : ℕ → ℕ) (d e d' e' : D) (one other : SessionView)
        → Undisturbed D.follows D.syncs limit bytes coming d e one → Undisturbed D.follows D.syncs limit bytes coming d' e' other
        → Agree D.names e e' → flat_map kept_place one.turns ≡ flat_map kept_place other.turns → SeeAlike one.turns other.turns
        → flat_map synced_in one.turns ≡ flat_map synced_in other.turns
        → (one.turns ≡ other.turns) × (one.held ≡ other.held) }
    ensures run { (limit : ℕ) (bytes : List ℕ) (coming : ℕ → ℕ) (d e e' : D) (one other : SessionView)
        → IsDetermined D.follows D.syncs → Undisturbed D.follows D.syncs limit bytes coming d e one
        → Undisturbed D.follows D.syncs limit bytes coming d e' other
        → (one.turns ≡ other.turns) × (one.held ≡ other.held) × (e ≡ e') }
{
    lines_are_read_in_one_way();
    texts_have_one_answer();
    printed_text_is_read_back();
    texts_say_one_thing();
}
