//! A candidate's map is what its edits make of its base, and a command leaves one candidate.

ghost use Rattle.std.specs.Prelude.{◌≡◌, ◌≢◌, ◌++◌, ℕ, List, []};
ghost use Rattle.cfg_base.specs.declared.path.Step.{Step};
ghost use Rattle.cfg_tree.specs.Statements.{Statements};
ghost use Rattle.cfg_tree.specs.Typed.{IsLevelPath};
ghost use Rattle.commands.specs.declared.command.Op.{Op};
ghost use Rattle.candidate.specs.Edits.{Edit, CandidateView, AreEditsOf, IsEdited, IsCandidateChange};
ghost use Rattle.candidate.specs.Edits.{fresh, after_edits};

/// A fresh candidate has no edits. A command whose edits change the map adds them, and one whose edits leave the map as
/// it was adds none.
pub fn edits_make_the_candidate()
    ensures none { (number : ℕ) (base : Statements) → AreEditsOf (fresh number base) [] }
    ensures more { (old new : CandidateView) (edits added : List Edit) → AreEditsOf old edits
        → IsEdited old new (after_edits old.map added) → after_edits old.map added ≢ old.map → AreEditsOf new (edits ++ added) }
    ensures same { (old new : CandidateView) (edits added : List Edit) → AreEditsOf old edits
        → IsEdited old new (after_edits old.map added) → after_edits old.map added ≡ old.map → AreEditsOf new edits }
{}

/// A command that makes a map of a candidate leaves one candidate, and so does a change.
pub fn edits_have_one_answer()
    ensures one_edit { (old one other : CandidateView) (made : Statements) → IsEdited old one made
        → IsEdited old other made → one ≡ other }
    ensures one_change { (old one other : CandidateView) (level : List Step) (op : Op) → IsLevelPath level
        → IsCandidateChange old one level op → IsCandidateChange old other level op → one ≡ other }
{}
