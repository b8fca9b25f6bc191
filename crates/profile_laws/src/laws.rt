ghost use Rattle.std.specs.Prelude.{◌≡◌, ◌↔◌, []};
ghost use Rattle.cfg_tree.specs.FirstProfile.{IsFirstProfile};
ghost use Rattle.cfg_tree.specs.Full.{Expansion};
ghost use Rattle.cfg_tree.specs.Statements.{Statements};
ghost use Rattle.cfg_tree.specs.Tree.{IsTree};
ghost use Rattle.curly_print.specs.Printed.{printed};
ghost use Rattle.commit_check.specs.Accepts.{IsAccepted};
ghost use Rattle.profile_laws.specs.Was.{WasAccepted, WasTree, was_text};

/// What was a configuration before is exactly what is one and is of the first profile. Its canonical text is the same; and what
/// was accepted with an expansion is accepted with the very same one.
pub fn what_was_accepted_is_accepted()
    ensures tree { (m : Statements) → WasTree m ↔ (IsTree m × IsFirstProfile m) }
    ensures text { (m : Statements) → WasTree m → printed m [] ≡ was_text m }
    ensures accepted { (m : Statements) (full : Expansion) → WasAccepted m full → IsAccepted m full }
{}
