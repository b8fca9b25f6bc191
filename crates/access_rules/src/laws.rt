//! What rights come to, and that an allowed show tells nothing of what they don't let see.

ghost use Rattle.std.specs.Prelude.{◌≡◌, ◌↔◌, ℕ, true, List, ◌∷◌, codes, IsSome, None, Some};
ghost use Rattle.cfg_base.specs.Words.{lists};
ghost use Rattle.cfg_base.specs.declared.path.Step.{Step};
ghost use Rattle.cfg_tree.specs.Full.{Expansion};
ghost use Rattle.cfg_tree.specs.Statements.{Statements};
ghost use Rattle.cfg_tree.specs.Tree.{IsTree};
ghost use Rattle.cfg_tree.specs.Typed.{IsLevelPath, IsTypedPath};
ghost use Rattle.commands.specs.declared.command.Command.{Command};
ghost use Rattle.commands.specs.declared.command.Form.TheVariants.{Curly, Inherited, SetLines};
ghost use Rattle.curly_print.specs.Inherited.{printed_full};
ghost use Rattle.curly_print.specs.Printed.{printed};
ghost use Rattle.group_expand.specs.Expansion.{IsExpansion};
ghost use Rattle.set_text.specs.Printed.{printed_set};
ghost use Rattle.access_rules.specs.declared.right.Right.TheVariants.{Alter, See};
ghost use Rattle.access_rules.specs.declared.section.Section.{Section};
ghost use Rattle.access_rules.specs.Needs.{first_missing, needs_of};
ghost use Rattle.access_rules.specs.Rights.{has_right, rights_of};
ghost use Rattle.access_rules.specs.Sections.{heads_of, section_of};
ghost use Rattle.access_rules.specs.Sight.{AreSeenAlike, IsAllowedShow};

use group_expand::{expansion_is_one, expansion_of_a_part_is_of_that_part};

/// Each statement of a configuration is of one section, which the first word at the top tells.
pub fn statements_are_of_one_section()
    ensures some { (step : Step) (path : List Step) → IsTypedPath (step ∷ path) → IsSome (section_of step.head) }
    ensures told { (section : Section) (word : List ℕ) → section_of word ≡ Some section ↔ (lists (heads_of section) word ≡ true) }
{}

/// Who may change a section may see it.
pub fn who_changes_sees()
    ensures { (words : List (List ℕ)) (section : Section) → has_right words (Alter section) ≡ true → has_right words (See section) ≡ true }
{}

/// Root may ask every command, whatever is configured.
pub fn root_may_ask_all()
    ensures { (full : Expansion) (level : List Step) (asked : Command) → first_missing (rights_of full (codes "root")) (needs_of level asked) ≡ None }
{}

/// Two configurations that are the same in all that a user's rights let see give the user the same text in every show that is
/// allowed, in each form.
pub fn shows_tell_what_is_seen()
    ensures curly { (words : List (List ℕ)) (m n : Statements) (level path : List Step) (asked : List (List ℕ))
        → IsTree m → IsTree n → AreSeenAlike words m n → IsLevelPath level → IsAllowedShow words level asked Curly path
        → printed m path ≡ printed n path }
    ensures lines { (words : List (List ℕ)) (m n : Statements) (level path : List Step) (asked : List (List ℕ))
        → IsTree m → IsTree n → AreSeenAlike words m n → IsLevelPath level → IsAllowedShow words level asked SetLines path
        → printed_set m path ≡ printed_set n path }
    ensures inherited { (words : List (List ℕ)) (m n : Statements) (level path : List Step) (asked : List (List ℕ))
        (full other : Expansion) → IsTree m → IsTree n → AreSeenAlike words m n → IsLevelPath level
        → IsAllowedShow words level asked Inherited path → IsExpansion m full → IsExpansion n other
        → printed_full full path ≡ printed_full other path }
{
    expansion_is_one();
    expansion_of_a_part_is_of_that_part();
}
