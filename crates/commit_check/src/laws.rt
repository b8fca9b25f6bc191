//! What holds of every check.

ghost use Rattle.std.specs.Prelude.{◌≡◌, ◌≤◌, ◌⊎◌, ◌==◌, not, ℕ, List, [], true, length, map as each, filter};
ghost use Rattle.std.specs.List.{list_all};
ghost use Rattle.std.specs.FinMap as map;
ghost use Rattle.cfg_base.specs.declared.path.Step.{Step};
ghost use Rattle.cfg_schema.specs.Profile.{same_word, head_of, name_of};
ghost use Rattle.cfg_tree.specs.Statements.{Statements};
ghost use Rattle.cfg_tree.specs.Tree.{IsTree};
ghost use Rattle.cfg_tree.specs.Full.{Expansion};
ghost use Rattle.cfg_tree.specs.declared.limit.TheConstants.{MAX_EXPANDED};
ghost use Rattle.curly_print.specs.Printed.{printed};
ghost use Rattle.commit_check.specs.declared.rule.TheConstants.{MAX_TEXT};
ghost use Rattle.commit_check.specs.Rows.{rows, fixed_rows};
ghost use Rattle.commit_check.specs.Accepts.{IsAccepted, Accepts, IsFirst};

/// A configuration is accepted, or it has exactly one first fault.
pub fn checks_have_one_answer()
    ensures some { (m : Statements) → IsTree m → Accepts m ⊎ ((number : ℕ) × (path : List Step) × IsFirst m number path) }
    ensures one { (m : Statements) (number other : ℕ) (path place : List Step) → IsFirst m number path → IsFirst m other place
        → (number ≡ other) × (path ≡ place) }
    ensures apart { (m : Statements) (number : ℕ) (path : List Step) → Accepts m → ¬ (IsFirst m number path) }
{}

/// The configuration without statements is accepted.
pub fn nothing_is_accepted()
    ensures { Accepts map.empty }
{}

/// A configuration that is accepted is a tree, and neither its text nor its expansion is longer than it may be.
pub fn accepted_configurations_fit()
    ensures text { (m : Statements) → Accepts m → IsTree m × (length (printed m []) ≤ MAX_TEXT) }
    ensures expansion { (m : Statements) (full : Expansion) → IsAccepted m full → map.len full ≤ MAX_EXPANDED }
{}

/// The rows of which the rules speak begin with the words that are meant, and those that have one name have the one that
/// is meant.
pub fn rows_have_their_words()
    ensures heads { list_all (λ row. same_word (head_of row.0) row.1) rows ≡ true }
    ensures names { filter (λ row. not (length row.1 == 0)) (each {B = ℕ × List ℕ} (λ row. (row.0, name_of row.0)) rows) ≡ fixed_rows }
{}

/// The limit that the clauses of this crate cite, by its number.
pub fn limit_is_stated()
    ensures { MAX_TEXT ≡ 1048576 }
{}
