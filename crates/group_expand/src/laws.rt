//! What holds of each expansion.

ghost use Rattle.std.specs.Prelude.{◌≡◌, ◌≢◌, ◌⊎◌, ◌↔◌, Bool, List, [], ◌∷◌, true, IsSome, None};
ghost use Rattle.std.specs.FinMap as map;
ghost use Rattle.cfg_base.specs.declared.path.Step.{Step};
ghost use Rattle.cfg_tree.specs.Statements.{Statements};
ghost use Rattle.cfg_tree.specs.Tree.{IsTree};
ghost use Rattle.cfg_tree.specs.Children.{steps_below};
ghost use Rattle.cfg_tree.specs.Full.{Expansion};
ghost use Rattle.cfg_tree.specs.declared.limit.TheConstants.{MAX_EXPANDED};
ghost use Rattle.group_expand.specs.Sources.{groups_step, sources};
ghost use Rattle.group_expand.specs.Expansion.{is_own, AreAlikeIn, IsExpansion, IsLivePart, DifferUnapplied};

/// A path is in the expansion where it is local or has a source, and no other path is in it.
pub fn expansion_is_what_is_local_or_has_a_source()
    ensures { (m : Statements) (full : Expansion) (path : List Step) → IsExpansion m full → path ≢ []
        → IsSome (map.get full path) ↔ ((is_own (map.get m) path ≡ true) ⊎ (sources (map.get m) (steps_below m) path ≢ [])) }
{}

/// Each configuration has one expansion.
pub fn expansion_is_one()
    ensures there { (m : Statements) → IsTree m → (full : Expansion) × IsExpansion m full }
    ensures one { (m : Statements) (full other : Expansion) → IsExpansion m full → IsExpansion m other → full ≡ other }
{}

/// Without groups the expansion is the live part of the configuration.
pub fn expansion_without_groups_is_the_live_part()
    ensures { (m : Statements) (full : Expansion) → map.get m (groups_step ∷ []) ≡ None → IsExpansion m full → IsLivePart m full }
{}

/// Configurations that differ only in what no live statement applies have one expansion.
pub fn expansion_is_of_what_is_applied()
    ensures { (m n : Statements) (full : Expansion) → DifferUnapplied m n → IsExpansion m full → IsExpansion n full }
{}

/// What an expansion has in a part of the top that has `groups`, and what applies and excepts them there, rests on that part alone.
pub fn expansion_of_a_part_is_of_that_part()
    ensures { (m n : Statements) (full other : Expansion) (in_part : Step → Bool) → AreAlikeIn in_part m n → IsExpansion m full → IsExpansion n other
        → (step : Step) (path : List Step) → in_part step ≡ true → map.get full (step ∷ path) ≡ map.get other (step ∷ path) }
{}

/// The limit that the clauses of this crate cite, by its number.
pub fn limit_is_stated()
    ensures { MAX_EXPANDED ≡ 65536 }
{}
