//! Words have one answer, and a statement's own words name it.

ghost use Rattle.std.specs.Prelude.{◌≡◌, ◌≢◌, ◌++◌, ℕ, List, [], Ok, Err, Result, Some};
ghost use Rattle.std.specs.FinMap as map;
ghost use Rattle.cfg_base.specs.declared.path.Step.{Step};
ghost use Rattle.cfg_base.specs.declared.value.Value.{Value};
ghost use Rattle.cfg_tree.specs.OwnWords.{own_words};
ghost use Rattle.cfg_tree.specs.Statements.{Statements};
ghost use Rattle.cfg_tree.specs.Tree.{IsTree};
ghost use Rattle.cfg_tree.specs.Typed.{IsLevelPath};
ghost use Rattle.cfg_resolve.specs.declared.target.Target.{Target};
ghost use Rattle.cfg_resolve.specs.declared.target.WordsFault.{WordsFault};
ghost use Rattle.cfg_resolve.specs.declared.target.WordsFault.TheVariants.{NoMemory};
ghost use Rattle.cfg_resolve.specs.Resolve.{IsTargetBelow, ResolvesTo, target};

/// Words have one answer at a level, but for want of memory: one target or one refusal.
pub fn words_have_one_answer()
    ensures { (level : List Step) (words : List (List ℕ)) (one other : Result Target WordsFault) → IsLevelPath level
        → ResolvesTo level words one → ResolvesTo level words other → one ≢ Err NoMemory → other ≢ Err NoMemory → one ≡ other }
{}

/// The own words of a statement that a typed map may have, and then the words of its value, name it below the top and
/// below each level above it. So each statement of a configuration is named by its own words.
pub fn own_words_name_their_statement()
    ensures below { (level rest : List Step) (words : List (List ℕ)) → IsTargetBelow level (target (level ++ rest) words)
        → ResolvesTo level (own_words rest ++ words) (Ok (target (level ++ rest) words)) }
    ensures kept { (m : Statements) (path : List Step) (value : Value) → IsTree m → map.get m path ≡ Some value
        → ResolvesTo [] (own_words path ++ value.words) (Ok (target path value.words)) }
{}
