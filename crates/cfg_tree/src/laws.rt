//! Puts have one answer each, a walk gathers its tree, statements in turn make one, and what a copy and a change of a
//! name leave.

ghost use Rattle.std.specs.Prelude.{◌≡◌, ◌≢◌, ◌<◌, ◌≤◌, ℕ, Bool, true, false, List};
ghost use Rattle.std.specs.FinMap as map;
ghost use Rattle.cfg_base.specs.declared.path.Step.{Step};
ghost use Rattle.cfg_tree.specs.declared.limit.TheConstants.{MAX_STATEMENTS};
ghost use Rattle.cfg_tree.specs.Tree.{IsTree};
ghost use Rattle.cfg_base.specs.declared.value.Value.{Value};
ghost use Rattle.cfg_tree.specs.declared.fault.TreeFault.{TreeFault};
ghost use Rattle.cfg_tree.specs.declared.fault.TreeFault.TheVariants as put;
ghost use Rattle.cfg_tree.specs.Statements.{Statements, size_of};
ghost use Rattle.cfg_tree.specs.Change.{IsPut, IsPutFault};
ghost use Rattle.cfg_tree.specs.Moving.{IsNewName, Moves, copied, renamed, names_copied, names_renamed};
ghost use Rattle.cfg_tree.specs.Gather.{gathered_from_none};
ghost use Rattle.cfg_tree.specs.Limit.{paths_of, different, IsPathPast};
ghost use Rattle.cfg_tree.specs.Stated.{stated_from_none, AreSaid};
ghost use Rattle.cfg_entries.specs.EntryMap.{Pair};

/// The limit that the clauses of this crate cite, by its number.
pub fn limits_are_stated()
    ensures { MAX_STATEMENTS ≡ 16384 }
{}

/// A put has one answer, but for want of memory: one map or one refusal.
pub fn puts_have_one_answer()
    ensures one_map { (m one other : Statements) (path : List Step) (value : Value) → IsPut m one path value → IsPut m other path value → one ≡ other }
    ensures one_fault { (m : Statements) (path : List Step) (value : Value) (one other : TreeFault) → IsPutFault m path value one
        → IsPutFault m path value other → one ≢ put.NoMemory → other ≢ put.NoMemory → one ≡ other }
    ensures apart { (m n : Statements) (path : List Step) (value : Value) (fault : TreeFault) → IsPut m n path value
        → IsPutFault m path value fault → fault ≡ put.NoMemory }
{}

/// What a walk over a tree gives, gathered, is that tree.
pub fn walks_gather_their_tree()
    ensures { (m : Statements) → gathered_from_none (map.entries m) ≡ m }
{}

/// Statements that may be said one after another make a tree, with a statement for each path, where these aren't too
/// many.
pub fn statements_make_a_tree()
    ensures tree { (items : List (Pair Value)) → AreSaid map.empty items → different (paths_of items) ≤ MAX_STATEMENTS
        → IsTree (stated_from_none items) }
    ensures size { (items : List (Pair Value)) → size_of (stated_from_none items) ≡ different (paths_of items) }
{}

/// One of the paths is past the limit where they are too many, and no other one is; and where they aren't, none is.
pub fn one_path_is_past_the_limit()
    ensures one_place { (paths : List (List Step)) (one other : ℕ) → IsPathPast paths one → IsPathPast paths other → one ≡ other }
    ensures some_place { (paths : List (List Step)) → MAX_STATEMENTS < different paths → (at : ℕ) × IsPathPast paths at }
    ensures too_many { (paths : List (List Step)) (at : ℕ) → IsPathPast paths at → MAX_STATEMENTS < different paths }
{}

/// What a copy and a change of a name leave, stated by look-ups; and look-ups determine one map.
pub fn moves_are_told_by_look_ups()
    ensures copied { (m : Statements) (from to : List Step) → IsTree m → IsNewName m from to
        → Moves m (copied m from to) from to true (names_copied to) }
    ensures renamed { (m : Statements) (from to : List Step) → IsTree m → IsNewName m from to
        → Moves m (renamed m from to) from to false (names_renamed from to) }
    ensures one_map { (m one other : Statements) (from to : List Step) (stays : Bool) (change : List (List ℕ) → List (List ℕ))
        → Moves m one from to stays change → Moves m other from to stays change → one ≡ other }
{}
