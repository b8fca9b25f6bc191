//! A load has one answer, and what is replaced goes.

ghost use Rattle.std.specs.Prelude.{◌≡◌, ◌≢◌, ◌&&◌, ℕ, Bool, not, is_some, List, []};
ghost use Rattle.std.specs.FinMap as map;
ghost use Rattle.cfg_base.specs.declared.path.Step.{Step};
ghost use Rattle.commands.specs.declared.command.LoadWay.{LoadWay};
ghost use Rattle.cfg_tree.specs.Statements.{Statements};
ghost use Rattle.cfg_tree.specs.Union.{IsUnion};
ghost use Rattle.load_ops.specs.declared.fault.LoadFault.{LoadFault};
ghost use Rattle.load_ops.specs.declared.fault.LoadFault.TheVariants.{NoMemory};
ghost use Rattle.load_ops.specs.Left.{is_replaced, IsLeft, IsReplacement};
ghost use Rattle.load_ops.specs.Answer.{IsLoad, IsLoadFault};

/// A load has one answer, but for want of memory: one map and one "changed or not", or one refusal.
pub fn loads_have_one_answer()
    ensures one_map { (way : LoadWay) (old one other : Statements) (text : List ℕ) (told again : Bool)
        → IsLoad way old text one told → IsLoad way old text other again → (one ≡ other) × (told ≡ again) }
    ensures one_fault { (way : LoadWay) (old : Statements) (text : List ℕ) (one other : LoadFault)
        → IsLoadFault way old text one → IsLoadFault way old text other → one ≢ NoMemory → other ≢ NoMemory → one ≡ other }
    ensures apart { (way : LoadWay) (old new : Statements) (text : List ℕ) (told : Bool) (fault : LoadFault)
        → IsLoad way old text new told → IsLoadFault way old text fault → fault ≡ NoMemory }
{}

/// What is left once tagged paths are gone: one map, with exactly the statements that are at none of them and below none;
/// where none is tagged, what the text says is joined to all that is there.
pub fn replaced_statements_go()
    ensures once { (m one other : Statements) (tags : List (List Step)) → IsLeft m tags one → IsLeft m tags other → one ≡ other }
    ensures left { (m left : Statements) (tags : List (List Step)) (path : List Step) → IsLeft m tags left
        → is_some (map.get left path) ≡ (is_some (map.get m path) && not (is_replaced tags path)) }
    ensures untagged { (old said new : Statements) → IsReplacement old said [] new → IsUnion old said new }
{}
