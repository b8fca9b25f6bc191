//! A merge has one answer, each of its values comes from a side, a side without changes gives way, and what is merged
//! is a configuration.

ghost use Rattle.std.specs.Prelude.{◌≡◌, ◌≢◌, ◌⊎◌, List};
ghost use Rattle.std.specs.FinMap as map;
ghost use Rattle.cfg_base.specs.declared.path.Step.{Step};
ghost use Rattle.cfg_tree.specs.Statements.{Statements};
ghost use Rattle.cfg_tree.specs.Tree.{IsTree};
ghost use Rattle.cfg_tree.specs.Union.{IsUnbounded};
ghost use Rattle.private_merge.specs.Merge.{Agree, IsMergeOf, IsMerge, IsMergeFault};
ghost use Rattle.private_merge.specs.declared.fault.MergeFault.{MergeFault};
ghost use Rattle.private_merge.specs.declared.fault.MergeFault.TheVariants.{NoMemory};

/// Three configurations have one merge, or one cause for which there is none, but for want of memory.
pub fn merges_have_one_answer()
    ensures one_map { (base active mine one other : Statements) → IsMerge base active mine one
        → IsMerge base active mine other → one ≡ other }
    ensures one_fault { (base active mine : Statements) (one other : MergeFault) → IsMergeFault base active mine one
        → IsMergeFault base active mine other → one ≢ NoMemory → other ≢ NoMemory → one ≡ other }
    ensures apart { (base active mine merged : Statements) (fault : MergeFault) → IsMerge base active mine merged
        → IsMergeFault base active mine fault → fault ≡ NoMemory }
{}

/// Where one side changed nothing, the other one is merged as it is, and so it is where both changed the same.
pub fn one_side_alone_is_taken()
    ensures nothing_own { (base active : Statements) → IsTree active → IsMerge base active base active }
    ensures nothing_else { (base mine : Statements) → IsTree mine → IsMerge base base mine mine }
    ensures alike { (base both : Statements) → IsTree both → IsMerge base both both both }
{}

/// What is merged at a path is what stands there on one of the two sides.
pub fn values_come_from_a_side()
    ensures { (base active mine merged : Statements) (path : List Step) → IsMerge base active mine merged
        → (map.get merged path ≡ map.get mine path) ⊎ (map.get merged path ≡ map.get active path) }
{}

/// What is merged of three configurations, of which no path conflicts, is typed, each statement has its parent, and
/// each order is that of the children.
pub fn merges_are_configurations()
    ensures { (base active mine merged : Statements) → IsTree base → IsTree active → IsTree mine
        → Agree base active mine → IsMergeOf base active mine merged → IsUnbounded merged }
{}
