//! A change has one answer.

ghost use Rattle.std.specs.Prelude.{◌≡◌, ◌≢◌, Bool, List};
ghost use Rattle.cfg_base.specs.declared.path.Step.{Step};
ghost use Rattle.cfg_tree.specs.Statements.{Statements};
ghost use Rattle.cfg_tree.specs.Typed.{IsLevelPath};
ghost use Rattle.commands.specs.declared.command.Op.{Op};
ghost use Rattle.edit_ops.specs.declared.fault.EditFault.{EditFault};
ghost use Rattle.edit_ops.specs.declared.fault.EditFault.TheVariants.{NoMemory};
ghost use Rattle.edit_ops.specs.Answer.{IsChange, IsEditFault};

/// A change at a level has one answer, but for want of memory: one map, or one refusal.
pub fn changes_have_one_answer()
    ensures one_map { (m one other : Statements) (level : List Step) (op : Op) (told again : Bool) → IsLevelPath level
        → IsChange m one level op told → IsChange m other level op again → (one ≡ other) × (told ≡ again) }
    ensures one_fault { (m : Statements) (level : List Step) (op : Op) (one other : EditFault) → IsLevelPath level
        → IsEditFault m level op one → IsEditFault m level op other → one ≢ NoMemory → other ≢ NoMemory → one ≡ other }
    ensures apart { (m n : Statements) (level : List Step) (op : Op) (told : Bool) (fault : EditFault) → IsLevelPath level
        → IsChange m n level op told → IsEditFault m level op fault → fault ≡ NoMemory }
{}
