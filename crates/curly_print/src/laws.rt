//! What holds of printed texts.

ghost use Rattle.std.specs.Prelude.{◌≡◌, List};
ghost use Rattle.cfg_base.specs.declared.path.Step.{Step};
ghost use Rattle.cfg_tree.specs.Statements.{Statements};
ghost use Rattle.cfg_tree.specs.Full.{Expansion};
ghost use Rattle.curly_print.specs.Printed.{printed};
ghost use Rattle.curly_print.specs.Inherited.{printed_full};
ghost use Rattle.curly_print.specs.Own.{IsOwn};

/// An expansion that inherits nothing is printed as the configuration is, where that has no marks.
pub fn own_statements_are_printed_alike()
    ensures { (m : Statements) (full : Expansion) (path : List Step) → IsOwn m full → printed_full full path ≡ printed m path }
{}
