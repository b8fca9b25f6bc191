ghost use Rattle.std.specs.Prelude.{[]};
ghost use Rattle.std.specs.FinMap as finite;
ghost use Rattle.cfg_base.specs.Order.{path_cmp};
ghost use Rattle.cfg_tree.specs.Statements.{Statements};
ghost use Rattle.cfg_tree.specs.Tree.{IsTree};
ghost use Rattle.load_ops.specs.Lines.{IsLineLoad};
ghost use Rattle.set_text.specs.Printed.{printed_set};
ghost use Rattle.set_laws.specs.Apart.{IsProtectedApart};

/// The lines of a configuration, loaded into nothing, give the configuration, where no protected statement is below
/// another one.
pub fn printed_lines_make_their_configuration()
    ensures { (m : Statements) → IsTree m → IsProtectedApart m → IsLineLoad (finite.empty {R = path_cmp}) (printed_set m []) m }
{}
