//! What is printed is read as what was printed.

ghost use Rattle.std.specs.Prelude.{[]};
ghost use Rattle.cfg_tree.specs.Statements.{Statements};
ghost use Rattle.cfg_tree.specs.Tree.{IsTree};
ghost use Rattle.curly_grammar.specs.Grammar.{Reads};
ghost use Rattle.curly_print.specs.Printed.{printed};

/// The whole printed text of a configuration reads as that configuration, with nothing tagged.
pub fn printed_text_is_read_back()
    ensures { (m : Statements) → IsTree m → Reads (printed m []) m [] }
{}
