//! The two readers of lines agree.

ghost use Rattle.std.specs.Prelude.{◌↔◌, ℕ, List, true, Option, None, Some, Ok};
ghost use Rattle.commands.specs.declared.command.Command.TheVariants.{Change};
ghost use Rattle.commands.specs.declared.command.Op.{Op};
ghost use Rattle.set_text.specs.Lines.{AsksChange, IsSkipped};
ghost use Rattle.shell_words.specs.declared.making.Words0.TheVariants.{Whole};
ghost use Rattle.shell_words.specs.Reading.{IsReading};

/// A line of a loaded text asks a change exactly where it asks it as a command of configuration mode, and is skipped
/// exactly where it asks nothing there. So a loaded text refuses each other command, and each load.
pub fn loaded_lines_ask_what_typed_lines_ask()
    ensures change { (line : List ℕ) (change : Op) → AsksChange line change ↔ IsReading true line (Ok (Some (Whole (Change change)))) }
    ensures nothing { (line : List ℕ) → IsSkipped line ↔ IsReading true line (Ok None) }
{}
