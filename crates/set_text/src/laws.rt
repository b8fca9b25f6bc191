//! A text has one answer, lines ask what is shown of them, and printed lines are read back.

ghost use Rattle.std.specs.Prelude.{◌≡◌, ◌≢◌, ℕ, List};
ghost use Rattle.std.specs.List.{All};
ghost use Rattle.set_text.specs.declared.fault.LineFault.{LineFault};
ghost use Rattle.set_text.specs.declared.fault.LineFault.TheVariants.{NoMemory};
ghost use Rattle.set_text.specs.declared.op_lines.OpLine.{OpLine};
ghost use Rattle.set_text.specs.Examples.{IsShown, examples};
ghost use Rattle.set_text.specs.Lines.{AsksFor, IsLineFault};
ghost use Rattle.set_text.specs.Printed.{Line, printed_lines};
ghost use Rattle.set_text.specs.Back.{AreReadable, changes_of};

/// A text of lines has one answer, but for want of memory: one list of changes, or one refusal.
pub fn texts_have_one_answer()
    ensures one_list { (text : List ℕ) (one other : List OpLine) → AsksFor text one → AsksFor text other → one ≡ other }
    ensures one_fault { (text : List ℕ) (one other : LineFault) → IsLineFault text one → IsLineFault text other
        → one ≢ NoMemory → other ≢ NoMemory → one ≡ other }
    ensures apart { (text : List ℕ) (changes : List OpLine) (fault : LineFault) → AsksFor text changes → IsLineFault text fault → fault ≡ NoMemory }
{}

/// Printed lines ask for what they say, each in its place: lines with words, each of which can be printed.
pub fn printed_lines_are_read_back()
    ensures { (lines : List Line) → AreReadable lines → AsksFor (printed_lines lines) (changes_of 1 lines) }
{}

/// Lines of the parts of specs/Examples.antt ask what they are shown to ask.
pub fn lines_ask_what_their_examples_show()
    ensures { All IsShown examples }
{}
