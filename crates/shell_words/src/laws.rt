ghost use Rattle.std.specs.Prelude.{◌≡◌, ℕ, List, Bool, Option, None, Some, Result, Ok, map};
ghost use Rattle.std.specs.List.{All, Contains};
ghost use Rattle.commands.specs.declared.mover.Mover.{Mover};
ghost use Rattle.cfg_lex.specs.declared.token.Token.{Token};
ghost use Rattle.cfg_lex.specs.Tokens.{IsCut};
ghost use Rattle.shell_words.specs.declared.form.CommandForm.{CommandForm};
ghost use Rattle.shell_words.specs.Examples.{HasExample, IsShown, examples};
ghost use Rattle.shell_words.specs.Form.{FitsParts, IsIn, forms_of, parts_of};
ghost use Rattle.shell_words.specs.Item.{Item, item_in};
ghost use Rattle.shell_words.specs.declared.form.Makes.TheVariants.{Move};
ghost use Rattle.shell_words.specs.declared.keyword.Keyword.TheVariants.{Mark};
ghost use Rattle.shell_words.specs.declared.making.Words0.{Words0};
ghost use Rattle.shell_words.specs.Made.{AsksSound, made_by};
ghost use Rattle.shell_words.specs.Pair.{AreSides, back_words, front_words};
ghost use Rattle.shell_words.specs.Reading.{IsReading};

/// A line has one reading; a line that is in a form is read as what that form makes of it, and each form has such tokens.
/// The words of a change of two statements are those before its mark and those after it, of which there are some.
pub fn lines_are_read_in_one_way()
    ensures one_reading { (configuring : Bool) (line : List ℕ) (one other : Result (Option Words0) ℕ)
        → IsReading configuring line one → IsReading configuring line other → one ≡ other }
    ensures own_line { (configuring : Bool) (line : List ℕ) (tokens : List Token) (form : CommandForm) (words : List (List ℕ))
        → IsCut line tokens None → IsIn configuring (map (item_in line) tokens) form words
        → IsReading configuring line (Ok (Some (made_by form.makes (map (item_in line) tokens) words))) }
    ensures each_form { (configuring : Bool) (form : CommandForm) → Contains (forms_of configuring) form
        → (items : List Item) × (words : List (List ℕ)) × FitsParts (parts_of form) items words }
    ensures two_sides { (configuring : Bool) (items : List Item) (form : CommandForm) (words : List (List ℕ)) (mover : Mover)
        → IsIn configuring items form words → form.makes ≡ Move mover
        → AreSides (front_words (Mark mover) items) (back_words (Mark mover) items) words }
{
    cfg_lex::texts_are_read_in_one_way();
}

/// Each command that a line asks is sound: its minutes are at most 65,535, its time is one of a day and before the last
/// moment, and its comment is of printing bytes.
pub fn lines_ask_sound_commands()
    ensures { (configuring : Bool) (line : List ℕ) (made : Option Words0) → IsReading configuring line (Ok made) → AsksSound made }
{}

/// The lines of specs/Examples.antt ask what they are shown to ask, and each form has a line among them.
pub fn lines_ask_what_their_examples_show()
    ensures shown { (configuring : Bool) → All (IsShown configuring) (examples configuring) }
    ensures each_form { (configuring : Bool) (form : CommandForm) → Contains (forms_of configuring) form → HasExample configuring form }
{}
