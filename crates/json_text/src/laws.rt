//! What JSON values say, and which faults they have.

ghost use Rattle.std.specs.Prelude.{◌≡◌, ℕ, suc, ◌<◌, List, length};
ghost use Rattle.cfg_schema.specs.Profile.{profile};
ghost use Rattle.cfg_tree.specs.Statements.{Statements};
ghost use Rattle.cfg_tree.specs.Tree.{IsTree};
ghost use Rattle.serde_json.specs.Data.{Data, Members};
ghost use Rattle.json_text.specs.declared.fault.JsonFault.{JsonFault};
ghost use Rattle.json_text.specs.Faults.{IsFirstFault, MembersFit};
ghost use Rattle.json_text.specs.Reading.{IsTextFault, IsReadAs};
ghost use Rattle.json_text.specs.Said.{Item, Says, SaysInside, Spot};
ghost use Rattle.json_text.specs.Written.{json_of};

/// What is written of a configuration says that configuration, and a value says one configuration at most.
pub fn values_say_configurations()
    ensures written { (m : Statements) → IsTree m → Says (json_of m) m }
    ensures one { (d : Data) (m n : Statements) → Says d m → Says d n → m ≡ n }
{}

/// Where each member of a level's object fits, met in any order, the object says statements in the order of the rows.
pub fn fitting_members_say_statements()
    ensures { (levels : ℕ) (here : Spot) (ms : Members) → here.place.row < length profile → MembersFit (SaysInside levels) here ms ms
        → (items : List Item) × SaysInside (suc levels) ms here items }
{}

/// A value with a fault says no configuration, and it has one first fault.
pub fn faulty_values_say_nothing()
    ensures nothing { (d : Data) (fault : JsonFault) (m : Statements) → IsFirstFault d fault → ¬ (Says d m) }
    ensures one_fault { (d : Data) (f g : JsonFault) → IsFirstFault d f → IsFirstFault d g → f ≡ g }
{}

/// A text is read as one configuration, or it has one fault.
pub fn texts_have_one_answer()
    ensures one { (text : List ℕ) (m n : Statements) → IsReadAs text m → IsReadAs text n → m ≡ n }
    ensures apart { (text : List ℕ) (m : Statements) (fault : JsonFault) → IsReadAs text m → ¬ (IsTextFault text fault) }
    ensures one_fault { (text : List ℕ) (f g : JsonFault) → IsTextFault text f → IsTextFault text g → f ≡ g }
{}
