//! What holds of readings and of faults.

ghost use Rattle.std.specs.Prelude.{◌≡◌, ◌≤◌, ◌⊎◌, ℕ, List};
ghost use Rattle.cfg_base.specs.declared.path.Step.{Step};
ghost use Rattle.cfg_tree.specs.Statements.{Statements, size_of};
ghost use Rattle.cfg_tree.specs.declared.limit.TheConstants.{MAX_STATEMENTS};
ghost use Rattle.curly_grammar.specs.Fault.{IsLeftmostFault};
ghost use Rattle.curly_grammar.specs.Grammar.{Reads};
ghost use Rattle.curly_grammar.specs.Unknown.{IsUnknownAt};
ghost use Rattle.curly_grammar.specs.declared.fault.TextFault.{TextFault};
ghost use Rattle.curly_grammar.specs.declared.fault.TextFault.TheVariants as fault;

/// Each text has one reading of at most 16384 statements or one leftmost fault, and not both.
pub fn texts_say_one_thing()
    ensures one_reading { (text : List ℕ) (m n : Statements) (tags others : List (List Step)) → Reads text m tags → Reads text n others
        → (m ≡ n) × (tags ≡ others) }
    ensures one_fault { (text : List ℕ) (one two : TextFault) → IsLeftmostFault text one → IsLeftmostFault text two → one ≡ two }
    ensures not_both { (text : List ℕ) (m : Statements) (tags : List (List Step)) (fault : TextFault) → Reads text m tags → size_of m ≤ MAX_STATEMENTS
        → IsLeftmostFault text fault → ⊥ }
    ensures one_answer { (text : List ℕ) → ((m : Statements) (tags : List (List Step)) → Reads text m tags → size_of m ≤ MAX_STATEMENTS → ⊥)
        → ((fault : TextFault) → IsLeftmostFault text fault → ⊥) → ⊥ }
{}

/// A word is unknown exactly where it begins a statement, or a further step of one, and no row of that level takes it; unless
/// too many statements stand before it.
pub fn unknown_words_begin_steps()
    ensures only { (text : List ℕ) (byte : ℕ) → IsLeftmostFault text (fault.Unknown byte) → IsUnknownAt text byte }
    ensures exactly { (text : List ℕ) (byte : ℕ) → IsUnknownAt text byte → IsLeftmostFault text (fault.Unknown byte) ⊎ IsLeftmostFault text fault.TooMany }
{}
