ghost use Rattle.std.specs.Prelude.{◌≡◌, ◌↔◌, ℕ, List, IsTrue};
ghost use Rattle.std.specs.List.{AllByRecursion};
ghost use Rattle.glob_name.specs.Glob.{Item, items, Matches, glob, IsPlain, IsCut};

/// What patterns are, whatever their bytes.
pub fn patterns_are_sound()
    // a pattern is cut in one way
    ensures cut { (list : List Item) (pattern : List ℕ) → IsCut list pattern ↔ (list ≡ items pattern) }
    // without a star, a question mark and an opening bracket a pattern is the one name that it matches
    ensures plain { (pattern name : List ℕ) → AllByRecursion IsPlain pattern
        → Matches (items pattern) name ↔ (name ≡ pattern) }
    // the test that definitions cite decides the match
    ensures test { (pattern name : List ℕ) → IsTrue (glob pattern name) ↔ Matches (items pattern) name }
{}
