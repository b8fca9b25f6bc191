//! What holds of the profile's rows.

ghost use Rattle.std.specs.Prelude.{◌≡◌, ◌==◌, ◌<◌, ◌≤◌, not, ℕ, List, [], ◌∷◌, length, IfSome, filter, map, Some, IsTrue};
ghost use Rattle.cfg_base.specs.declared.path.Step.{Step};
ghost use Rattle.cfg_schema.specs.declared.table.Line.{Line};
ghost use Rattle.cfg_schema.specs.declared.place.Place.{Place};
ghost use Rattle.cfg_schema.specs.declared.rows.TheConstants.{ROWS};
ghost use Rattle.cfg_schema.specs.Profile.{profile, line_at, StandsBelow};
ghost use Rattle.cfg_schema.specs.Place.{place_of, place_after, entered, HasWords};

/// The rows are numbered in their order. At a level a step follows at most one row: one that stands
/// there and has the step's words. The addresses of name servers, the terms of a policy and those of
/// a filter keep the user's order. Below a group's name stand the rows of the top, and below a policy
/// statement's own `from` and `then` those of a term's; each other row has its own below it. A path
/// that follows rows has at most 9 steps.
pub fn rows_are_sound()
    ensures number { length profile ≡ ROWS }
    ensures numbered { (id : ℕ) → id < ROWS → (line_at profile id).number ≡ id }
    ensures follows { (here : Place) (id : ℕ) (step : Step) → StandsBelow here.row here.in_group id → HasWords id step
        → place_after here step ≡ Some (entered here id) }
    ensures ordered { map (λ line. line.number) (filter (λ line. line.ordered) profile) ≡ 10 ∷ 77 ∷ 102 ∷ [] }
    ensures shared { map {B = ℕ × ℕ} (λ line. (line.number, line.inner)) (filter (λ line. not (line.number == line.inner)) profile)
        ≡ (3, 0) ∷ (91, 78) ∷ (92, 85) ∷ [] }
    ensures shallow { (path : List Step) → IfSome (place_of path) (λ _. length path ≤ 9) }
{}
