//! What holds of all lists of views.

ghost use Rattle.std.specs.Prelude.{◌≡◌, ◌≤◌, ◌+◌, ℕ, List, ◌∷◌, length, slice_get, Some};
ghost use mathlib.Core.List.{IsPrefix};
ghost use Rattle.commit_ledger.specs.declared.entry.Entry.{Entry};
ghost use Rattle.commit_ledger.specs.Kept.{Kept, after_entries};
ghost use Rattle.active_snapshot.specs.Views.{AreViews, IsLast};

/// Each further view has one entry more, so a longer list of views has the greater front.
pub fn fronts_never_fall()
    ensures each { (opening view : Kept) (more : List Kept) (n : ℕ) → AreViews (opening ∷ more)
        → slice_get (opening ∷ more) n ≡ Some view → view.count ≡ opening.count + n }
    ensures last { (one two : List Kept) (view later : Kept) → AreViews two → IsPrefix one two
        → IsLast one view → IsLast two later → view.count ≤ later.count }
{}

/// The last view of a list is what as many entries leave after the opening as there are views after its view.
pub fn views_are_of_entries()
    ensures { (opening last : Kept) (more : List Kept) → AreViews (opening ∷ more) → IsLast (opening ∷ more) last
        → (entries : List Entry) × (length entries ≡ length more) × (last ≡ after_entries opening entries) }
{}
