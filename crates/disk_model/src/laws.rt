//! What a crash may leave of a disk.

ghost use Rattle.std.specs.Prelude.{◌≡◌, true, ℕ, List, take};
ghost use Rattle.disk_model.specs.Disk.{Called, History, IsImage, LeftBetween, Sync, contents_of, state_of};

/// Right after a sync a crash leaves the contents and nothing else, and at any moment it may leave the contents as they are.
pub fn a_crash_leaves_what_was_synced()
    ensures synced { (before after : History) (image : List ℕ) → Called before (Sync true) after
        → IsImage (state_of after) image → image ≡ contents_of after }
    ensures contents { (h : History) (from to : ℕ)
        → LeftBetween h from to (contents_of (record { first = h.first; calls = take from h.calls })) }
{}
