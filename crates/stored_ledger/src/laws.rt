//! What holds of every start.

ghost use Rattle.std.specs.Prelude.{◌≡◌, ◌⊎◌, List, ℕ, Option, None, Some};
ghost use Rattle.disk_model.specs.Pair.{BothTell, DiskPair};
ghost use Rattle.stored_ledger.specs.declared.why.StartWhy.{StartWhy};
ghost use Rattle.stored_ledger.specs.declared.why.StartWhy.TheVariants.{Exists};
ghost use Rattle.commit_ledger.specs.declared.entry.Entry.{Entry};
ghost use Rattle.commit_ledger.specs.Checkpoint.{Agrees};
ghost use Rattle.commit_ledger.specs.Kept.{Kept, append_entry};
ghost use Rattle.stored_ledger.specs.Starting.{Explains, IsByBytes, IsFound, IsMade, IsNotFound, IsNotMade};
ghost use Rattle.stored_ledger.specs.Stored.{HoldsKept, SpellsKept};

/// Two files spell one list at most. Those that spell one have no cause to be refused, and none have two.
pub fn starts_have_one_cause()
    ensures one_list { (a b : List ℕ) (one two : Kept) → SpellsKept a b one → SpellsKept a b two → one ≡ two }
    ensures spelled { (a b : List ℕ) (kept : Kept) (why : StartWhy) → SpellsKept a b kept → IsByBytes why
        → Explains a b why → ⊥ }
    ensures one_cause { (a b : List ℕ) (one two : StartWhy) → IsByBytes one → IsByBytes two → Explains a b one
        → Explains a b two → one ≡ two }
{}

/// Of two disks that tell what they hold one list is found at most. Where one is found they aren't refused by what they hold; else
/// they are refused so for one cause at most. Where a list was made there was none to refuse the making for.
pub fn disks_have_one_start()
    ensures one_list { (before after after2 : DiskPair) (one two : Kept) → BothTell before → IsFound before after one
        → IsFound before after2 two → one ≡ two }
    ensures apart { (before after after2 : DiskPair) (kept : Kept) (why : StartWhy) → BothTell before → IsByBytes why
        → IsFound before after kept → IsNotFound before why after2 → ⊥ }
    ensures one_cause { (before after after2 : DiskPair) (one two : StartWhy) → BothTell before → IsByBytes one
        → IsByBytes two → IsNotFound before one after → IsNotFound before two after2 → one ≡ two }
    ensures made { (before after after2 : DiskPair) → BothTell before → IsMade before after
        → IsNotMade before Exists after2 → ⊥ }
{}

/// What disks hold is what the next start finds: the list, or one that agrees with it; with an entry in flight, it or the list with that
/// entry.
pub fn what_is_held_is_found()
    ensures at_rest { (before after : DiskPair) (kept one : Kept) → BothTell before
        → HoldsKept before.a.history before.b.history kept None → IsFound before after one → Agrees one kept }
    ensures in_flight { (before after : DiskPair) (kept one : Kept) (entry : Entry) → BothTell before
        → HoldsKept before.a.history before.b.history kept (Some entry) → IsFound before after one
        → Agrees one kept ⊎ (one ≡ append_entry kept entry) }
{}
