//! What holds of all lists.

ghost use Rattle.std.specs.Prelude.{◌≡◌, ◌≤◌, ℕ, Bool, List, [], ◌∷◌, ◌++◌, IfSome};
ghost use Rattle.record_code.specs.declared.payloads.Placed.{Placed};
ghost use Rattle.record_code.specs.Listed.{records_of};
ghost use Rattle.record_code.specs.Record.{Record};
ghost use Rattle.std.specs.FinMap as map;
ghost use Rattle.commit_ledger.specs.declared.entry.Commit.{Commit};
ghost use Rattle.commit_ledger.specs.declared.entry.Entry.{Entry};
ghost use Rattle.commit_ledger.specs.declared.entry.Entry.TheVariants.{Commit as CommitOf};
ghost use Rattle.commit_ledger.specs.Kept.{Kept, factory_commit, opened, newest, after_entries, commits_of, commits_in, kept_commits, KeepsMaps, BringsMap, append_entry, target_of};
ghost use Rattle.commit_ledger.specs.Checkpoint.{Agrees, HasShortMaps, as_read, checkpoint};
ghost use Rattle.commit_ledger.specs.Former.{HaveFirstMaps, formerly};
ghost use Rattle.commit_ledger.specs.Listing.{IsListing};
ghost use Rattle.commit_ledger.specs.Payload.{entry_record, HasShortText};
ghost use Rattle.commit_ledger.specs.Reading.{ReadsAs, IsUnread};
ghost use Rattle.commit_ledger.specs.Rules.{IsCommit, IsEntry, IsRecordOf, IsWaiting, Follows};

use cfg_tree::LedgerCheck;

/// Of a list that begins with a commit, the factory's or another one, the last 50 commits are kept, in order; confirmations are
/// no commits. Of any list that keeps 50 at most, so they are after further entries.
pub fn the_last_fifty_commits_are_kept()
    ensures begun { (first : Commit) (entries : List Entry) → commits_of (after_entries (opened first) entries)
        ≡ newest 50 (first ∷ commits_in entries) }
    ensures further { (kept : Kept) (entries : List Entry) → kept_commits kept ≤ 50
        → commits_of (after_entries kept entries) ≡ newest 50 (commits_of kept ++ commits_in entries) }
    ensures most { (kept : Kept) (entries : List Entry) → kept_commits kept ≤ 50
        → kept_commits (after_entries kept entries) ≤ 50 }
{}

/// A list of commits is shown as one text.
pub fn listings_are_one_text()
    ensures { (kept : Kept) (one two : List ℕ) → IsListing kept one → IsListing kept two → one ≡ two }
{}

/// Where each map that is kept is accepted, and that of a further commit too, made or scheduled, each is from then on; so is the
/// one that an unconfirmed run goes back to.
pub fn kept_maps_stay_accepted<J: LedgerCheck>(judge: &J)
    ensures more { (kept : Kept) (entry : Entry) → KeepsMaps (J.accepted judge.now) kept
        → BringsMap (J.accepted judge.now) entry → KeepsMaps (J.accepted judge.now) (append_entry kept entry) }
    ensures target { (kept : Kept) → KeepsMaps (J.accepted judge.now) kept
        → J.accepted judge.now (target_of kept).tree }
{
    let _ = judge;
}

/// Records are of one entry each and are read as one value, or aren't read for one of them, and not both; each map that is kept of
/// them is accepted, and a scheduled commit waits as the last entry. Where they are read, one more entry that keeps to its ranges and
/// may come next is read after them.
pub fn records_have_one_reading<J: LedgerCheck>(judge: &J)
    ensures one_entry { (new : Bool) (r : Record) (one two : Entry) → IsRecordOf (J.accepted judge.now) new r one
        → IsRecordOf (J.accepted judge.now) new r two → one ≡ two }
    ensures one_reading { (rs : List Record) (one two : Kept) → ReadsAs (J.accepted judge.now) rs one
        → ReadsAs (J.accepted judge.now) rs two → one ≡ two }
    ensures not_both { (placed : List Placed) (offset : ℕ) (kept : Kept) → IsUnread (J.accepted judge.now) placed offset
        → ReadsAs (J.accepted judge.now) (records_of placed) kept → ⊥ }
    ensures one_bad { (placed : List Placed) (m n : ℕ) → IsUnread (J.accepted judge.now) placed m
        → IsUnread (J.accepted judge.now) placed n → m ≡ n }
    ensures accepted { (rs : List Record) (kept : Kept) → ReadsAs (J.accepted judge.now) rs kept
        → KeepsMaps (J.accepted judge.now) kept }
    ensures waits { (rs : List Record) (kept : Kept) → ReadsAs (J.accepted judge.now) rs kept
        → IfSome kept.scheduled (IsWaiting (J.accepted judge.now) kept) }
    ensures read_back { (rs : List Record) (kept : Kept) (entry : Entry) → ReadsAs (J.accepted judge.now) rs kept
        → IsEntry (J.accepted judge.now) entry → Follows kept entry
        → ReadsAs (J.accepted judge.now) (rs ++ entry_record entry ∷ []) (append_entry kept entry) }
{
    let _ = judge;
}

/// A journal's first record is read where it is of an accepted commit numbered 1 that needs no confirmation. The factory
/// commit is one where the configuration without statements is accepted.
pub fn lists_begin_with_one_commit<J: LedgerCheck>(judge: &J)
    ensures read { (commit : Commit) → IsCommit (J.accepted judge.now) commit → commit.number ≡ 1 → commit.minutes ≡ 0
        → ReadsAs (J.accepted judge.now) (entry_record (CommitOf commit) ∷ []) (opened commit) }
    ensures factory { J.accepted judge.now map.empty → IsCommit (J.accepted judge.now) factory_commit }
    ensures short { HasShortText (CommitOf factory_commit) }
{
    let _ = judge;
}

/// Records whose commits are written as formerly are read as the same value, where each commit's map is of the first profile and
/// no commit is scheduled.
pub fn former_lists_are_read<J: LedgerCheck>(judge: &J)
    ensures { (rs : List Record) (kept : Kept) → ReadsAs (J.accepted judge.now) rs kept
        → HaveFirstMaps (J.accepted judge.now) rs → ReadsAs (J.accepted judge.now) (formerly rs) kept }
{
    let _ = judge;
}

/// Where records are read as a value, or as one that agrees with it, the checkpoint of that value is read as what agrees with it:
/// where no commit is scheduled, but for the last moment, which is then that of the last commit. The texts of its maps are short.
/// Values that agree are followed by the same entries, and then they are one value.
pub fn checkpoints_are_read<J: LedgerCheck>(judge: &J)
    ensures read { (rs : List Record) (one kept : Kept) → ReadsAs (J.accepted judge.now) rs one → Agrees one kept
        → ReadsAs (J.accepted judge.now) (checkpoint kept) (as_read kept) }
    ensures agrees { (rs : List Record) (one kept : Kept) → ReadsAs (J.accepted judge.now) rs one → Agrees one kept
        → Agrees (as_read kept) kept }
    ensures short { (rs : List Record) (one kept : Kept) → ReadsAs (J.accepted judge.now) rs one → Agrees one kept
        → HasShortMaps kept }
    ensures follow { (one other : Kept) (entry : Entry) → Agrees one other → Follows other entry → Follows one entry }
    ensures append { (one other : Kept) (entry : Entry) → Agrees one other
        → append_entry one entry ≡ append_entry other entry }
{
    let _ = judge;
}
