ghost use Rattle.std.specs.Prelude.{List, ℕ};
ghost use Rattle.record_code.specs.Record.{Record};
ghost use Rattle.commit_journal.specs.declared.why.AttachWhy.{AttachWhy as Why};
ghost use Rattle.commit_journal.specs.Pair.{PairSpells};
ghost use Rattle.commit_journal.specs.Attach.{ExplainsPair, IsRefusal};

use crate::why::AttachWhy;

/// The causes of a refused opening: files that spell a list have none of them, and none has two.
pub fn causes_exclude_each_other()
    ensures spelled { (a b : List ℕ) (rs : List Record) (why : Why)
        → PairSpells a b rs → IsRefusal why → ExplainsPair a b why → ⊥ }
    ensures apart { (a b : List ℕ) (offset : ℕ) (kept computed : List ℕ)
        → ExplainsPair a b AttachWhy.NotAJournal
        → ExplainsPair a b (AttachWhy.Damaged offset kept computed) → ⊥ }
{}
