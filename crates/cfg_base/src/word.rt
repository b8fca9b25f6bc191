ghost use Rattle.std.specs.Prelude.{◌≡◌, ◌<◌, ◌≤◌, ◌↔◌, [], true, length, IfOk, IsErrOf};
ghost use Rattle.std.specs.Ordering.{as_partial_cmp, eq_by_cmp};
ghost use Rattle.std.specs.Cmp.Rules.{comparing};
ghost use Rattle.std.specs.Cmp.{partial_order_from_own_ties};
ghost use Rattle.std.proofs.Common.{rules};
ghost use Rattle.cfg_base.specs.declared.word.TheConstants.{MAX_BYTES};
ghost use Rattle.cfg_base.specs.declared.word.WordFault.TheVariants.{NoMemory};
ghost use Rattle.cfg_base.specs.Order.{word_cmp, words_total, words_equal};
ghost use Rattle.cfg_base.specs.Kept.{bytes_of, IsKept};
ghost use Rattle.cfg_base.specs.Words.{same_word};
ghost use Rattle.cfg_base.specs.declared.word.TheConstants.{IN_PLACE};

use crate::fault::NoMemory;
use crate::order::{order_of, same_bytes, same_ends};
use crate::shared::Shared;
use std::alloc::{AllocError, Global};
use std::cmp::Ordering;
use std::fmt;
use std::marker::Model;
use thiserror::Error;

/// The most bytes that a word has.
pub const MAX_BYTES: usize = 255;

/// The most bytes that stand in a word itself, and not in memory of their own.
const IN_PLACE: usize = 14;

/// Why bytes are no word.
#[derive(Clone, Copy, Debug, PartialEq, Eq, Error)]
pub enum WordFault {
    #[error("a word has at most 255 bytes")]
    LongWord,
    #[error("out of memory")]
    NoMemory,
}

impl From<NoMemory> for WordFault {
    ghost from_gives = { λ _ fault. fault ≡ NoMemory };

    fn from(_: NoMemory) -> WordFault {
        WordFault::NoMemory
    }
}

/// Where the bytes of a word stand.
enum Kept {
    /// So many of these places, from the first one.
    InPlace(u8, [u8; IN_PLACE]),
    /// In memory of their own, which copies share.
    Apart(Shared<u8>),
}

// Written out, so that a drop of what holds a word is a call.
impl Drop for Kept {
    fn drop(self) {
        match self {
            Kept::InPlace(_, _) => {}
            Kept::Apart(bytes) => drop(bytes),
        }
    }
}

/// Few bytes, in place.
fn in_place(bytes: &[u8]) -> Kept
    requires { length bytes.now ≤ IN_PLACE }
    ensures bytes { bytes_of result ≡ bytes.now }
    ensures kept { IsKept result }
{
    let count = bytes.len();
    let mut places = [0; IN_PLACE];
    places[..count].copy_from_slice(bytes);
    Kept::InPlace(count as u8, places)
}

/// Bytes, in place where they are few.
fn keeping(alloc: Global, bytes: &[u8]) -> Result<Kept, NoMemory>
    ensures bytes { IfOk result (λ kept. bytes_of kept ≡ bytes.now) }
    ensures kept { IfOk result IsKept }
{
    if bytes.len() <= IN_PLACE {
        return Ok(in_place(bytes));
    }
    Ok(Kept::Apart(Shared::new(alloc, Vec::from_slice(alloc, bytes)?)?))
}

/// The bytes that are kept.
fn bytes_in(kept: &Kept) -> &[u8]
    requires { IsKept kept.now }
    ensures { result.now ≡ bytes_of kept.now }
{
    match kept {
        Kept::InPlace(count, places) => &places[..*count as usize],
        Kept::Apart(bytes) => bytes.items(),
    }
}

/// Whether both have the same bytes in place, those past their ends too.
fn are_alike(one: &Kept, other: &Kept) -> bool
    ensures { result ≡ true → bytes_of one.now ≡ bytes_of other.now }
{
    match (one, other) {
        (Kept::InPlace(count, places), Kept::InPlace(found, others)) => {
            count == found && same_ends(places, others)
        }
        _ => false,
    }
}

/// Whether the bytes are the same.
fn same_kept(one: &Kept, other: &Kept) -> bool
    requires one { IsKept one.now }
    requires other { IsKept other.now }
    ensures { result ≡ same_word (bytes_of one.now) (bytes_of other.now) }
{
    are_alike(one, other) || same_bytes(bytes_in(one), bytes_in(other))
}

/// The same bytes once more.
fn copied(kept: &Kept) -> Result<Kept, AllocError>
    requires { IsKept kept.now }
    ensures bytes { IfOk result (λ copy. bytes_of copy ≡ bytes_of kept.now) }
    ensures kept { IfOk result IsKept }
{
    match kept {
        Kept::InPlace(count, places) => Ok(Kept::InPlace(*count, *places)),
        Kept::Apart(bytes) => Ok(Kept::Apart(bytes.clone()?)),
    }
}

/// One word of a statement: a keyword, a name or a value, as bytes.
pub struct Word {
    kept: Kept,
}

impl Drop for Word {
    fn drop(self) {
        let Word { kept } = self;
        drop(kept);
    }
}

impl Model for Word {
    ghost use Rattle.std.specs.Prelude.{List, ℕ, length, ◌≤◌};
    ghost use Rattle.cfg_base.specs.declared.word.TheConstants.{MAX_BYTES};
    ghost use Rattle.cfg_base.specs.Kept.{bytes_of, IsKept};

    ghost Value = { List ℕ };

    ghost view = { λ w. bytes_of w.kept };

    ghost invariant = { λ w. IsKept w.kept × (length (bytes_of w.kept) ≤ MAX_BYTES) };
}

impl Word {
    /// The word without bytes.
    pub fn empty(_: Global) -> Word
        ensures { result ≡ [] }
    {
        Word {
            kept: in_place(&[]),
        }
    }

    /// The word of these bytes.
    pub fn of(alloc: Global, bytes: &[u8]) -> Result<Word, WordFault>
        ensures ok { IfOk result (λ word. word ≡ bytes.now) }
        ensures long { IsErrOf result WordFault.LongWord ↔ (MAX_BYTES < length bytes.now) }
    {
        if bytes.len() > MAX_BYTES {
            return Err(WordFault::LongWord);
        }
        Ok(Word {
            kept: keeping(alloc, bytes)?,
        })
    }

    /// The word of bytes that fit in one.
    pub fn short(alloc: Global, bytes: &[u8]) -> Result<Word, NoMemory>
        requires { length bytes.now ≤ 255 }
        ensures { IfOk result (λ word. word ≡ bytes.now) }
    {
        Ok(Word {
            kept: keeping(alloc, bytes)?,
        })
    }

    /// The bytes of the word.
    pub fn as_bytes(&self) -> &[u8]
        ensures bytes { result.now ≡ self.now }
        ensures within { length self.now < 256 }
    {
        bytes_in(&self.kept)
    }
}

impl fmt::Debug for Word {
    fn fmt<W: fmt::Write>(&self, f: &mut fmt::Formatter<W>) -> fmt::Result {
        f.debug_struct("Word")
            .field("bytes", &self.as_bytes())
            .finish()
    }
}

impl Clone for Word {
    ghost is_clone = { λ source copy. copy ≡ source };

    fn clone(&self) -> Result<Word, AllocError> {
        Ok(Word {
            kept: copied(&self.kept)?,
        })
    }
}

impl PartialEq for Word {
    ghost eq = { eq_by_cmp word_cmp };

    ghost laws = { Prim.search (comparing, rules) };

    fn eq(&self, other: &Word) -> bool {
        same_kept(&self.kept, &other.kept)
    }
}

impl Eq for Word {
    ghost laws = { words_equal };
}

impl PartialOrd for Word {
    ghost partial_cmp = { as_partial_cmp word_cmp };

    ghost laws = { partial_order_from_own_ties (Prim.search (comparing, rules)) (Prim.search (comparing, rules)) };

    fn partial_cmp(&self, other: &Word) -> Option<Ordering> {
        Some(self.cmp(other))
    }
}

impl Ord for Word {
    ghost cmp = { word_cmp };

    ghost total = { words_total };

    ghost matches_partial_cmp = { Prim.search (comparing, rules) };

    ghost matches_eq = { Prim.search (comparing, rules) };

    fn cmp(&self, other: &Word) -> Ordering {
        order_of(self.as_bytes(), other.as_bytes())
    }
}
