ghost use Rattle.std.specs.Prelude.{◌≡◌};
ghost use Rattle.cfg_lex.specs.Tokens.{capped, fault_at};
ghost use Rattle.cfg_lex.specs.declared.fault.LexFault.TheVariants.{NoMemory};

use thiserror::Error;

/// Why a text has no tokens, with the place of the leftmost fault. A place past 2^32 - 1 is reported as 2^32 - 1.
#[derive(Clone, Copy, Debug, PartialEq, Eq, Error)]
pub enum LexFault {
    #[error("bad byte at byte {0}")]
    BadByte(u32),
    #[error("comment not closed at byte {0}")]
    OpenComment(u32),
    #[error("quote not closed at byte {0}")]
    OpenQuote(u32),
    #[error("word too long at byte {0}")]
    LongWord(u32),
    #[error("out of memory")]
    NoMemory,
}

impl From<cfg_base::NoMemory> for LexFault {
    ghost from_gives = { λ _ fault. fault ≡ NoMemory };

    fn from(_: cfg_base::NoMemory) -> LexFault {
        LexFault::NoMemory
    }
}

/// What is wrong at the front of a text.
#[derive(Clone, Copy, Debug, PartialEq, Eq)]
pub(crate) enum Cause {
    BadByte,
    OpenComment,
    OpenQuote,
    LongWord,
}

/// A place in 32 bits.
fn capped(place: usize) -> u32
    ensures { result ≡ capped place }
{
    u32::try_from(place).unwrap_or(u32::MAX)
}

/// A fault at its place.
pub(crate) fn fault_at(cause: Cause, place: usize) -> LexFault
    ensures { result ≡ fault_at cause place }
{
    let place = capped(place);
    match cause {
        Cause::BadByte => LexFault::BadByte(place),
        Cause::OpenComment => LexFault::OpenComment(place),
        Cause::OpenQuote => LexFault::OpenQuote(place),
        Cause::LongWord => LexFault::LongWord(place),
    }
}
