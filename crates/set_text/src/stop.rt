ghost use Rattle.std.specs.Prelude.{◌≡◌};
ghost use Rattle.cfg_lex.specs.Tokens.{capped};
ghost use Rattle.set_text.specs.Stop.{IsStopOf};
ghost use Rattle.set_text.specs.declared.stop.Stop.TheVariants.{NoMemory};

use cfg_lex::LexFault;

/// Why a line asks for nothing.
#[derive(Clone, Copy, Debug, PartialEq, Eq)]
pub(crate) enum Stop {
    At(u32),
    NoMemory,
}

impl From<cfg_base::NoMemory> for Stop {
    ghost from_gives = { λ _ stop. stop ≡ NoMemory };

    fn from(_: cfg_base::NoMemory) -> Stop {
        Stop::NoMemory
    }
}

/// A number in 32 bits.
pub(crate) fn capped(number: usize) -> u32
    ensures { result ≡ capped number }
{
    u32::try_from(number).unwrap_or(u32::MAX)
}

/// The stop that a lexical fault is.
pub(crate) fn stop_of(fault: LexFault) -> Stop
    ensures { IsStopOf fault result }
{
    match fault {
        LexFault::BadByte(place)
        | LexFault::OpenComment(place)
        | LexFault::OpenQuote(place)
        | LexFault::LongWord(place) => Stop::At(place),
        LexFault::NoMemory => Stop::NoMemory,
    }
}
