ghost use Rattle.std.specs.Prelude.{◌≡◌, ◌++◌, OnOk, decimal};
ghost use Rattle.commit_ledger.specs.Listing.{in_four_places};
ghost use Rattle.std.specs.Prelude.{replicate};

use cfg_base::NoMemory;
use itoa::Buffer;

/// How many places a rollback number takes.
const PLACES: usize = 4;

/// Puts bytes at the end of a text.
pub(crate) fn push_bytes(text: &mut Vec<u8>, bytes: &[u8]) -> Result<(), NoMemory>
    ensures { OnOk result (text.new.items ≡ text.old.items ++ bytes.now) }
{
    match text.extend_from_slice(bytes) {
        Ok(()) => Ok(()),
        Err(_) => Err(NoMemory),
    }
}

/// Puts a number at the end of a text.
pub(crate) fn push_number(text: &mut Vec<u8>, number: u32) -> Result<(), NoMemory>
    ensures { OnOk result (text.new.items ≡ text.old.items ++ decimal number) }
{
    let mut digits = Buffer::new();
    push_bytes(text, digits.format(number).as_bytes())
}

fn push_blanks(text: &mut Vec<u8>, count: usize) -> Result<(), NoMemory>
    ensures { OnOk result (text.new.items ≡ text.old.items ++ replicate count 32) }
{
    for _ in 0..count {
        text.push(b' ')?;
    }
    Ok(())
}

/// Puts a number at the end of a text, and blanks up to four places.
pub(crate) fn push_place(text: &mut Vec<u8>, number: u32) -> Result<(), NoMemory>
    ensures { OnOk result (text.new.items ≡ text.old.items ++ in_four_places number) }
{
    let mut digits = Buffer::new();
    let digits = digits.format(number).as_bytes();
    push_bytes(text, digits)?;
    push_blanks(text, PLACES.saturating_sub(digits.len()))
}
