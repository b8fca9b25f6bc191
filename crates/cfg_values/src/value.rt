ghost use Rattle.std.specs.Prelude.{◌≡◌, ◌↔◌, IfOk, IfErr, IsErrOf};
ghost use Rattle.cfg_values.specs.Spelling.{IsSpelling, IsCanonical, IsCanonicalOf, IsCause, IsAnswer};

use crate::address::{read_address, read_area, read_prefix};
use crate::address6::read_prefix6;
use crate::choice::is_choice;
use crate::fault::ValueFault;
use crate::interface::{is_interface, read_units};
use crate::number::read_number;
use crate::plain::{as_read, is_host, is_text};
use cfg_base::{Kind, Word, is_name};
use std::alloc::Global;

fn read(alloc: Global, kind: Kind, bytes: &[u8]) -> Result<Word, ValueFault>
    ensures { IsAnswer kind bytes.now result }
{
    match kind {
        Kind::Name => as_read(alloc, kind, is_name(bytes), bytes),
        Kind::Host => as_read(alloc, kind, is_host(bytes), bytes),
        Kind::Text => as_read(alloc, kind, is_text(bytes), bytes),
        Kind::Address => read_address(alloc, bytes),
        Kind::Prefix => read_prefix(alloc, bytes),
        Kind::Prefix6 => read_prefix6(alloc, bytes),
        Kind::Area => read_area(alloc, bytes),
        Kind::IfName => as_read(alloc, kind, is_interface(bytes), bytes),
        Kind::IfUnit => read_units(alloc, bytes),
        Kind::Number { from, to } => read_number(alloc, from, to, bytes),
        Kind::OneOf(choice) => as_read(alloc, kind, is_choice(choice, bytes), bytes),
    }
}

/// The canonical spelling of the value that the bytes spell.
pub fn read_value(alloc: Global, kind: Kind, bytes: &[u8]) -> Result<Word, ValueFault>
    ensures canonical { IfOk result (λ word. IsCanonicalOf kind bytes.now word) }
    ensures refused { IsErrOf result (ValueFault.NotOfKind kind) ↔ ¬ (IsSpelling kind bytes.now) }
    ensures cause { IfErr result (λ fault. IsCause kind bytes.now fault) }

    // What is canonical reads as itself, and nothing else does.
    ensures own { IfOk result (λ word. IsCanonical kind word) }
    ensures kept { IfOk result (λ word. (word ≡ bytes.now) ↔ IsCanonical kind bytes.now) }
{
    read(alloc, kind, bytes)
}
