//! The text of a configuration of so many interfaces.

ghost use Rattle.std.specs.Prelude.{◌≡◌, ◌++◌, IfOk, OnOk, codes, decimal};
ghost use Rattle.modes.specs.Generated.{address_text, configuration_text, front_text, interface_text, interfaces_text};

use crate::text::{push_bytes, push_named};
use cfg_base::{Bytes, NoMemory};
use std::alloc::Global;

fn push_front(text: &mut Vec<u8>) -> Result<(), NoMemory>
    ensures { OnOk result (text.new.items ≡ text.old.items ++ front_text) }
{
    push_bytes(
        text,
        b"groups JUMBO interfaces <ge-*> mtu 9000;\napply-groups JUMBO;\nsystem host-name gen;\ninterfaces {\n",
    )
}

fn push_address(text: &mut Vec<u8>, number: u64) -> Result<(), NoMemory>
    ensures { OnOk result (text.new.items ≡ text.old.items ++ address_text number) }
{
    push_named(text, b"10.", number / 256)?;
    push_named(text, b".", number % 256)?;
    push_bytes(text, b".1/24")
}

fn push_name(text: &mut Vec<u8>, number: u64) -> Result<(), NoMemory>
    ensures { OnOk result (text.new.items ≡ text.old.items
        ++ (codes "ge-0/0/" ++ (decimal number ++ (codes " {\ndescription \"port " ++ decimal number)))) }
{
    push_named(text, b"ge-0/0/", number)?;
    push_named(text, b" {\ndescription \"port ", number)
}

fn push_unit(text: &mut Vec<u8>, number: u64) -> Result<(), NoMemory>
    ensures { OnOk result (text.new.items ≡ text.old.items
        ++ (codes "\";\nunit 0 family inet address " ++ (address_text number ++ codes ";\n}\n"))) }
{
    push_bytes(text, b"\";\nunit 0 family inet address ")?;
    push_address(text, number)?;
    push_bytes(text, b";\n}\n")
}

/// Puts the interface of a number at the end of a text.
fn push_interface(text: &mut Vec<u8>, number: u64) -> Result<(), NoMemory>
    ensures { OnOk result (text.new.items ≡ text.old.items ++ interface_text number) }
{
    push_name(text, number)?;
    push_unit(text, number)
}

/// Puts so many interfaces at the end of a text.
fn push_interfaces(text: &mut Vec<u8>, count: u64) -> Result<(), NoMemory>
    ensures { OnOk result (text.new.items ≡ text.old.items ++ interfaces_text count) }
{
    for number in 0..count {
        push_interface(text, number)?;
    }
    Ok(())
}

/// The configuration of so many interfaces, as a curly text.
pub fn configuration_text(alloc: Global, count: u64) -> Result<Bytes, NoMemory>
    ensures { IfOk result (λ text. text ≡ configuration_text count) }
{
    let mut text = Vec::new(alloc);
    push_front(&mut text)?;
    push_interfaces(&mut text, count)?;
    push_bytes(&mut text, b"}\n")?;
    Ok(Bytes::from(text))
}
