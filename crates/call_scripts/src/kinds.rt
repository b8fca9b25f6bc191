//! Kinds and shapes as words: `host`, `100..64000`, `root-login`, `keyed`.

use cfg_base::{Choice, Kind, Shape};
use script_lines::{Arg, Fault, Text, small_number};
use std::str;

fn named_kind(name: &str) -> Result<Kind, Fault> {
    match name {
        "name" => Ok(Kind::Name),
        "host" => Ok(Kind::Host),
        "text" => Ok(Kind::Text),
        "address" => Ok(Kind::Address),
        "prefix" => Ok(Kind::Prefix),
        "prefix6" => Ok(Kind::Prefix6),
        "area" => Ok(Kind::Area),
        "interface" => Ok(Kind::IfName),
        "interface-unit" => Ok(Kind::IfUnit),
        "permission" => Ok(Kind::OneOf(Choice::Permission)),
        "root-login" => Ok(Kind::OneOf(Choice::RootLogin)),
        "group-type" => Ok(Kind::OneOf(Choice::GroupType)),
        "protocol" => Ok(Kind::OneOf(Choice::Protocol)),
        "next-hop" => Ok(Kind::OneOf(Choice::NextHop)),
        "packet-protocol" => Ok(Kind::OneOf(Choice::PacketProtocol)),
        _ => Err(Fault::Script("a kind is a name, or numbers FROM..TO")),
    }
}

/// The kind of that name; numbers of a range are FROM..TO.
pub(crate) fn kind_of(arg: &Arg) -> Result<Kind, Fault> {
    let name = str::from_utf8(arg).unwrap_or("");
    match name.split_once("..") {
        Some((from, to)) => Ok(Kind::Number {
            from: small_number(from.as_bytes())?,
            to: small_number(to.as_bytes())?,
        }),
        None => named_kind(name),
    }
}

fn choice_name(choice: Choice) -> &'static str {
    match choice {
        Choice::Permission => "permission",
        Choice::RootLogin => "root-login",
        Choice::GroupType => "group-type",
        Choice::Protocol => "protocol",
        Choice::NextHop => "next-hop",
        Choice::PacketProtocol => "packet-protocol",
    }
}

fn put_range(out: &mut Text, from: u32, to: u32) {
    out.put_number(u64::from(from));
    out.put("..");
    out.put_number(u64::from(to));
}

/// The name of a kind, after a blank.
pub(crate) fn put_kind(out: &mut Text, kind: Kind) {
    out.put(" ");
    match kind {
        Kind::Name => out.put("name"),
        Kind::Host => out.put("host"),
        Kind::Text => out.put("text"),
        Kind::Address => out.put("address"),
        Kind::Prefix => out.put("prefix"),
        Kind::Prefix6 => out.put("prefix6"),
        Kind::Area => out.put("area"),
        Kind::IfName => out.put("interface"),
        Kind::IfUnit => out.put("interface-unit"),
        Kind::Number { from, to } => put_range(out, from, to),
        Kind::OneOf(choice) => out.put(choice_name(choice)),
    }
}

pub(crate) fn name_of_shape(shape: Shape) -> &'static str {
    match shape {
        Shape::Container => "container",
        Shape::Fixed => "fixed",
        Shape::Keyed => "keyed",
        Shape::Bare => "bare",
        Shape::Leaf => "leaf",
        Shape::Flag => "flag",
        Shape::Many => "many",
    }
}
