/// The words that a value may be, where it is one of a fixed set.
#[derive(Clone, Copy, Debug, PartialEq, Eq)]
pub enum Choice {
    /// What a login class may do.
    Permission,
    /// Whether root may log in.
    RootLogin,
    /// Whether a BGP group's peers are in this autonomous system.
    GroupType,
    /// Where a route was learnt.
    Protocol,
    /// Which next hop a policy sets.
    NextHop,
    /// Which protocol a packet is of.
    PacketProtocol,
}

/// What a name or a value is.
#[derive(Clone, Copy, Debug, PartialEq, Eq)]
pub enum Kind {
    Name,
    Host,
    Text,
    /// An IPv4 address.
    Address,
    /// An IPv4 address and the length of its prefix.
    Prefix,
    /// An IPv6 address and the length of its prefix.
    Prefix6,
    /// An OSPF area.
    Area,
    /// A physical interface.
    IfName,
    /// An interface and its unit.
    IfUnit,
    /// A number of that range, both ends in it.
    Number { from: u32, to: u32 },
    OneOf(Choice),
}

/// What a statement is made of. A `Container`, `Fixed`, `Keyed` or `Bare` statement is a level.
#[derive(Clone, Copy, Debug, PartialEq, Eq)]
pub enum Shape {
    /// A head alone.
    Container,
    /// A head with the one name that it may have.
    Fixed,
    /// A head with a name.
    Keyed,
    /// A name alone.
    Bare,
    /// A head with one value.
    Leaf,
    /// A head alone, with nothing below.
    Flag,
    /// A head with one or more different values.
    Many,
}
