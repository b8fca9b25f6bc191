//! The statements of the profile, a line each, in the order in which they are printed.

ghost use Rattle.std.specs.Prelude.{◌≡◌, length};
ghost use Rattle.cfg_schema.specs.declared.rows.TheConstants.{ROWS};
ghost use Rattle.cfg_schema.specs.Profile.{profile};

use crate::keyword::Keyword;
use cfg_base::{Choice, Kind, Shape};

/// At which levels a row stands.
#[derive(Clone, Copy, Debug, PartialEq, Eq)]
pub enum Reach {
    /// Nowhere: the top itself.
    Top,
    /// At its own level alone.
    Within,
    /// At its own level, where that isn't in a group.
    Outside,
    /// At each level that has other rows, where that isn't in a group.
    Everywhere,
}

/// One row of the profile.
#[derive(Clone, Copy, Debug, PartialEq, Eq)]
pub struct Line {
    /// The row's own number, which is its place in the table.
    pub number: u8,
    /// The number of the level below which the row stands.
    pub under: u8,
    pub reach: Reach,
    /// The number of the row whose rows stand below this one: mostly its own.
    pub inner: u8,
    pub head: Keyword,
    /// The one name of a `Fixed` row.
    pub name: Keyword,
    pub shape: Shape,
    pub name_kind: Kind,
    pub value_kind: Kind,
    pub ordered: bool,
}

/// What a name or a value is: `Host`, `OneOf Protocol`, `Number 1..4094`.
macro_rules! kind {
    (Number $from:literal .. $to:literal) => { Kind::Number { from: $from, to: $to } };
    (OneOf $choice:ident) => { Kind::OneOf(Choice::$choice) };
    ($kind:ident) => { Kind::$kind };
}

/// A row: its number, its level, its words, its shape with its kind. An `outside` row stands at the
/// top outside groups alone, an `everywhere` row at each level outside groups that has other rows. A
/// row `as` another one has the rows of that one below it.
macro_rules! row {
    ($number:literal top) => {
        line!($number, 0, Top, $number, Nothing, Nothing, Container, (Name), (Name), false)
    };
    ($number:literal outside, $head:ident, Container) => {
        line!($number, 0, Outside, $number, $head, Nothing, Container, (Name), (Name), false)
    };
    ($number:literal everywhere, $head:ident, Many $kind:ident) => {
        line!($number, 0, Everywhere, $number, $head, Nothing, Many, (Name), ($kind), false)
    };
    ($number:literal in $under:literal, Bare $kind:ident, ordered) => {
        line!($number, $under, Within, $number, Nothing, Nothing, Bare, ($kind), (Name), true)
    };
    ($number:literal in $under:literal, Bare $kind:ident, as $inner:literal) => {
        line!($number, $under, Within, $inner, Nothing, Nothing, Bare, ($kind), (Name), false)
    };
    ($number:literal in $under:literal, Bare $kind:ident) => {
        line!($number, $under, Within, $number, Nothing, Nothing, Bare, ($kind), (Name), false)
    };
    ($number:literal in $under:literal, $head:ident, Container, as $inner:literal) => {
        line!($number, $under, Within, $inner, $head, Nothing, Container, (Name), (Name), false)
    };
    ($number:literal in $under:literal, $head:ident, Keyed $kind:ident, ordered) => {
        line!($number, $under, Within, $number, $head, Nothing, Keyed, ($kind), (Name), true)
    };
    ($number:literal in $under:literal, $head:ident, Keyed $($kind:tt)+) => {
        line!($number, $under, Within, $number, $head, Nothing, Keyed, ($($kind)+), (Name), false)
    };
    ($number:literal in $under:literal, $head:ident $name:ident, Fixed) => {
        line!($number, $under, Within, $number, $head, $name, Fixed, (Name), (Name), false)
    };
    ($number:literal in $under:literal, $head:ident, $shape:ident) => {
        line!($number, $under, Within, $number, $head, Nothing, $shape, (Name), (Name), false)
    };
    ($number:literal in $under:literal, $head:ident, $shape:ident $($kind:tt)+) => {
        line!($number, $under, Within, $number, $head, Nothing, $shape, (Name), ($($kind)+), false)
    };
}

/// A row with all of its fields. Where a row has no name or no value, that kind is `Name`.
macro_rules! line {
    ($number:literal, $under:literal, $reach:ident, $inner:literal, $head:ident, $name:ident,
     $shape:ident, ($($name_kind:tt)+), ($($value_kind:tt)+), $ordered:literal) => {
        Line {
            number: $number,
            under: $under,
            reach: Reach::$reach,
            inner: $inner,
            head: Keyword::$head,
            name: Keyword::$name,
            shape: Shape::$shape,
            name_kind: kind!($($name_kind)+),
            value_kind: kind!($($value_kind)+),
            ordered: $ordered,
        }
    };
}

/// The rows of the second profile, after the top, which has the number 0. The first 93 are the first
/// profile's, each as it was: a new row only ever comes at the end.
static PROFILE_2: [Line; 119] = [
    row!(0 top),
    row!(1 in 0, Version, Leaf Text),
    row!(2 outside, Groups, Container),
    row!(3 in 2, Bare Name, as 0),
    row!(4 everywhere, ApplyGroups, Many Name),
    row!(5 everywhere, ApplyGroupsExcept, Many Name),
    row!(6 in 0, System, Container),
    row!(7 in 6, HostName, Leaf Host),
    row!(8 in 6, DomainName, Leaf Host),
    row!(9 in 6, NameServer, Container),
    row!(10 in 9, Bare Address, ordered),
    row!(11 in 6, Login, Container),
    row!(12 in 11, Class, Keyed Name),
    row!(13 in 12, Permissions, Many OneOf Permission),
    row!(14 in 11, User, Keyed Name),
    row!(15 in 14, FullName, Leaf Text),
    row!(16 in 14, Uid, Leaf Number 100..64000),
    row!(17 in 14, Class, Leaf Name),
    row!(18 in 6, Services, Container),
    row!(19 in 18, Ssh, Container),
    row!(20 in 19, RootLogin, Leaf OneOf RootLogin),
    row!(21 in 19, ConnectionLimit, Leaf Number 1..250),
    row!(22 in 18, Telnet, Container),
    row!(23 in 22, ConnectionLimit, Leaf Number 1..250),
    row!(24 in 18, Netconf, Container),
    row!(25 in 24, Ssh, Container),
    row!(26 in 25, Port, Leaf Number 1..65535),
    row!(27 in 6, Ntp, Container),
    row!(28 in 27, Server, Keyed Address),
    row!(29 in 28, Prefer, Flag),
    row!(30 in 0, Interfaces, Container),
    row!(31 in 30, Bare IfName),
    row!(32 in 31, Description, Leaf Text),
    row!(33 in 31, Disable, Flag),
    row!(34 in 31, Mtu, Leaf Number 256..16000),
    row!(35 in 31, VlanTagging, Flag),
    row!(36 in 31, UnitNumber, Keyed Number 0..16385),
    row!(37 in 36, Description, Leaf Text),
    row!(38 in 36, Disable, Flag),
    row!(39 in 36, VlanId, Leaf Number 1..4094),
    row!(40 in 36, Family Inet, Fixed),
    row!(41 in 40, Mtu, Leaf Number 68..16000),
    row!(42 in 40, Address, Keyed Prefix),
    row!(43 in 0, RoutingOptions, Container),
    row!(44 in 43, Static, Container),
    row!(45 in 44, Route, Keyed Prefix),
    row!(46 in 45, NextHop, Many Address),
    row!(47 in 45, Discard, Flag),
    row!(48 in 45, Preference, Leaf Number 0..4294967295),
    row!(49 in 43, RouterId, Leaf Address),
    row!(50 in 43, AutonomousSystem, Leaf Number 1..4294967295),
    row!(51 in 0, Protocols, Container),
    row!(52 in 51, Bgp, Container),
    row!(53 in 52, Group, Keyed Name),
    row!(54 in 53, TypeOf, Leaf OneOf GroupType),
    row!(55 in 53, LocalAddress, Leaf Address),
    row!(56 in 53, Import, Many Name),
    row!(57 in 53, Export, Many Name),
    row!(58 in 53, PeerAs, Leaf Number 1..4294967295),
    row!(59 in 53, Neighbor, Keyed Address),
    row!(60 in 59, Description, Leaf Text),
    row!(61 in 59, Import, Many Name),
    row!(62 in 59, Export, Many Name),
    row!(63 in 59, PeerAs, Leaf Number 1..4294967295),
    row!(64 in 51, Ospf, Container),
    row!(65 in 64, Export, Many Name),
    row!(66 in 64, Area, Keyed Area),
    row!(67 in 66, Interface, Keyed IfUnit),
    row!(68 in 67, Passive, Flag),
    row!(69 in 67, Metric, Leaf Number 1..65535),
    row!(70 in 67, HelloInterval, Leaf Number 1..255),
    row!(71 in 67, DeadInterval, Leaf Number 1..65535),
    row!(72 in 67, Disable, Flag),
    row!(73 in 0, PolicyOptions, Container),
    row!(74 in 73, PrefixList, Keyed Name),
    row!(75 in 74, Bare Prefix),
    row!(76 in 73, PolicyStatement, Keyed Name),
    row!(77 in 76, Term, Keyed Name, ordered),
    row!(78 in 77, From, Container),
    row!(79 in 78, Protocol, Many OneOf Protocol),
    row!(80 in 78, Neighbor, Many Address),
    row!(81 in 78, PrefixList, Keyed Name),
    row!(82 in 78, RouteFilter, Keyed Prefix),
    row!(83 in 82, Exact, Flag),
    row!(84 in 82, Orlonger, Flag),
    row!(85 in 77, Then, Container),
    row!(86 in 85, Metric, Leaf Number 0..4294967295),
    row!(87 in 85, LocalPreference, Leaf Number 0..4294967295),
    row!(88 in 85, NextHop, Leaf OneOf NextHop),
    row!(89 in 85, Accept, Flag),
    row!(90 in 85, Reject, Flag),
    row!(91 in 76, From, Container, as 78),
    row!(92 in 76, Then, Container, as 85),
    row!(93 in 36, Family Inet6, Fixed),
    row!(94 in 93, Mtu, Leaf Number 1280..16000),
    row!(95 in 93, Address, Keyed Prefix6),
    row!(96 in 40, Filter, Container),
    row!(97 in 96, Input, Leaf Name),
    row!(98 in 96, Output, Leaf Name),
    row!(99 in 0, Firewall, Container),
    row!(100 in 99, Family Inet, Fixed),
    row!(101 in 100, Filter, Keyed Name),
    row!(102 in 101, Term, Keyed Name, ordered),
    row!(103 in 102, From, Container),
    row!(104 in 103, SourceAddress, Container),
    row!(105 in 104, Bare Prefix),
    row!(106 in 103, DestinationAddress, Container),
    row!(107 in 106, Bare Prefix),
    row!(108 in 103, Protocol, Many OneOf PacketProtocol),
    row!(109 in 103, DestinationPort, Many Number 0..65535),
    row!(110 in 102, Then, Container),
    row!(111 in 110, Count, Leaf Name),
    row!(112 in 110, Accept, Flag),
    row!(113 in 110, Discard, Flag),
    row!(114 in 110, Reject, Flag),
    row!(115 in 0, Vlans, Container),
    row!(116 in 115, Bare Name),
    row!(117 in 116, Description, Leaf Text),
    row!(118 in 116, VlanId, Leaf Number 1..4094),
];

/// The rows of the profile in use.
pub fn lines() -> &'static [Line]
    ensures rows { result.now ≡ profile }
    ensures number { length result.now ≡ ROWS }
{
    &PROFILE_2
}
