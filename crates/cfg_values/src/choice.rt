//! Values that are one of a fixed set of words.
ghost use Rattle.std.specs.Prelude.{◌≡◌, ◌↔◌, map, IsTrue, Contains};
ghost use Rattle.std.specs.List.{list_any};
ghost use Rattle.std.specs.Str.{bytes_eq};
ghost use Rattle.cfg_values.specs.Choice.{words_of};

use cfg_base::Choice;

/// The words of the set.
fn words_of(choice: Choice) -> &'static [&'static [u8]]
    ensures { map (λ word. word.now) result.now ≡ words_of choice }
{
    match choice {
        Choice::Permission => &[
            b"all",
            b"clear",
            b"configure",
            b"firewall",
            b"firewall-control",
            b"interface",
            b"interface-control",
            b"routing",
            b"routing-control",
            b"system",
            b"system-control",
            b"view",
            b"view-configuration",
        ],
        Choice::RootLogin => &[b"allow", b"deny", b"deny-password"],
        Choice::GroupType => &[b"external", b"internal"],
        Choice::Protocol => &[b"bgp", b"direct", b"local", b"ospf", b"static"],
        Choice::NextHop => &[b"self"],
        Choice::PacketProtocol => &[b"icmp", b"ospf", b"tcp", b"udp"],
    }
}

fn is_among(words: &[&[u8]], bytes: &[u8]) -> bool
    ensures { result ≡ list_any (λ word. bytes_eq word.now bytes.now) words.now }
{
    words.iter().any(|&word| word == bytes)
}

/// Whether the bytes are one of the words of the set.
pub fn is_choice(choice: Choice, bytes: &[u8]) -> bool
    ensures { IsTrue result ↔ Contains (words_of choice) bytes.now }
{
    is_among(words_of(choice), bytes)
}
