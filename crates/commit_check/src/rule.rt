//! The rules of commit check, in the order of their numbers.

ghost use Rattle.std.specs.Prelude.{◌≡◌};
ghost use Rattle.commit_check.specs.Rules.{number_of, number_of_each, number_of_key};
ghost use Rattle.commit_check.specs.declared.rule.TheConstants.{RULES};

/// The most bytes of a canonical text.
pub const MAX_TEXT: u64 = 1_048_576;

/// A rule of one statement of the expansion.
#[derive(Clone, Copy, Debug, PartialEq, Eq)]
pub enum StatementRule {
    /// 2: each user has a class.
    UserClass,
    /// 3: a user's class is predefined or configured.
    KnownClass,
    /// 4: an interface with a `vlan-id` has `vlan-tagging`.
    VlanTagging,
    /// 6: each neighbor of an external group has `peer-as`, at itself or its group.
    PeerAs,
    /// 7: each word of an `import` or `export` is a policy statement.
    Policies,
    /// 8: each `from prefix-list` names a prefix list.
    PrefixLists,
    /// 9: each route has exactly one of `next-hop` and `discard`.
    OneWay,
    /// 10: each OSPF interface but `all` names an interface and a unit.
    Units,
    /// 11: in each route's prefix the bits past its length are 0.
    Network,
    /// 14: each filter that a unit uses is there.
    Filters,
    /// 15: each term of a filter ends in at most one of three ways.
    FilterEnds,
}

/// A rule that no two statements of a kind have the same key.
#[derive(Clone, Copy, Debug, PartialEq, Eq)]
pub enum KeyRule {
    /// 5: no two IPv4 addresses of interfaces have the same four numbers.
    Addresses,
    /// 13: no two IPv6 addresses of interfaces have the same eight groups.
    Addresses6,
    /// 16: no two VLANs have the same number.
    VlanIds,
}

/// A rule of commit check.
#[derive(Clone, Copy, Debug, PartialEq, Eq)]
pub enum CommitRule {
    /// 0: the expansion has at most 65,536 paths.
    Width,
    /// 1: each word of a live `apply-groups` or `apply-groups-except` is a live group.
    Groups,
    /// A rule that each statement of the expansion meets by itself.
    Each(StatementRule),
    /// A rule that no two statements of a kind have the same key.
    Apart(KeyRule),
    /// 12: the canonical text has at most 1,048,576 bytes.
    TextLength,
}

/// All rules after the first one. A rule that is added is a line here, at the place of its number.
static RULES: [CommitRule; 16] = [
    CommitRule::Groups,
    CommitRule::Each(StatementRule::UserClass),
    CommitRule::Each(StatementRule::KnownClass),
    CommitRule::Each(StatementRule::VlanTagging),
    CommitRule::Apart(KeyRule::Addresses),
    CommitRule::Each(StatementRule::PeerAs),
    CommitRule::Each(StatementRule::Policies),
    CommitRule::Each(StatementRule::PrefixLists),
    CommitRule::Each(StatementRule::OneWay),
    CommitRule::Each(StatementRule::Units),
    CommitRule::Each(StatementRule::Network),
    CommitRule::TextLength,
    CommitRule::Apart(KeyRule::Addresses6),
    CommitRule::Each(StatementRule::Filters),
    CommitRule::Each(StatementRule::FilterEnds),
    CommitRule::Apart(KeyRule::VlanIds),
];

/// All rules after the first one.
pub fn rules() -> &'static [CommitRule]
    ensures { result.now ≡ RULES }
{
    &RULES
}

fn number_of_each(rule: StatementRule) -> u8
    ensures { result ≡ number_of_each rule }
{
    match rule {
        StatementRule::UserClass => 2,
        StatementRule::KnownClass => 3,
        StatementRule::VlanTagging => 4,
        StatementRule::PeerAs => 6,
        StatementRule::Policies => 7,
        StatementRule::PrefixLists => 8,
        StatementRule::OneWay => 9,
        StatementRule::Units => 10,
        StatementRule::Network => 11,
        StatementRule::Filters => 14,
        StatementRule::FilterEnds => 15,
    }
}

fn number_of_key(rule: KeyRule) -> u8
    ensures { result ≡ number_of_key rule }
{
    match rule {
        KeyRule::Addresses => 5,
        KeyRule::Addresses6 => 13,
        KeyRule::VlanIds => 16,
    }
}

/// The number by which a rule is known.
pub fn number_of(rule: CommitRule) -> u8
    ensures { result ≡ number_of rule }
{
    match rule {
        CommitRule::Width => 0,
        CommitRule::Groups => 1,
        CommitRule::Each(rule) => number_of_each(rule),
        CommitRule::Apart(rule) => number_of_key(rule),
        CommitRule::TextLength => 12,
    }
}
