//! The sections of statements. This project's own.

ghost use Rattle.std.specs.Prelude.{◌≡◌};
ghost use Rattle.cfg_base.specs.Words.{lists, same_word};
ghost use Rattle.access_rules.specs.Sections.{alter_word, heads_of, section_of, see_word};

/// Which statements a right is of. Each statement at the top is of one section, with all below it.
#[derive(Clone, Copy, Debug, PartialEq, Eq)]
pub enum Section {
    System,
    Interface,
    Routing,
    Firewall,
}

impl Section {
    /// The word that lets see it.
    pub fn see_word(self) -> &'static [u8]
        ensures { result.now ≡ see_word self }
    {
        match self {
            Section::System => b"system",
            Section::Interface => b"interface",
            Section::Routing => b"routing",
            Section::Firewall => b"firewall",
        }
    }

    /// The word that lets change it, and see it too.
    pub fn alter_word(self) -> &'static [u8]
        ensures { result.now ≡ alter_word self }
    {
        match self {
            Section::System => b"system-control",
            Section::Interface => b"interface-control",
            Section::Routing => b"routing-control",
            Section::Firewall => b"firewall-control",
        }
    }
}

/// Whether two words have the same bytes.
pub fn is_word(word: &[u8], other: &[u8]) -> bool
    ensures { result ≡ same_word word.now other.now }
{
    word == other
}

/// Whether a statement at the top that begins with a word is of a section.
fn has_head(section: Section, head: &[u8]) -> bool
    ensures { result ≡ lists (heads_of section) head.now }
{
    match section {
        Section::System => {
            is_word(head, b"version")
                || is_word(head, b"system")
                || is_word(head, b"groups")
                || is_word(head, b"apply-groups")
                || is_word(head, b"apply-groups-except")
        }
        Section::Interface => is_word(head, b"interfaces") || is_word(head, b"vlans"),
        Section::Routing => {
            is_word(head, b"routing-options")
                || is_word(head, b"protocols")
                || is_word(head, b"policy-options")
        }
        Section::Firewall => is_word(head, b"firewall"),
    }
}

/// The section of a statement at the top, by its first word.
pub fn section_of(head: &[u8]) -> Option<Section>
    ensures { result ≡ section_of head.now }
{
    if has_head(Section::System, head) {
        return Some(Section::System);
    }
    if has_head(Section::Interface, head) {
        return Some(Section::Interface);
    }
    if has_head(Section::Routing, head) {
        return Some(Section::Routing);
    }
    if has_head(Section::Firewall, head) {
        return Some(Section::Firewall);
    }
    None
}
