//! Wildcard names.
ghost use Rattle.std.specs.Prelude.{◌≡◌, ◌↔◌, IsTrue};
ghost use Rattle.std.specs.List.{list_all};
ghost use Rattle.cfg_values.specs.Pattern.{IsPattern, is_bare_byte, is_pattern_byte};

/// The most bytes between the angles.
const MAX_INNER: usize = 62;

fn is_bare_byte(byte: u8) -> bool
    ensures { result ≡ is_bare_byte byte }
{
    let special = matches!(
        byte,
        b'{' | b'}' | b'[' | b']' | b';' | b'"' | b'#' | b'\\' | b'<' | b'>'
    );
    matches!(byte, b'!'..=b'~') && !special
}

fn is_pattern_byte(byte: u8) -> bool
    ensures { result ≡ is_pattern_byte byte }
{
    is_bare_byte(byte) || matches!(byte, b'[' | b']')
}

fn all_pattern_bytes(bytes: &[u8]) -> bool
    ensures { result ≡ list_all is_pattern_byte bytes.now }
{
    bytes.iter().all(|&byte| is_pattern_byte(byte))
}

/// Whether the bytes are a wildcard name.
pub fn is_pattern(bytes: &[u8]) -> bool
    ensures { IsTrue result ↔ IsPattern bytes.now }
{
    match bytes {
        [b'<', inner @ .., b'>'] => {
            !inner.is_empty() && inner.len() <= MAX_INNER && all_pattern_bytes(inner)
        }
        _ => false,
    }
}
