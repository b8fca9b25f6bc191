ghost use Rattle.std.specs.Prelude.{◌≡◌, ◌==◌, false, All, IfSome, IfNone};
ghost use Rattle.cfg_values.specs.Cut.{IsCut};

/// What stands before the first mark, and what stands after it.
pub fn cut(bytes: &[u8], mark: u8) -> Option<(&[u8], &[u8])>
    ensures parts { IfSome result (λ parts. IsCut mark bytes.now parts.0.now parts.1.now) }
    ensures none { IfNone result (All (λ b. (b == mark) ≡ false) bytes.now) }
{
    let place = bytes.iter().position(|&byte| byte == mark)?;
    Some((&bytes[..place], &bytes[place + 1..]))
}
