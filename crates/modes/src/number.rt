//! The number of interfaces that are asked for.

ghost use Rattle.std.specs.Prelude.{ℕ};
ghost use Rattle.cfg_values.specs.Number.{IsNumber};

/// The number that 1 to 10 digits write.
pub fn number_of(digits: &[u8]) -> u64
    requires { (number : ℕ) × IsNumber digits.now number }
    ensures { IsNumber digits.now result }
{
    let mut number: u64 = 0;
    for &digit in digits {
        number = number * 10 + u64::from(digit - b'0');
    }
    number
}
