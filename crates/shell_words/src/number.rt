//! The numbers that commands name.
ghost use Rattle.std.specs.Prelude.{◌≡◌, length, IsTrue};
ghost use Rattle.std.specs.Char.{is_ascii_digit};
ghost use Rattle.std.specs.Int.{is_in_range};
ghost use Rattle.std.specs.List.{list_all};
ghost use Rattle.std.specs.Str.Parse.{digits_value};
ghost use Rattle.shell_words.specs.Number.{is_number, number_of};

/// The most digits that a number has.
const MAX_DIGITS: usize = 10;

fn is_short(word: &[u8]) -> bool
    ensures { result ≡ is_in_range 1 10 (length word.now) }
{
    1 <= word.len() && word.len() <= MAX_DIGITS
}

fn all_digits(word: &[u8]) -> bool
    ensures { result ≡ list_all is_ascii_digit word.now }
{
    word.iter().all(|byte| byte.is_ascii_digit())
}

fn is_number(word: &[u8]) -> bool
    ensures { result ≡ is_number word.now }
{
    let short = is_short(word);
    let digits = all_digits(word);
    short && digits
}

/// The number that digits write.
fn value_of(digits: &[u8]) -> u64
    requires { IsTrue (is_number digits.now) }
    ensures { result ≡ digits_value 10 digits.now }
{
    let mut number: u64 = 0;
    for &digit in digits {
        number = number * 10 + u64::from(digit - b'0');
    }
    number
}

/// The number that 1 to 10 digits write, where a `u32` holds it.
pub(crate) fn number_of(word: &[u8]) -> Option<u32>
    ensures { result ≡ number_of word.now }
{
    if !is_number(word) {
        return None;
    }
    let number = value_of(word);
    if number <= u64::from(u32::MAX) {
        return Some(number as u32);
    }
    None
}
