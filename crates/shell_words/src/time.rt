//! The time that one word says: `HH:MM` or `HH:MM:SS`, or one of these behind `YYYY-MM-DD` and a space, in UTC. The
//! calendar is jiff's.

ghost use Rattle.std.specs.Prelude.{◌≡◌, ◌≤◌, ◌+◌, length};
ghost use Rattle.shell_words.specs.Time.{clock_of, dated, day_in, day_of, is_date, is_dated, is_minute, is_pair, is_second, on_day, pair, when_of};

use commands::When;
use jiff_core::civil::Date;

/// Whether two digits stand at a place.
fn is_pair(word: &[u8], place: usize) -> bool
    requires { place + 2 ≤ length word.now }
    ensures { result ≡ is_pair word.now place }
{
    word[place].is_ascii_digit() && word[place + 1].is_ascii_digit()
}

/// The number of the two digits at a place.
fn pair(word: &[u8], place: usize) -> u32
    requires { place + 2 ≤ length word.now }
    ensures is { result ≡ pair word.now place }
    ensures bound { result ≤ 2805 }
{
    u32::from(word[place].saturating_sub(b'0')) * 10
        + u32::from(word[place + 1].saturating_sub(b'0'))
}

/// Whether the word begins with `HH:MM`.
fn is_minute(word: &[u8]) -> bool
    requires { 5 ≤ length word.now }
    ensures { result ≡ is_minute word.now }
{
    is_pair(word, 0)
        && word[2] == b':'
        && is_pair(word, 3)
        && pair(word, 0) < 24
        && pair(word, 3) < 60
}

/// Whether `:SS` follows.
fn is_second(word: &[u8]) -> bool
    requires { 8 ≤ length word.now }
    ensures { result ≡ is_second word.now }
{
    word[5] == b':' && is_pair(word, 6) && pair(word, 6) < 60
}

/// The second of a day that a word says.
fn clock_of(word: &[u8]) -> Option<u32>
    ensures { result ≡ clock_of word.now }
{
    if word.len() == 5 && is_minute(word) {
        return Some(pair(word, 0) * 3600 + pair(word, 3) * 60);
    }
    if word.len() == 8 && (is_minute(word) && is_second(word)) {
        return Some(pair(word, 0) * 3600 + pair(word, 3) * 60 + pair(word, 6));
    }
    None
}

/// Whether the word begins with `YYYY-MM-DD` and a space.
fn is_date(word: &[u8]) -> bool
    requires { 11 ≤ length word.now }
    ensures { result ≡ is_date word.now }
{
    is_pair(word, 0)
        && is_pair(word, 2)
        && word[4] == b'-'
        && is_pair(word, 5)
        && word[7] == b'-'
        && is_pair(word, 8)
        && word[10] == b' '
}

/// How many days after 1970-01-01 a date is, in a year from 1970 to 9998.
fn day_of(year: u32, month: u32, day: u32) -> Option<u32>
    ensures { result ≡ day_of year month day }
{
    if year < 1970 || year > 9998 || month > 12 || day > 31 {
        return None;
    }
    match Date::new(year as i16, month as i8, day as i8) {
        Ok(date) => Some(date.to_unix_epoch_day().unsigned_abs()),
        Err(_) => None,
    }
}

fn on_day(day: Option<u32>, second: Option<u32>) -> Option<When>
    ensures { result ≡ on_day day second }
{
    let day = day?;
    let second = second?;
    Some(When::OnDay { day, second })
}

/// The day of the date that a word begins with.
fn day_in(word: &[u8]) -> Option<u32>
    requires { 11 ≤ length word.now }
    ensures { result ≡ day_in word.now }
{
    day_of(
        pair(word, 0) * 100 + pair(word, 2),
        pair(word, 5),
        pair(word, 8),
    )
}

fn is_dated(word: &[u8]) -> bool
    ensures { result ≡ is_dated word.now }
{
    word.len() >= 11 && is_date(word)
}

/// The time that a word with a date says.
fn dated(word: &[u8]) -> Option<When>
    ensures { result ≡ dated word.now }
{
    if is_dated(word) {
        return on_day(day_in(word), clock_of(&word[11..]));
    }
    None
}

/// The time that a word says.
pub(crate) fn when_of(word: &[u8]) -> Option<When>
    ensures { result ≡ when_of word.now }
{
    if word.len() < 11 {
        return Some(When::Today {
            second: clock_of(word)?,
        });
    }
    dated(word)
}
