//! The date and time of a moment, in UTC. The calendar is jiff's.

ghost use Rattle.std.specs.Prelude.{◌≡◌, ◌++◌, ◌*ℤ◌, OnOk, pos, unsigned_abs};
ghost use Rattle.jiff_core.specs.DateTime.{civil_nanos};
ghost use Rattle.jiff_core.specs.Time.{time_seconds};
ghost use Rattle.commit_ledger.specs.Date.{two, four, day_text, time_text, date_text_at};

use crate::text::push_bytes;
use cfg_base::{Moment, NoMemory};
use jiff::Timestamp;
use jiff::civil::DateTime;
use jiff::tz::Offset;

fn shown_at(moment: Moment) -> DateTime
    ensures { civil_nanos result ≡ pos moment *ℤ pos 1_000_000_000 }
{
    let instant = Timestamp::from_second(moment.seconds() as i64).unwrap();
    Offset::UTC.to_datetime(instant)
}

fn two(number: u32) -> [u8; 2]
    ensures { result ≡ two number }
{
    [b'0' + (number / 10 % 10) as u8, b'0' + (number % 10) as u8]
}

fn four(number: u32) -> [u8; 4]
    ensures { result ≡ four number }
{
    [
        b'0' + (number / 1000 % 10) as u8,
        b'0' + (number / 100 % 10) as u8,
        b'0' + (number / 10 % 10) as u8,
        b'0' + (number % 10) as u8,
    ]
}

fn day_bytes(shown: DateTime) -> [u8; 10]
    ensures { result
        ≡ day_text (record { year = unsigned_abs shown.date.year; month = shown.date.month; day = shown.date.day }) }
{
    let [a, b, c, d] = four(u32::from(shown.year().unsigned_abs()));
    let [e, f] = two(u32::from(shown.month().unsigned_abs()));
    let [g, h] = two(u32::from(shown.day().unsigned_abs()));
    [a, b, c, d, b'-', e, f, b'-', g, h]
}

fn time_bytes(shown: DateTime) -> [u8; 8]
    ensures { result ≡ time_text (time_seconds shown.time) }
{
    let [a, b] = two(u32::from(shown.hour().unsigned_abs()));
    let [c, d] = two(u32::from(shown.minute().unsigned_abs()));
    let [e, f] = two(u32::from(shown.second().unsigned_abs()));
    [a, b, b':', c, d, b':', e, f]
}

/// The date and time of a moment, in UTC.
pub fn date_bytes_at(moment: Moment) -> [u8; 19]
    ensures { result ≡ date_text_at moment }
{
    let shown = shown_at(moment);
    let mut bytes = [b' '; 19];
    bytes[..10].copy_from_slice(&day_bytes(shown));
    bytes[11..].copy_from_slice(&time_bytes(shown));
    bytes
}

/// Puts the date and time of a moment at the end of a text, in UTC.
pub(crate) fn push_date(text: &mut Vec<u8>, moment: Moment) -> Result<(), NoMemory>
    ensures { OnOk result (text.new.items ≡ text.old.items ++ date_text_at moment) }
{
    push_bytes(text, &date_bytes_at(moment))
}
