//! The start of a world, as its file spells it (X.680, section 46: GeneralizedTime).

ghost use Rattle.std.specs.Prelude.{◌≡◌, ◌+◌, ◌<◌, ◌≤◌, ◌↔◌, ◌&&◌, if◌then◌else◌, nat_le, pos, length, take, true, Some, None, IsSome, IfSome, IsTrue};
ghost use Rattle.std.specs.Char.{is_ascii_digit as is_digit};
ghost use Rattle.std.specs.List.{list_all};
ghost use Rattle.x5_know.specs.Moments.{day_of};
ghost use Rattle.x5_load.specs.Parts.{is_true_moment};
ghost use Rattle.x5_model_world.specs.StartText as model;

use jiff::civil::Date;
use x5_know::Start;

/// The digit at the place.
fn digit(octets: &[u8], place: usize) -> u32
    requires { place < length octets.now }
    ensures value { result ≡ model.digit octets.now place }
    ensures most { result ≤ 207 }
{
    u32::from(octets[place].saturating_sub(b'0'))
}

/// The number that the two digits at the place spell.
fn two(octets: &[u8], place: usize) -> u32
    requires { place + 1 < length octets.now }
    ensures value { result ≡ model.two octets.now place }
    ensures most { result ≤ 2277 }
{
    digit(octets, place) * 10 + digit(octets, place + 1)
}

/// Whether the first fourteen octets are digits.
fn has_digits(octets: &[u8]) -> bool
    requires { length octets.now ≡ 15 }
    ensures { result ≡ list_all is_digit (take 14 octets.now) }
{
    octets[..14].iter().all(|octet| octet.is_ascii_digit())
}

/// Whether there are fourteen digits and `Z`.
fn is_stamp(octets: &[u8]) -> bool
    ensures value { result ≡ model.is_stamp octets.now }
    ensures long { result ≡ true → length octets.now ≡ 15 }
{
    if octets.len() != 15 {
        return false;
    }
    has_digits(octets) && octets[14] == b'Z'
}

/// The date, if it's a true one of the years 1900 to 9000.
fn date_of(year: u32, month: u32, day: u32) -> Option<Date>
    ensures there { IsSome result ↔ IsTrue ((nat_le 1900 year && nat_le year 9000) && model.is_day year month day) }
    ensures value { IfSome result (λ d. day_of d ≡ record { year = pos year; month = month; day = day }) }
{
    if year < 1900 || year > 9000 || month > 12 || day > 31 {
        return None;
    }
    match Date::new(year as i16, month as i8, day as i8) {
        Ok(date) => Some(date),
        Err(_) => None,
    }
}

/// Whether a day has this time.
fn is_time(hour: u32, minute: u32, second: u32) -> bool
    ensures { result ≡ model.is_time hour minute second }
{
    hour < 24 && minute < 60 && second < 60
}

/// The start that fifteen octets spell, if the date and the time are true ones.
fn start_at(octets: &[u8]) -> Option<Start>
    requires { length octets.now ≡ 15 }
    ensures { result ≡ (if is_true_moment octets.now then Some (model.start_at octets.now) else None) }
{
    let hour = two(octets, 8);
    let minute = two(octets, 10);
    let second = two(octets, 12);
    if !is_time(hour, minute, second) {
        return None;
    }
    let year = two(octets, 0) * 100 + two(octets, 2);
    match date_of(year, two(octets, 4), two(octets, 6)) {
        Some(date) => Start::new(date, (hour * 60 + minute) * 60 + second),
        None => None,
    }
}

/// The start that a text spells, if it's one.
pub(crate) fn start_of(text: &str) -> Option<Start>
    ensures { result ≡ model.start_of text.now }
{
    let octets = text.as_bytes();
    if is_stamp(octets) {
        start_at(octets)
    } else {
        None
    }
}
