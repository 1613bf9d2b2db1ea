//! Moments as they are printed: the date and time so many seconds after the world's start.

ghost use Rattle.std.specs.Prelude.{◌≡◌, ℕ, ◌+◌, ◌-◌, ◌*◌, ◌<◌, ◌≤◌, ◌/◌, ◌%◌, ℤ, pos, ◌+ℤ◌, ◌≤ℤ◌, ◌↔◌, Some, IsSome, IfSome, IfOk, length, slice_index, string_bytes, true, if◌then◌else◌, codes, ◌∷◌, []};
ghost use Rattle.std.specs.List.{concat};
ghost use Rattle.jiff.specs.Words.{epoch_day, IsBetween};
ghost use Rattle.jiff_core.specs.Calendar.{IsCivilDate};
ghost use Rattle.jiff_core.specs.declared.civil.date.Date.{Date as CivilDate};
ghost use Rattle.x5_know.specs.Moments as moments;
ghost use Rattle.x5_know.specs.Moments.{day_of, days_after, moment_text, stamp_text, two_digits, four_digits};
ghost use Rattle.x5_model.specs.Words.{same_octets};

use jiff::ToSpan;
use jiff::civil::Date;
use std::alloc::{AllocError, Global};
use std::marker::Model;
use x5_memory::NoMemory;
use x5_ops::Moment;
use x5_syntax::Text;

/// Seconds of a day.
const DAY: u64 = 86_400;

/// When the world starts: a date, and the seconds of it that have passed.
#[derive(Drop)]
pub struct Start {
    date: Date,
    second: u32,
}

impl Model for Start {
    ghost use Rattle.std.specs.Prelude.{◌<◌, pos, ◌≤ℤ◌};
    ghost use Rattle.jiff.specs.Words.{epoch_day};
    ghost use Rattle.x5_know.specs.Moments as moments;

    ghost Value = { moments.Start };

    ghost view = { λ s. record { day = moments.day_of s.date; second = s.second } };

    ghost invariant = { λ s. (s.second < 86_400) × (epoch_day s.date ≤ℤ pos 2_570_000) × (pos 0 ≤ℤ s.date.year) };
}

/// The date so many days after.
fn later(date: Date, days: u32) -> Date
    requires range { epoch_day date ≤ℤ pos 2_570_000 }
    requires count { days ≤ 49_711 }
    ensures { epoch_day result ≡ epoch_day date +ℤ pos days }
{
    date.saturating_add(i64::from(days).days())
}

/// The same, as the days of the calendar follow each other.
fn later_day(date: Date, days: u32) -> Date
    requires range { epoch_day date ≤ℤ pos 2_570_000 }
    requires count { days ≤ 49_711 }
    ensures { day_of result ≡ days_after days (day_of date) }
{
    later(date, days)
}

/// A number's last two digits.
fn two(alloc: Global, number: u64) -> Result<String, AllocError>
    ensures { IfOk result (λ text. string_bytes text ≡ two_digits number) }
{
    let tens = number / 10 % 10;
    let ones = number % 10;
    format!(in alloc; "{tens}{ones}")
}

/// A number's last four digits.
fn four(alloc: Global, number: u64) -> Result<String, AllocError>
    ensures { IfOk result (λ text. string_bytes text ≡ four_digits number) }
{
    let thousands = number / 1000 % 10;
    let hundreds = number / 100 % 10;
    let tens = number / 10 % 10;
    let ones = number % 10;
    format!(in alloc; "{thousands}{hundreds}{tens}{ones}")
}

/// The digits of a date, the time at a second of it, and `Z`.
fn with_time(
    alloc: Global,
    year: &str,
    month: &str,
    day: &str,
    second: u64,
) -> Result<String, AllocError>
    ensures { IfOk result (λ text. string_bytes text ≡ concat (year.now ∷ month.now ∷ day.now ∷ two_digits (second / 3600) ∷ two_digits (second / 60 % 60) ∷ two_digits (second % 60) ∷ codes "Z" ∷ [])) }
{
    let hour = two(alloc, second / 3600)?;
    let minute = two(alloc, second / 60 % 60)?;
    let second = two(alloc, second % 60)?;
    format!(in alloc; "{year}{month}{day}{hour}{minute}{second}Z")
}

/// The date and the time at a second of it.
fn stamp(alloc: Global, date: Date, second: u64) -> Result<String, AllocError>
    ensures { IfOk result (λ text. string_bytes text ≡ stamp_text (day_of date) second) }
{
    let year = four(alloc, u64::from(date.year().unsigned_abs()))?;
    let month = two(alloc, u64::from(date.month().unsigned_abs()))?;
    let day = two(alloc, u64::from(date.day().unsigned_abs()))?;
    with_time(alloc, year.as_str(), month.as_str(), day.as_str(), second)
}

impl Start {
    /// The start at that second of the date; None where the year isn't 1900 to 9000, or the day has no such second. No memory.
    pub fn new(date: Date, second: u32) -> Option<Start>
        ensures there { IsSome result ↔ IsBetween (pos 1900) (pos 9000) date.year × (second < 86_400) }
        ensures value { IfSome result (λ start. start ≡ record { day = day_of date; second = second }) }
    {
        let year = date.year();
        if year < 1900 || year > 9000 || u64::from(second) >= DAY {
            return None;
        }
        Some(Start { date, second })
    }

    /// The moment as it's printed.
    pub fn moment_text(&self, alloc: Global, moment: Moment) -> Result<Text, NoMemory>
        ensures { IfOk result (λ text. text ≡ moment_text self.now moment) }
    {
        let passed = u64::from(self.second) + u64::from(moment.0);
        let days = (passed / DAY) as u32;
        let date = later_day(self.date, days);
        let text = stamp(alloc, date, passed % DAY)?;
        Ok(Text::from_string(text))
    }

    /// The moment that octets spell as it's printed: a date and time that isn't before the start, nor 4,294,967,296 seconds after it or
    /// later. None if they spell none.
    pub fn moment_of(&self, alloc: Global, octets: &[u8]) -> Result<Option<Moment>, NoMemory>
        ensures { IfOk result (λ moment. moment ≡ moments.moment_of self.now octets.now) }
    {
        let Some(moment) = self.only_moment_of(octets) else {
            return Ok(None);
        };
        let text = self.moment_text(alloc, moment)?;
        Ok(if_same(text.as_str().as_bytes(), octets, moment))
    }

    /// Does nothing. Its clause is a law: a moment's text is that of no other moment, so it's read back as the moment.
    pub fn reads_back(&self)
        ensures { (m : ℕ) → m < 4_294_967_296 → moments.moment_of self.now (moment_text self.now m) ≡ Some m }
    {
        let _second = self.second;
    }

    /// The only moment that the octets can spell.
    fn only_moment_of(&self, octets: &[u8]) -> Option<Moment>
        ensures only { (m : ℕ) → m < 4_294_967_296 → same_octets (moment_text self.now m) octets.now ≡ true → result ≡ Some m }
        ensures few { IfSome result (λ m. m < 4_294_967_296) }
    {
        let start = self.date;
        let start_second = self.second;
        if octets.len() != 15 {
            return None;
        }
        let date = date_at(octets)?;
        let days = days_between(start, date)?;
        passed(start_second, days, second_at(octets))
    }
}

/// The moment, if the octets are those.
fn if_same(octets: &[u8], others: &[u8], moment: Moment) -> Option<Moment>
    ensures { result ≡ (if same_octets octets.now others.now then Some moment else None) }
{
    if octets == others { Some(moment) } else { None }
}

/// The number that the two digits at the place spell.
fn two_at(octets: &[u8], place: usize) -> u32
    requires { place + 1 < length octets.now }
    ensures value { result ≡ (slice_index octets.now place - 48) * 10 + (slice_index octets.now (place + 1) - 48) }
    ensures most { result ≤ 2277 }
{
    let tens = u32::from(octets[place].saturating_sub(b'0'));
    tens * 10 + u32::from(octets[place + 1].saturating_sub(b'0'))
}

/// The date, if the calendar has it.
fn date_of(year: u32, month: u32, day: u32) -> Option<Date>
    ensures there { IsCivilDate (pos year) month day → IsSome result }
    ensures value { IfSome result (λ d. day_of d ≡ record { year = pos year; month = month; day = day }) }
{
    if year > 9999 || month > 12 || day > 31 {
        return None;
    }
    match Date::new(year as i16, month as i8, day as i8) {
        Ok(date) => Some(date),
        Err(_) => None,
    }
}

/// The date that fifteen octets spell.
fn date_at(octets: &[u8]) -> Option<Date>
    requires { length octets.now ≡ 15 }
    ensures { (date : CivilDate) (second : ℕ) → pos 0 ≤ℤ date.year → octets.now ≡ stamp_text (day_of date) second
        → (found : CivilDate) × (result ≡ Some found) × (day_of found ≡ day_of date) }
{
    let year = two_at(octets, 0) * 100 + two_at(octets, 2);
    date_of(year, two_at(octets, 4), two_at(octets, 6))
}

/// The second of the day that fifteen octets spell.
fn second_at(octets: &[u8]) -> u32
    requires { length octets.now ≡ 15 }
    ensures value { (day : moments.Day) (second : ℕ) → second < 86_400 → octets.now ≡ stamp_text day second → result ≡ second }
    ensures most { result ≤ 10_000_000 }
{
    (two_at(octets, 8) * 60 + two_at(octets, 10)) * 60 + two_at(octets, 12)
}

/// The days from the one date to the other, if that isn't earlier.
fn days_between(start: Date, date: Date) -> Option<u32>
    ensures only { (n : ℕ) → epoch_day date ≡ epoch_day start +ℤ pos n → result ≡ Some n }
    ensures most { IfSome result (λ n. n ≤ 7_304_483) }
{
    let days = start.to_plain().until(date.to_plain());
    if days < 0 {
        return None;
    }
    Some(days.unsigned_abs())
}

/// The seconds from the one second of a day to the other so many days later, where moments count so many.
fn passed(start_second: u32, days: u32, second: u32) -> Option<Moment>
    requires start { start_second < 86_400 }
    requires days { days ≤ 7_304_483 }
    requires second { second ≤ 10_000_000 }
    ensures few { IfSome result (λ m. m < 4_294_967_296) }
    ensures only { (m : ℕ) → m < 4_294_967_296 → days ≡ (start_second + m) / 86_400 → second ≡ (start_second + m) % 86_400
        → result ≡ Some m }
{
    let seconds = u64::from(days) * 86_400 + u64::from(second);
    if seconds < u64::from(start_second) {
        return None;
    }
    match u32::try_from(seconds - u64::from(start_second)) {
        Ok(seconds) => Some(Moment(seconds)),
        Err(_) => None,
    }
}
