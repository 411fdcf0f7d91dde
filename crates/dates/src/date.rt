//! Dates from 1 January 2000 to 31 December 2099, their day numbers and their texts.
ghost use Rattle.std.specs.Prelude.{◌≡◌, ℕ, ◌+◌, ◌-◌, ◌<◌, ◌≤◌, Some, MatchOption};
ghost use Rattle.dates.specs.declared.TheConstants.{LAST_DAY, LAST_MONTH};
ghost use Rattle.dates.specs.Months.{month_length, first_day};
ghost use Rattle.dates.specs.DateParts.{month_number, IsDate, AreDigitsOf, HasNumbers, HasDateForm};

use crate::month::{month_length, month_of, start};
use std::error::Error;
use std::fmt;
use std::str::FromStr;

/// A date from 1 January 2000 to 31 December 2099, shown and read as 2026-12-30.
#[derive(Clone, Copy, PartialEq, Eq, Debug)]
pub struct Date {
    year: u32,
    month: u32,
    day: u32,
    ghost is_date: { IsDate year month day },
}

/// A day by its number, shown as its date, or as `day N` past the last date.
#[derive(Clone, Copy, PartialEq, Eq, Debug)]
pub struct Day {
    pub number: u32,
}

/// Why a text gives no date.
#[derive(Clone, Copy, PartialEq, Eq, Debug)]
pub enum DateError {
    /// It is not four digits, two and two, with hyphens between.
    Form,
    /// There is no such date from 2000 to 2099.
    NoSuchDate,
}

// The number of a month of these years.
fn month_number(year: u32, month: u32) -> u32
    requires years { (2000 ≤ year) × (year ≤ 2099) }
    requires months { (1 ≤ month) × (month ≤ 12) }
    ensures value { result ≡ month_number year month }
    ensures bound { result ≤ LAST_MONTH }
{
    (year - 2000) * 12 + month - 1
}

impl Date {
    ghost use Rattle.dates.specs.Dates.{day_number, HasParts, IsOnlyDateOfDay};

    /// The date of this year, month from 1 and day from 1, if there is one.
    pub fn new(year: u32, month: u32, day: u32) -> Option<Date>
        ensures { MatchOption result (IsDate year month day → ⊥) (λ d. HasParts d year month day) }
    {
        if year < 2000 || year > 2099 || month < 1 || month > 12 {
            return None;
        }
        let length = month_length(month_number(year, month))?;
        if day < 1 || day > length {
            return None;
        }
        Some(Date { year, month, day })
    }

    // The date of a day of a month, given by its number.
    fn in_month(month: u32, day: u32) -> Date
        requires month { month ≤ LAST_MONTH }
        requires day { (1 ≤ day) × (day ≤ month_length month) }
        ensures value { day_number result ≡ first_day month + day - 1 }
        ensures only { IsOnlyDateOfDay result (day_number result) }
    {
        Date {
            year: 2000 + month / 12,
            month: month % 12 + 1,
            day,
        }
    }

    /// The date of a day number, if there is one.
    pub fn of_day(day: u32) -> Option<Date>
        ensures { MatchOption result (LAST_DAY < day) (λ d. (day_number d ≡ day) × IsOnlyDateOfDay d day) }
    {
        let month = month_of(day)?;
        Some(Date::in_month(month, day - start(month) + 1))
    }

    // The first day of its month.
    fn month_start(&self) -> u32
        ensures value { result ≡ first_day (month_number self.now.year self.now.month) }
        ensures bound { result + self.now.day ≤ LAST_DAY + 1 }
        ensures only { IsOnlyDateOfDay self.now (day_number self.now) }
    {
        start(month_number(self.year, self.month))
    }

    /// The number of this day, 1 January 2000 being day 0.
    pub fn day_number(&self) -> u32
        ensures value { result ≡ day_number self.now }
        ensures bound { result ≤ LAST_DAY }
        ensures only { IsOnlyDateOfDay self.now result }
    {
        self.month_start() + self.day - 1
    }
}

impl fmt::Display for Date {
    ghost use Rattle.dates.specs.Dates.{text_of};

    ghost output = { λ d. Some (text_of d) };

    #[tactic(auto, using(crate::proofs::MonthLaws::length_bound, crate::proofs::TextLaws::shown_in_two, crate::proofs::TextLaws::shown_in_four))]
    fn fmt<W: fmt::Write>(&self, f: &mut fmt::Formatter<W>) -> fmt::Result {
        write!(f, "{:04}-{:02}-{:02}", self.year, self.month, self.day)
    }
}

// The number that two digits write.
fn two_digits(tens: u8, units: u8) -> Option<u32>
    ensures { MatchOption result ((n : ℕ) → AreDigitsOf tens units n → ⊥) (λ n. AreDigitsOf tens units n) }
{
    let tens = (tens as char).to_digit(10)?;
    let units = (units as char).to_digit(10)?;
    Some(10 * tens + units)
}

// The year, the month and the day that stand in a text as 2026-12-30.
fn numbers(text: &[u8]) -> Option<(u32, u32, u32)>
    ensures { MatchOption result (HasDateForm text.now → ⊥) (λ n. HasNumbers text.now n.0 n.1 n.2) }
{
    let [a, b, c, d, b'-', e, f, b'-', g, h] = text else {
        return None;
    };
    let century = two_digits(*a, *b)?;
    let year = two_digits(*c, *d)?;
    let month = two_digits(*e, *f)?;
    let day = two_digits(*g, *h)?;
    Some((100 * century + year, month, day))
}

impl FromStr for Date {
    type Err = DateError;

    ghost use Rattle.dates.specs.Dates.{Reads};

    ghost from_str_gives = { λ text r. Reads text r };

    fn from_str(text: &str) -> Result<Date, DateError> {
        let (year, month, day) = numbers(text.as_bytes()).ok_or(DateError::Form)?;
        Date::new(year, month, day).ok_or(DateError::NoSuchDate)
    }
}

// Kept: a derived Display states no output, which pins the words.
impl fmt::Display for DateError {
    ghost use Rattle.dates.specs.Dates.{message};

    ghost output = { λ e. Some (message e) };

    fn fmt<W: fmt::Write>(&self, f: &mut fmt::Formatter<W>) -> fmt::Result {
        f.write_str(match self {
            DateError::Form => "a date is written as 2026-12-30",
            DateError::NoSuchDate => "there is no such date from 2000-01-01 to 2099-12-31",
        })
    }
}

impl Error for DateError {}

impl fmt::Display for Day {
    ghost use Rattle.dates.specs.Dates.{day_text};

    ghost output = { λ d. Some (day_text d.number) };

    #[tactic(auto, using(crate::proofs::DateLaws::day_text_is))]
    fn fmt<W: fmt::Write>(&self, f: &mut fmt::Formatter<W>) -> fmt::Result {
        match Date::of_day(self.number) {
            Some(date) => write!(f, "{date}"),
            None => write!(f, "day {}", self.number),
        }
    }
}
