//! Months and their days, by their numbers.
ghost use Rattle.std.specs.Prelude.{◌≡◌, ℕ, ◌+◌, ◌<◌, ◌≤◌, IfSome};
ghost use Rattle.std.specs.Option.{SomeIff};
ghost use Rattle.dates.specs.Months.{days_in, month_length, first_day, month_of, Holds};

use crate::{LAST_DAY, LAST_MONTH};

// The days before each month of a common year.
const BEFORE: [u32; 12] = [0, 31, 59, 90, 120, 151, 181, 212, 243, 273, 304, 334];

// How many days a month of the year has, January being 0.
fn days_in(of_year: u32, leap: bool) -> u32
    ensures value { result ≡ days_in leap of_year }
    ensures bound { (28 ≤ result) × (result ≤ 31) }
{
    match of_year {
        1 if leap => 29,
        1 => 28,
        3 | 5 | 8 | 10 => 30,
        _ => 31,
    }
}

/// How many days a month has.
#[tactic(auto, unfolding(crate::specs::Months::month_length))]
pub fn month_length(month: u32) -> Option<u32>
    ensures value { SomeIff result (month ≤ LAST_MONTH) (month_length month) }
    ensures bound { IfSome result (λ n. (28 ≤ n) × (n ≤ 31)) }
{
    if month > LAST_MONTH {
        return None;
    }
    Some(days_in(month % 12, month / 12 % 4 == 0))
}

// The first day of a month, or of the month after the last.
// Kept: a month stays a number, as callers have it, and this takes the one after the last too.
pub(crate) fn start(month: u32) -> u32
    requires { month ≤ LAST_MONTH + 1 }
    ensures value { result ≡ first_day month }
    ensures bound { month ≤ LAST_MONTH → result + 30 ≤ LAST_DAY }
{
    let years = month / 12;
    let of_year = month % 12;
    let leap_day = if of_year >= 2 && years % 4 == 0 { 1 } else { 0 };
    365 * years + (years + 3) / 4 + BEFORE[of_year as usize] + leap_day
}

/// The number of the first day of a month.
pub fn first_day(month: u32) -> Option<u32>
    ensures value { SomeIff result (month ≤ LAST_MONTH) (first_day month) }
    ensures bound { IfSome result (λ d. d + 30 ≤ LAST_DAY) }
{
    (month <= LAST_MONTH).then(|| start(month))
}

/// The number of the month of a day.
// 48 months have 1461 days, and no month begins more than 63 / 48 days late by that measure.
pub fn month_of(day: u32) -> Option<u32>
    ensures value { SomeIff result (day ≤ LAST_DAY) (month_of day) }
    ensures holds { IfSome result (λ m. (m ≤ LAST_MONTH) × Holds m day) }
    ensures within { IfSome result (λ m. day < first_day m + month_length m) }
{
    if day > LAST_DAY {
        return None;
    }
    let guess = (48 * day).saturating_sub(63) / 1461;
    if start(guess + 1) <= day {
        Some(guess + 1)
    } else {
        Some(guess)
    }
}
