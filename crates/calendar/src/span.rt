//! What every calendar decides: the expiry of a month, the reserve days of a range, the next
//! session.
ghost use Rattle.std.specs.Prelude.{◌≡◌, ℕ, ◌+◌, ◌≤◌, min, length, IfSome};
ghost use Rattle.std.specs.Option.{SomeIff};
ghost use Rattle.dates.specs.declared.TheConstants.{LAST_MONTH};
ghost use Rattle.dates.specs.Months.{first_day};
ghost use Rattle.calendar.specs.Spans.{reserve_days, first_session, expiry_of, IsFirstSession};

use crate::kind::Calendar;
use dates::{LAST_DAY, first_day, month_length};

/// How many days a book looks ahead for its next session, the first one included.
pub const MAX_SESSION_SEARCH_DAYS: u32 = 60;

// The reserve days of a range that ends with the calendar at the latest.
fn count_days<C: Calendar>(calendar: &C, from: u32, end: u32) -> u32
    requires forward { from ≤ end }
    requires within { end ≤ LAST_DAY + 1 }
    ensures value { (to : ℕ) → end ≡ min to (LAST_DAY + 1) → result ≡ length (reserve_days (C.kinds calendar.now) from to) }
    ensures most { result ≤ LAST_DAY + 1 }
{
    // Kept: filter(..).count() took 1.5 times as long over the five days of a correction, and u32::from of
    // the answer, added up, 1.15 times as long over the years to a far month.
    let mut count = 0;
    for day in from..end {
        if calendar.kind(day).is_reserve() {
            count += 1;
        }
    }
    count
}

/// How many reserve days there are from `from`, included, to `to`, excluded.
pub fn count_reserve_days<C: Calendar>(calendar: &C, from: u32, to: u32) -> u32
    ensures value { result ≡ length (reserve_days (C.kinds calendar.now) from to) }
    ensures most { result ≤ LAST_DAY + 1 }
{
    let end = to.min(LAST_DAY + 1);
    if from >= end {
        return 0;
    }
    count_days(calendar, from, end)
}

// The first session day from `from`, included, to `to`, excluded.
// Kept: callers add to days and compare them as numbers; a type with the bound would be taken
// apart at each.
fn first_session<C: Calendar>(calendar: &C, from: u32, to: u32) -> Option<u32>
    ensures value { result ≡ first_session (C.kinds calendar.now) from to }
    ensures first { IsFirstSession (C.kinds calendar.now) from to result }
    ensures bound { IfSome result (λ d. d ≤ LAST_DAY) }
{
    let end = to.min(LAST_DAY + 1);
    (from..end).find(|day| calendar.kind(*day).is_session())
}

/// The first session day of the 60 days from a day on, that day included.
pub fn next_session<C: Calendar>(calendar: &C, from: u32) -> Option<u32>
    ensures value { result ≡ first_session (C.kinds calendar.now) from (from + MAX_SESSION_SEARCH_DAYS) }
    ensures first { IsFirstSession (C.kinds calendar.now) from (from + MAX_SESSION_SEARCH_DAYS) result }
    ensures bound { IfSome result (λ d. d ≤ LAST_DAY) }
{
    if from > LAST_DAY {
        return None;
    }
    first_session(calendar, from, from + MAX_SESSION_SEARCH_DAYS)
}

// The first day of a month and the first day of the month after it.
fn month_range(month: u32) -> Option<(u32, u32)>
    ensures { SomeIff result (month ≤ LAST_MONTH) (first_day month, first_day (month + 1)) }
{
    let first = first_day(month)?;
    let length = month_length(month)?;
    Some((first, first + length))
}

/// The expiry of a month: its first session day, if it has one.
pub fn expiry<C: Calendar>(calendar: &C, month: u32) -> Option<u32>
    ensures value { result ≡ expiry_of (C.kinds calendar.now) month }
    ensures first { month ≤ LAST_MONTH → IsFirstSession (C.kinds calendar.now) (first_day month) (first_day (month + 1)) result }
    ensures bound { IfSome result (λ d. d ≤ LAST_DAY) }
{
    let (first, end) = month_range(month)?;
    first_session(calendar, first, end)
}
