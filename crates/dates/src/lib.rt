//! Days, months and dates from 1 January 2000 to 31 December 2099, and the days of the week.
#![tactic(auto)]

mod date;
mod month;
#[cfg(test)]
mod tests;
mod weekday;

pub use date::{Date, DateError, Day};
pub use month::{first_day, month_length, month_of};
pub use weekday::Weekday;

/// The number of 31 December 2099. Day 0 is Saturday, 1 January 2000.
pub const LAST_DAY: u32 = 36_524;

/// The number of December 2099. Month 0 is January 2000.
pub const LAST_MONTH: u32 = 1_199;
