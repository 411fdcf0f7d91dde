// Trades of a sheet priced on a calendar, with their sides turned into price, and added up.
#![tactic(auto)]

mod sums;
mod trades;

pub use sums::{AnyTrade, InMonth, OnCalendar, Pick, Tally, add_up};
pub use trades::{Cause, PricedTrade, Sides, in_price, price_trade};

#[cfg(test)]
mod tests;
