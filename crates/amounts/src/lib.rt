// What the close of a session writes, from its trades, the prices of its months and the positions.
#![tactic(auto)]

mod adjustments;
mod day_trades;
mod rows;
mod session;
mod sums;
mod trades;

pub use adjustments::MonthPrices;
pub use session::SessionTrades;
pub use sums::{CELLS, place};
pub use trades::{MAX_ACCOUNTS, MAX_CONTRACTS, MAX_MONTHS, MAX_POSITION, MAX_TRADES, Side, Trade};

#[cfg(test)]
mod tests;
