// Settlement prices corrected over the reserve days of a gap, by any calendar and any source of
// rates.
#![tactic(auto)]

mod error;
mod gap;
mod unrated;

pub use error::Uncorrected;
pub use gap::{Gap, MAX_GAP_DAYS, correct, correct_prices};
pub use unrated::first_unrated;

#[cfg(test)]
mod tests;
