// Prices of dealt rates and day factors of DI rates, added up.
use crate::numbers::Numbers;
use interest::{day_factor, trade_price};

// The sum of so many prices.
pub(crate) fn prices(count: u32) -> u64 {
    Numbers::new().sum(count, |numbers| {
        let rate = numbers.below(100_000);
        let days = numbers.below(2_521);
        trade_price(rate, days).map_or(0, u64::from)
    })
}

// The sum of so many day factors.
pub(crate) fn factors(count: u32) -> u64 {
    Numbers::new().sum(count, |numbers| {
        day_factor(numbers.di_rate()).map_or(0, u64::from)
    })
}
