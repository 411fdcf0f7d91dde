// Prices of dealt rates.
ghost use Rattle.std.specs.Prelude.{◌≡◌, ◌+◌, ◌/◌, ◌^◌, ◌<◌, ◌≤◌, Some, MatchResult};
ghost use Rattle.interest.specs.Figures.{FiguresHold};
ghost use Rattle.interest.specs.Price.{TradePrice, after_years};
ghost use Rattle.interest.specs.Refusal.{Refused, message};
ghost use Rattle.interest.specs.declared.prices.TheConstants.{MAX_DEALT_RATE, MAX_RESERVE_DAYS};

use crate::powers::{ONE, YEAR};
use crate::reciprocals::Divisor;
use crate::roots::Target;
use std::fmt;

/// The greatest dealt rate, in thousandths of a percent.
pub const MAX_DEALT_RATE: u32 = 99_999;
/// The most reserve days to an expiry.
pub const MAX_RESERVE_DAYS: u32 = 2_520;

/// Why a dealt rate has no price.
#[derive(Clone, Copy, PartialEq, Eq, Debug)]
pub enum Unpriceable {
    RateTooHigh,
    TooFar,
}

// Kept: a derived Display states no output, which pins the words.
impl fmt::Display for Unpriceable {
    ghost output = { λ e. Some (message e) };

    fn fmt<W: fmt::Write>(&self, f: &mut fmt::Formatter<W>) -> fmt::Result {
        match self {
            Unpriceable::RateTooHigh => write!(f, "rate over 99.999 %"),
            Unpriceable::TooFar => write!(f, "over 2520 reserve days"),
        }
    }
}

impl std::error::Error for Unpriceable {}

// A worth in units of 10^-9 of a point, rounded to hundredths of a point.
// Kept: one rounding over a const parameter was tried; this and to_eight_decimals are still needed above it, for their bounds.
fn to_centavos(worth: u64) -> u32
    requires { worth ≤ 10 ^ 14 }
    ensures { result ≡ (worth + 5000000) / 10000000 }
{
    ((worth + 5_000_000) / 10_000_000) as u32
}

// A dealt rate and the reserve days to the expiry, within the limits.
#[derive(Clone, Copy)]
struct Quote {
    rate: u32,
    days: u32,
    ghost rate_limit: { rate ≤ MAX_DEALT_RATE },
    ghost day_limit: { days ≤ MAX_RESERVE_DAYS },
}

impl Quote {
    // The rate is looked at first, then the days.
    fn new(rate: u32, days: u32) -> Result<Quote, Unpriceable>
        ensures { MatchResult result (λ q. (q.rate ≡ rate) × (q.days ≡ days)) (λ e. Refused rate days e) }
    {
        if rate > MAX_DEALT_RATE {
            return Err(Unpriceable::RateTooHigh);
        }
        if days > MAX_RESERVE_DAYS {
            return Err(Unpriceable::TooFar);
        }
        Ok(Quote { rate, days })
    }

    // What is left of a worth after the whole years of discount.
    #[tactic(auto, using(crate::proofs::Bounds::years))]
    fn discount(self, worth: u64) -> u64
        requires { worth ≤ 10 ^ 14 }
        ensures value { result ≡ after_years self.rate (self.days / YEAR) worth }
        ensures most { result ≤ 10 ^ 14 }
    {
        let year = Divisor::new(100_000 + self.rate as u64);
        let mut left = worth;
        for done in 0..self.days / YEAR {
            left = year.divide(left * 100_000);
        }
        left
    }

    // The price in hundredths of a point.
    fn price(self) -> u32
        ensures { TradePrice self.rate self.days result }
    {
        let target = Target {
            value: ONE + 10_000 * self.rate as u64,
        };
        let root = target.root(self.days % YEAR);
        let worth = 10_000_000_000_000_000_000 / root.power * 10_000;
        to_centavos(self.discount(worth))
    }
}

/// The price in hundredths of a point of a dealt rate in thousandths of a percent, over the reserve
/// days from the session, included, to the expiry, excluded.
#[tactic(auto, using(crate::proofs::Marked::figures))]
pub fn trade_price(rate: u32, days: u32) -> Result<u32, Unpriceable>
    ensures price { MatchResult result (λ p. TradePrice rate days p) (λ e. Refused rate days e) }
    ensures figures { FiguresHold }
{
    Ok(Quote::new(rate, days)?.price())
}
