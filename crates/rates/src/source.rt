//! What every source of rates gives, and what one does that publishes or arbitrates.
ghost use Rattle.std.specs.Prelude.{◌≡◌, ℕ, ◌≤◌, Some};
ghost use Rattle.interest.specs.declared.di_rates.TheConstants.{MAX_DI_RATE};
ghost use Rattle.rows.specs.Rows.{first_row, reason_by};
ghost use Rattle.rates.specs.Errors.{reason_of};
ghost use Rattle.rates.specs.Meanings.{Meaning, rates_of};
ghost use Rattle.rates.specs.Publishing.{day_rows, Publication, Arbitration};

use crate::entry::DayRate;
use crate::error::Error;
use crate::horizon::Horizon;

/// Where the DI rate of a day comes from, in millionths of a percent a year.
///
/// A source means a horizon, the rates that were published under all of its layers, and the days of
/// each layer. A question changes nothing.
pub trait RateSource {
    ghost meaning: { Self → Meaning };

    /// The days of which the source may have a rate.
    fn horizon(&self) -> Horizon
        ensures { result ≡ (meaning self.now).horizon };

    /// The rate of a day, or that there is none.
    fn rate(&self, day: u32) -> Option<u32>
        ensures { result ≡ rates_of (meaning self.now) day };

    ghost bounded: { (x : Self) (d r : ℕ) → rates_of (meaning x) d ≡ Some r → r ≤ MAX_DI_RATE };
}

/// A source that also takes new rates.
pub trait Publishing: RateSource {
    /// Gives a rate to a day that has none, for a period in reserve days, which has to be one.
    fn publish(&mut self, entry: DayRate, period: u32) -> Result<(), Error>
        ensures { Publication Self.meaning self.old self.new entry period result };
}

/// A source whose topmost layer takes arbitrated rates.
pub trait Arbitrating: RateSource {
    /// Gives a rate to a day that has none, in the topmost layer.
    fn arbitrate(&mut self, entry: DayRate) -> Result<(), Error>
        ensures { Arbitration Self.meaning self.old self.new entry result };
}

// Whether a day may be given a rate.
pub(crate) fn check_day<S: RateSource>(source: &S, day: u32) -> Result<(), Error>
    ensures { reason_by reason_of result ≡ first_row (day_rows (S.meaning source.now) day) }
{
    if !source.horizon().holds(day) {
        return Err(Error::OutsideHorizon);
    }
    if source.rate(day).is_some() {
        return Err(Error::HasRate);
    }
    Ok(())
}
