//! One rate on every day.
ghost use Rattle.rates.specs.Meanings.{plain_meaning};
ghost use Rattle.rates.specs.Tables.{flat_rate};
ghost use Rattle.std.proofs.Common.{rules};

use crate::horizon::Horizon;
use crate::source::RateSource;
use interest::MAX_DI_RATE;

/// A source with one rate on every day of its horizon.
///
/// A rate above the highest makes every day none.
// Kept: any 32 bits are taken as a rate by the rules, so there is no Option in its place.
#[derive(Clone, Copy, PartialEq, Eq, Debug)]
pub struct FlatSource {
    pub horizon: Horizon,
    pub rate: u32,
}

impl RateSource for FlatSource {
    ghost meaning = { λ x. plain_meaning x.horizon (flat_rate x.horizon x.rate) };

    ghost bounded = { Prim.search rules };

    fn horizon(&self) -> Horizon {
        self.horizon
    }

    fn rate(&self, day: u32) -> Option<u32> {
        (self.horizon.holds(day) && self.rate <= MAX_DI_RATE).then_some(self.rate)
    }
}
