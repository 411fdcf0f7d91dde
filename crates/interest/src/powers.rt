// Powers of a factor with nine decimals.
ghost use Rattle.std.specs.Prelude.{◌≡◌, MatchOption};
ghost use Rattle.interest.specs.Power.{PowerRange, power_of};

use crate::reciprocals::Multiplier;

// A factor of 1.
pub(crate) const ONE: u64 = 1_000_000_000;
// The reserve days of a year.
pub(crate) const YEAR: u32 = 252;
// The greatest factor that is raised.
const MAX_FACTOR: u64 = 1_004_194_304;

// The factor to the power of `times`, within the range.
#[tactic(auto, using(crate::proofs::Growth::powers))]
fn raise(factor: u64, times: u32) -> u64
    requires { PowerRange factor times }
    ensures { result ≡ power_of factor times }
{
    let multiplier = Multiplier::new(factor);
    let mut power = ONE;
    for done in 0..times {
        power = multiplier.multiply(power);
    }
    power
}

/// The factor, in units of 10^-9, to the power of `times`: from 1 on, each time multiplied by the
/// factor, what is below 10^-9 dropped. Nothing for a factor below 1 or over 1.004194304, or for
/// more than 252 times.
pub fn power(factor: u64, times: u32) -> Option<u64>
    ensures { MatchOption result (PowerRange factor times → ⊥) (λ p. PowerRange factor times × (p ≡ power_of factor times)) }
{
    if factor < ONE || factor > MAX_FACTOR || times > YEAR {
        return None;
    }
    Some(raise(factor, times))
}
