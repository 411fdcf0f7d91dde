// DI rates: the factor of a day, and a settlement price corrected by it.
ghost use Rattle.std.specs.Prelude.{◌≡◌, ◌+◌, ◌*◌, ◌/◌, ◌^◌, ◌<◌, ◌≤◌, MatchOption};
ghost use Rattle.std.specs.Option.{SomeIff};
ghost use Rattle.interest.specs.Correction.{corrected_day};
ghost use Rattle.interest.specs.Price.{DayFactor};
ghost use Rattle.interest.specs.Rounding.{Rounded};

use crate::powers::ONE;
use crate::roots::Target;

/// The greatest DI rate, in millionths of a percent.
pub const MAX_DI_RATE: u32 = 99_999_999;

// A factor of nine decimals, rounded to eight.
fn to_eight_decimals(factor: u64) -> u32
    requires { factor ≤ 2 * ONE }
    ensures { result ≡ (factor + 5) / 10 }
{
    ((factor + 5) / 10) as u32
}

/// The day factor of a DI rate in millionths of a percent, in units of 10^-8, or nothing for a rate
/// of 100 % and over.
pub fn day_factor(rate: u32) -> Option<u32>
    ensures { MatchOption result (MAX_DI_RATE < rate) (λ g. DayFactor rate g) }
{
    if rate > MAX_DI_RATE {
        return None;
    }
    let target = Target {
        value: ONE + 10 * rate as u64,
    };
    Some(to_eight_decimals(target.root(0).factor))
}

/// The price after one reserve day of a day factor, or nothing where the product does not fit. The
/// clause `rounded` is a law of the definition: over any days a corrected price is within half a
/// centavo for each reserve day of the exact product, each scaled by the days after it.
#[tactic(auto, using(crate::proofs::Corrections::rounded))]
pub fn correct_day(price: u64, factor: u32) -> Option<u64>
    ensures value { SomeIff result (price * factor + 50000000 < 2 ^ 64) (corrected_day price factor) }
    ensures rounded { Rounded }
{
    let product = price.checked_mul(factor as u64)?;
    Some(product.checked_add(50_000_000)? / 100_000_000)
}
