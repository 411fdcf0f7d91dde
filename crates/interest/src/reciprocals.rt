// Products and quotients without a division, by the high word of one product.
ghost use Rattle.std.specs.Prelude.{◌≡◌, ◌+◌, ◌-◌, ◌*◌, ◌/◌, ◌^◌, ◌<◌, ◌≤◌};
ghost use Rattle.interest.specs.Power.{FactorRange};
ghost use Rattle.interest.specs.declared.powers.TheConstants.{ONE};

use crate::powers::ONE;

// A factor that powers are multiplied by, from 1 on.
#[derive(Clone, Copy)]
pub(crate) struct Multiplier {
    factor: u64,
    // What the factor adds to 1, in parts of 2^64, rounded down, and one part more.
    excess: u64,
    ghost range: { FactorRange factor },
    ghost exact: { excess ≡ (factor - ONE) * 2 ^ 64 / ONE + 1 },
}

impl Multiplier {
    pub(crate) fn new(factor: u64) -> Multiplier
        requires { FactorRange factor }
        ensures { result.factor ≡ factor }
    {
        let over = factor - ONE;
        // 2^64 is 18_446_744_073 * ONE + 709_551_616.
        let excess = over * 18_446_744_073 + over * 709_551_616 / ONE + 1;
        Multiplier { factor, excess }
    }

    // A power times the factor, fraction dropped.
    pub(crate) fn multiply(self, power: u64) -> u64
        requires { power ≤ 3 * ONE }
        ensures { result ≡ power * self.factor / ONE }
    {
        power + power.carrying_mul(self.excess, 0).1
    }
}

// A number that is divided by more than once.
#[derive(Clone, Copy)]
pub(crate) struct Divisor {
    number: u64,
    // How often the number goes into 2^64 - 1.
    reciprocal: u64,
    ghost positive: { 0 < number },
    ghost exact: { reciprocal ≡ (2 ^ 64 - 1) / number },
}

impl Divisor {
    pub(crate) fn new(number: u64) -> Divisor
        requires { 0 < number }
        ensures { result.number ≡ number }
    {
        Divisor {
            number,
            reciprocal: u64::MAX / number,
        }
    }

    // A dividend by the number, fraction dropped.
    pub(crate) fn divide(self, dividend: u64) -> u64
        ensures { result ≡ dividend / self.number }
    {
        // The quotient, or one less.
        let near = dividend.carrying_mul(self.reciprocal, 0).1;
        if dividend - near * self.number < self.number {
            near
        } else {
            near + 1
        }
    }
}
