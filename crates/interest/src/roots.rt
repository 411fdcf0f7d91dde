// The root of 252: the greatest factor whose power to 252 is at most a target.
ghost use Rattle.std.specs.Ordering.{MatchOrdering};
ghost use Rattle.std.specs.Prelude.{◌≡◌, ◌+◌, ◌*◌, ◌/◌, ◌<◌, ◌≤◌, MatchOption};
ghost use Rattle.interest.specs.Power.{FactorRange, NeighbourPowers, Root, RootRange, power_of, root_of};

use crate::powers::{ONE, YEAR};
use crate::reciprocals::Multiplier;
use std::cmp::Ordering;

// The root of 2, the greatest one.
const MAX_ROOT: u64 = 1_002_754_370;

// Powers of a factor and of the next one, to the same number of times.
#[derive(Clone, Copy)]
struct Powers {
    lower: u64,
    upper: u64,
}

// A factor and the next one, raised side by side.
#[derive(Clone, Copy)]
struct Neighbours {
    lower: Multiplier,
    upper: Multiplier,
    ghost next: { upper.factor ≡ lower.factor + 1 },
}

impl Neighbours {
    fn new(factor: u64) -> Neighbours
        requires { FactorRange factor × (factor ≤ MAX_ROOT) }
        ensures { result.lower.factor ≡ factor }
    {
        Neighbours {
            lower: Multiplier::new(factor),
            upper: Multiplier::new(factor + 1),
        }
    }

    // Goes on from the powers to some times to those to more times.
    #[tactic(auto, using(crate::proofs::Growth::powers))]
    fn raise(self, powers: Powers, from: u32, to: u32) -> Powers
        requires from { NeighbourPowers self.lower.factor from powers.lower powers.upper }
        requires times { (from ≤ to) × (to ≤ YEAR) }
        ensures { NeighbourPowers self.lower.factor to result.lower result.upper }
    {
        let mut lower = powers.lower;
        let mut upper = powers.upper;
        for done in from..to {
            lower = self.lower.multiply(lower);
            upper = self.upper.multiply(upper);
        }
        Powers { lower, upper }
    }

    // Both to 252, with the lower one's power to so many days met on the way.
    #[tactic(auto, using(crate::proofs::Growth::powers))]
    fn trial(self, days: u32) -> Trial
        requires { days ≤ YEAR }
        ensures power { result.power ≡ power_of self.lower.factor days }
        ensures year { NeighbourPowers self.lower.factor YEAR result.year.lower result.year.upper }
    {
        let start = Powers {
            lower: ONE,
            upper: ONE,
        };
        let part = self.raise(start, 0, days);
        Trial {
            power: part.lower,
            year: self.raise(part, days, YEAR),
        }
    }
}

// A trial of a factor: its power to the days asked for, and its and the next one's power to 252.
#[derive(Clone, Copy)]
struct Trial {
    power: u64,
    year: Powers,
}

impl Trial {
    // How the lower factor stands to the root of a target.
    fn compare(self, target: u64) -> Ordering
        ensures { MatchOrdering result (self.year.upper ≤ target) ((self.year.lower ≤ target) × (target < self.year.upper)) (target < self.year.lower) }
    {
        if self.year.lower > target {
            Ordering::Greater
        } else if self.year.upper <= target {
            Ordering::Less
        } else {
            Ordering::Equal
        }
    }
}

// A root, and its power to the days asked for.
#[derive(Clone, Copy)]
pub(crate) struct FoundRoot {
    pub(crate) factor: u64,
    pub(crate) power: u64,
}

// What stands for 1 in a logarithm, and in what is made of it.
const UNIT: u64 = 1 << 32;

const FINE_UNIT: u64 = 1 << 40;

// The logarithm of (1 + s) / (1 - s), nearly: twice the sum of s, s^3 / 3, s^5 / 5 and so on, seven terms.
fn logarithm(s: u64) -> u64
    requires { s ≤ UNIT / 3 }
    ensures { result ≤ 3 * UNIT / 4 }
{
    let z = s * s / UNIT;
    let mut sum = 0;
    for k in (0..7).rev() {
        sum = UNIT / (2 * k + 1) + sum * z / UNIT;
    }
    2 * s * sum / UNIT
}

// What a root is taken of: a factor from 1 to 2.
#[derive(Clone, Copy)]
pub(crate) struct Target {
    pub(crate) value: u64,
    ghost range: { RootRange value },
}

impl Target {
    // Where to look first for the root: nothing rests on it.
    fn guess(self) -> u64 {
        let log = logarithm((self.value - ONE) * UNIT / (self.value + ONE));
        // A 252nd of it, and what its exponential has beyond 1.
        let part = log * 64 / 63;
        let over = part + part * (part + part * part / (3 * FINE_UNIT)) / (2 * FINE_UNIT);
        // A step drops half a unit in the mean, of powers that grow.
        let dropped = FINE_UNIT / 2 - 51 * log;
        ONE + (over * ONE + dropped) / FINE_UNIT
    }

    // The greatest factor whose power to 252 is at most the target, and its power to so many days:
    // a factor at most the target, when the next one passes it.
    pub(crate) fn root(self, days: u32) -> FoundRoot
        requires { days ≤ YEAR }
        ensures root { Root self.value result.factor }
        ensures value { result.factor ≡ root_of self.value }
        ensures power { result.power ≡ power_of result.factor days }
        ensures most { result.factor ≤ MAX_ROOT }
        ensures least { ONE ≤ result.power }
    {
        let mut factor = self.guess().clamp(ONE, MAX_ROOT);
        loop {
            let trial = Neighbours::new(factor).trial(days);
            match trial.compare(self.value) {
                Ordering::Less => factor += 1,
                Ordering::Equal => {
                    return FoundRoot {
                        factor,
                        power: trial.power,
                    };
                }
                Ordering::Greater => factor -= 1,
            }
        }
    }
}

/// The greatest factor, in units of 10^-9, whose power to 252 is at most the target, or nothing for
/// a target below 1 or over 2.
pub fn root(target: u64) -> Option<u64>
    ensures { MatchOption result (RootRange target → ⊥) (λ f. RootRange target × Root target f × (f ≡ root_of target)) }
{
    if target < ONE || target > 2 * ONE {
        return None;
    }
    Some(Target { value: target }.root(0).factor)
}
