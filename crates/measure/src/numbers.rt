// Numbers of a linear congruential generator.
ghost use Rattle.std.specs.Prelude.{◌<◌};

use model::Order;
use sheet::TradeLine;

#[derive(Drop)]
pub(crate) struct Numbers {
    state: u32,
}

impl Numbers {
    pub(crate) fn new() -> Numbers {
        Numbers { state: 1 }
    }

    fn step(&mut self) -> u32 {
        self.state = self
            .state
            .wrapping_mul(1_664_525)
            .wrapping_add(1_013_904_223);
        self.state
    }

    // A number below the bound, from the next one without its last bits.
    fn next<const DROPPED: u32>(&mut self, bound: u32) -> u32
        requires bound { 0 < bound }
        requires dropped { DROPPED < 32 }
        ensures { result < bound }
    {
        (self.step() >> DROPPED) % bound
    }

    // A number below the bound.
    pub(crate) fn below(&mut self, bound: u32) -> u32
        requires { 0 < bound }
        ensures { result < bound }
    {
        self.next::<8>(bound)
    }

    // The sum of so many numbers, each made from the next ones of the generator.
    pub(crate) fn sum<F: FnMut(&mut Numbers) -> u64>(&mut self, count: u32, mut make: F) -> u64
        requires { F.IsAlwaysCallable make }
    {
        let mut sum: u64 = 0;
        for _ in 0..count {
            sum = sum.wrapping_add(make(self));
        }
        sum
    }

    // A DI rate, in millionths of a percent.
    pub(crate) fn di_rate(&mut self) -> u32 {
        self.next::<2>(100_000_000)
    }

    // A trade among 32 accounts, in the 60 months from January 2027 on.
    pub(crate) fn trade(&mut self) -> TradeLine {
        let buyer = self.below(32) as u8;
        let seller = self.below(32) as u8;
        let month = 324 + self.below(60);
        let rate = self.below(100_000);
        let quantity = 1 + self.below(20_000);
        TradeLine {
            buyer,
            seller,
            month,
            rate,
            quantity,
        }
    }

    // An order between two of 32 accounts in one of 16 months, at a rate on every step.
    pub(crate) fn order(&mut self) -> Order
        ensures { result.month < 16 }
    {
        let buyer = self.below(32);
        let seller = (buyer + 1 + self.below(31)) % 32;
        let month = self.below(16) as u8;
        let rate = 10 * self.below(10_000);
        let quantity = 1 + self.below(2_000);
        Order {
            buyer: buyer as u8,
            seller: seller as u8,
            month,
            rate,
            quantity,
        }
    }
}
