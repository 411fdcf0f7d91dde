// The day trades of a session: the first contracts of both sides, in one pass over the trades.
ghost use Rattle.std.specs.Prelude.{◌≡◌, ◌<◌, ◌^◌};
ghost use Rattle.std.proofs.Props.{props};
ghost use Rattle.amounts.specs.FirstContracts.{taken_from, table_after, IsStart, AreFirsts};
ghost use Rattle.amounts.specs.SideSums.{AreSums};
ghost use Rattle.amounts.specs.Tables.{EachCell};
ghost use Rattle.amounts.specs.Trades.{FitsTables};

use crate::rows::Amounts;
use crate::sums::{CELLS, Sums, place};
use crate::trades::{Side, Trade};

// The first contracts of an account in a month on a side: how many are left to take, and what those
// taken come to at their prices.
#[derive(Clone, Copy)]
pub(crate) struct FirstContracts {
    pub(crate) left: u32,
    pub(crate) value: u64,
}

// What there is before anything is taken.
const NO_CONTRACTS: FirstContracts = FirstContracts { left: 0, value: 0 };

// Takes of a trade what is left to take on a side.
fn take(cells: &mut [FirstContracts; CELLS], side: Side, trade: Trade)
    requires within { FitsTables trade }
    requires room { (taken_from side trade cells.old).value < 2 ^ 64 }
    ensures { cells.new ≡ table_after side trade cells.old }
{
    let cell = &mut cells[place(trade.party(side), trade.month)];
    let contracts = trade.contracts.min(cell.left);
    cell.left -= contracts;
    cell.value += contracts as u64 * trade.price as u64;
}

// Leaves to take, in each cell, as many contracts as were both bought and sold.
fn set_out(cells: &mut [FirstContracts; CELLS], trades: &[Trade], sums: &Sums)
    requires { AreSums trades.now sums.now }
    ensures { EachCell (IsStart trades.now) cells.new }
{
    for i in 0..CELLS {
        cells[i] = FirstContracts {
            left: sums.bought[i].contracts.min(sums.sold[i].contracts),
            value: 0,
        };
    }
}

// The first contracts of both sides.
#[derive(Drop)]
pub(crate) struct Firsts {
    pub(crate) bought: [FirstContracts; CELLS],
    pub(crate) sold: [FirstContracts; CELLS],
}

impl Firsts {
    // Room for them; nothing is taken yet.
    pub(crate) fn new() -> Firsts {
        Firsts {
            bought: [NO_CONTRACTS; CELLS],
            sold: [NO_CONTRACTS; CELLS],
        }
    }

    // Takes them of the trades, in order of acceptance.
    pub(crate) fn take_all(&mut self, trades: &[Trade], sums: &Sums)
        requires { AreSums trades.now sums.now }
        ensures { AreFirsts trades.now self.new }
    {
        set_out(&mut self.bought, trades, sums);
        set_out(&mut self.sold, trades, sums);
        for trade in trades {
            take(&mut self.bought, Side::Bought, *trade);
            take(&mut self.sold, Side::Sold, *trade);
        }
    }
}

// What the day trades of a session are worked out from.
#[derive(Clone, Copy)]
pub(crate) struct DayTrades<'a> {
    pub(crate) trades: &'a [Trade],
    pub(crate) firsts: &'a Firsts,
    ghost complete: { AreFirsts trades.now firsts.now } by { Prim.hlevel props },
}

impl Amounts for DayTrades<'_> {
    ghost use Rattle.amounts.specs.DayTrades.{day_trade};

    ghost amount_of = { λ s a m. day_trade a m s.trades.now };

    fn amount(&self, account: u8, month: u8) -> i64 {
        let at = place(account, month);
        self.firsts.sold[at].value as i64 - self.firsts.bought[at].value as i64
    }
}
