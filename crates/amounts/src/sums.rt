// The running sums of a session on each side, for each account and month.
ghost use Rattle.std.specs.Prelude.{◌≡◌, replicate};
ghost use Rattle.amounts.specs.SideSums.{no_sum, HasRoomFor, table_with};
ghost use Rattle.amounts.specs.Tables.{place_of};
ghost use Rattle.amounts.specs.Trades.{FitsTables};

use crate::trades::{MAX_ACCOUNTS, MAX_MONTHS, Side, Trade};

/// How many cells a table of all accounts and months of a book has.
pub const CELLS: usize = MAX_ACCOUNTS * MAX_MONTHS;

/// Where the cell of an account in a month stands in such a table.
pub fn place(account: u8, month: u8) -> usize
    ensures { result ≡ place_of account month }
{
    MAX_MONTHS * account as usize + month as usize
}

// The contracts of an account in a month on a side, and what they come to at their prices.
#[derive(Clone, Copy)]
pub(crate) struct SideSum {
    pub(crate) contracts: u32,
    pub(crate) value: u64,
}

// The sums where nothing is traded.
const NO_SUM: SideSum = SideSum {
    contracts: 0,
    value: 0,
};

// Adds a trade to the sums of one of its sides.
fn add_to_side(cells: &mut [SideSum; CELLS], side: Side, trade: Trade)
    requires within { FitsTables trade }
    requires room { HasRoomFor side trade cells.old }
    ensures { cells.new ≡ table_with side trade cells.old }
{
    let cell = &mut cells[place(trade.party(side), trade.month)];
    cell.contracts += trade.contracts;
    cell.value += trade.contracts as u64 * trade.price as u64;
}

// The sums of both sides.
#[derive(Drop)]
pub(crate) struct Sums {
    pub(crate) bought: [SideSum; CELLS],
    pub(crate) sold: [SideSum; CELLS],
}

impl Sums {
    // Those of a session without a trade.
    pub(crate) fn new() -> Sums
        ensures bought { result.bought ≡ replicate CELLS no_sum }
        ensures sold { result.sold ≡ replicate CELLS no_sum }
    {
        Sums {
            bought: [NO_SUM; CELLS],
            sold: [NO_SUM; CELLS],
        }
    }

    // Forgets all trades.
    pub(crate) fn clear(&mut self)
        ensures bought { self.new.bought ≡ replicate CELLS no_sum }
        ensures sold { self.new.sold ≡ replicate CELLS no_sum }
    {
        self.bought = [NO_SUM; CELLS];
        self.sold = [NO_SUM; CELLS];
    }

    // Adds a trade to both sides.
    pub(crate) fn add(&mut self, trade: Trade)
        requires within { FitsTables trade }
        requires bought_room { HasRoomFor Side.Bought trade self.old.bought }
        requires sold_room { HasRoomFor Side.Sold trade self.old.sold }
        ensures bought { self.new.bought ≡ table_with Side.Bought trade self.old.bought }
        ensures sold { self.new.sold ≡ table_with Side.Sold trade self.old.sold }
    {
        add_to_side(&mut self.bought, Side::Bought, trade);
        add_to_side(&mut self.sold, Side::Sold, trade);
    }
}
