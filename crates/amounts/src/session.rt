// The trades of a session, with their running sums.
ghost use Rattle.std.specs.Prelude.{◌≡◌, ◌<◌, [], ◌∷◌, ◌++◌, length, nat_le, IsTrue, ◌↔◌, if◌then◌else◌};
ghost use Rattle.amounts.specs.Closes.{adjustment_in, CarriedCounts};
ghost use Rattle.amounts.specs.DayTrades.{day_trade};
ghost use Rattle.amounts.specs.Rows.{HasRoom, RowsStand, written_to};
ghost use Rattle.amounts.specs.Trades.{FitsTables};

use crate::adjustments::{Adjustments, MonthPrices};
use crate::day_trades::{DayTrades, Firsts};
use crate::rows::{has_room, write_rows};
use crate::sums::Sums;
use crate::trades::{MAX_TRADES, Trade};
use std::marker::Model;

// What stands where there is no trade yet.
const NO_TRADE: Trade = Trade {
    buyer: 0,
    seller: 0,
    month: 0,
    rate: 0,
    contracts: 0,
    price: 0,
};

/// The trades of a session, in order of acceptance, with their sums for each account and month.
#[derive(Drop)]
pub struct SessionTrades {
    trades: [Trade; MAX_TRADES],
    count: usize,
    sums: Sums,
    firsts: Firsts,
}

impl Model for SessionTrades {
    ghost use Rattle.std.specs.Prelude.{List};
    ghost use Rattle.amounts.specs.declared.trades.Trade.{Trade};

    ghost Value = { List Trade };

    ghost use Rattle.amounts.specs.Sessions.{trades_in, HoldsSums};

    ghost view = { trades_in };

    ghost invariant = { HoldsSums };
}

impl SessionTrades {
    /// A session without a trade.
    pub fn new() -> SessionTrades
        ensures { result ≡ [] }
    {
        SessionTrades {
            trades: [NO_TRADE; MAX_TRADES],
            count: 0,
            sums: Sums::new(),
            firsts: Firsts::new(),
        }
    }

    /// Begins a session without a trade.
    pub fn clear(&mut self)
        ensures { self.new ≡ [] }
    {
        self.count = 0;
        self.sums.clear();
    }

    /// Whether there are as many trades as a session may have.
    pub fn is_full(&self) -> bool
        ensures { result ≡ nat_le MAX_TRADES (length self.now) }
    {
        self.count >= MAX_TRADES
    }

    /// Takes a trade, where there is room for it: answers whether there was.
    pub fn accept(&mut self, trade: Trade) -> bool
        ensures room { IsTrue result ↔ ((length self.old < MAX_TRADES) × FitsTables trade) }
        ensures trades { self.new ≡ (if result then self.old ++ trade ∷ [] else self.old) }
    {
        if self.count >= MAX_TRADES || !trade.fits_tables() {
            return false;
        }
        self.sums.add(trade);
        self.trades[self.count] = trade;
        self.count += 1;
        true
    }

    /// Writes what a close settles, in centavos, and answers whether the arrays have room for it: the
    /// adjustments and the day-trade amounts. The row of account a starts at a × k, k being how many
    /// months have prices. The positions are those at the close, each at its `place`.
    #[tactic(auto, using(crate::proofs::Adjusting::most_at_close, crate::proofs::Adjusting::counts_within))]
    pub fn write_amounts<'b>(
        &mut self,
        accounts: usize,
        prices: &'b [MonthPrices],
        positions: &'b [i32],
        adjustments: &mut [i64],
        day_trades: &mut [i64],
    ) -> bool
        ensures room { IsTrue result ↔ (HasRoom accounts (length prices.now) (length adjustments.old) × HasRoom accounts (length prices.now) (length day_trades.old)) }
        ensures adjusted { adjustments.new ≡ (if result then written_to accounts (length prices.now) (adjustment_in self.old prices.now positions.now) adjustments.old else adjustments.old) }
        ensures day_traded { day_trades.new ≡ (if result then written_to accounts (length prices.now) (λ a m. day_trade a m self.old) day_trades.old else day_trades.old) }

        // Where at most 500,000 contracts are carried, the position at the close counts as it is.
        ensures carried { IsTrue result → CarriedCounts self.old }

        // Whatever is written by rows stands at its place.
        ensures placed { RowsStand }
        ensures same_trades { self.new ≡ self.old }
    {
        let months = prices.len();
        if !has_room(accounts, months, adjustments.len())
            || !has_room(accounts, months, day_trades.len())
        {
            return false;
        }
        let trades = &self.trades[..self.count];
        self.firsts.take_all(trades, &self.sums);
        let adjusted = Adjustments {
            trades,
            sums: &self.sums,
            prices,
            positions,
        };
        write_rows(&adjusted, accounts, months, adjustments);
        let day_traded = DayTrades {
            trades,
            firsts: &self.firsts,
        };
        write_rows(&day_traded, accounts, months, day_trades);
        true
    }
}
