// The adjustments of a session, from its running sums.
ghost use Rattle.std.specs.Prelude.{◌≡◌, ◌≤◌, ◌+◌, ◌*◌, ◌^◌, pos, ◌-ℤ◌, ◌*ℤ◌, unsigned_abs};
ghost use Rattle.std.proofs.Props.{props};
ghost use Rattle.amounts.specs.Amounts.{gain_of};
ghost use Rattle.amounts.specs.Closes.{prices_of, within_limit, position_in, IsBounded, change_on, on_sums, adjustment_on};
ghost use Rattle.amounts.specs.SideSums.{AreSums};

use crate::rows::Amounts;
use crate::sums::{SideSum, Sums, place};
use crate::trades::{MAX_CONTRACTS, MAX_POSITION_AT_CLOSE, MAX_TRADES, Trade};

/// The prices of a month at a close, in centavos: the settlement price, and the latest one before
/// it, corrected to the session.
#[derive(Clone, Copy, Default)]
pub struct MonthPrices {
    pub settlement: u32,
    pub corrected: u32,
}

// The prices past the last month.
const NO_PRICES: MonthPrices = MonthPrices {
    settlement: 0,
    corrected: 0,
};

// The contracts bought less those sold.
fn change(bought: SideSum, sold: SideSum) -> i64
    requires bought { IsBounded bought }
    requires sold { IsBounded sold }
    ensures value { result ≡ change_on bought sold }
    ensures most { unsigned_abs result ≤ MAX_TRADES * MAX_CONTRACTS }
{
    bought.contracts as i64 - sold.contracts as i64
}

// What the contracts bought came to less what those sold did.
fn cost(bought: SideSum, sold: SideSum) -> i64
    requires bought { IsBounded bought }
    requires sold { IsBounded sold }
    ensures value { result ≡ pos bought.value -ℤ pos sold.value }
    ensures most { unsigned_abs result ≤ MAX_TRADES * MAX_CONTRACTS * 2 ^ 32 }
{
    bought.value as i64 - sold.value as i64
}

// What contracts come to at a price.
fn at_price(contracts: i64, price: u32) -> i64
    requires { unsigned_abs contracts ≤ MAX_TRADES * MAX_CONTRACTS }
    ensures value { result ≡ contracts *ℤ pos price }
    ensures most { unsigned_abs result ≤ MAX_TRADES * MAX_CONTRACTS * 2 ^ 32 }
{
    contracts * price as i64
}

// What contracts gain from one price to another.
fn gain(contracts: i64, price: u32, before: u32) -> i64
    requires { unsigned_abs contracts ≤ MAX_POSITION_AT_CLOSE + MAX_TRADES * MAX_CONTRACTS }
    ensures value { result ≡ gain_of contracts price before }
    ensures most { unsigned_abs result ≤ (MAX_POSITION_AT_CLOSE + MAX_TRADES * MAX_CONTRACTS) * 2 ^ 32 }
{
    contracts * (price as i64 - before as i64)
}

// What the trades of a session gain to the settlement price.
fn on_trades(bought: SideSum, sold: SideSum, settlement: u32) -> i64
    requires bought { IsBounded bought }
    requires sold { IsBounded sold }
    ensures value { result ≡ on_sums bought sold settlement }
    ensures most { unsigned_abs result ≤ 2 * (MAX_TRADES * MAX_CONTRACTS) * 2 ^ 32 }
{
    at_price(change(bought, sold), settlement) - cost(bought, sold)
}

// The position that the session began with.
fn carried(bought: SideSum, sold: SideSum, position: i32) -> i64
    requires bought { IsBounded bought }
    requires sold { IsBounded sold }
    requires position { unsigned_abs position ≤ MAX_POSITION_AT_CLOSE }
    ensures value { result ≡ position -ℤ change_on bought sold }
    ensures most { unsigned_abs result ≤ MAX_POSITION_AT_CLOSE + MAX_TRADES * MAX_CONTRACTS }
{
    position as i64 - change(bought, sold)
}

// What the carried position gains from the corrected price to the settlement price.
fn on_carried(bought: SideSum, sold: SideSum, position: i32, prices: MonthPrices) -> i64
    requires bought { IsBounded bought }
    requires sold { IsBounded sold }
    requires position { unsigned_abs position ≤ MAX_POSITION_AT_CLOSE }
    ensures value { result ≡ gain_of (position -ℤ change_on bought sold) prices.settlement prices.corrected }
    ensures most { unsigned_abs result ≤ (MAX_POSITION_AT_CLOSE + MAX_TRADES * MAX_CONTRACTS) * 2 ^ 32 }
{
    let held = carried(bought, sold, position);
    gain(held, prices.settlement, prices.corrected)
}

// The adjustment on the sums of both sides.
fn adjustment(bought: SideSum, sold: SideSum, position: i32, prices: MonthPrices) -> i64
    requires bought { IsBounded bought }
    requires sold { IsBounded sold }
    requires position { unsigned_abs position ≤ MAX_POSITION_AT_CLOSE }
    ensures { result ≡ adjustment_on bought sold position prices }
{
    on_trades(bought, sold, prices.settlement) + on_carried(bought, sold, position, prices)
}

// A position within the limit, 0 for one past it.
fn within_limit(position: i32) -> i32
    ensures value { result ≡ within_limit position }
    ensures most { unsigned_abs result ≤ MAX_POSITION_AT_CLOSE }
{
    if position.unsigned_abs() > MAX_POSITION_AT_CLOSE {
        return 0;
    }
    position
}

// The position of an account in a month.
fn position_in(positions: &[i32], account: u8, month: u8) -> i32
    ensures value { result ≡ position_in positions.now account month }
    ensures most { unsigned_abs result ≤ MAX_POSITION_AT_CLOSE }
{
    let at = place(account, month);
    within_limit(positions.get(at).copied().unwrap_or(0))
}

// The prices of a month.
fn month_prices(prices: &[MonthPrices], month: u8) -> MonthPrices
    ensures { result ≡ prices_of prices.now month }
{
    prices.get(month as usize).copied().unwrap_or(NO_PRICES)
}

// What the adjustments of a session are worked out from: its trades with their sums, and what the
// book tells.
#[derive(Clone, Copy)]
pub(crate) struct Adjustments<'s, 'b> {
    pub(crate) trades: &'s [Trade],
    pub(crate) sums: &'s Sums,
    pub(crate) prices: &'b [MonthPrices],
    pub(crate) positions: &'b [i32],
    ghost summed: { AreSums trades.now sums.now } by { Prim.hlevel props },
}

impl Amounts for Adjustments<'_, '_> {
    ghost use Rattle.amounts.specs.Amounts.{gain_of};
    ghost use Rattle.amounts.specs.Closes.{adjustment_in};

    ghost amount_of = { λ s a m. adjustment_in s.trades.now s.prices.now s.positions.now a m };

    fn amount(&self, account: u8, month: u8) -> i64 {
        let at = place(account, month);
        let position = position_in(self.positions, account, month);
        let prices = month_prices(self.prices, month);
        adjustment(self.sums.bought[at], self.sums.sold[at], position, prices)
    }
}
