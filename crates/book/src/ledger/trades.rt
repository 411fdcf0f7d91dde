// Trades in the tables: the limits, the positions that a trade moves, and the session's list.
ghost use Rattle.std.specs.Prelude.{◌≡◌, false, not, ◌&&◌, nat_lt, ◌<◌, ◌≤◌, ◌+◌, ◌*◌, ◌||◌, OnOk, pos, ◌+ℤ◌, ◌-ℤ◌, length, slice_index_or, unsigned_abs};
ghost use Rattle.amounts.specs.Tables.{place_of};
ghost use Rattle.interest.specs.Price.{trade_price};
ghost use Rattle.model.specs.Observed.{trade_at};
ghost use Rattle.model.specs.Rows.{is_over};
ghost use Rattle.refusal.specs.Refusals.{reason_of};
ghost use Rattle.rows.specs.Rows.{first_row, reason_by};
ghost use Rattle.book.specs.Causes.{expiry_in, days_in, distance_in, position_in, trade_rows_in, InTables, Tradable};
ghost use Rattle.book.specs.Changes.{changed_at, after_trade};

use super::Ledger;
use crate::references::Ticket;
use amounts::{CELLS, MAX_CONTRACTS, MAX_POSITION, Trade, place};
use dates::month_of;
use interest::{MAX_DEALT_RATE, MAX_RESERVE_DAYS, on_tick, trade_price};
use model::Order;
use refusal::Refusal;

// Whether a position would pass the limit if so many contracts were taken from it.
fn falls_over(position: i32, contracts: u32) -> bool
    ensures { result ≡ is_over (position -ℤ pos contracts) }
{
    (position as i64 - contracts as i64).unsigned_abs() > MAX_POSITION as u64
}

// The same, if they were given to it.
fn rises_over(position: i32, contracts: u32) -> bool
    ensures { result ≡ is_over (position +ℤ pos contracts) }
{
    (position as i64 + contracts as i64).unsigned_abs() > MAX_POSITION as u64
}

// Takes contracts from one of the positions.
fn lower(cells: &mut [i32; CELLS], at: usize, contracts: u32)
    requires within { at < length cells.old }
    requires limit { unsigned_abs (slice_index_or cells.old at (pos 0) -ℤ pos contracts) ≤ 500000 }
    ensures { cells.new ≡ changed_at (λ z. z -ℤ pos contracts) cells.old at }
{
    let cell = &mut cells[at];
    *cell = lowered(*cell, contracts);
}

// Gives contracts to one of them.
fn raise(cells: &mut [i32; CELLS], at: usize, contracts: u32)
    requires within { at < length cells.old }
    requires limit { unsigned_abs (slice_index_or cells.old at (pos 0) +ℤ pos contracts) ≤ 500000 }
    ensures { cells.new ≡ changed_at (λ z. z +ℤ pos contracts) cells.old at }
{
    let cell = &mut cells[at];
    *cell = raised(*cell, contracts);
}

// A position less so many contracts.
fn lowered(position: i32, contracts: u32) -> i32
    requires { unsigned_abs (position -ℤ pos contracts) ≤ 500000 }
    ensures { result ≡ position -ℤ pos contracts }
{
    (position as i64 - contracts as i64) as i32
}

// A position and so many contracts more.
fn raised(position: i32, contracts: u32) -> i32
    requires { unsigned_abs (position +ℤ pos contracts) ≤ 500000 }
    ensures { result ≡ position +ℤ pos contracts }
{
    (position as i64 + contracts as i64) as i32
}

impl Ledger {
    /// The expiry of a month, 0 where it is not listed.
    fn expiry(&self, month: u8) -> u32
        ensures { result ≡ expiry_in self.now month }
    {
        self.months.get(month as usize).map_or(0, |row| row.expiry)
    }

    /// The reserve days from the open session to the expiry of a month, 0 where it is not listed.
    fn days(&self, month: u8) -> u32
        ensures { result ≡ days_in self.now month }
    {
        self.months.get(month as usize).map_or(0, |row| row.days)
    }

    // The months from the session's to a month.
    fn distance(&self, month: u8) -> u32
        ensures { result ≡ distance_in self.now month }
    {
        let number = self.months.get(month as usize).map_or(0, |row| row.number);
        number.saturating_sub(month_of(self.session_day()).unwrap())
    }

    // Whether a side would pass the limit of positions.
    fn passes_limit(&self, order: Order) -> bool
        requires { InTables order }
        ensures { result ≡ (is_over (position_in self.now order.buyer order.month -ℤ pos order.quantity) || is_over (position_in self.now order.seller order.month +ℤ pos order.quantity)) }
    {
        let buyer = self.positions[place(order.buyer, order.month)];
        let seller = self.positions[place(order.seller, order.month)];
        let bought = falls_over(buyer, order.quantity);
        let sold = rises_over(seller, order.quantity);
        bought || sold
    }

    // Whether an index of an order is not in the book.
    fn lacks(&self, order: Order) -> bool
        ensures value { result ≡ not (nat_lt order.buyer (length self.now.accounts) && (nat_lt order.seller (length self.now.accounts) && nat_lt order.month (length self.now.months))) }
        ensures within { result ≡ false → InTables order }
    {
        let accounts = self.accounts.len();
        let months = self.months.len();
        !((order.buyer as usize) < accounts
            && (order.seller as usize) < accounts
            && (order.month as usize) < months)
    }

    /// Whether an order may be traded.
    pub(crate) fn check_trade(&self, ticket: &Ticket, order: Order) -> Result<(), Refusal>
        ensures answers { reason_by reason_of result ≡ first_row (trade_rows_in self.now ticket.now order) }
        ensures tradable { OnOk result (Tradable self.now order) }
    {
        if !self.is_current(ticket) {
            return Err(Refusal::NotCurrent);
        }
        if self.lacks(order) {
            return Err(Refusal::NoSuchIndex);
        }
        if self.expiry(order.month) <= self.session_day() {
            return Err(Refusal::Expired);
        }
        if order.buyer == order.seller {
            return Err(Refusal::SameSides);
        }
        if order.quantity == 0 || order.quantity > MAX_CONTRACTS {
            return Err(Refusal::BadQuantity);
        }
        if order.rate > MAX_DEALT_RATE || !on_tick(order.rate, self.distance(order.month)) {
            return Err(Refusal::BadRate);
        }
        if self.days(order.month) > MAX_RESERVE_DAYS {
            return Err(Refusal::TooFar);
        }
        if self.passes_limit(order) {
            return Err(Refusal::PositionLimit);
        }
        if self.trades.is_full() {
            return Err(Refusal::SessionFull);
        }
        Ok(())
    }

    /// The price of an order that may be traded.
    pub(crate) fn price(&self, order: Order) -> u32
        requires { Tradable self.now order }
        ensures { result ≡ trade_price order.rate (days_in self.now order.month) }
    {
        trade_price(order.rate, self.days(order.month)).unwrap()
    }

    /// Makes a trade that may be made, at its price.
    pub(crate) fn trade(&mut self, order: Order, price: u32)
        requires { Tradable self.old order }
        ensures { self.new ≡ after_trade order price self.old }
    {
        let Order {
            buyer,
            seller,
            month,
            rate,
            quantity,
        } = order;
        lower(&mut self.positions, place(buyer, month), quantity);
        raise(&mut self.positions, place(seller, month), quantity);
        self.trades.accept(Trade {
            buyer,
            seller,
            month,
            rate,
            contracts: quantity,
            price,
        });
    }
}
