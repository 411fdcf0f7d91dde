// The close of a session in the tables.
ghost use Rattle.std.specs.Prelude.{◌≡◌, ◌+◌, ◌*◌, ◌≤◌, [], ◌∷◌, cond, OnOk, length, map, pos};
ghost use Rattle.std.specs.Int.{int_wrap, w64};
ghost use Rattle.std.specs.List.{position};
ghost use Rattle.std.specs.Option.{unwrap_or};
ghost use Rattle.amounts.specs.Closes.{adjustment_in};
ghost use Rattle.amounts.specs.DayTrades.{day_trade};
ghost use Rattle.amounts.specs.Rows.{HasRoom, written_to};
ghost use Rattle.amounts.specs.Sums.{total};
ghost use Rattle.refusal.specs.Refusals.{reason_of};
ghost use Rattle.rows.specs.Rows.{first_row, reason_by};
ghost use Rattle.book.specs.Causes.{day_in};
ghost use Rattle.book.specs.Changes.{priced, after_close};
ghost use Rattle.book.specs.Closes.{lacks_mark, session_rows_in, room_row_in, prices_before, row_in, with_more_due, accounts_after, has_expired, positions_after};

use super::accounts::together;
use super::months::MAX_PRICE;
use super::{AccountRow, Ledger, MonthRow};
use crate::references::{Slip, Ticket};
use amounts::{CELLS, MAX_ACCOUNTS, MAX_MONTHS, MonthPrices};
use arrayvec::ArrayVec;
use refusal::Refusal;
use std::ops::Range;

// The settlement price of a month in the session of a day.
fn settlement_price(row: MonthRow, day: u32) -> u32
    ensures { result ≡ (priced day row).latest }
{
    if day == row.expiry {
        MAX_PRICE
    } else {
        row.mark.unwrap_or(0)
    }
}

// The prices of a month in the session of a day, before the latest is corrected.
fn prices(row: MonthRow, day: u32) -> MonthPrices
    ensures { result ≡ prices_before day row }
{
    MonthPrices {
        settlement: settlement_price(row, day),
        corrected: row.latest,
    }
}

// Keeps the settlement price of each month in the session of a day as the latest.
fn price_rows(rows: &mut ArrayVec<MonthRow, MAX_MONTHS>, day: u32)
    ensures { rows.new.items ≡ map (priced day) rows.old.items }
{
    for row in rows.iter_mut() {
        row.latest = settlement_price(*row, day);
    }
}

// The lowest index of a month that expires after the day and has no mark.
fn first_unmarked(rows: &[MonthRow], day: u32) -> Option<usize>
    ensures { result ≡ position (lacks_mark day) rows.now }
{
    rows.iter()
        .position(|row| day < row.expiry && row.mark.is_none())
}

// The amounts of a row of cells, added up. In a book that keeps a history they fit, so nothing is
// lost.
fn row_total(cells: &[i64]) -> i64
    ensures { result ≡ int_wrap w64 (total (λ z. z) cells.now) }
{
    let mut sum = 0;
    for cell in cells {
        sum = together(sum, *cell);
    }
    sum
}

// A row with an amount more due.
fn with_more_due(row: AccountRow, amount: i64) -> AccountRow
    ensures { result ≡ with_more_due amount row }
{
    AccountRow {
        account: row.account,
        paid: row.paid,
        due: together(row.due, amount),
    }
}

// The row of an account in cells with so many months to an account.
fn row(cells: &[i64], account: usize, months: usize) -> &[i64]
    requires { account * months + months ≤ length cells.now }
    ensures { result.now ≡ row_in months cells.now account }
{
    let start = account * months;
    &cells[start..start + months]
}

// Adds to what is due to each account the amounts of its row.
fn charge_rows(rows: &mut ArrayVec<AccountRow, MAX_ACCOUNTS>, cells: &[i64], months: usize)
    requires { length rows.old.items * months ≤ length cells.now }
    ensures { rows.new.items ≡ accounts_after months cells.now rows.old.items }
{
    for (account, entry) in rows.iter_mut().enumerate() {
        let amount = row_total(row(cells, account, months));
        *entry = with_more_due(*entry, amount);
    }
}

// Whether the month of an index is there, with an expiry that is not after the day.
fn has_expired(rows: &[MonthRow], month: usize, day: u32) -> bool
    ensures { result ≡ has_expired day rows.now month }
{
    rows.get(month).map_or(false, |row| row.expiry <= day)
}

// What is left of a position.
fn position_after(position: i32, expired: bool) -> i32
    ensures { result ≡ cond expired (pos 0) position }
{
    if expired { 0 } else { position }
}

// Sets the positions of months that have expired to 0.
fn expire_cells(cells: &mut [i32; CELLS], rows: &[MonthRow], day: u32)
    ensures { cells.new ≡ positions_after day rows.now cells.old }
{
    for (at, cell) in cells.iter_mut().enumerate() {
        *cell = position_after(*cell, has_expired(rows, at % MAX_MONTHS, day));
    }
}

impl Ledger {
    /// The days of the gap, from the latest closed session on, to the session; none before the first
    /// close.
    pub(crate) fn gap(&self) -> Range<u32>
        ensures { (result.start ≡ unwrap_or self.now.session.closed (day_in self.now)) × (result.end ≡ day_in self.now) }
    {
        let session = self.session_day();
        self.closed.unwrap_or(session)..session
    }

    /// The prices of the months in the session, before the latest are corrected.
    pub(crate) fn month_prices(&self) -> ArrayVec<MonthPrices, MAX_MONTHS>
        ensures { result.items ≡ map (prices_before (day_in self.now)) self.now.months }
    {
        let day = self.session_day();
        let mut list = ArrayVec::new();
        for row in self.months.iter() {
            list.push(prices(*row, day));
        }
        list
    }

    /// Whether the session may be closed, whatever its rates and the arrays.
    pub(crate) fn check_close(&self, ticket: &Ticket) -> Result<(), Refusal>
        ensures { reason_by reason_of result ≡ first_row (session_rows_in self.now ticket.now) }
    {
        if !self.is_current(ticket) {
            return Err(Refusal::NotCurrent);
        }
        if self.unpaid.is_some() {
            return Err(Refusal::Unpaid);
        }
        match first_unmarked(&self.months, self.session_day()) {
            Some(month) => Err(Refusal::Unmarked(month as u32)),
            None => Ok(()),
        }
    }

    /// Whether arrays of these lengths have a place for the amounts of each account and month.
    pub(crate) fn check_room(&self, adjustments: usize, day_trades: usize) -> Result<(), Refusal>
        ensures answers { reason_by reason_of result ≡ first_row (room_row_in self.now adjustments day_trades ∷ []) }
        ensures room { OnOk result (HasRoom (length self.now.accounts) (length self.now.months) adjustments × HasRoom (length self.now.accounts) (length self.now.months) day_trades) }
    {
        let cells = self.accounts.len() * self.months.len();
        if adjustments < cells || day_trades < cells {
            return Err(Refusal::ArrayShort);
        }
        Ok(())
    }

    // Writes the amounts of the session at these prices of the months.
    fn write(&mut self, prices: &[MonthPrices], adjustments: &mut [i64], day_trades: &mut [i64])
        requires priced { length prices.now ≡ length self.old.months }
        requires adjustments_long { HasRoom (length self.old.accounts) (length self.old.months) (length adjustments.old) }
        requires day_trades_long { HasRoom (length self.old.accounts) (length self.old.months) (length day_trades.old) }
        ensures adjusted { adjustments.new ≡ written_to (length self.old.accounts) (length self.old.months) (adjustment_in self.old.session.trades prices.now self.old.positions) adjustments.old }
        ensures day_traded { day_trades.new ≡ written_to (length self.old.accounts) (length self.old.months) (λ a m. day_trade a m self.old.session.trades) day_trades.old }
        ensures same_tables { self.new ≡ self.old }
    {
        let accounts = self.accounts.len();
        self.trades
            .write_amounts(accounts, prices, &self.positions, adjustments, day_trades);
    }

    /// Closes the session at these prices of the months, and answers its slip.
    pub(crate) fn close(
        &mut self,
        prices: &[MonthPrices],
        adjustments: &mut [i64],
        day_trades: &mut [i64],
    ) -> Slip
        requires priced { length prices.now ≡ length self.old.months }
        requires adjustments_long { HasRoom (length self.old.accounts) (length self.old.months) (length adjustments.old) }
        requires day_trades_long { HasRoom (length self.old.accounts) (length self.old.months) (length day_trades.old) }
        ensures slip { result ≡ record { number = self.old.number; day = day_in self.old } }
        ensures adjusted { adjustments.new ≡ written_to (length self.old.accounts) (length self.old.months) (adjustment_in self.old.session.trades prices.now self.old.positions) adjustments.old }
        ensures day_traded { day_trades.new ≡ written_to (length self.old.accounts) (length self.old.months) (λ a m. day_trade a m self.old.session.trades) day_trades.old }
        ensures tables { self.new ≡ after_close (day_in self.old) (accounts_after (length self.old.months) adjustments.new self.old.accounts) (positions_after (day_in self.old) self.old.months self.old.positions) self.old }
    {
        let day = self.session_day();
        self.write(prices, adjustments, day_trades);
        charge_rows(&mut self.accounts, adjustments, self.months.len());
        expire_cells(&mut self.positions, &self.months, day);
        price_rows(&mut self.months, day);
        self.open = None;
        self.closed = Some(day);
        self.unpaid = Some(day);
        Slip::new(self.number, day)
    }
}
