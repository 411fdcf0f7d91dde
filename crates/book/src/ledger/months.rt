// Months in the tables: listed, marked, and made ready for a session.
ghost use Rattle.std.specs.Prelude.{◌≡◌, nat_lt, ◌==◌, ◌<◌, ◌≤◌, ◌++◌, ◌∷◌, [], None, Some, true, is_some, IfOk, IfSome, OnOk, length, map};
ghost use Rattle.std.specs.List.{list_any, position};
ghost use Rattle.std.specs.Option.{unwrap_or};
ghost use Rattle.model.specs.References.{is_of};
ghost use Rattle.refusal.specs.Refusals.{reason_of};
ghost use Rattle.rows.specs.Rows.{first_row, reason_by};
ghost use Rattle.sheet.specs.Codes.{place_in};
ghost use Rattle.book.specs.Causes.{day_in, next_in, mark_rows_in, open_rows_in, list_rows_in};
ghost use Rattle.book.specs.Changes.{changed_at, with_mark, at_opening, after_open};

use super::{Ledger, MonthRow};
use crate::references::Ticket;
use amounts::MAX_MONTHS;
use arrayvec::ArrayVec;
use calendar::kind::Calendar;
use calendar::span::count_reserve_days;
use refusal::Refusal;

/// The highest settlement price, which is that of a month on its expiry, in centavos.
pub(crate) const MAX_PRICE: u32 = 10_000_000;

// Whether one of the rows is of the month.
fn has_month(rows: &[MonthRow], number: u32) -> bool
    ensures { result ≡ list_any (λ row. number == row.number) rows.now }
{
    rows.iter().any(|row| number == row.number)
}

// Takes the marks off, and counts the reserve days from a session to each expiry.
fn begin_rows<C: Calendar>(rows: &mut ArrayVec<MonthRow, MAX_MONTHS>, calendar: &C, day: u32)
    ensures { rows.new.items ≡ map (at_opening (C.kinds calendar.now) day) rows.old.items }
{
    for row in rows.iter_mut() {
        row.mark = None;
        row.days = count_reserve_days(calendar, day, row.expiry);
    }
}

// The index of the row of a month.
fn find(rows: &[MonthRow], number: u32) -> Option<usize>
    ensures value { result ≡ position (λ row. number == row.number) rows.now }
    ensures within { IfSome result (λ i. i < length rows.now) }
{
    rows.iter().position(|row| number == row.number)
}

// The index of the row of a month, the count of rows where there is none.
fn row_place(rows: &[MonthRow], number: u32) -> usize
    ensures value { result ≡ place_in (map (λ row. row.number) rows.now) number }
    ensures most { result ≤ length rows.now }
{
    find(rows, number).unwrap_or(rows.len())
}

impl Ledger {
    /// The index of the month of this number, the count of months where it is not listed.
    pub(crate) fn place(&self, number: u32) -> u8
        ensures { result ≡ place_in (map (λ row. row.number) self.now.months) number }
    {
        row_place(&self.months, number) as u8
    }

    /// Whether a month has this index.
    pub(crate) fn has_index(&self, month: u8) -> bool
        ensures { result ≡ nat_lt month (length self.now.months) }
    {
        (month as usize) < self.months.len()
    }

    /// Whether the ticket is of the open session.
    pub(crate) fn is_current(&self, ticket: &Ticket) -> bool
        ensures { result ≡ is_of self.now.number ticket.now self.now.session.opens }
    {
        match self.open {
            None => false,
            Some(day) => ticket.number() == self.number && ticket.day() == day,
        }
    }

    /// The day of the open session.
    pub(crate) fn open_day(&self) -> Option<u32>
        ensures { result ≡ self.now.session.opens }
    {
        self.open
    }

    /// The day of the latest session, 0 before the first.
    pub(crate) fn session_day(&self) -> u32
        ensures { result ≡ day_in self.now }
    {
        self.latest.unwrap_or(0)
    }

    /// Whether a month may be marked with a price.
    pub(crate) fn check_mark(&self, ticket: &Ticket, month: u8, price: u32) -> Result<(), Refusal>
        ensures { reason_by reason_of result ≡ first_row (mark_rows_in self.now ticket.now month price) }
    {
        if !self.is_current(ticket) {
            return Err(Refusal::NotCurrent);
        }
        match self.months.get(month as usize) {
            None => Err(Refusal::NoSuchIndex),
            Some(row) if row.expiry <= self.session_day() => Err(Refusal::Expired),
            Some(_) if price == 0 || price > MAX_PRICE => Err(Refusal::BadPrice),
            Some(_) => Ok(()),
        }
    }

    /// Sets the settlement price of a month in the open session.
    pub(crate) fn mark(&mut self, month: u8, price: u32)
        requires { month < length self.old.months }
        ensures { self.new ≡ record self.old { months = changed_at (with_mark price) self.old.months month } }
    {
        let row = &mut self.months[month as usize];
        row.mark = Some(price);
    }

    /// The day from which the next session is looked for.
    pub(crate) fn next_from(&self) -> u32
        ensures { result ≡ next_in self.now }
    {
        match self.latest {
            None => self.start,
            Some(day) => day + 1,
        }
    }

    /// The day of the session that may be opened, where this is the next one.
    pub(crate) fn check_open(&self, next: Option<u32>) -> Result<u32, Refusal>
        ensures answers { reason_by reason_of result ≡ first_row (open_rows_in self.now next) }
        ensures day { IfOk result (λ d. next ≡ Some d) }
    {
        if self.open.is_some() {
            return Err(Refusal::SessionOpen);
        }
        next.ok_or(Refusal::NoSession)
    }

    /// Opens a session, without trades and marks.
    pub(crate) fn open<C: Calendar>(&mut self, calendar: &C, day: u32) -> Ticket
        requires { day ≤ 36524 }
        ensures tables { self.new ≡ after_open (C.kinds calendar.now) day self.old }
        ensures ticket { result ≡ record { number = self.old.number; day = day } }
    {
        begin_rows(&mut self.months, calendar, day);
        self.trades.clear();
        self.latest = Some(day);
        self.open = Some(day);
        Ticket::new(self.number, day)
    }

    /// The index and the expiry of a month that may be listed, where the calendar gives this expiry.
    pub(crate) fn check_list(&self, number: u32, expiry: Option<u32>) -> Result<(u8, u32), Refusal>
        ensures answers { reason_by reason_of result ≡ first_row (list_rows_in self.now number expiry) }
        ensures index { IfOk result (λ found. found.0 ≡ length self.now.months) }
        ensures expiry { IfOk result (λ found. expiry ≡ Some found.1) }
    {
        let index = self.months.len();
        if index >= MAX_MONTHS {
            return Err(Refusal::TableFull);
        }
        if has_month(&self.months, number) {
            return Err(Refusal::AlreadyThere);
        }
        match expiry {
            Some(day) if day > self.start && day > self.session_day() => Ok((index as u8, day)),
            _ => Err(Refusal::NoExpiry),
        }
    }

    /// Adds a month, so many reserve days before its expiry, without a mark or a price.
    pub(crate) fn list(&mut self, number: u32, expiry: u32, days: u32)
        requires { length self.old.months < 16 }
        ensures { self.new ≡ record self.old { months = self.old.months ++ (record { number = number; expiry = expiry; days = days; mark = None; latest = 0 } ∷ []) } }
    {
        self.months.push(MonthRow {
            number,
            expiry,
            days,
            mark: None,
            latest: 0,
        });
    }
}
