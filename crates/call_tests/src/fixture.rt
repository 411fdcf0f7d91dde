// Books in the states from which the tables start, and what ends a slip.
use book::{Book, CloseRefused, PayRefused, Slip, Ticket};
use calendar::kind::Calendar;
use calendar::marked::MarkedCalendar;
use model::{Account, Balance, Order};
use rates::source::RateSource;
use rates::table::TableSource;
use refusal::Refusal;
use std::alloc::{AllocError, Global};
use std::test::Fail;

pub(crate) type TableBook = Book<MarkedCalendar, TableSource>;

// The number of the books, and of those whose tickets and slips are of no use to them.
pub(crate) const NUMBER: u32 = 7;

pub(crate) const OTHER: u32 = 8;

// The first session: the first of February 2000, month 1, and the day on which that month expires.
pub(crate) const FIRST: u32 = 31;

// The mark of a day: every day from the first session on is one.
fn mark_of(day: u32) -> u8 {
    if day < FIRST { 0 } else { 2 }
}

// A calendar that has a session on each day from the first of February 2000 to the third of
// January 2007.
pub(crate) fn daily(heap: Global) -> Result<MarkedCalendar, AllocError> {
    let marks = (0..2_560).map(mark_of).collect(heap)?;
    Ok(MarkedCalendar::new(marks))
}

pub(crate) fn account(client: u32) -> Account {
    Account {
        client,
        participant: 1,
        member: 1,
    }
}

// An order to trade, with its sides in rate.
pub(crate) fn order(buyer: u8, seller: u8, month: u8, rate: u32, quantity: u32) -> Order {
    Order {
        buyer,
        seller,
        month,
        rate,
        quantity,
    }
}

// A book with no account, no month, and no rate from the first session on.
pub(crate) fn new_book(heap: Global, number: u32, start: u32) -> Result<TableBook, AllocError> {
    let source = TableSource::empty(heap, FIRST, 100)?;
    Ok(Book::new(daily(heap)?, source, number, start))
}

// The ticket of the first session of a book.
pub(crate) fn ticket_of(heap: Global, number: u32, start: u32) -> Result<Ticket, Fail> {
    let mut book = new_book(heap, number, start)?;
    Ok(book.open()?)
}

// A book in its first session, with two accounts, the month that expires in it, and the next,
// which expires 29 reserve days later.
pub(crate) fn opened(heap: Global, number: u32) -> Result<(TableBook, Ticket), Fail> {
    let mut book = new_book(heap, number, FIRST - 1)?;
    book.enter(account(1))?;
    book.enter(account(2))?;
    book.list(1)?;
    book.list(2)?;
    let ticket = book.open()?;
    Ok((book, ticket))
}

// Closes a session, and lets the ticket of a refused close go.
pub(crate) fn close<C: Calendar, S: RateSource>(
    book: &mut Book<C, S>,
    ticket: Ticket,
    adjustments: &mut [i64],
    day_trades: &mut [i64],
) -> Result<Slip, Refusal> {
    match book.close(ticket, adjustments, day_trades) {
        Ok(slip) => Ok(slip),
        Err(CloseRefused { refusal, ticket: _ }) => Err(refusal),
    }
}

// Such a book after its first session, in which account 0 bought ten contracts in rate from
// account 1 at 98,909.17 points, and the month was settled at 99,000.00.
pub(crate) fn closed(heap: Global, number: u32) -> Result<(TableBook, Slip), Fail> {
    let (mut book, ticket) = opened(heap, number)?;
    book.trade(&ticket, order(0, 1, 1, 10_000, 10))?;
    book.mark(&ticket, 1, 9_900_000)?;
    let slip = close(&mut book, ticket, &mut [0; 4], &mut [0; 4])?;
    Ok((book, slip))
}

// Pays a slip, and writes off that of a refused payment.
pub(crate) fn pay<C: Calendar, S: RateSource>(
    book: &mut Book<C, S>,
    slip: Slip,
) -> Result<(), Refusal> {
    match book.pay(slip) {
        Ok(()) => Ok(()),
        Err(PayRefused { refusal, slip }) => {
            let _ = slip.write_off();
            Err(refusal)
        }
    }
}

// Opens the session after a closed one, and pays the slip or writes it off.
pub(crate) fn open_next<C: Calendar, S: RateSource>(
    book: &mut Book<C, S>,
    slip: Slip,
    unpaid: bool,
) -> Result<Ticket, Refusal> {
    let next = book.open();
    if unpaid || next.is_err() {
        let _ = slip.write_off();
        return next;
    }
    pay(book, slip)?;
    next
}

// What a refused call leaves as it was: what account 1 holds in month 1, was paid and is due.
pub(crate) fn standing(book: &TableBook) -> Result<(i32, Balance), Refusal> {
    Ok((book.position(1, 1)?, book.balance(1)?))
}
