// Trades, marks and questions that are refused: rows 1 to 10. And the edges of ticks and of
// reserve days.
use crate::fixture::{
    FIRST, NUMBER, OTHER, TableBook, account, close, opened, order, standing, ticket_of,
};
use book::{Book, CloseRefused, Ticket};
use calendar::marked::MarkedCalendar;
use model::Balance;
use rates::flat::FlatSource;
use rates::horizon::Horizon;
use refusal::Refusal;
use std::alloc::Global;
use std::test::Fail;

// A book in its first session, with four accounts. Of its months 0 expires in the session, 1 the
// month after, 2 is 2,526 reserve days away and 3 four months. There are 255 trades, all in month
// 1: account 0 bought 500,000 contracts in rate from account 1, and account 2 bought 230 from
// account 3.
fn busy(heap: Global) -> Result<(TableBook, Ticket), Fail> {
    let (mut book, ticket) = opened(heap, NUMBER)?;
    book.enter(account(3))?;
    book.enter(account(4))?;
    book.list(84)?;
    book.list(5)?;
    for _ in 0..25 {
        book.trade(&ticket, order(0, 1, 1, 10_000, 20_000))?;
    }
    for _ in 0..230 {
        book.trade(&ticket, order(2, 3, 1, 10_000, 1))?;
    }
    Ok((book, ticket))
}

#[test]
fn trades(rt: HostRuntime) -> Result<(), Fail> {
    let (mut book, ticket) = busy(rt.alloc())?;
    let other = ticket_of(rt.alloc(), OTHER, FIRST)?;
    let later = ticket_of(rt.alloc(), NUMBER, FIRST + 1)?;
    let before = standing(&book)?;
    assert_eq!(rt; before.0, 500_000);
    for (held, asked, expected) in [
        (&other, order(2, 3, 1, 10_000, 1), Refusal::NotCurrent),
        (&later, order(2, 3, 1, 10_000, 1), Refusal::NotCurrent),
        (&other, order(2, 4, 1, 10_000, 1), Refusal::NotCurrent),
        (&ticket, order(4, 3, 1, 10_000, 1), Refusal::NoSuchIndex),
        (&ticket, order(2, 4, 1, 10_000, 1), Refusal::NoSuchIndex),
        (&ticket, order(2, 3, 4, 10_000, 1), Refusal::NoSuchIndex),
        (&ticket, order(4, 3, 0, 10_000, 1), Refusal::NoSuchIndex),
        (&ticket, order(2, 3, 0, 10_000, 1), Refusal::Expired),
        (&ticket, order(2, 2, 0, 10_000, 1), Refusal::Expired),
        (&ticket, order(2, 2, 1, 10_000, 1), Refusal::SameSides),
        (&ticket, order(2, 2, 1, 10_000, 0), Refusal::SameSides),
        (&ticket, order(2, 3, 1, 10_000, 0), Refusal::BadQuantity),
        (
            &ticket,
            order(2, 3, 1, 10_000, 20_001),
            Refusal::BadQuantity,
        ),
        (&ticket, order(2, 3, 1, 100_000, 0), Refusal::BadQuantity),
        (&ticket, order(2, 3, 1, 100_000, 1), Refusal::BadRate),
        (&ticket, order(2, 3, 3, 10_001, 1), Refusal::BadRate),
        (&ticket, order(2, 3, 2, 10_001, 1), Refusal::BadRate),
        (&ticket, order(2, 3, 2, 10_000, 1), Refusal::TooFar),
        // Rows 7 and 8 never meet: nobody has a position in a month that is so far away.
        (&ticket, order(0, 3, 1, 10_000, 1), Refusal::PositionLimit),
        (&ticket, order(2, 1, 1, 10_000, 1), Refusal::PositionLimit),
    ] {
        assert_eq!(rt; book.trade(held, asked), Err(expected), "{asked:?}");
        assert_eq!(rt; standing(&book)?, before);
    }
    // The last trade for which there is room, at the price of those before.
    assert_eq!(rt;
        book.trade(&ticket, order(2, 3, 1, 10_000, 1)),
        Ok(9_890_917)
    );
    for (asked, expected) in [
        (order(2, 3, 2, 10_000, 1), Refusal::TooFar),
        (order(0, 1, 1, 10_000, 1), Refusal::PositionLimit),
        (order(2, 3, 1, 10_000, 1), Refusal::SessionFull),
        (order(1, 0, 1, 10_000, 1), Refusal::SessionFull),
    ] {
        assert_eq!(rt; book.trade(&ticket, asked), Err(expected), "{asked:?}");
        assert_eq!(rt; standing(&book)?, before);
    }
    // What may be asked of accounts and months, and what may not.
    for (account, month, expected) in [
        (4, 1, Err(Refusal::NoSuchIndex)),
        (3, 4, Err(Refusal::NoSuchIndex)),
        (255, 255, Err(Refusal::NoSuchIndex)),
        (3, 3, Ok(0)),
        (2, 1, Ok(-231)),
        (3, 1, Ok(231)),
    ] {
        assert_eq!(rt;
            book.position(account, month),
            expected,
            "{account} in {month}"
        );
    }
    for (account, expected) in [
        (4, Err(Refusal::NoSuchIndex)),
        (255, Err(Refusal::NoSuchIndex)),
        (3, Ok(Balance { paid: 0, due: 0 })),
    ] {
        assert_eq!(rt; book.balance(account), expected, "account {account}");
    }
    Ok(())
}

#[test]
fn marks(rt: HostRuntime) -> Result<(), Fail> {
    let (mut book, ticket) = opened(rt.alloc(), NUMBER)?;
    let other = ticket_of(rt.alloc(), OTHER, FIRST)?;
    let later = ticket_of(rt.alloc(), NUMBER, FIRST + 1)?;
    for (held, month, price, expected) in [
        (&other, 1, 9_900_000, Refusal::NotCurrent),
        (&later, 1, 9_900_000, Refusal::NotCurrent),
        (&other, 2, 9_900_000, Refusal::NotCurrent),
        (&ticket, 2, 9_900_000, Refusal::NoSuchIndex),
        // Rows 2 and 3 never meet: a month that is not in the book has no expiry.
        (&ticket, 2, 0, Refusal::NoSuchIndex),
        (&ticket, 0, 9_900_000, Refusal::Expired),
        (&ticket, 0, 0, Refusal::Expired),
        (&ticket, 1, 0, Refusal::BadPrice),
        (&ticket, 1, 10_000_001, Refusal::BadPrice),
    ] {
        assert_eq!(rt;
            book.mark(held, month, price),
            Err(expected),
            "month {month}, price {price}"
        );
    }
    // None of them has marked the month, so that the session is not closed and its ticket comes
    // back.
    let (refusal, ticket) = match book.close(ticket, &mut [0; 4], &mut [0; 4]) {
        Err(CloseRefused { refusal, ticket }) => (refusal, ticket),
        Ok(slip) => {
            let _ = slip.write_off();
            return Err(Fail::new("closed without a mark"));
        }
    };
    assert_eq!(rt; refusal, Refusal::Unmarked(1));
    for price in [1, 10_000_000] {
        assert_eq!(rt; book.mark(&ticket, 1, price), Ok(()));
    }
    let slip = close(&mut book, ticket, &mut [0; 4], &mut [0; 4])?;
    let _ = slip.write_off();
    Ok(())
}

#[test]
fn ticks(rt: HostRuntime) -> Result<(), Fail> {
    let (mut book, ticket) = opened(rt.alloc(), NUMBER)?;
    // Indices 2 to 5: at a distance of 3, 4, 12 and 13 from the session's.
    for month in [4, 5, 13, 14] {
        book.list(month)?;
    }
    for (month, rate, expected) in [
        (2, 1, None),
        (2, 99_999, None),
        (2, 100_000, Some(Refusal::BadRate)),
        (3, 5, None),
        (3, 4, Some(Refusal::BadRate)),
        (4, 5, None),
        (4, 4, Some(Refusal::BadRate)),
        (5, 20, None),
        (5, 15, Some(Refusal::BadRate)),
        (5, 0, None),
    ] {
        let asked = order(0, 1, month, rate, 1);
        assert_eq!(rt; book.trade(&ticket, asked).err(), expected, "{asked:?}");
    }
    Ok(())
}

// The mark of a day in a calendar with sessions on day 0 and on the expiries of months 82 and 83,
// which are 2,520 and 2,521 reserve days away.
fn long_mark(day: u32) -> u8 {
    match day {
        0 | 2_520 | 2_526 => 2,
        1..2_520 => 1,
        _ => 0,
    }
}

#[test]
fn reserve_days(rt: HostRuntime) -> Result<(), Fail> {
    let marks = (0..2_527).map(long_mark).collect(rt.alloc())?;
    let horizon = Horizon { first: 0, count: 0 };
    let source = FlatSource { horizon, rate: 0 };
    let mut book = Book::new(MarkedCalendar::new(marks), source, NUMBER, 0);
    book.enter(account(1))?;
    book.enter(account(2))?;
    book.list(82)?;
    let ticket = book.open()?;
    // Month 83 is listed in the session, month 82 before it.
    book.list(83)?;
    for (month, rate, expected) in [
        (0, 0, Ok(10_000_000)),
        (1, 0, Err(Refusal::TooFar)),
        (0, 10_000, Ok(3_855_433)),
        (1, 10_000, Err(Refusal::TooFar)),
    ] {
        let asked = order(0, 1, month, rate, 1);
        assert_eq!(rt; book.trade(&ticket, asked), expected, "{asked:?}");
    }
    Ok(())
}
