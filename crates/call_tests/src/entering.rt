// Accounts and months that are not taken: rows 18, 19 and 20.
use crate::fixture::{FIRST, NUMBER, account, new_book};
use model::Account;
use refusal::Refusal;
use std::test::Fail;

#[test]
fn accounts(rt: HostRuntime) -> Result<(), Fail> {
    let mut book = new_book(rt.alloc(), NUMBER, FIRST)?;
    for client in 0..31 {
        book.enter(account(client))?;
    }
    let another = Account {
        client: 30,
        participant: 2,
        member: 1,
    };
    for (account, expected) in [
        (account(0), Err(Refusal::AlreadyThere)),
        (account(30), Err(Refusal::AlreadyThere)),
        (another, Ok(31)),
        (account(31), Err(Refusal::TableFull)),
        (account(30), Err(Refusal::TableFull)),
        (another, Err(Refusal::TableFull)),
    ] {
        assert_eq!(rt; book.enter(account), expected, "client {}", account.client);
    }
    assert!(rt; book.balance(31).is_ok());
    assert_eq!(rt; book.balance(32), Err(Refusal::NoSuchIndex));
    Ok(())
}

#[test]
fn months(rt: HostRuntime) -> Result<(), Fail> {
    let mut book = new_book(rt.alloc(), NUMBER, FIRST - 1)?;
    for month in 1..16 {
        book.list(month)?;
    }
    let ticket = book.open()?;
    for (month, expected) in [
        (2, Err(Refusal::AlreadyThere)),
        // Already there, and on its expiry.
        (1, Err(Refusal::AlreadyThere)),
        // No session in the month, before the calendar's first, behind its last, and past all
        // months.
        (0, Err(Refusal::NoExpiry)),
        (85, Err(Refusal::NoExpiry)),
        (1_200, Err(Refusal::NoExpiry)),
        (84, Ok(15)),
        (83, Err(Refusal::TableFull)),
        (2, Err(Refusal::TableFull)),
        (0, Err(Refusal::TableFull)),
        (1, Err(Refusal::TableFull)),
    ] {
        assert_eq!(rt; book.list(month), expected, "month {month}");
    }
    assert_eq!(rt;
        (book.month_index(84), book.month_index(83)),
        (Some(15), None)
    );
    assert_eq!(rt; book.mark(&ticket, 15, 1), Ok(()));
    // Start day 60 is the expiry of month 2.
    let mut later = new_book(rt.alloc(), NUMBER, 60)?;
    for (month, expected) in [
        (1, Err(Refusal::NoExpiry)),
        (2, Err(Refusal::NoExpiry)),
        (3, Ok(0)),
    ] {
        assert_eq!(rt; later.list(month), expected, "month {month}");
    }
    // The first session is the expiry of month 1, which is after the start day.
    let mut begun = new_book(rt.alloc(), NUMBER, FIRST - 1)?;
    begun.open()?;
    for (month, expected) in [(1, Err(Refusal::NoExpiry)), (2, Ok(0))] {
        assert_eq!(rt; begun.list(month), expected, "month {month}");
    }
    Ok(())
}
