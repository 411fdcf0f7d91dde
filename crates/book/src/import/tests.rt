// Sheets of three lines: taken whole, stopped at a line, and bad.
use super::{ImportOutcome, ImportStop};
use crate::{Book, Ticket};
use calendar::rule::RuleCalendar;
use model::{Account, Layer};
use rates::flat::FlatSource;
use rates::horizon::Horizon;
use refusal::Refusal;
use sheet::{TradeLine, write};
use std::alloc::Global;
use std::test::Fail;

// A session day, two days before the first of January 2027.
const DAY: u16 = 9_860;

const ACCOUNTS: [Account; 2] = [
    Account {
        client: 1,
        participant: 1,
        member: 1,
    },
    Account {
        client: 2,
        participant: 1,
        member: 1,
    },
];

// A line in the month, in which the first account buys.
fn line(month: u32, quantity: u32) -> TradeLine {
    TradeLine {
        buyer: 0,
        seller: 1,
        month,
        rate: 10_000,
        quantity,
    }
}

// A sheet of three lines.
fn sheet_of(lines: [TradeLine; 3]) -> Result<[u8; 52], Fail> {
    let mut bytes = [0; 52];
    write(DAY, &lines, &mut bytes)?;
    Ok(bytes)
}

// A book with two accounts and the month of January 2027, and the ticket of its first session.
fn opened(heap: Global) -> Result<(Book<RuleCalendar, FlatSource>, Ticket), Fail> {
    let calendar = RuleCalendar::new(heap, &[])?;
    let source = FlatSource {
        horizon: Horizon {
            first: 9_860,
            count: 2,
        },
        rate: 10_000_000,
    };
    let mut book = Book::new(calendar, source, 7, DAY as u32);
    for account in ACCOUNTS {
        book.enter(account)?;
    }
    book.list(324)?;
    let ticket = book.open()?;
    Ok((book, ticket))
}

#[test]
fn months_by_number(rt: HostRuntime) -> Result<(), Fail> {
    let (mut book, ticket) = opened(rt.alloc())?;
    assert_eq!(rt; book.month_index(324), Some(0));
    assert_eq!(rt; book.month_index(325), None);
    assert!(rt; book.trade_line(&ticket, line(324, 5)).is_ok());
    assert_eq!(rt; book.position(0, 0), Ok(-5));
    assert_eq!(rt;
        book.trade_line(&ticket, line(325, 5)),
        Err(Refusal::NoSuchIndex)
    );
    Ok(())
}

#[test]
fn whole(rt: HostRuntime) -> Result<(), Fail> {
    let (mut book, ticket) = opened(rt.alloc())?;
    let bytes = sheet_of([line(324, 1), line(324, 2), line(324, 3)])?;
    let outcome = book.import(&ticket, &bytes);
    assert_eq!(rt;
        outcome,
        ImportOutcome {
            taken: 3,
            stop: None
        }
    );
    assert_eq!(rt; book.position(0, 0), Ok(-6));
    assert_eq!(rt; book.position(1, 0), Ok(6));
    Ok(())
}

#[test]
fn stopped_at_a_line(rt: HostRuntime) -> Result<(), Fail> {
    let (mut book, ticket) = opened(rt.alloc())?;
    let bytes = sheet_of([line(324, 1), line(325, 2), line(324, 3)])?;
    let outcome = book.import(&ticket, &bytes);
    let stop = ImportStop {
        line: 1,
        refusal: Refusal::NoSuchIndex,
        layer: Layer::Book,
    };
    assert_eq!(rt;
        outcome,
        ImportOutcome {
            taken: 1,
            stop: Some(stop)
        }
    );
    assert_eq!(rt; book.position(0, 0), Ok(-1));
    Ok(())
}

#[test]
fn bad_code(rt: HostRuntime) -> Result<(), Fail> {
    let (mut book, ticket) = opened(rt.alloc())?;
    let mut bytes = sheet_of([line(324, 1), line(324, 2), line(324, 3)])?;
    bytes[24] = b'd';
    let outcome = book.import(&ticket, &bytes);
    let stop = ImportStop {
        line: 1,
        refusal: Refusal::BadSheet,
        layer: Layer::Sheet,
    };
    assert_eq!(rt;
        outcome,
        ImportOutcome {
            taken: 0,
            stop: Some(stop)
        }
    );
    assert_eq!(rt; book.position(0, 0), Ok(0));
    Ok(())
}

#[test]
fn no_sheet_of_the_day(rt: HostRuntime) -> Result<(), Fail> {
    let (mut book, ticket) = opened(rt.alloc())?;
    let stop = ImportStop {
        line: 0,
        refusal: Refusal::BadSheet,
        layer: Layer::Sheet,
    };
    let refused = ImportOutcome {
        taken: 0,
        stop: Some(stop),
    };
    assert_eq!(rt; book.import(&ticket, b"\x00\x00\x83\x26"), refused);
    assert_eq!(rt; book.import(&ticket, b"\x00"), refused);
    let accepted = ImportOutcome {
        taken: 0,
        stop: None,
    };
    assert_eq!(rt; book.import(&ticket, b"\x00\x00\x84\x26"), accepted);
    Ok(())
}
