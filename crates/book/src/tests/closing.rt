// A month of ten contracts, from its trade to its expiry.
use crate::{Book, CloseRefused, PayRefused, Slip, Ticket};
use calendar::rule::{Exception, RuleCalendar};
use model::{Account, Order};
use rates::flat::FlatSource;
use rates::horizon::Horizon;
use refusal::Refusal;
use std::test::Fail;

type FlatBook = Book<RuleCalendar, FlatSource>;

fn account(client: u32) -> Account {
    Account {
        client,
        participant: 1,
        member: 1,
    }
}

// What the closes of the three sessions write for the two accounts and behind them, and what the
// first account is then paid and due.
#[derive(Clone, Copy, PartialEq, Eq, Debug)]
struct Outcome {
    closes: [[i64; 3]; 3],
    paid: i64,
    due: i64,
    held: i32,
}

// Closes a session, and writes the adjustments of the two accounts.
fn close(book: &mut FlatBook, ticket: Ticket, adjustments: &mut [i64; 3]) -> Result<Slip, Refusal> {
    let mut day_trades = [0; 2];
    match book.close(ticket, adjustments, &mut day_trades) {
        Ok(slip) => Ok(slip),
        Err(CloseRefused { refusal, ticket }) => {
            let _ = ticket;
            Err(refusal)
        }
    }
}

// Opens the next session, and pays the one before.
fn open_and_pay(book: &mut FlatBook, slip: Slip) -> Result<Ticket, Refusal> {
    let ticket = match book.open() {
        Ok(ticket) => ticket,
        Err(refusal) => {
            let _ = slip.write_off();
            return Err(refusal);
        }
    };
    match book.pay(slip) {
        Ok(()) => Ok(ticket),
        Err(PayRefused { refusal, slip }) => {
            let _ = slip.write_off();
            Err(refusal)
        }
    }
}

fn run(book: &mut FlatBook) -> Result<Outcome, Refusal> {
    let order = Order {
        buyer: 0,
        seller: 1,
        month: 0,
        rate: 10_000,
        quantity: 10,
    };
    let mut closes = [[0, 0, 77]; 3];
    book.enter(account(1))?;
    book.enter(account(2))?;
    book.list(324)?;
    let ticket = book.open()?;
    book.trade(&ticket, order)?;
    book.mark(&ticket, 0, 9_992_500)?;
    let slip = close(book, ticket, &mut closes[0])?;
    let ticket = open_and_pay(book, slip)?;
    book.mark(&ticket, 0, 9_996_200)?;
    let slip = close(book, ticket, &mut closes[1])?;
    let ticket = open_and_pay(book, slip)?;
    let slip = close(book, ticket, &mut closes[2])?;
    let _ = slip.write_off();
    let balance = book.balance(0)?;
    Ok(Outcome {
        closes,
        paid: balance.paid,
        due: balance.due,
        held: book.position(0, 0)?,
    })
}

#[test]
fn ten_contracts(rt: HostRuntime) -> Result<(), Fail> {
    let calendar = RuleCalendar::new(rt.alloc(), &[Exception::of_mark(9_862, 0)])?;
    let source = FlatSource {
        horizon: Horizon {
            first: 9_860,
            count: 2,
        },
        rate: 10_000_000,
    };
    let mut book = Book::new(calendar, source, 7, 9_860);
    let expected = Outcome {
        closes: [[-610, 610, 77], [800, -800, 77], [-190, 190, 77]],
        paid: 190,
        due: -190,
        held: 0,
    };
    assert_eq!(rt; run(&mut book), Ok(expected));
    Ok(())
}
