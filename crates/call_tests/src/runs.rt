// Runs of calls at a desk: the month of ten contracts over each kind of source, and what a desk
// answers with no ticket, with no slip, and after a slip that was written off.
use crate::fixture::account;
use book::{Book, ImportOutcome};
use calendar::rule::{Exception, RuleCalendar};
use desk::{Call, Closing, Ran, Reply, Topmost, run};
use model::Balance;
use rates::entry::DayRate;
use rates::flat::FlatSource;
use rates::horizon::Horizon;
use rates::layer::ArbitrationLayer;
use rates::source::{Arbitrating, RateSource};
use rates::table::TableSource;
use refusal::Refusal;
use sheet::TradeLine;
use std::alloc::Global;
use std::test::Fail;

// What a reply says, in a form that is compared.
#[derive(Clone, Copy, PartialEq, Eq, Debug)]
enum Answer {
    Done,
    // An index, a session day or a trade price.
    Number(u32),
    Imported(ImportOutcome),
    // The adjustments of accounts 0 and 1 in the one month.
    Adjusted(Option<i64>, Option<i64>),
    WrittenOff(u32, u32),
    Contracts(i32),
    Balance(Balance),
    Refused(Refusal),
    NoTicket,
    NoSlip,
    NoSuchCall,
}

fn said(reply: &Reply) -> Answer {
    match reply {
        Reply::Published | Reply::Arbitrated | Reply::Marked | Reply::Paid => Answer::Done,
        Reply::Entered(index) | Reply::Listed(index) => Answer::Number(u32::from(*index)),
        Reply::Opened(number) | Reply::Traded(number) => Answer::Number(*number),
        Reply::Imported(outcome) => Answer::Imported(*outcome),
        Reply::Closed(closing) => closing_said(closing),
        Reply::WrittenOff(number, day) => Answer::WrittenOff(*number, *day),
        Reply::Position(contracts) => Answer::Contracts(*contracts),
        Reply::Balance(balance) => Answer::Balance(*balance),
        Reply::Refused(refusal) => Answer::Refused(*refusal),
        Reply::NoTicket => Answer::NoTicket,
        Reply::NoSlip => Answer::NoSlip,
        Reply::NoSuchCall => Answer::NoSuchCall,
    }
}

fn closing_said(closing: &Closing) -> Answer {
    let mut amounts = closing.adjustments.iter().copied();
    Answer::Adjusted(amounts.next(), amounts.next())
}

// A call, and what is said to it.
type Row<'a> = (Call<'a>, Answer);

// The first row to whose call another thing was said, with that.
fn first_other(replies: &[Reply], rows: &[Row<'_>]) -> Option<(usize, Answer)> {
    for (at, (reply, row)) in replies.iter().zip(rows).enumerate() {
        let heard = said(reply);
        if heard != row.1 {
            return Some((at, heard));
        }
    }
    None
}

// Makes the calls to a book of number 7 from 30 December 2026 on, the first of January being
// closed, and compares what is said. The book's source is answered too.
fn compare<S: Topmost<RuleCalendar> + Drop>(
    heap: Global,
    source: S,
    rows: &[Row<'_>],
) -> Result<(Option<(usize, Answer)>, Book<RuleCalendar, S>), Fail> {
    let calendar = RuleCalendar::new(heap, &[Exception::of_mark(9_862, 0)])?;
    let calls = rows.iter().map(|row| row.0).collect::<Vec<Call<'_>>>(heap)?;
    let Ran { replies, book } = run(heap, calendar, source, 7, 9_860, &calls)?;
    if replies.len() != rows.len() {
        return Err(Fail::new("a call without a reply"));
    }
    Ok((first_other(&replies, rows), book))
}

// Ten contracts in the month of January 2027, which account 0 buys in rate.
const LINE: TradeLine = TradeLine {
    buyer: 0,
    seller: 1,
    month: 324,
    rate: 10_000,
    quantity: 10,
};

// The rate of 10 % for a day.
fn ten_percent(day: u32) -> DayRate {
    DayRate {
        day,
        rate: 10_000_000,
    }
}

fn refused(refusal: Refusal) -> Answer {
    Answer::Refused(refusal)
}

fn adjusted(first: i64, second: i64) -> Answer {
    Answer::Adjusted(Some(first), Some(second))
}

fn balance(paid: i64, due: i64) -> Answer {
    Answer::Balance(Balance { paid, due })
}

// The month of ten contracts to its expiry, with two calls after each of the first two closes.
fn month<'a>(first: [Row<'a>; 2], second: [Row<'a>; 2]) -> [Row<'a>; 36] {
    [
        (Call::Trade(LINE), Answer::NoTicket),
        (Call::Import(b""), Answer::NoTicket),
        (Call::Mark(324, 9_992_500), Answer::NoTicket),
        (Call::Close, Answer::NoTicket),
        (Call::Pay, Answer::NoSlip),
        (Call::WriteOff, Answer::NoSlip),
        (Call::Enter(account(101)), Answer::Number(0)),
        (Call::Enter(account(102)), Answer::Number(1)),
        (Call::List(324), Answer::Number(0)),
        (Call::Open, Answer::Number(9_860)),
        (Call::Trade(LINE), Answer::Number(9_992_439)),
        (Call::Mark(324, 9_992_500), Answer::Done),
        (Call::Close, adjusted(-610, 610)),
        first[0],
        first[1],
        (Call::Pay, refused(Refusal::NoLaterSession)),
        (Call::Open, Answer::Number(9_861)),
        (Call::Pay, Answer::Done),
        (Call::Pay, Answer::NoSlip),
        (Call::Mark(324, 9_996_200), Answer::Done),
        (Call::Close, adjusted(800, -800)),
        (Call::Close, Answer::NoTicket),
        second[0],
        second[1],
        (Call::Position(1, 324), Answer::Contracts(10)),
        (Call::Balance(1), balance(610, -800)),
        (Call::Open, Answer::Number(9_865)),
        (Call::Pay, Answer::Done),
        (Call::Trade(LINE), refused(Refusal::Expired)),
        (Call::Mark(324, 10_000_000), refused(Refusal::Expired)),
        (Call::Close, adjusted(-190, 190)),
        (Call::Position(1, 324), Answer::Contracts(0)),
        (Call::Balance(1), balance(-190, 190)),
        (Call::Open, Answer::Number(9_866)),
        (Call::Pay, Answer::Done),
        (Call::Balance(1), balance(0, 0)),
    ]
}

// A source with 10 % on the two reserve days.
const FLAT: FlatSource = FlatSource {
    horizon: Horizon {
        first: 9_860,
        count: 2,
    },
    rate: 10_000_000,
};

#[test]
fn over_plain_sources(rt: HostRuntime) -> Result<(), Fail> {
    let neither = [
        (Call::Publish(ten_percent(9_860), 1), Answer::NoSuchCall),
        (Call::Arbitrate(ten_percent(9_860)), Answer::NoSuchCall),
    ];
    let (other, book) = compare(rt.alloc(), FLAT, &month(neither, neither))?;
    assert_eq!(rt; (other, *book.source()), (None, FLAT));
    let rows = month(
        [
            (Call::Publish(ten_percent(9_860), 1), Answer::Done),
            (Call::Arbitrate(ten_percent(9_861)), Answer::NoSuchCall),
        ],
        [
            (
                Call::Publish(ten_percent(9_860), 1),
                refused(Refusal::HasRate),
            ),
            (Call::Publish(ten_percent(9_861), 1), Answer::Done),
        ],
    );
    let table = TableSource::empty(rt.alloc(), 9_860, 2)?;
    let (other, book) = compare(rt.alloc(), table, &rows)?;
    assert_eq!(rt;
        (other, book.source().rate(9_861)),
        (None, Some(10_000_000))
    );
    Ok(())
}

#[test]
fn over_three_layers(rt: HostRuntime) -> Result<(), Fail> {
    let inner = ArbitrationLayer::new(TableSource::empty(rt.alloc(), 9_860, 4)?);
    let mut middle = ArbitrationLayer::new(inner);
    middle.arbitrate(ten_percent(9_862))?;
    let rows = month(
        [
            (Call::Publish(ten_percent(9_860), 1), Answer::Done),
            (
                Call::Arbitrate(ten_percent(9_860)),
                refused(Refusal::HasRate),
            ),
        ],
        [
            (Call::Arbitrate(ten_percent(9_861)), Answer::Done),
            (
                Call::Publish(ten_percent(9_862), 2),
                refused(Refusal::HasRate),
            ),
        ],
    );
    let (other, book) = compare(rt.alloc(), ArbitrationLayer::new(middle), &rows)?;
    assert_eq!(rt; other, None);
    let outer = book.source();
    let middle = outer.below();
    let table = middle.below().below();
    for (day, arbitrated, below, published) in [
        (9_860, false, true, true),
        (9_861, true, false, false),
        (9_862, false, true, false),
    ] {
        assert_eq!(rt; outer.rate(day), Some(10_000_000), "day {day}");
        assert_eq!(rt;
            (
                outer.is_arbitrated(day),
                middle.rate(day).is_some(),
                table.rate(day).is_some()
            ),
            (arbitrated, below, published),
            "day {day}"
        );
    }
    assert_eq!(rt; outer.rate(9_863), None);
    Ok(())
}

#[test]
fn slip_written_off(rt: HostRuntime) -> Result<(), Fail> {
    let rows = [
        (Call::Enter(account(101)), Answer::Number(0)),
        (Call::Enter(account(102)), Answer::Number(1)),
        (Call::List(324), Answer::Number(0)),
        (Call::Open, Answer::Number(9_860)),
        (Call::Trade(LINE), Answer::Number(9_992_439)),
        (Call::Mark(324, 9_992_500), Answer::Done),
        (Call::Close, adjusted(-610, 610)),
        (Call::WriteOff, Answer::WrittenOff(7, 9_860)),
        (Call::WriteOff, Answer::NoSlip),
        (Call::Open, Answer::Number(9_861)),
        (Call::Pay, Answer::NoSlip),
        (Call::Mark(324, 9_996_200), Answer::Done),
        (Call::Close, refused(Refusal::Unpaid)),
        (Call::Open, refused(Refusal::SessionOpen)),
        (Call::Trade(LINE), Answer::Number(9_996_219)),
        (Call::Mark(325, 9_996_200), refused(Refusal::NoSuchIndex)),
        (Call::Position(1, 325), refused(Refusal::NoSuchIndex)),
        (Call::Close, refused(Refusal::Unpaid)),
        (Call::Position(1, 324), Answer::Contracts(20)),
        (Call::Balance(1), balance(0, 610)),
    ];
    let (other, book) = compare(rt.alloc(), FLAT, &rows)?;
    assert_eq!(rt; other, None);
    assert_eq!(rt; book.position(0, 0), Ok(-20));
    Ok(())
}
