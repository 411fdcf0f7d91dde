// Sessions that are not opened, closed or paid: rows 1 and 11 to 17.
use crate::fixture::{
    FIRST, NUMBER, OTHER, close, closed, new_book, open_next, standing, ticket_of,
};
use book::{Book, PayRefused, Slip};
use calendar::marked::MarkedCalendar;
use model::Balance;
use rates::entry::DayRate;
use rates::flat::FlatSource;
use rates::horizon::Horizon;
use refusal::Refusal;
use std::alloc::Global;
use std::test::Fail;

// The mark of a day in a calendar with sessions 60 and 61 days apart.
fn far_mark(day: u32) -> u8 {
    match day {
        0 | 60 | 121 => 2,
        _ => 1,
    }
}

// A book without a month on that calendar, with a rate on every day.
fn far_book(heap: Global, start: u32) -> Result<Book<MarkedCalendar, FlatSource>, Fail> {
    let marks = (0..130).map(far_mark).collect(heap)?;
    let horizon = Horizon {
        first: 0,
        count: 130,
    };
    let source = FlatSource { horizon, rate: 1 };
    Ok(Book::new(MarkedCalendar::new(marks), source, NUMBER, start))
}

// The day of the first session, for a start day.
fn first_session(heap: Global, start: u32) -> Result<Result<u32, Refusal>, Fail> {
    let mut book = far_book(heap, start)?;
    Ok(book.open().map(|ticket| ticket.day()))
}

#[test]
fn opening(rt: HostRuntime) -> Result<(), Fail> {
    for (start, expected) in [
        (0, Ok(0)),
        (1, Ok(60)),
        (61, Err(Refusal::NoSession)),
        (62, Ok(121)),
        (122, Err(Refusal::NoSession)),
    ] {
        assert_eq!(rt;
            first_session(rt.alloc(), start)?,
            expected,
            "from day {start}"
        );
    }
    let mut book = far_book(rt.alloc(), 0)?;
    let ticket = book.open()?;
    assert_eq!(rt; book.open().err(), Some(Refusal::SessionOpen));
    let slip = close(&mut book, ticket, &mut [], &mut [])?;
    let ticket = open_next(&mut book, slip, false)?;
    assert_eq!(rt; ticket.day(), 60);
    // A session is open, and there is none in the 60 days after it.
    assert_eq!(rt; book.open().err(), Some(Refusal::SessionOpen));
    let slip = close(&mut book, ticket, &mut [], &mut [])?;
    let next = book.open().err();
    let _ = slip.write_off();
    assert_eq!(rt; next, Some(Refusal::NoSession));
    Ok(())
}

// What a close came to: why it was refused, what stands in the last place of the first array, and
// whether what account 1 holds, was paid and is due is as before.
#[derive(Clone, Copy, PartialEq, Eq, Debug)]
struct CloseOutcome {
    refusal: Option<Refusal>,
    last: Option<i64>,
    same: bool,
}

// The second session closed into arrays of these lengths, each place of which is 77. The causes
// are those of rows 1, 13, 14 and 15 that hold.
fn second_close(
    heap: Global,
    causes: [u32; 2],
    rooms: (usize, usize),
) -> Result<CloseOutcome, Fail> {
    let (mut book, slip) = closed(heap, NUMBER)?;
    let ticket = open_next(&mut book, slip, causes.contains(&13))?;
    if !causes.contains(&14) {
        book.mark(&ticket, 1, 9_910_000)?;
    }
    if !causes.contains(&15) {
        let entry = DayRate {
            day: FIRST,
            rate: 10_000_000,
        };
        book.publish(entry, 1)?;
    }
    let held = if causes.contains(&1) {
        ticket_of(heap, OTHER, FIRST + 1)?
    } else {
        ticket
    };
    let before = standing(&book)?;
    let mut adjustments = vec![in heap; 77i64; rooms.0]?;
    let mut day_trades = vec![in heap; 77i64; rooms.1]?;
    let refusal = match close(&mut book, held, &mut adjustments, &mut day_trades) {
        Ok(slip) => {
            let _ = slip.write_off();
            None
        }
        Err(refusal) => Some(refusal),
    };
    Ok(CloseOutcome {
        refusal,
        last: adjustments.last().copied(),
        same: standing(&book)? == before,
    })
}

#[test]
fn closing(rt: HostRuntime) -> Result<(), Fail> {
    for (causes, rooms, expected) in [
        ([1, 1], (4, 4), Refusal::NotCurrent),
        ([1, 13], (4, 4), Refusal::NotCurrent),
        ([13, 13], (4, 4), Refusal::Unpaid),
        ([13, 14], (4, 4), Refusal::Unpaid),
        ([14, 14], (4, 4), Refusal::Unmarked(1)),
        ([14, 15], (4, 4), Refusal::Unmarked(1)),
        ([15, 15], (4, 4), Refusal::MissingRate(31)),
        ([15, 15], (3, 3), Refusal::MissingRate(31)),
        ([0, 0], (3, 4), Refusal::ArrayShort),
        ([0, 0], (4, 3), Refusal::ArrayShort),
    ] {
        let refused = CloseOutcome {
            refusal: Some(expected),
            last: Some(77),
            same: true,
        };
        assert_eq!(rt;
            second_close(rt.alloc(), causes, rooms)?,
            refused,
            "causes {causes:?}, places {rooms:?}"
        );
    }
    for (rooms, last) in [((4, 4), 62_550), ((5, 4), 77)] {
        let accepted = CloseOutcome {
            refusal: None,
            last: Some(last),
            same: false,
        };
        assert_eq!(rt; second_close(rt.alloc(), [0, 0], rooms)?, accepted);
    }
    Ok(())
}

// The slip of the first session of a book without accounts.
fn slip_of(heap: Global, number: u32, start: u32) -> Result<Slip, Fail> {
    let mut book = new_book(heap, number, start)?;
    let ticket = book.open()?;
    Ok(close(&mut book, ticket, &mut [], &mut [])?)
}

// A payment in a book whose first session is closed and its slip lost, by a slip of this number
// and day: why it was refused, and what account 1 was then paid and is due.
fn payment(
    heap: Global,
    number: u32,
    day: u32,
    later: bool,
) -> Result<(Option<Refusal>, Balance), Fail> {
    let (mut book, own) = closed(heap, NUMBER)?;
    let _ = own.write_off();
    if later {
        book.open()?;
    }
    let slip = slip_of(heap, number, day)?;
    let refusal = match book.pay(slip) {
        Ok(()) => None,
        Err(PayRefused { refusal, slip }) => {
            if slip.write_off() != (number, day) {
                return Err(Fail::new("another slip came back"));
            }
            Some(refusal)
        }
    };
    Ok((refusal, book.balance(1)?))
}

#[test]
fn paying(rt: HostRuntime) -> Result<(), Fail> {
    let due = Balance {
        paid: 0,
        due: 90_830,
    };
    let paid = Balance {
        paid: 90_830,
        due: 0,
    };
    for (number, day, later, expected, balance) in [
        (OTHER, FIRST, true, Some(Refusal::NotCurrent), due),
        (NUMBER, FIRST + 1, true, Some(Refusal::NotCurrent), due),
        (OTHER, FIRST, false, Some(Refusal::NotCurrent), due),
        (NUMBER, FIRST, false, Some(Refusal::NoLaterSession), due),
        (NUMBER, FIRST, true, None, paid),
    ] {
        assert_eq!(rt;
            payment(rt.alloc(), number, day, later)?,
            (expected, balance),
            "slip of book {number} and day {day}"
        );
    }
    Ok(())
}
