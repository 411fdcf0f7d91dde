// Rates that are not taken: rows 21 to 25. A day outside the horizon has no rate, so row 21 never
// meets row 22.
use crate::fixture::{NUMBER, daily};
use book::Book;
use calendar::marked::MarkedCalendar;
use rates::entry::DayRate;
use rates::layer::ArbitrationLayer;
use rates::source::RateSource;
use rates::table::TableSource;
use refusal::Refusal;
use std::alloc::Global;
use std::test::Fail;

type LayerBook = Book<MarkedCalendar, ArbitrationLayer<TableSource>>;

// A rate over the highest.
const TOO_HIGH: u32 = 100_000_000;

// A book on the days 100 to 119, with a published rate on day 100 and an arbitrated one on day
// 101.
fn layered(heap: Global) -> Result<LayerBook, Fail> {
    let source = ArbitrationLayer::new(TableSource::empty(heap, 100, 20)?);
    let mut book = Book::new(daily(heap)?, source, NUMBER, 100);
    book.publish(DayRate { day: 100, rate: 7 }, 1)?;
    book.arbitrate(DayRate { day: 101, rate: 8 })?;
    Ok(book)
}

#[test]
fn publications(rt: HostRuntime) -> Result<(), Fail> {
    let mut book = layered(rt.alloc())?;
    for (day, rate, period, expected) in [
        (99, 5, 1, Err(Refusal::OutsideHorizon)),
        (120, 5, 1, Err(Refusal::OutsideHorizon)),
        (120, TOO_HIGH, 2, Err(Refusal::OutsideHorizon)),
        (100, 5, 1, Err(Refusal::HasRate)),
        (101, 5, 1, Err(Refusal::HasRate)),
        (100, TOO_HIGH, 1, Err(Refusal::HasRate)),
        (101, TOO_HIGH, 1, Err(Refusal::HasRate)),
        (102, TOO_HIGH, 1, Err(Refusal::RateTooHigh)),
        (102, TOO_HIGH, 2, Err(Refusal::RateTooHigh)),
        (102, 5, 0, Err(Refusal::BadPeriod)),
        (102, 5, 2, Err(Refusal::BadPeriod)),
        (102, 99_999_999, 1, Ok(())),
        (102, 5, 1, Err(Refusal::HasRate)),
    ] {
        let entry = DayRate { day, rate };
        assert_eq!(rt;
            book.publish(entry, period),
            expected,
            "day {day}, rate {rate}"
        );
    }
    let source = book.source();
    for (day, expected) in [
        (100, Some(7)),
        (101, Some(8)),
        (102, Some(99_999_999)),
        (103, None),
        (120, None),
    ] {
        assert_eq!(rt; source.rate(day), expected, "day {day}");
    }
    Ok(())
}

#[test]
fn arbitrations(rt: HostRuntime) -> Result<(), Fail> {
    let mut book = layered(rt.alloc())?;
    for day in 102..116 {
        book.arbitrate(DayRate { day, rate: 8 })?;
    }
    for (day, rate, expected) in [
        (99, 5, Err(Refusal::OutsideHorizon)),
        (120, 5, Err(Refusal::OutsideHorizon)),
        (120, TOO_HIGH, Err(Refusal::OutsideHorizon)),
        (100, 5, Err(Refusal::HasRate)),
        (101, 5, Err(Refusal::HasRate)),
        (100, TOO_HIGH, Err(Refusal::HasRate)),
        (116, TOO_HIGH, Err(Refusal::RateTooHigh)),
        (116, 99_999_999, Ok(())),
        // Sixteen days are arbitrated from here on.
        (120, 5, Err(Refusal::OutsideHorizon)),
        (100, 5, Err(Refusal::HasRate)),
        (117, TOO_HIGH, Err(Refusal::RateTooHigh)),
        (117, 5, Err(Refusal::ArbitrationFull)),
    ] {
        let entry = DayRate { day, rate };
        assert_eq!(rt; book.arbitrate(entry), expected, "day {day}, rate {rate}");
    }
    assert_eq!(rt; book.source().rate(117), None);
    assert_eq!(rt; book.publish(DayRate { day: 117, rate: 5 }, 1), Ok(()));
    assert_eq!(rt; book.source().rate(117), Some(5));
    Ok(())
}
