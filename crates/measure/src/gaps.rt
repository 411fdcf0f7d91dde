// Prices corrected over gaps of five days, added up.
use crate::numbers::Numbers;
use calendar::rule::RuleCalendar;
use correction::{Gap, correct};
use rates::table::TableSource;
use std::alloc::{AllocError, Global};

// The first day of the table of rates, and how many days it has.
const FIRST: u32 = 9_000;

const DAYS: u32 = 2_000;

// A rate for every day of the table.
pub(crate) fn table(heap: Global, numbers: &mut Numbers) -> Result<TableSource, AllocError> {
    let entries = (0..DAYS)
        .map(|_| 1 + numbers.below(30_000_000))
        .collect(heap)?;
    Ok(TableSource::new(FIRST, entries))
}

// The sum of so many corrected prices.
pub(crate) fn corrections(heap: Global, count: u32) -> Result<u64, AllocError> {
    let mut numbers = Numbers::new();
    let calendar = RuleCalendar::new(heap, &[])?;
    let source = table(heap, &mut numbers)?;
    Ok(numbers.sum(count, |numbers| {
        let from = FIRST + numbers.below(DAYS - 5);
        let price = 1 + numbers.below(10_000_000);
        let gap = Gap {
            from,
            to: from + 5,
            price,
        };
        correct(&calendar, &source, gap).unwrap_or(0)
    }))
}
