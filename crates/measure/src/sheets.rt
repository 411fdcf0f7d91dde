// Trade sheets written, read back and priced.
ghost use Rattle.std.specs.Prelude.{◌≤◌};

use crate::numbers::Numbers;
use calendar::kind::DayKind;
use calendar::rule::{Exception, RuleCalendar};
use pricing::price_trade;
use sheet::{SheetView, TradeLine, read, write};
use std::alloc::{AllocError, Global};
use std::fmt;

// The session of every sheet: 30 December 2026.
const SESSION: u16 = 9_860;

// Lines, priced lines, and the sum of the prices and of the buyers in price, with 1 for a line that is not priced.
#[derive(Clone, Copy, Default)]
pub struct SheetFigures {
    lines: u64,
    priced: u64,
    sum: u64,
}

impl fmt::Display for SheetFigures {
    fn fmt<W: fmt::Write>(&self, f: &mut fmt::Formatter<W>) -> fmt::Result {
        write!(
            f,
            "{} lines, {} priced, sum {}",
            self.lines, self.priced, self.sum
        )
    }
}

impl SheetFigures {
    // Adds a line. Apart from its callers, so that its loop over days keeps to registers.
    #[inline(never)]
    fn add(&mut self, calendar: &RuleCalendar, trade: TradeLine) {
        self.lines = self.lines.wrapping_add(1);
        match price_trade(calendar, SESSION as u32, trade) {
            Ok(line) => {
                self.priced = self.priced.wrapping_add(1);
                self.sum = self
                    .sum
                    .wrapping_add(line.price as u64)
                    .wrapping_add(line.buyer as u64);
            }
            Err(_) => self.sum = self.sum.wrapping_add(1),
        }
    }

    // Adds every line of a sheet.
    fn add_sheet(&mut self, calendar: &RuleCalendar, view: &SheetView<'_>) {
        for trade in view.trades() {
            self.add(calendar, trade);
        }
    }
}

// How many lines the next sheet has.
fn line_count(numbers: &mut Numbers) -> u32
    ensures { result ≤ 256 }
{
    1 + numbers.below(256)
}

// The bytes of the sheet of these trades.
pub(crate) fn sheet_bytes(
    heap: Global,
    day: u16,
    trades: &[TradeLine],
) -> Result<Vec<u8>, AllocError> {
    let mut bytes = vec![in heap; 0u8; 4 + 16 * trades.len()]?;
    let _ = write(day, trades, bytes.as_mut_slice());
    Ok(bytes)
}

// Makes the trades of a sheet, writes them, and adds the sheet as it is read back.
fn next_sheet(
    heap: Global,
    total: &mut SheetFigures,
    calendar: &RuleCalendar,
    numbers: &mut Numbers,
) -> Result<(), AllocError> {
    let trades: Vec<TradeLine> = (0..line_count(numbers))
        .map(|_| numbers.trade())
        .collect(heap)?;
    let bytes = sheet_bytes(heap, SESSION, trades.as_slice())?;
    if let Ok(view) = read(bytes.as_slice()) {
        total.add_sheet(calendar, &view);
    }
    Ok(())
}

// The total of so many sheets.
pub(crate) fn sheets(heap: Global, count: u32) -> Result<SheetFigures, AllocError> {
    let closed = Exception {
        day: 9_862,
        kind: DayKind::ClosedDay,
    };
    let calendar = RuleCalendar::new(heap, &[closed])?;
    let mut numbers = Numbers::new();
    let mut total = SheetFigures::default();
    for _ in 0..count {
        next_sheet(heap, &mut total, &calendar, &mut numbers)?;
    }
    Ok(total)
}
