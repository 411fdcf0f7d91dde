// The lines of a sheet priced on the office's calendar, and their totals.
use crate::failure::{Complaint, Failure, Source, in_words};
use crate::figures::{Code, Counted, Fixed, Points, date};
use crate::files::read_bytes;
use crate::office::{OfficeCalendar, read_office};
use crate::price_rows::{json_print, write_price_tables};
use crate::sheets::view;
use crate::tables::TableFolder;
use calendar::kind::Calendar;
use calendar::span::{count_reserve_days, expiry};
use pricing::{AnyTrade, Cause, InMonth, OnCalendar, Sides, Tally, add_up, in_price, price_trade};
use sheet::{SheetView, TradeLine};
use std::alloc::{AllocError, Global};
use std::fmt;

const HEADING: &str =
    "line  rate buyer  rate seller  PU buyer  PU seller  code    expiry      days    rate %  contracts          PU\n";

// What the command `prices` is asked to print and to write.
#[derive(Clone, Copy)]
pub(crate) struct PriceOptions<'a> {
    pub(crate) json: bool,
    pub(crate) csv: Option<&'a str>,
}

// One line of totals: of all, what is priced and what is not.
#[derive(Clone, Copy)]
struct TotalLine {
    all: Counted,
    priced: i128,
}

impl fmt::Display for TotalLine {
    fn fmt<W: fmt::Write>(&self, f: &mut fmt::Formatter<W>) -> fmt::Result {
        let left = self.all.count.saturating_sub(self.priced);
        writeln!(
            f,
            "total: {}, {} priced, {left} not priced",
            self.all, self.priced
        )
    }
}

// What a line of a sheet comes to: the expiry of its month and the reserve days to it, where there are
// any, its sides in price, and its price or why it has none.
#[derive(Clone, Copy)]
pub(crate) struct Outcome {
    pub(crate) expiry: Option<u32>,
    pub(crate) days: Option<u32>,
    pub(crate) sides: Sides,
    pub(crate) price: Result<u32, Cause>,
}

// A sheet, and the calendar on which it is priced.
#[derive(Clone, Copy)]
pub(crate) struct Report<'a> {
    calendar: &'a OfficeCalendar,
    pub(crate) view: SheetView<'a>,
}

impl Report<'_> {
    // What a line comes to on a calendar.
    fn outcome_on<C: Calendar>(&self, calendar: &C, trade: TradeLine) -> Outcome {
        let session = self.view.day();
        let expiry = expiry(calendar, trade.month);
        Outcome {
            expiry,
            days: expiry
                .filter(|day| *day > session)
                .map(|day| count_reserve_days(calendar, session, day)),
            sides: in_price(trade),
            price: price_trade(calendar, session, trade).map(|priced| priced.price),
        }
    }

    // The lines that are priced on a calendar.
    fn priced_on<C: Calendar>(&self, calendar: &C) -> Tally {
        let session = self.view.day();
        add_up(&self.view, &OnCalendar { calendar, session })
    }

    // What a line comes to.
    // The make is looked at once a line, not at each day of a walk.
    pub(crate) fn outcome(&self, trade: TradeLine) -> Outcome {
        match self.calendar {
            OfficeCalendar::Marked(marked) => self.outcome_on(marked, trade),
            OfficeCalendar::Rule(rule) => self.outcome_on(rule, trade),
        }
    }

    // All lines, and those that are priced.
    pub(crate) fn totals(&self) -> (Tally, Tally) {
        let all = add_up(&self.view, &AnyTrade);
        let priced = match self.calendar {
            OfficeCalendar::Marked(marked) => self.priced_on(marked),
            OfficeCalendar::Rule(rule) => self.priced_on(rule),
        };
        (all, priced)
    }

    // The months that the sheet names, in order, each once.
    pub(crate) fn months(&self, heap: Global) -> Result<Vec<u32>, AllocError> {
        let mut months: Vec<u32> = self.view.trades().map(|trade| trade.month).collect(heap)?;
        months.sort_unstable();
        months.dedup();
        Ok(months)
    }

    // The lines of a month.
    pub(crate) fn month(&self, month: u32) -> Tally {
        add_up(&self.view, &InMonth { month })
    }

    // Adds a line of the sheet.
    fn push_row(&self, text: &mut String, line: usize, trade: TradeLine) -> Result<(), AllocError> {
        let outcome = self.outcome(trade);
        let TradeLine {
            buyer,
            seller,
            month,
            rate,
            quantity,
        } = trade;
        let buys = outcome.sides.buyer;
        let sells = outcome.sides.seller;
        write!(
            text,
            "{line:>4}  {buyer:>10}  {seller:>11}  {buys:>8}  {sells:>9}"
        )?;
        write!(text, "  {}", Code { month })?;
        match outcome.expiry {
            Some(day) => write!(text, "  {}", date(day))?,
            None => text.push_str("  -         ")?,
        }
        match outcome.days {
            Some(days) => write!(text, "  {days:>4}")?,
            None => text.push_str("     -")?,
        }
        write!(text, "  {:>8}  {quantity:>9}", Fixed::dealt_rate(rate))?;
        match outcome.price {
            Ok(price) => {
                let price = Points {
                    hundredths: price as u64,
                };
                write!(text, "  {price:>10}\n")
            }
            Err(cause) => write!(text, "  not priced: {cause}\n"),
        }
    }

    // Adds the lines of the sheet.
    fn push_rows(&self, text: &mut String) -> Result<(), AllocError> {
        for (line, trade) in self.view.trades().enumerate() {
            self.push_row(text, line, trade)?;
        }
        Ok(())
    }

    // Adds the two lines of totals.
    fn push_totals(&self, text: &mut String) -> Result<(), AllocError> {
        let (all, priced) = self.totals();
        let of_lines = TotalLine {
            all: Counted::lines(i128::from(all.lines)),
            priced: i128::from(priced.lines),
        };
        let of_contracts = TotalLine {
            all: Counted::contracts(i128::from(all.contracts)),
            priced: i128::from(priced.contracts),
        };
        write!(text, "{of_lines}{of_contracts}")
    }

    // The whole print.
    fn print(&self, heap: Global) -> Result<String, AllocError> {
        let mut text = format!(in heap; "session {}\n{HEADING}", date(self.view.day()))?;
        self.push_rows(&mut text)?;
        self.push_totals(&mut text)?;
        for month in self.months(heap)? {
            let tally = self.month(month);
            let lines = Counted::lines(i128::from(tally.lines));
            let contracts = Counted::contracts(i128::from(tally.contracts));
            write!(text, "{}: {lines}, {contracts}\n", Code { month })?;
        }
        Ok(text)
    }
}

// Prices every line of a sheet on the office's calendar.
pub(crate) fn prices(
    rt: &HostRuntime,
    office: &str,
    file: &str,
    options: PriceOptions<'_>,
) -> Result<String, Failure> {
    let heap = rt.alloc();
    let office = read_office(rt, office)?;
    let bytes = in_words(heap, read_bytes(rt, file, file))?;
    let source = Source { heap, file };
    let view = view(&source, bytes.as_slice())?;
    let session = view.day();
    if !office.calendar.kind(session).is_session() {
        return source.about(Err(Complaint::NoSession(date(session))));
    }
    let report = Report {
        calendar: &office.calendar,
        view,
    };
    if let Some(name) = options.csv {
        write_price_tables(heap, &TableFolder { rt, name }, &report)?;
    }
    if options.json {
        return Ok(json_print(heap, &report)?);
    }
    Ok(report.print(heap)?)
}
