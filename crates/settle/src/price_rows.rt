// What `prices` prints as JSON and writes as CSV: the lines, the totals and the months of a sheet.
use crate::failure::Failure;
use crate::figures::{Code, date};
use crate::json_lines::push_object;
use crate::report::{Outcome, Report};
use crate::tables::{Table, TableFolder};
use serde::Serialize;
use sheet::TradeLine;
use std::alloc::{AllocError, Global};

const LINES: &str =
    "session,line,rate_buyer,rate_seller,price_buyer,price_seller,month,expiry,days,rate,quantity,price,not_priced";

const TOTALS: &str =
    "session,lines,lines_priced,lines_not_priced,contracts,contracts_priced,contracts_not_priced";

const MONTHS: &str = "session,month,lines,contracts";

// The fields of a row stand in the order of its columns.
#[derive(Drop, Serialize)]
struct LineFields<'a> {
    session: &'a str,
    line: usize,
    rate_buyer: u8,
    rate_seller: u8,
    price_buyer: u8,
    price_seller: u8,
    month: String,
    expiry: Option<String>,
    days: Option<u32>,
    rate: u32,
    quantity: u32,
    price: Option<u32>,
    not_priced: Option<String>,
}

#[derive(Drop, Serialize)]
struct TotalFields<'a> {
    session: &'a str,
    lines: u32,
    lines_priced: u32,
    lines_not_priced: u32,
    contracts: u64,
    contracts_priced: u64,
    contracts_not_priced: u64,
}

#[derive(Drop, Serialize)]
struct MonthFields<'a> {
    session: &'a str,
    month: String,
    lines: u32,
    contracts: u64,
}

// A report, and the date of its session.
#[derive(Clone, Copy)]
struct Rows<'a> {
    heap: Global,
    report: &'a Report<'a>,
    session: &'a str,
}

impl<'a> Rows<'a> {
    fn line(&self, line: usize, trade: TradeLine) -> Result<LineFields<'a>, AllocError> {
        let heap = self.heap;
        let Outcome {
            expiry,
            days,
            sides,
            price,
        } = self.report.outcome(trade);
        let expiry = match expiry {
            Some(day) => Some(format!(in heap; "{}", date(day))?),
            None => None,
        };
        let not_priced = match price {
            Ok(_) => None,
            Err(cause) => Some(format!(in heap; "{cause}")?),
        };
        Ok(LineFields {
            session: self.session,
            line,
            rate_buyer: trade.buyer,
            rate_seller: trade.seller,
            price_buyer: sides.buyer,
            price_seller: sides.seller,
            month: format!(in heap; "{}", Code { month: trade.month })?,
            expiry,
            days,
            rate: trade.rate,
            quantity: trade.quantity,
            price: price.ok(),
            not_priced,
        })
    }

    fn totals(&self) -> TotalFields<'a> {
        let (all, priced) = self.report.totals();
        TotalFields {
            session: self.session,
            lines: all.lines,
            lines_priced: priced.lines,
            lines_not_priced: all.lines.saturating_sub(priced.lines),
            contracts: all.contracts,
            contracts_priced: priced.contracts,
            contracts_not_priced: all.contracts.saturating_sub(priced.contracts),
        }
    }

    fn month(&self, month: u32) -> Result<MonthFields<'a>, AllocError> {
        let tally = self.report.month(month);
        Ok(MonthFields {
            session: self.session,
            month: format!(in self.heap; "{}", Code { month })?,
            lines: tally.lines,
            contracts: tally.contracts,
        })
    }

    // An object a line.
    fn json(&self) -> Result<String, AllocError> {
        let mut text = String::new(self.heap);
        for (line, trade) in self.report.view.trades().enumerate() {
            push_object(self.heap, &mut text, &self.line(line, trade)?)?;
        }
        push_object(self.heap, &mut text, &self.totals())?;
        for month in self.report.months(self.heap)? {
            push_object(self.heap, &mut text, &self.month(month)?)?;
        }
        Ok(text)
    }

    fn line_table(&self) -> Result<Table, AllocError> {
        let mut table = Table::new(self.heap, LINES)?;
        for (line, trade) in self.report.view.trades().enumerate() {
            table.add(&self.line(line, trade)?)?;
        }
        Ok(table)
    }

    fn total_table(&self) -> Result<Table, AllocError> {
        let mut table = Table::new(self.heap, TOTALS)?;
        table.add(&self.totals())?;
        Ok(table)
    }

    fn month_table(&self) -> Result<Table, AllocError> {
        let mut table = Table::new(self.heap, MONTHS)?;
        for month in self.report.months(self.heap)? {
            table.add(&self.month(month)?)?;
        }
        Ok(table)
    }
}

// The date of a report's session.
fn session_of(heap: Global, report: &Report<'_>) -> Result<String, AllocError> {
    format!(in heap; "{}", date(report.view.day()))
}

// The objects of a report.
pub(crate) fn json_print(heap: Global, report: &Report<'_>) -> Result<String, AllocError> {
    let session = session_of(heap, report)?;
    let rows = Rows {
        heap,
        report,
        session: session.as_str(),
    };
    rows.json()
}

// Writes the three tables of a report.
pub(crate) fn write_price_tables(
    heap: Global,
    folder: &TableFolder<'_>,
    report: &Report<'_>,
) -> Result<(), Failure> {
    let session = session_of(heap, report)?;
    let rows = Rows {
        heap,
        report,
        session: session.as_str(),
    };
    folder.write("prices.csv", rows.line_table()?)?;
    folder.write("totals.csv", rows.total_table()?)?;
    folder.write("months.csv", rows.month_table()?)
}
