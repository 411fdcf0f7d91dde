// Sessions of full books on a calendar with 1,500 exceptions, with rates of all days.
ghost use Rattle.std.specs.Prelude.{◌<◌};

use crate::closes::array_sum;
use crate::gaps::table;
use crate::numbers::Numbers;
use crate::sheets::sheet_bytes;
use amounts::{CELLS, MAX_TRADES};
use book::{Book, PayRefused, Slip, Ticket};
use calendar::kind::DayKind;
use calendar::rule::{Exception, RuleCalendar};
use calendar::span::{count_reserve_days, expiry, next_session};
use interest::trade_price;
use model::{Account, Order};
use rates::table::TableSource;
use refusal::Refusal;
use sheet::TradeLine;
use std::alloc::{AllocError, Global};
use std::fmt;

// From when each book looks for its first session: 30 December 2026.
const START: u32 = 9_860;

// The months that expire nine to ten years after it.
const FAR_MONTHS: [u32; 16] = [
    428, 429, 430, 431, 432, 433, 434, 435, 436, 437, 438, 439, 440, 441, 442, 443,
];

// The first months of the next 16 quarters; three of them expire within a year of sessions.
const QUARTERS: [u32; 16] = [
    327, 330, 333, 336, 339, 342, 345, 348, 351, 354, 357, 360, 363, 366, 369, 372,
];

// How the lines of a session come to a book.
#[derive(Clone, Copy)]
enum Entry {
    ByLine,
    BySheet,
    // On a sheet that is written and not imported.
    Unread,
}

// The sessions of a book: its months, how many sessions, the lines of each and how they come.
#[derive(Clone, Copy)]
pub(crate) struct Plan {
    months: [u32; 16],
    sessions: u32,
    lines: u32,
    entry: Entry,
}

// Sheets of as many lines as a session may have trades, in months ten years away.
pub(crate) const IMPORTS: Plan = Plan {
    months: FAR_MONTHS,
    sessions: 20,
    lines: 256,
    entry: Entry::BySheet,
};

// The same sessions without their imports.
pub(crate) const IDLE: Plan = Plan {
    months: FAR_MONTHS,
    sessions: 20,
    lines: 256,
    entry: Entry::Unread,
};

// A year of 400 lines a day, of which a session takes 256: in expired months, and after so many
// trades, lines are refused.
pub(crate) const YEARS: Plan = Plan {
    months: QUARTERS,
    sessions: 250,
    lines: 400,
    entry: Entry::ByLine,
};

// Trades, refused calls, and the sums of trade prices and of what the closes wrote.
#[derive(Clone, Copy, Default)]
pub struct BookFigures {
    trades: u64,
    refused: u64,
    prices: u64,
    amounts: i64,
}

impl fmt::Display for BookFigures {
    fn fmt<W: fmt::Write>(&self, f: &mut fmt::Formatter<W>) -> fmt::Result {
        write!(
            f,
            "{} trades, {} calls refused, prices {}, amounts {}",
            self.trades, self.refused, self.prices, self.amounts
        )
    }
}

impl BookFigures {
    fn add_trade(&mut self, price: u32) {
        self.trades = self.trades.wrapping_add(1);
        self.prices = self.prices.wrapping_add(price as u64);
    }

    // What a call answered, or nothing where it was refused.
    fn taken<T>(&mut self, answer: Result<T, Refusal>) -> Option<T> {
        match answer {
            Ok(value) => Some(value),
            Err(_) => {
                self.refused = self.refused.wrapping_add(1);
                None
            }
        }
    }
}

// A closed day in every 24, some of them on a weekend.
fn calendar(heap: Global) -> Result<RuleCalendar, AllocError> {
    let mut numbers = Numbers::new();
    let mut exceptions = Vec::new(heap);
    for k in 0..1_500 {
        exceptions.push(Exception {
            day: 24 * k + numbers.below(24),
            kind: DayKind::ClosedDay,
        })?;
    }
    RuleCalendar::new(heap, exceptions.as_slice())
}

impl Plan {
    // The line of an order.
    fn line(&self, order: Order) -> TradeLine
        requires { order.month < 16 }
    {
        TradeLine {
            buyer: order.buyer,
            seller: order.seller,
            month: self.months[order.month as usize],
            rate: order.rate,
            quantity: order.quantity,
        }
    }

    // The lines of a session.
    fn lines(&self, heap: Global, numbers: &mut Numbers) -> Result<Vec<TradeLine>, AllocError> {
        (0..self.lines)
            .map(|_| self.line(numbers.order()))
            .collect(heap)
    }

    // The reserve days to the expiry of each month from the first session on.
    fn days(&self, calendar: &RuleCalendar) -> [u32; 16] {
        let mut days = [0; 16];
        let session = next_session(calendar, START).unwrap_or(START);
        for (month, count) in days.iter_mut().enumerate() {
            if let Some(day) = expiry(calendar, self.months[month]) {
                *count = count_reserve_days(calendar, session, day);
            }
        }
        days
    }

    // Prices the orders of a session that become trades: so many sessions are before it, each on the
    // next reserve day.
    fn price_session(
        &self,
        before: u32,
        days: &[u32; 16],
        numbers: &mut Numbers,
        figures: &mut BookFigures,
    ) {
        let mut left = MAX_TRADES;
        for _ in 0..self.lines {
            let order = numbers.order();
            let days = days[order.month as usize].saturating_sub(before);
            if left > 0 && days > 0 {
                left -= 1;
                figures.add_trade(trade_price(order.rate, days).unwrap_or(0));
            }
        }
    }
}

// A book at work: the slip of its latest closed session, what a close wrote, and what its calls came
// to.
struct Load<'a> {
    book: Book<RuleCalendar, TableSource>,
    slip: Option<Slip>,
    adjustments: [i64; CELLS],
    day_trades: [i64; CELLS],
    figures: &'a mut BookFigures,
}

impl Load<'_> {
    // Enters 32 accounts, and lists the months.
    fn fill(&mut self, plan: Plan) {
        for client in 0..32 {
            let entered = self.book.enter(Account {
                client,
                participant: 1,
                member: 1,
            });
            let _ = self.figures.taken(entered);
        }
        for month in plan.months {
            let listed = self.book.list(month);
            let _ = self.figures.taken(listed);
        }
    }

    // Takes a slip in place of one that it held, which is written off.
    fn hold(&mut self, slip: Slip) {
        if let Some(held) = self.slip.replace(slip) {
            let _ = held.write_off();
        }
    }

    // Pays the session before.
    fn pay(&mut self) {
        let Some(held) = self.slip.take() else {
            return;
        };
        if let Err(PayRefused { refusal, slip }) = self.book.pay(held) {
            self.hold(slip);
            let _ = self.figures.taken::<()>(Err(refusal));
        }
    }

    // Trades lines one by one.
    fn trade(&mut self, ticket: &Ticket, lines: &[TradeLine]) {
        for line in lines {
            let traded = self.book.trade_line(ticket, *line);
            if let Some(price) = self.figures.taken(traded) {
                self.figures.add_trade(price);
            }
        }
    }

    // Imports a sheet.
    fn import(&mut self, ticket: &Ticket, sheet: &[u8]) {
        let outcome = self.book.import(ticket, sheet);
        let stops = outcome.stop.is_some() as u64;
        self.figures.trades = self.figures.trades.wrapping_add(outcome.taken as u64);
        self.figures.refused = self.figures.refused.wrapping_add(stops);
    }

    // Brings the lines of a session.
    fn bring(
        &mut self,
        heap: Global,
        entry: Entry,
        ticket: &Ticket,
        lines: &[TradeLine],
    ) -> Result<(), AllocError> {
        let day = u16::try_from(ticket.day()).unwrap_or(0);
        match entry {
            Entry::ByLine => self.trade(ticket, lines),
            Entry::BySheet => {
                let sheet = sheet_bytes(heap, day, lines)?;
                self.import(ticket, sheet.as_slice());
            }
            Entry::Unread => {
                let _ = sheet_bytes(heap, day, lines)?;
            }
        }
        Ok(())
    }

    fn close(&mut self, ticket: Ticket) {
        let closed = self
            .book
            .close(ticket, &mut self.adjustments, &mut self.day_trades);
        match closed {
            Ok(slip) => {
                self.hold(slip);
                let sum = array_sum(&self.adjustments, &self.day_trades);
                self.figures.amounts = self.figures.amounts.wrapping_add(sum);
            }
            Err(refused) => {
                let _ = self.figures.taken::<()>(Err(refused.refusal));
            }
        }
    }

    // Opens a session, pays the one before, brings the lines, marks every month, and closes.
    fn session(&mut self, heap: Global, plan: Plan, lines: &[TradeLine]) -> Result<(), AllocError> {
        let opened = self.book.open();
        let Some(ticket) = self.figures.taken(opened) else {
            return Ok(());
        };
        self.pay();
        self.bring(heap, plan.entry, &ticket, lines)?;
        for (month, number) in plan.months.iter().enumerate() {
            let price = 5_000_000 + number % 16 * 1_000;
            let marked = self.book.mark(&ticket, month as u8, price);
            let _ = self.figures.taken(marked);
        }
        self.close(ticket);
        Ok(())
    }

    // Makes all calls to a new book.
    fn run(&mut self, heap: Global, plan: Plan, numbers: &mut Numbers) -> Result<(), AllocError> {
        self.fill(plan);
        for _ in 0..plan.sessions {
            let lines = plan.lines(heap, numbers)?;
            self.session(heap, plan, &lines)?;
        }
        Ok(())
    }

    // Writes off a slip that is left.
    fn end(self) {
        let Load {
            book: _,
            slip,
            adjustments: _,
            day_trades: _,
            figures: _,
        } = self;
        if let Some(held) = slip {
            let _ = held.write_off();
        }
    }
}

// Runs one book.
fn run_book(
    heap: Global,
    plan: Plan,
    numbers: &mut Numbers,
    figures: &mut BookFigures,
) -> Result<(), AllocError> {
    let calendar = calendar(heap)?;
    let source = table(heap, &mut Numbers::new())?;
    let mut load = Load {
        book: Book::new(calendar, source, 1, START),
        slip: None,
        adjustments: [0; CELLS],
        day_trades: [0; CELLS],
        figures,
    };
    let outcome = load.run(heap, plan, numbers);
    load.end();
    outcome
}

// What the calls to so many books come to.
pub(crate) fn books(heap: Global, plan: Plan, count: u32) -> Result<BookFigures, AllocError> {
    let mut numbers = Numbers::new();
    let mut figures = BookFigures::default();
    for _ in 0..count {
        run_book(heap, plan, &mut numbers, &mut figures)?;
    }
    Ok(figures)
}

// The prices of the trades of so many books, alone.
pub(crate) fn prices_alone(
    heap: Global,
    plan: Plan,
    count: u32,
) -> Result<BookFigures, AllocError> {
    let days = plan.days(&calendar(heap)?);
    let mut numbers = Numbers::new();
    let mut figures = BookFigures::default();
    for _ in 0..count {
        for session in 0..plan.sessions {
            plan.price_session(session, &days, &mut numbers, &mut figures);
        }
    }
    Ok(figures)
}
