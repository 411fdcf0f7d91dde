// What happened in a run, as the replies to its calls tell it.
use book::{ImportOutcome, ImportStop};
use desk::Closing;
use model::{Account, Balance};
use refusal::Refusal;
use sheet::TradeLine;
use std::alloc::Global;

// The settlement price of a month on its expiry, in centavos.
const EXPIRY_PRICE: u32 = 10_000_000;

// What a refusal tells beside its number: the month or the day that it names.
#[derive(Clone, Copy)]
pub(crate) enum Detail {
    Nothing,
    Month(u32),
    Day(u32),
}

// What a call answered. A day is that of a session, and a close is the place of its session among those
// that were closed.
#[derive(Clone, Copy)]
pub(crate) enum Answer {
    Entered(u8),
    Listed { index: u8, expiry: u32 },
    Published,
    Arbitrated,
    Opened(u32),
    Traded(u32),
    Imported(ImportOutcome),
    Marked,
    Closed { day: u32, place: usize },
    Paid(u32),
    WrittenOff { number: u32, day: u32 },
    Position(i32),
    Balance(Balance),
    Refused(Refusal, Detail),
    Nothing(&'static str),
}

impl Answer {
    // The line at which an import stopped.
    pub(crate) fn stop(&self) -> Option<ImportStop> {
        match self {
            Answer::Imported(outcome) => outcome.stop,
            _ => None,
        }
    }

    pub(crate) fn is_refusal(&self) -> bool {
        matches!(self, Answer::Refused(..)) || self.stop().is_some()
    }
}

// A month of the book; in the open session, the reserve days to its expiry and the mark.
#[derive(Clone, Copy)]
pub(crate) struct Month {
    pub(crate) number: u32,
    pub(crate) expiry: u32,
    pub(crate) days: u32,
    pub(crate) mark: Option<u32>,
}

impl Month {
    // The settlement price in a session, in centavos; none once the month is expired.
    pub(crate) fn price(&self, session: u32) -> Option<u32> {
        if self.expiry == session {
            Some(EXPIRY_PRICE)
        } else {
            self.mark.filter(|_| session < self.expiry)
        }
    }
}

// A trade: the line of its call in the journal, its session, what it is, and its price in centavos.
#[derive(Clone, Copy)]
pub(crate) struct TradeRow {
    pub(crate) line: usize,
    pub(crate) session: u32,
    pub(crate) trade: TradeLine,
    pub(crate) price: u32,
}

// A closed session: its trades, the prices of the months that were listed, what the close wrote, and what
// was then due to each account.
#[derive(Drop)]
pub(crate) struct ClosedSession {
    pub(crate) day: u32,
    pub(crate) trades: Vec<TradeRow>,
    pub(crate) prices: Vec<Option<u32>>,
    pub(crate) closing: Closing,
    pub(crate) dues: Vec<i64>,
}

impl ClosedSession {
    // What a close wrote for an account, in one of its two arrays: an amount for each month.
    pub(crate) fn row<'a>(&self, amounts: &'a [i64], account: usize) -> &'a [i64] {
        let months = self.prices.len();
        let start = account.saturating_mul(months);
        amounts
            .get(start..start.saturating_add(months))
            .unwrap_or(&[])
    }
}

// The contracts of an account in a month.
#[derive(Clone, Copy)]
pub(crate) struct PositionRow {
    pub(crate) account: u8,
    pub(crate) month: u32,
    pub(crate) contracts: i32,
}

// What happened: the answers to the lines, and what the book then had.
#[derive(Drop)]
pub(crate) struct Story {
    pub(crate) number: u32,
    pub(crate) answers: Vec<Answer>,
    pub(crate) accounts: Vec<Account>,
    pub(crate) months: Vec<Month>,
    pub(crate) opened: usize,
    pub(crate) closed: Vec<ClosedSession>,
    pub(crate) paid: usize,
    // Those of the open session, which is not closed.
    pub(crate) trades: Vec<TradeRow>,
    pub(crate) balances: Vec<Balance>,
    pub(crate) positions: Vec<PositionRow>,
}

impl Story {
    // Nothing has happened to a book of a number.
    pub(crate) fn new(heap: Global, number: u32) -> Story {
        Story {
            number,
            answers: Vec::new(heap),
            accounts: Vec::new(heap),
            months: Vec::new(heap),
            opened: 0,
            closed: Vec::new(heap),
            paid: 0,
            trades: Vec::new(heap),
            balances: Vec::new(heap),
            positions: Vec::new(heap),
        }
    }

    // The index of a month.
    pub(crate) fn index(&self, number: u32) -> Option<usize> {
        self.months.iter().position(|month| month.number == number)
    }

    // All trades, in order.
    pub(crate) fn trade_count(&self) -> usize {
        let mut count = self.trades.len();
        for session in self.closed.iter() {
            count = count.saturating_add(session.trades.len());
        }
        count
    }

    // The place of the first line that was refused.
    pub(crate) fn first_refusal(&self) -> Option<usize> {
        self.answers.iter().position(|answer| answer.is_refusal())
    }
}
