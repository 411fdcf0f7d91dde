// The check of a statement: the adjustments of each account in each month beside the value of its trades,
// worked out from the answers.
use crate::replay::Replay;
use crate::story::{ClosedSession, Story, TradeRow};
use calendar::kind::Calendar;
use interest::day_factor;
use rates::source::RateSource;
use std::alloc::{AllocError, Global};
use std::fmt;

// Figures are kept in units of 10^-12 of a centavo.
const CENTAVO: i128 = 1_000_000_000_000;

const HALF_CENTAVO: i128 = 500_000_000_000;

// Day factors are in units of 10^-8.
const ONE: i128 = 100_000_000;

const HALF: i128 = 50_000_000;

// A figure in thousandths of a centavo, to the nearest, halves up.
#[derive(Clone, Copy)]
pub(crate) struct Thousandths {
    figure: i128,
}

impl fmt::Display for Thousandths {
    fn fmt<W: fmt::Write>(&self, f: &mut fmt::Formatter<W>) -> fmt::Result {
        let before = f.width().unwrap_or(0).saturating_sub(4);
        let below = self.figure.div_euclid(1_000_000_000);
        let over = self.figure.rem_euclid(1_000_000_000) >= 500_000_000;
        let nearest = if over { below.saturating_add(1) } else { below };
        let whole = nearest / 1_000;
        let rest = nearest.unsigned_abs() % 1_000;
        if nearest < 0 && whole == 0 {
            let whole = "-0";
            write!(f, "{whole:>before$}.{rest:03}")
        } else {
            write!(f, "{whole:>before$}.{rest:03}")
        }
    }
}

// The figures of an account in a month so far: its adjustments and the value of its trades, scaled, how
// far they may be apart, and its contracts, sold less bought in rate.
#[derive(Clone, Copy)]
struct Figures {
    adjustments: i128,
    value: i128,
    at_most: i128,
    contracts: i128,
}

const NO_FIGURES: Figures = Figures {
    adjustments: 0,
    value: 0,
    at_most: 0,
    contracts: 0,
};

// A figure over a reserve day with a day factor, where it fits.
fn scaled(figure: i128, factor: u32) -> Option<i128> {
    let product = figure.checked_mul(i128::from(factor))?.checked_add(HALF)?;
    Some(product.div_euclid(ONE))
}

impl Figures {
    // Over a reserve day.
    fn over_day(self, factor: u32) -> Option<Figures> {
        let held = HALF_CENTAVO.checked_mul(self.contracts.checked_abs()?)?;
        Some(Figures {
            adjustments: scaled(self.adjustments, factor)?,
            value: scaled(self.value, factor)?,
            at_most: scaled(self.at_most, factor)?.checked_add(held)?,
            contracts: self.contracts,
        })
    }

    // Over the reserve days of a gap, in order.
    fn over_gap(self, factors: &[u32]) -> Option<Figures> {
        let mut figures = self;
        for factor in factors {
            figures = figures.over_day(*factor)?;
        }
        Some(figures)
    }

    // With an adjustment in centavos.
    fn adjusted(self, centavos: i64) -> Option<Figures> {
        let amount = CENTAVO.checked_mul(i128::from(centavos))?;
        let adjustments = self.adjustments.checked_add(amount)?;
        Some(Figures {
            adjustments,
            ..self
        })
    }

    // With contracts that were sold in rate at a price, or bought where they are below 0.
    fn traded(self, contracts: i128, price: u32) -> Option<Figures> {
        let worth = contracts
            .checked_mul(i128::from(price))?
            .checked_mul(CENTAVO)?;
        Some(Figures {
            value: self.value.checked_sub(worth)?,
            contracts: self.contracts.checked_add(contracts)?,
            ..self
        })
    }

    // At the last price of the month.
    fn at_last_price(self, price: u32) -> Option<Checked> {
        let worth = self
            .contracts
            .checked_mul(i128::from(price))?
            .checked_mul(CENTAVO)?;
        let value = self.value.checked_add(worth)?;
        let apart = self.adjustments.checked_sub(value)?.checked_abs()?;
        Some(Checked {
            adjustments: Thousandths {
                figure: self.adjustments,
            },
            value: Thousandths { figure: value },
            apart: Thousandths { figure: apart },
            at_most: Thousandths {
                figure: self.at_most,
            },
        })
    }
}

// What a line of the check tells.
#[derive(Clone, Copy)]
pub(crate) struct Checked {
    pub(crate) adjustments: Thousandths,
    pub(crate) value: Thousandths,
    pub(crate) apart: Thousandths,
    pub(crate) at_most: Thousandths,
}

// The last session of a month and its price there.
#[derive(Clone, Copy)]
pub(crate) struct LastSession {
    pub(crate) day: u32,
    pub(crate) price: u32,
}

// That of each month: the latest closed session in which it was listed and was not expired.
pub(crate) fn last_sessions(
    heap: Global,
    story: &Story,
) -> Result<Vec<Option<LastSession>>, AllocError> {
    let mut last = Vec::new(heap);
    for _ in story.months.iter() {
        last.push(None)?;
    }
    for session in story.closed.iter() {
        for (price, last) in session.prices.iter().zip(last.iter_mut()) {
            if let Some(price) = *price {
                *last = Some(LastSession {
                    day: session.day,
                    price,
                });
            }
        }
    }
    Ok(last)
}

// The figures of each account, a row with one of each month; none where a figure does not fit.
#[derive(Drop)]
struct Ledger<'a> {
    story: &'a Story,
    rows: Vec<Vec<Option<Figures>>>,
}

impl<'a> Ledger<'a> {
    fn new(heap: Global, story: &'a Story) -> Result<Ledger<'a>, AllocError> {
        let mut rows = Vec::new(heap);
        for _ in story.accounts.iter() {
            rows.push(vec![in heap; Some(NO_FIGURES); story.months.len()]?)?;
        }
        Ok(Ledger { story, rows })
    }

    // Takes in one side of a trade.
    fn take_side(&mut self, account: u8, trade: &TradeRow, contracts: i128) {
        if let Some(month) = self.story.index(trade.trade.month)
            && let Some(row) = self.rows.get_mut(account as usize)
            && let Some(cell) = row.get_mut(month)
        {
            *cell = cell.and_then(|figures| figures.traded(contracts, trade.price));
        }
    }

    // Takes in a closed session, after the reserve days before it.
    fn take(&mut self, session: &ClosedSession, factors: &[u32]) {
        for (account, row) in self.rows.iter_mut().enumerate() {
            let amounts = session.row(session.closing.adjustments.as_slice(), account);
            let listed = session.prices.iter().enumerate();
            for ((month, price), cell) in listed.zip(row.iter_mut()) {
                if price.is_some() {
                    let amount = amounts.get(month).copied().unwrap_or(0);
                    *cell = cell
                        .and_then(|figures| figures.over_gap(factors))
                        .and_then(|figures| figures.adjusted(amount));
                }
            }
        }
        for trade in session.trades.iter() {
            let contracts = i128::from(trade.trade.quantity);
            self.take_side(trade.trade.seller, trade, contracts);
            self.take_side(trade.trade.buyer, trade, -contracts);
        }
    }
}

// The day factors of the reserve days from a day, included, to another, excluded.
fn factors_between(
    heap: Global,
    replay: &Replay,
    from: u32,
    to: u32,
) -> Result<Vec<u32>, AllocError> {
    let mut factors = Vec::new(heap);
    for day in from..to {
        if replay.book.calendar().kind(day).is_reserve()
            && let Some(rate) = replay.book.source().rate(day)
            && let Some(factor) = day_factor(rate)
        {
            factors.push(factor)?;
        }
    }
    Ok(factors)
}

// The check of each account, a row with one of each month that has a last session; none where a figure
// does not fit.
pub(crate) fn checks(
    heap: Global,
    replay: &Replay,
    last: &[Option<LastSession>],
) -> Result<Vec<Vec<Option<Checked>>>, AllocError> {
    let mut ledger = Ledger::new(heap, &replay.story)?;
    let mut before = None;
    for session in replay.story.closed.iter() {
        let from = before.unwrap_or(session.day);
        let factors = factors_between(heap, replay, from, session.day)?;
        ledger.take(session, factors.as_slice());
        before = Some(session.day);
    }
    let mut rows = Vec::new(heap);
    for row in ledger.rows.iter() {
        let mut checks = Vec::new(heap);
        for (figures, last) in row.iter().zip(last) {
            let price = last.map_or(0, |last| last.price);
            checks.push(figures.and_then(|figures| figures.at_last_price(price)))?;
        }
        rows.push(checks)?;
    }
    Ok(rows)
}
