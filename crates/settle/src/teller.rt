// The replies to the calls of a run, heard in their order, as what happened.
use crate::journal::CallLine;
use crate::office::OfficeCalendar;
use crate::replay::Purpose;
use crate::story::{Answer, ClosedSession, Detail, Month, PositionRow, Story, TradeRow};
use book::ImportOutcome;
use calendar::span::{count_reserve_days, expiry};
use desk::{Call, Closing, Reply};
use interest::trade_price;
use refusal::Refusal;
use sheet::{TradeLine, read};
use std::alloc::{AllocError, Global};
use std::mem;

// What has been heard so far of the lines, the open session, and that of the slip.
#[derive(Drop)]
pub(crate) struct Teller<'a> {
    heap: Global,
    calendar: &'a OfficeCalendar,
    lines: &'a [CallLine<'a>],
    session: Option<u32>,
    slip: u32,
    pub(crate) story: Story,
}

impl<'a> Teller<'a> {
    pub(crate) fn new(
        heap: Global,
        calendar: &'a OfficeCalendar,
        number: u32,
        lines: &'a [CallLine<'a>],
    ) -> Teller<'a> {
        Teller {
            heap,
            calendar,
            lines,
            session: None,
            slip: 0,
            story: Story::new(heap, number),
        }
    }

    // Hears a reply.
    pub(crate) fn hear(&mut self, purpose: Purpose, reply: Reply) -> Result<(), AllocError> {
        match purpose {
            Purpose::Line => self.hear_line(reply),
            Purpose::Table => self.hear_due(reply),
            Purpose::Balance => self.hear_balance(reply),
            Purpose::Position(account, month) => self.hear_position(account, month, reply),
        }
    }

    // The reply to the next line.
    fn hear_line(&mut self, reply: Reply) -> Result<(), AllocError> {
        if let Some(line) = self.lines.get(self.story.answers.len()) {
            let answer = self.answer(line.number, line.call(), reply)?;
            self.story.answers.push(answer)?;
        }
        Ok(())
    }

    // What is due to the next account after the close that came last.
    fn hear_due(&mut self, reply: Reply) -> Result<(), AllocError> {
        if let Some(Answer::Closed { .. }) = self.story.answers.last()
            && let Some(session) = self.story.closed.last_mut()
            && let Reply::Balance(balance) = reply
        {
            session.dues.push(balance.due)?;
        }
        Ok(())
    }

    fn hear_balance(&mut self, reply: Reply) -> Result<(), AllocError> {
        if let Reply::Balance(balance) = reply {
            self.story.balances.push(balance)?;
        }
        Ok(())
    }

    fn hear_position(&mut self, account: u8, month: u32, reply: Reply) -> Result<(), AllocError> {
        if let Reply::Position(contracts) = reply {
            self.story.positions.push(PositionRow {
                account,
                month,
                contracts,
            })?;
        }
        Ok(())
    }

    // What the call of a line answered.
    fn answer(&mut self, line: usize, call: Call<'_>, reply: Reply) -> Result<Answer, AllocError> {
        Ok(match reply {
            Reply::Entered(index) => self.entered(call, index)?,
            Reply::Listed(index) => self.listed(call, index)?,
            Reply::Published => Answer::Published,
            Reply::Arbitrated => Answer::Arbitrated,
            Reply::Opened(day) => self.opened(day),
            Reply::Traded(price) => self.traded(line, call, price)?,
            Reply::Imported(outcome) => self.imported(line, call, outcome)?,
            Reply::Marked => self.marked(call),
            Reply::Closed(closing) => self.closed(closing)?,
            Reply::Paid => self.paid(),
            Reply::WrittenOff(number, day) => Answer::WrittenOff { number, day },
            Reply::Position(contracts) => Answer::Position(contracts),
            Reply::Balance(balance) => Answer::Balance(balance),
            Reply::Refused(refusal) => Answer::Refused(refusal, self.detail(refusal)),
            Reply::NoTicket => Answer::Nothing("no ticket is held"),
            Reply::NoSlip => Answer::Nothing("no slip is held"),
            Reply::NoSuchCall => Answer::Nothing("the source has no such call"),
        })
    }

    fn entered(&mut self, call: Call<'_>, index: u8) -> Result<Answer, AllocError> {
        if let Call::Enter(account) = call {
            self.story.accounts.push(account)?;
        }
        Ok(Answer::Entered(index))
    }

    // The reserve days from the open session to an expiry.
    fn days_to(&self, expiry: u32) -> u32 {
        match self.session {
            Some(day) => count_reserve_days(self.calendar, day, expiry),
            None => 0,
        }
    }

    fn listed(&mut self, call: Call<'_>, index: u8) -> Result<Answer, AllocError> {
        let number = match call {
            Call::List(number) => number,
            _ => 0,
        };
        let expiry = expiry(self.calendar, number).unwrap_or(0);
        let days = self.days_to(expiry);
        self.story.months.push(Month {
            number,
            expiry,
            days,
            mark: None,
        })?;
        Ok(Answer::Listed { index, expiry })
    }

    // A new session has no marks.
    fn opened(&mut self, day: u32) -> Answer {
        self.session = Some(day);
        self.story.opened = self.story.opened.saturating_add(1);
        for month in self.story.months.iter_mut() {
            month.days = count_reserve_days(self.calendar, day, month.expiry);
            month.mark = None;
        }
        Answer::Opened(day)
    }

    // Keeps a trade of the open session.
    fn keep(&mut self, line: usize, trade: TradeLine, price: u32) -> Result<(), AllocError> {
        let session = self.session.unwrap_or(0);
        self.story.trades.push(TradeRow {
            line,
            session,
            trade,
            price,
        })?;
        Ok(())
    }

    fn traded(&mut self, line: usize, call: Call<'_>, price: u32) -> Result<Answer, AllocError> {
        if let Call::Trade(trade) = call {
            self.keep(line, trade, price)?;
        }
        Ok(Answer::Traded(price))
    }

    // The price of a trade that was taken, by its rate and the reserve days of its month.
    fn price(&self, trade: TradeLine) -> u32 {
        self.story
            .index(trade.month)
            .and_then(|index| self.story.months.get(index))
            .and_then(|month| trade_price(trade.rate, month.days).ok())
            .unwrap_or(0)
    }

    // An import tells how many lines it took, and not their prices.
    fn imported(
        &mut self,
        line: usize,
        call: Call<'_>,
        outcome: ImportOutcome,
    ) -> Result<Answer, AllocError> {
        if let Call::Import(sheet) = call
            && let Ok(view) = read(sheet)
        {
            for trade in view.trades().take(outcome.taken) {
                self.keep(line, trade, self.price(trade))?;
            }
        }
        Ok(Answer::Imported(outcome))
    }

    fn marked(&mut self, call: Call<'_>) -> Answer {
        if let Call::Mark(number, price) = call {
            for month in self.story.months.iter_mut() {
                if month.number == number {
                    month.mark = Some(price);
                }
            }
        }
        Answer::Marked
    }

    // A closed session keeps its trades and the prices of its months; what is due is heard after it.
    fn closed(&mut self, closing: Closing) -> Result<Answer, AllocError> {
        let day = self.session.take().unwrap_or(0);
        let place = self.story.closed.len();
        let prices = self
            .story
            .months
            .iter()
            .map(|month| month.price(day))
            .collect(self.heap)?;
        let trades = mem::replace(&mut self.story.trades, Vec::new(self.heap));
        self.slip = day;
        self.story.closed.push(ClosedSession {
            day,
            trades,
            prices,
            closing,
            dues: Vec::new(self.heap),
        })?;
        Ok(Answer::Closed { day, place })
    }

    fn paid(&mut self) -> Answer {
        self.story.paid = self.story.paid.saturating_add(1);
        Answer::Paid(self.slip)
    }

    // The month or the day that a refusal names.
    fn detail(&self, refusal: Refusal) -> Detail {
        match refusal {
            Refusal::Unmarked(index) => match self.story.months.get(index as usize) {
                Some(month) => Detail::Month(month.number),
                None => Detail::Nothing,
            },
            Refusal::MissingRate(day) => Detail::Day(day),
            _ => Detail::Nothing,
        }
    }
}
