// The end of a session: its close, and the payment of what the close left due.
ghost use Rattle.std.specs.Prelude.{◌≡◌, ⊤, length, map, IfOk, IfErr, OnOk, OnErr};
ghost use Rattle.amounts.specs.Rows.{HasRoom};
ghost use Rattle.correction.specs.Gaps.{first_unrated};
ghost use Rattle.rates.specs.Meanings.{rates_of};
ghost use Rattle.refusal.specs.Refusals.{reason_of};
ghost use Rattle.rows.specs.Rows.{first_row, reason_by};
ghost use Rattle.model.specs.Answers.{next_slip};
ghost use Rattle.model.specs.Closes.{amounts_at_close, written_to};
ghost use Rattle.model.specs.History.{Closed, Paid};
ghost use Rattle.model.specs.Rows.{close_rows, pay_rows};
ghost use Rattle.book.specs.Calls.{Called};
ghost use Rattle.book.specs.Causes.{day_in};
ghost use Rattle.book.specs.Closes.{close_rows_in, gap_in, prices_over};
ghost use Rattle.book.specs.Returned.{close_reason, pay_reason};

use crate::gap::closing_prices;
use crate::position_book::{Book, Kept};
use crate::references::{CloseRefused, PayRefused, Slip, Ticket};
use amounts::{MAX_MONTHS, MonthPrices};
use arrayvec::ArrayVec;
use calendar::kind::Calendar;
use rates::source::RateSource;
use refusal::Refusal;

impl<C: Calendar, S: RateSource> Book<C, S> {
    // The prices of the months, where the session may be closed into arrays of these lengths.
    fn check_close(
        &self,
        ticket: &Ticket,
        adjustments: usize,
        day_trades: usize,
    ) -> Result<ArrayVec<MonthPrices, MAX_MONTHS>, Refusal>
        ensures answers { reason_by reason_of result ≡ first_row (close_rows_in self.now.ledger ticket.now (first_unrated (rates_of (S.meaning self.now.source)) (gap_in (C.kinds self.now.calendar) self.now.ledger)) adjustments day_trades) }
        ensures value { IfOk result (λ prices. prices.items ≡ map (prices_over (rates_of (S.meaning self.now.source)) (day_in self.now.ledger) (gap_in (C.kinds self.now.calendar) self.now.ledger)) self.now.ledger.months) }
        ensures room { OnOk result (HasRoom (length self.now.ledger.accounts) (length self.now.ledger.months) adjustments × HasRoom (length self.now.ledger.accounts) (length self.now.ledger.months) day_trades) }
    {
        self.ledger.check_close(ticket)?;
        let prices = closing_prices(&self.calendar, &self.source, &self.ledger)?;
        self.ledger.check_room(adjustments, day_trades)?;
        Ok(prices)
    }

    /// Closes the session of the ticket, and answers its slip. Both arrays hold one amount in
    /// centavos for each account and month: the row of account a starts at a × k, k being how many
    /// months are listed. The ticket is used up, and comes back where the close is refused.
    pub fn close(
        &mut self,
        ticket: Ticket,
        adjustments: &mut [i64],
        day_trades: &mut [i64],
    ) -> Result<Slip, CloseRefused>
        ensures closes { Called ⟦<Self as Kept>⟧.keeps close_reason (λ w h. close_rows w h ticket (length adjustments.old) (length day_trades.old)) (λ w h slip. (slip ≡ next_slip w h) × (adjustments.new ≡ written_to h (amounts_at_close w h).adjustments adjustments.old) × (day_trades.new ≡ written_to h (amounts_at_close w h).day_trades day_trades.old)) (λ w h _. Closed (amounts_at_close w h)) self.old self.new result }
        ensures returned { IfErr result (λ e. e.ticket ≡ ticket) }
        ensures unwritten { OnErr result ((adjustments.new ≡ adjustments.old) × (day_trades.new ≡ day_trades.old)) }
    {
        match self.check_close(&ticket, adjustments.len(), day_trades.len()) {
            Err(refusal) => Err(CloseRefused { refusal, ticket }),
            Ok(prices) => Ok(self.ledger.close(&prices, adjustments, day_trades)),
        }
    }

    /// Pays all that is due, by the slip of the unpaid session, while a later session is open. The
    /// slip comes back where the payment is refused.
    pub fn pay(&mut self, slip: Slip) -> Result<(), PayRefused>
        ensures pays { Called ⟦<Self as Kept>⟧.keeps pay_reason (λ w h. pay_rows w h slip) (λ _ _ _. ⊤) (λ _ _ _. Paid) self.old self.new result }
        ensures returned { IfErr result (λ e. e.slip ≡ slip) }
    {
        if let Err(refusal) = self.ledger.check_pay(&slip) {
            return Err(PayRefused { refusal, slip });
        }
        self.ledger.pay();
        let _ = slip.write_off();
        Ok(())
    }
}
