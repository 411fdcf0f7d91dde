// The book: a calendar, a source of rates and the tables, with its calls.
ghost use Rattle.std.specs.Prelude.{◌≡◌, ℕ, ⊤, length, [], Some};
ghost use Rattle.calendar.specs.Spans.{reserve_days};
ghost use Rattle.refusal.specs.Refusals.{reason_of};
ghost use Rattle.model.specs.Answers.{next_account, next_month, next_ticket, price_now};
ghost use Rattle.model.specs.Closes.{cells_of};
ghost use Rattle.model.specs.History.{History, Entered, Listed, Published, Arbitrated, Opened, Traded, Marked};
ghost use Rattle.model.specs.World.{World};
ghost use Rattle.model.specs.Observed.{trade_at};
ghost use Rattle.model.specs.Positions.{position_of, paid_of, due_of};
ghost use Rattle.model.specs.Rows.{enter_rows, list_rows, publish_rows, arbitrate_rows, open_rows, trade_rows, mark_rows, position_rows, balance_rows};
ghost use Rattle.book.specs.Calls.{Called, Asked};
ghost use Rattle.book.specs.Keeps.{world_of};

use crate::ledger::Ledger;
use crate::references::{CloseRefused, PayRefused, Slip, Ticket};
use calendar::kind::Calendar;
use calendar::span::{count_reserve_days, expiry, next_session};
use model::{Account, Balance, Order};
use rates::entry::DayRate;
use rates::source::{Arbitrating, Publishing, RateSource};
use refusal::Refusal;

/// A position book: one calendar and one source of rates, of any make, and the tables.
#[derive(Drop)]
pub struct Book<C, S> {
    pub(crate) calendar: C,
    pub(crate) source: S,
    pub(crate) ledger: Ledger,
}

/// What is meant by keeping a world and a history. No code is behind it.
pub trait Kept {
    ghost use Rattle.model.specs.World.{World};
    ghost use Rattle.model.specs.History.{History};

    ghost keeps: { World → History → Self → Type 0 };
}

impl<C: Calendar, S: RateSource> Kept for Book<C, S> {
    ghost use Rattle.book.specs.Keeps.{Keeps};

    ghost keeps = { Keeps C.kinds S.meaning };
}

impl<C: Calendar, S: RateSource> Book<C, S> {
    /// A book of a number, which looks for its first session from the start day on.
    pub fn new(calendar: C, source: S, number: u32, start: u32) -> Book<C, S>
        ensures { ⟦<Self as Kept>⟧.keeps (world_of number start (C.kinds calendar) (S.meaning source)) [] result }
    {
        Book {
            calendar,
            source,
            ledger: Ledger::new(number, start),
        }
    }

    /// The calendar on which the book stands.
    pub fn calendar(&self) -> &C
        ensures { result.now ≡ self.now.calendar }
    {
        &self.calendar
    }

    /// The source of rates on which it stands.
    pub fn source(&self) -> &S
        ensures { result.now ≡ self.now.source }
    {
        &self.source
    }

    /// How many amounts a close writes to each of its arrays: one for each account and month.
    pub fn cells(&self) -> usize
        ensures { (w : World) (h : History) → ⟦<Self as Kept>⟧.keeps w h self.now → result ≡ cells_of h }
    {
        self.ledger.cells()
    }

    /// Adds an account, and answers its index.
    pub fn enter(&mut self, account: Account) -> Result<u8, Refusal>
        ensures { Called ⟦<Self as Kept>⟧.keeps reason_of (λ _ h. enter_rows h account) (λ _ h index. index ≡ next_account h) (λ _ _ _. Entered account) self.old self.new result }
    {
        let index = self.ledger.check_enter(account)?;
        self.ledger.enter(account);
        Ok(index)
    }

    // The reserve days from the open session to an expiry, 0 where no session is open.
    fn days_to(&self, expiry: u32) -> u32
        ensures { (day : ℕ) → self.now.ledger.session.opens ≡ Some day → result ≡ length (reserve_days (C.kinds self.now.calendar) day expiry) }
    {
        match self.ledger.open_day() {
            Some(day) => count_reserve_days(&self.calendar, day, expiry),
            None => 0,
        }
    }

    /// Adds a month, by its number, and answers its index.
    pub fn list(&mut self, month: u32) -> Result<u8, Refusal>
        ensures { Called ⟦<Self as Kept>⟧.keeps reason_of (λ w h. list_rows w h month) (λ _ h index. index ≡ next_month h) (λ _ _ _. Listed month) self.old self.new result }
    {
        let expiry = expiry(&self.calendar, month);
        let (index, expiry) = self.ledger.check_list(month, expiry)?;
        let days = self.days_to(expiry);
        self.ledger.list(month, expiry, days);
        Ok(index)
    }

    /// Opens the next session, and answers its ticket.
    pub fn open(&mut self) -> Result<Ticket, Refusal>
        ensures { Called ⟦<Self as Kept>⟧.keeps reason_of open_rows (λ w h ticket. next_ticket w h ≡ Some ticket) (λ _ _ ticket. Opened ticket.day) self.old self.new result }
    {
        let next = next_session(&self.calendar, self.ledger.next_from());
        let day = self.ledger.check_open(next)?;
        Ok(self.ledger.open(&self.calendar, day))
    }

    /// Makes a trade in the open session, and answers its price, in centavos.
    pub fn trade(&mut self, ticket: &Ticket, order: Order) -> Result<u32, Refusal>
        ensures { Called ⟦<Self as Kept>⟧.keeps reason_of (λ w h. trade_rows w h ticket.now order) (λ w h price. price ≡ price_now w h order) (λ _ _ price. Traded (trade_at order price)) self.old self.new result }
    {
        self.ledger.check_trade(ticket, order)?;
        let price = self.ledger.price(order);
        self.ledger.trade(order, price);
        Ok(price)
    }

    /// Sets the settlement price of a month in the open session, in centavos.
    pub fn mark(&mut self, ticket: &Ticket, month: u8, price: u32) -> Result<(), Refusal>
        ensures { Called ⟦<Self as Kept>⟧.keeps reason_of (λ w h. mark_rows w h ticket.now month price) (λ _ _ _. ⊤) (λ _ _ _. Marked month price) self.old self.new result }
    {
        self.ledger.check_mark(ticket, month, price)?;
        self.ledger.mark(month, price);
        Ok(())
    }

    /// The position of an account in a month: contracts bought less sold, in price.
    pub fn position(&self, account: u8, month: u8) -> Result<i32, Refusal>
        ensures { Asked ⟦<Self as Kept>⟧.keeps (λ _ h. position_rows h account month) (λ w h x. x ≡ position_of w h account month) self.now result }
    {
        self.ledger.position(account, month)
    }

    /// What an account was paid and is due.
    pub fn balance(&self, account: u8) -> Result<Balance, Refusal>
        ensures { Asked ⟦<Self as Kept>⟧.keeps (λ _ h. balance_rows h account) (λ _ h x. (x.paid ≡ paid_of h account) × (x.due ≡ due_of h account)) self.now result }
    {
        self.ledger.balance(account)
    }
}

impl<C: Calendar, S: Publishing> Book<C, S> {
    /// Publishes the DI rate of a day, for a period in reserve days, in the source.
    pub fn publish(&mut self, entry: DayRate, period: u32) -> Result<(), Refusal>
        ensures { Called ⟦<Self as Kept>⟧.keeps reason_of (λ w h. publish_rows w h entry period) (λ _ _ _. ⊤) (λ _ _ _. Published entry) self.old self.new result }
    {
        self.source.publish(entry, period)?;
        Ok(())
    }
}

impl<C: Calendar, S: Arbitrating> Book<C, S> {
    /// Arbitrates the DI rate of a day in the topmost layer of the source.
    pub fn arbitrate(&mut self, entry: DayRate) -> Result<(), Refusal>
        ensures { Called ⟦<Self as Kept>⟧.keeps reason_of (λ w h. arbitrate_rows w h entry) (λ _ _ _. ⊤) (λ _ _ _. Arbitrated entry) self.old self.new result }
    {
        self.source.arbitrate(entry)?;
        Ok(())
    }
}
