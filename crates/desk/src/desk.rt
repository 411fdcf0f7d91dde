// The desk.
ghost use Rattle.std.specs.Prelude.{◌≡◌, [], length, IfOk, OnErr, Some};
ghost use Rattle.model.specs.Closes.{cells_of};
ghost use Rattle.model.specs.History.{History};
ghost use Rattle.model.specs.World.{World};
ghost use Rattle.book.specs.Keeps.{world_of};
ghost use Rattle.desk.specs.Acts.{Acted};
ghost use Rattle.desk.specs.Runs.{index_of, takes};
ghost use Rattle.desk.specs.Standing.{Stands, at_start};

use crate::calls::{Call, Closing, NO_MONTH, Reply};
use crate::topmost::Topmost;
use book::{Book, CloseRefused, Kept, PayRefused, Slip, Ticket};
use calendar::kind::Calendar;
use model::Account;
use rates::entry::DayRate;
use rates::source::RateSource;
use sheet::TradeLine;
use std::alloc::{AllocError, Global};

/// A book, the ticket of its open session, and the slip of its latest closed one.
pub struct Desk<C, S> {
    pub(crate) book: Book<C, S>,
    pub(crate) ticket: Option<Ticket>,
    pub(crate) slip: Option<Slip>,
}

impl<C: Calendar, S: RateSource> Desk<C, S> {
    /// A desk with a book that it makes.
    pub fn new(calendar: C, source: S, number: u32, start: u32) -> Desk<C, S>
        ensures { Stands ⟦<Book<C, S> as Kept>⟧.keeps (world_of number start (C.kinds calendar) (S.meaning source)) at_start result }
    {
        Desk {
            book: Book::new(calendar, source, number, start),
            ticket: None,
            slip: None,
        }
    }

    // Takes a slip in place of one that it held, which is written off.
    fn hold(&mut self, slip: Slip)
        ensures { self.new ≡ record self.old { slip = Some slip } }
    {
        if let Some(held) = self.slip.replace(slip) {
            let _ = held.write_off();
        }
    }

    /// The book of a desk that is given up; a slip that it held is written off.
    pub fn end(self) -> Book<C, S>
        ensures { result ≡ self.book }
    {
        let Desk {
            book,
            ticket: _,
            slip,
        } = self;
        if let Some(held) = slip {
            let _ = held.write_off();
        }
        book
    }
}

impl<C: Calendar, S: Topmost<C>> Desk<C, S> {
    fn enter(&mut self, account: Account) -> Reply
        ensures { (w : World) (h : History) → ⟦<Book<C, S> as Kept>⟧.keeps w h self.old.book → Acted (takes S.publishes S.arbitrates) ⟦<Book<C, S> as Kept>⟧.keeps w h (Call.Enter account) result self.old self.new }
    {
        match self.book.enter(account) {
            Ok(index) => Reply::Entered(index),
            Err(refusal) => Reply::Refused(refusal),
        }
    }

    fn list(&mut self, month: u32) -> Reply
        ensures { (w : World) (h : History) → ⟦<Book<C, S> as Kept>⟧.keeps w h self.old.book → Acted (takes S.publishes S.arbitrates) ⟦<Book<C, S> as Kept>⟧.keeps w h (Call.List month) result self.old self.new }
    {
        match self.book.list(month) {
            Ok(index) => Reply::Listed(index),
            Err(refusal) => Reply::Refused(refusal),
        }
    }

    fn publish(&mut self, entry: DayRate, period: u32) -> Reply
        ensures { (w : World) (h : History) → ⟦<Book<C, S> as Kept>⟧.keeps w h self.old.book → Acted (takes S.publishes S.arbitrates) ⟦<Book<C, S> as Kept>⟧.keeps w h (Call.Publish entry period) result self.old self.new }
    {
        match S::publish(&mut self.book, entry, period) {
            None => Reply::NoSuchCall,
            Some(Ok(())) => Reply::Published,
            Some(Err(refusal)) => Reply::Refused(refusal),
        }
    }

    fn arbitrate(&mut self, entry: DayRate) -> Reply
        ensures { (w : World) (h : History) → ⟦<Book<C, S> as Kept>⟧.keeps w h self.old.book → Acted (takes S.publishes S.arbitrates) ⟦<Book<C, S> as Kept>⟧.keeps w h (Call.Arbitrate entry) result self.old self.new }
    {
        match S::arbitrate(&mut self.book, entry) {
            None => Reply::NoSuchCall,
            Some(Ok(())) => Reply::Arbitrated,
            Some(Err(refusal)) => Reply::Refused(refusal),
        }
    }

    fn open(&mut self) -> Reply
        ensures { (w : World) (h : History) → ⟦<Book<C, S> as Kept>⟧.keeps w h self.old.book → Acted (takes S.publishes S.arbitrates) ⟦<Book<C, S> as Kept>⟧.keeps w h Call.Open result self.old self.new }
    {
        match self.book.open() {
            Ok(ticket) => {
                let day = ticket.day();
                self.ticket = Some(ticket);
                Reply::Opened(day)
            }
            Err(refusal) => Reply::Refused(refusal),
        }
    }

    fn trade(&mut self, line: TradeLine) -> Reply
        ensures { (w : World) (h : History) → ⟦<Book<C, S> as Kept>⟧.keeps w h self.old.book → Acted (takes S.publishes S.arbitrates) ⟦<Book<C, S> as Kept>⟧.keeps w h (Call.Trade line) result self.old self.new }
    {
        match &self.ticket {
            None => Reply::NoTicket,
            Some(held) => match self.book.trade_line(held, line) {
                Ok(price) => Reply::Traded(price),
                Err(refusal) => Reply::Refused(refusal),
            },
        }
    }

    fn import(&mut self, sheet: &[u8]) -> Reply
        ensures { (w : World) (h : History) → ⟦<Book<C, S> as Kept>⟧.keeps w h self.old.book → Acted (takes S.publishes S.arbitrates) ⟦<Book<C, S> as Kept>⟧.keeps w h (Call.Import sheet.entry) result self.old self.new }
    {
        match &self.ticket {
            None => Reply::NoTicket,
            Some(held) => Reply::Imported(self.book.import(held, sheet)),
        }
    }

    // The index of a month, one that no book has where it is not listed.
    fn index(&self, month: u32) -> u8
        ensures { (w : World) (h : History) → ⟦<Book<C, S> as Kept>⟧.keeps w h self.now.book → result ≡ index_of h month }
    {
        self.book.month_index(month).unwrap_or(NO_MONTH)
    }

    fn mark(&mut self, month: u32, price: u32) -> Reply
        ensures { (w : World) (h : History) → ⟦<Book<C, S> as Kept>⟧.keeps w h self.old.book → Acted (takes S.publishes S.arbitrates) ⟦<Book<C, S> as Kept>⟧.keeps w h (Call.Mark month price) result self.old self.new }
    {
        let index = self.index(month);
        match &self.ticket {
            None => Reply::NoTicket,
            Some(held) => match self.book.mark(held, index, price) {
                Ok(()) => Reply::Marked,
                Err(refusal) => Reply::Refused(refusal),
            },
        }
    }

    // Closes into arrays with a place for each amount.
    fn close_into(&mut self, mut adjustments: Vec<i64>, mut day_trades: Vec<i64>) -> Reply
        ensures { (w : World) (h : History) → ⟦<Book<C, S> as Kept>⟧.keeps w h self.old.book → length adjustments.items ≡ cells_of h → length day_trades.items ≡ cells_of h → Acted (takes S.publishes S.arbitrates) ⟦<Book<C, S> as Kept>⟧.keeps w h Call.Close result self.old self.new }
    {
        let Some(held) = self.ticket.take() else {
            return Reply::NoTicket;
        };
        match self.book.close(held, &mut adjustments, &mut day_trades) {
            Ok(slip) => {
                self.hold(slip);
                Reply::Closed(Closing {
                    adjustments,
                    day_trades,
                })
            }
            Err(CloseRefused { refusal, ticket }) => {
                self.ticket = Some(ticket);
                Reply::Refused(refusal)
            }
        }
    }

    // Where memory is short nothing is done.
    fn close(&mut self, heap: Global) -> Result<Reply, AllocError>
        ensures acted { IfOk result (λ reply. (w : World) (h : History) → ⟦<Book<C, S> as Kept>⟧.keeps w h self.old.book → Acted (takes S.publishes S.arbitrates) ⟦<Book<C, S> as Kept>⟧.keeps w h Call.Close reply self.old self.new) }
        ensures short { OnErr result (self.new ≡ self.old) }
    {
        let cells = self.book.cells();
        let adjustments = vec![in heap; 0i64; cells]?;
        let day_trades = vec![in heap; 0i64; cells]?;
        Ok(self.close_into(adjustments, day_trades))
    }

    fn pay(&mut self) -> Reply
        ensures { (w : World) (h : History) → ⟦<Book<C, S> as Kept>⟧.keeps w h self.old.book → Acted (takes S.publishes S.arbitrates) ⟦<Book<C, S> as Kept>⟧.keeps w h Call.Pay result self.old self.new }
    {
        match self.slip.take() {
            None => Reply::NoSlip,
            Some(held) => match self.book.pay(held) {
                Ok(()) => Reply::Paid,
                Err(PayRefused { refusal, slip }) => {
                    self.hold(slip);
                    Reply::Refused(refusal)
                }
            },
        }
    }

    fn write_off(&mut self) -> Reply
        ensures { (w : World) (h : History) → ⟦<Book<C, S> as Kept>⟧.keeps w h self.old.book → Acted (takes S.publishes S.arbitrates) ⟦<Book<C, S> as Kept>⟧.keeps w h Call.WriteOff result self.old self.new }
    {
        match self.slip.take() {
            None => Reply::NoSlip,
            Some(held) => {
                let (number, day) = held.write_off();
                Reply::WrittenOff(number, day)
            }
        }
    }

    fn position(&self, account: u8, month: u32) -> Reply
        ensures { (w : World) (h : History) → ⟦<Book<C, S> as Kept>⟧.keeps w h self.now.book → Acted (takes S.publishes S.arbitrates) ⟦<Book<C, S> as Kept>⟧.keeps w h (Call.Position account month) result self.now self.now }
    {
        match self.book.position(account, self.index(month)) {
            Ok(contracts) => Reply::Position(contracts),
            Err(refusal) => Reply::Refused(refusal),
        }
    }

    fn balance(&self, account: u8) -> Reply
        ensures { (w : World) (h : History) → ⟦<Book<C, S> as Kept>⟧.keeps w h self.now.book → Acted (takes S.publishes S.arbitrates) ⟦<Book<C, S> as Kept>⟧.keeps w h (Call.Balance account) result self.now self.now }
    {
        match self.book.balance(account) {
            Ok(balance) => Reply::Balance(balance),
            Err(refusal) => Reply::Refused(refusal),
        }
    }

    /// Makes a call, and answers it; where memory is short nothing is done.
    pub fn act(&mut self, heap: Global, call: Call<'_>) -> Result<Reply, AllocError>
        ensures acted { IfOk result (λ reply. (w : World) (h : History) → ⟦<Book<C, S> as Kept>⟧.keeps w h self.old.book → Acted (takes S.publishes S.arbitrates) ⟦<Book<C, S> as Kept>⟧.keeps w h call.entry reply self.old self.new) }
        ensures short { OnErr result (self.new ≡ self.old) }
    {
        match call {
            Call::Enter(account) => Ok(self.enter(account)),
            Call::List(month) => Ok(self.list(month)),
            Call::Publish(entry, period) => Ok(self.publish(entry, period)),
            Call::Arbitrate(entry) => Ok(self.arbitrate(entry)),
            Call::Open => Ok(self.open()),
            Call::Trade(line) => Ok(self.trade(line)),
            Call::Import(sheet) => Ok(self.import(sheet)),
            Call::Mark(month, price) => Ok(self.mark(month, price)),
            Call::Close => self.close(heap),
            Call::Pay => Ok(self.pay()),
            Call::WriteOff => Ok(self.write_off()),
            Call::Position(account, month) => Ok(self.position(account, month)),
            Call::Balance(account) => Ok(self.balance(account)),
        }
    }
}
