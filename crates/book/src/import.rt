// Sheets imported into a book: trades whose month is given by its number, line after line.
ghost use Rattle.std.specs.Prelude.{◌≡◌, Some};
ghost use Rattle.std.specs.Option.{option_map};
ghost use Rattle.refusal.specs.Refusals.{reason_of};
ghost use Rattle.sheet.specs.Views.{view_trades};
ghost use Rattle.model.specs.Answers.{price_now};
ghost use Rattle.model.specs.History.{History, Traded};
ghost use Rattle.model.specs.Imports.{book_stop, import_lines, line_order, line_rows, line_trade};
ghost use Rattle.model.specs.World.{World};
ghost use Rattle.book.specs.Calls.{Called};
ghost use Rattle.book.specs.Imported.{index_of, stop_of, Came, Imported};

#[cfg(test)]
mod tests;

use crate::position_book::{Book, Kept};
use crate::references::Ticket;
use calendar::kind::Calendar;
use model::{Layer, Order};
use rates::source::RateSource;
use refusal::Refusal;
use sheet::{SheetView, TradeLine, read_for};

/// Where an import stopped: the line, counted from 0, why, and who refused.
#[derive(Clone, Copy, PartialEq, Eq, Debug)]
pub struct ImportStop {
    pub line: usize,
    pub refusal: Refusal,
    pub layer: Layer,
}

/// How many lines of a sheet were taken, and where the import stopped, if it did before the end.
#[derive(Clone, Copy, PartialEq, Eq, Debug)]
pub struct ImportOutcome {
    pub taken: usize,
    pub stop: Option<ImportStop>,
}

impl ImportOutcome {
    // The book refuses the line after those that were taken.
    fn refused(taken: usize, refusal: Refusal) -> ImportOutcome
        ensures { (result.taken ≡ taken) × (option_map stop_of result.stop ≡ Some (book_stop taken (reason_of refusal))) }
    {
        ImportOutcome {
            taken,
            stop: Some(ImportStop {
                line: taken,
                refusal,
                layer: Layer::Book,
            }),
        }
    }
}

impl<C: Calendar, S: RateSource> Book<C, S> {
    /// The index of a month by its number, if it is listed.
    pub fn month_index(&self, month: u32) -> Option<u8>
        ensures { (w : World) (h : History) → ⟦<Self as Kept>⟧.keeps w h self.now → result ≡ index_of h month }
    {
        let place = self.ledger.place(month);
        self.ledger.has_index(place).then_some(place)
    }

    /// Makes a trade in the open session, whose month is given by its number, and answers its price,
    /// in centavos.
    pub fn trade_line(&mut self, ticket: &Ticket, line: TradeLine) -> Result<u32, Refusal>
        ensures { Called ⟦<Self as Kept>⟧.keeps reason_of (λ w h. line_rows w h ticket.now line) (λ w h price. price ≡ price_now w h (line_order h line)) (λ w h _. Traded (line_trade w h line)) self.old self.new result }
    {
        let order = Order {
            buyer: line.buyer,
            seller: line.seller,
            month: self.ledger.place(line.month),
            rate: line.rate,
            quantity: line.quantity,
        };
        self.trade(ticket, order)
    }

    // Trades the lines of a sheet in order, until one is refused.
    fn trade_lines(&mut self, ticket: &Ticket, view: &SheetView<'_>) -> ImportOutcome
        ensures unchanged { result.taken ≡ 0 → self.new ≡ self.old }
        ensures came { (w : World) (h : History) → ⟦<Self as Kept>⟧.keeps w h self.old → Came ⟦<Self as Kept>⟧.keeps w (import_lines w h ticket.now 0 (view_trades view.now)) self.new result }
    {
        let mut taken = 0;
        for line in view.trades() {
            if let Err(refusal) = self.trade_line(ticket, line) {
                return ImportOutcome::refused(taken, refusal);
            }
            taken += 1;
        }
        ImportOutcome { taken, stop: None }
    }

    /// Reads a sheet for the ticket's day, and trades its lines in order, until one is refused: the
    /// trades before it stand. A bad sheet changes nothing.
    pub fn import(&mut self, ticket: &Ticket, sheet: &[u8]) -> ImportOutcome
        ensures { Imported ⟦<Self as Kept>⟧.keeps ticket.now sheet.now self.old self.new result }
    {
        match read_for(sheet, ticket.day()) {
            Err(fault) => ImportOutcome {
                taken: 0,
                stop: Some(ImportStop {
                    line: fault.line() as usize,
                    refusal: Refusal::from(fault),
                    layer: Layer::Sheet,
                }),
            },
            Ok(view) => self.trade_lines(ticket, &view),
        }
    }
}
