// What the topmost source of a book takes: publications, arbitrations, both or neither.
ghost use Rattle.std.specs.Prelude.{◌≡◌, Bool, true, false};
ghost use Rattle.model.specs.History.{Published, Arbitrated};
ghost use Rattle.model.specs.Rows.{publish_rows, arbitrate_rows};
ghost use Rattle.desk.specs.Topmost.{IfTaken};

use book::{Book, Kept};
use calendar::kind::Calendar;
use rates::entry::DayRate;
use rates::flat::FlatSource;
use rates::layer::ArbitrationLayer;
use rates::source::{Publishing, RateSource};
use rates::table::TableSource;
use refusal::Refusal;

/// A source as the topmost one under a book on calendars of this make.
pub trait Topmost<C: Calendar>: RateSource {
    /// Whether it publishes, and whether it arbitrates.
    ghost publishes: { Bool };

    ghost arbitrates: { Bool };

    /// Publishes through the book, where the source has that call.
    fn publish(book: &mut Book<C, Self>, entry: DayRate, period: u32) -> Option<Result<(), Refusal>>
        ensures { IfTaken publishes ⟦<Book<C, Self> as Kept>⟧.keeps (λ w h. publish_rows w h entry period) (Published entry) book.old book.new result };

    /// Arbitrates through the book, where the source has that call.
    fn arbitrate(book: &mut Book<C, Self>, entry: DayRate) -> Option<Result<(), Refusal>>
        ensures { IfTaken arbitrates ⟦<Book<C, Self> as Kept>⟧.keeps (λ w h. arbitrate_rows w h entry) (Arbitrated entry) book.old book.new result };
}

impl<C: Calendar> Topmost<C> for TableSource {
    ghost publishes = { true };

    ghost arbitrates = { false };

    fn publish(
        book: &mut Book<C, Self>,
        entry: DayRate,
        period: u32,
    ) -> Option<Result<(), Refusal>> {
        Some(book.publish(entry, period))
    }

    fn arbitrate(_book: &mut Book<C, Self>, _entry: DayRate) -> Option<Result<(), Refusal>> {
        None
    }
}

impl<C: Calendar, S: Publishing> Topmost<C> for ArbitrationLayer<S> {
    ghost publishes = { true };

    ghost arbitrates = { true };

    fn publish(
        book: &mut Book<C, Self>,
        entry: DayRate,
        period: u32,
    ) -> Option<Result<(), Refusal>> {
        Some(book.publish(entry, period))
    }

    fn arbitrate(book: &mut Book<C, Self>, entry: DayRate) -> Option<Result<(), Refusal>> {
        Some(book.arbitrate(entry))
    }
}

impl<C: Calendar> Topmost<C> for FlatSource {
    ghost publishes = { false };

    ghost arbitrates = { false };

    fn publish(
        _book: &mut Book<C, Self>,
        _entry: DayRate,
        _period: u32,
    ) -> Option<Result<(), Refusal>> {
        None
    }

    fn arbitrate(_book: &mut Book<C, Self>, _entry: DayRate) -> Option<Result<(), Refusal>> {
        None
    }
}
