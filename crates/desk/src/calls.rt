// The calls to a book at a desk, and their replies.

use book::ImportOutcome;
use model::{Account, Balance};
use rates::entry::DayRate;
use refusal::Refusal;
use sheet::TradeLine;

/// An index of a month that no book has.
pub(crate) const NO_MONTH: u8 = u8::MAX;

/// A call to a book at a desk. A month is named by its number, so that one that is not listed is an
/// index that is not in the book; the ticket and the slip are those that the desk holds.
#[derive(Clone, Copy)]
pub enum Call<'a> {
    Enter(Account),
    List(u32),
    /// The rate of a day, and its period in reserve days.
    Publish(DayRate, u32),
    Arbitrate(DayRate),
    Open,
    Trade(TradeLine),
    /// The bytes of a sheet.
    Import(&'a [u8]),
    /// A month, and its settlement price in centavos.
    Mark(u32, u32),
    Close,
    Pay,
    WriteOff,
    /// An account, and a month.
    Position(u8, u32),
    Balance(u8),
}

/// What a close wrote, in centavos: an amount for each account and month, the row of account a starting
/// at a × k with k months.
#[derive(Drop)]
pub struct Closing {
    pub adjustments: Vec<i64>,
    pub day_trades: Vec<i64>,
}

/// What a call answered.
#[derive(Drop)]
pub enum Reply {
    /// The index of an account.
    Entered(u8),
    /// The index of a month.
    Listed(u8),
    Published,
    Arbitrated,
    /// The day of the session.
    Opened(u32),
    /// The trade price, in centavos.
    Traded(u32),
    Imported(ImportOutcome),
    Marked,
    /// What was written at the close of the session.
    Closed(Closing),
    Paid,
    /// The number of the book and the day of the session of the slip.
    WrittenOff(u32, u32),
    /// Contracts bought less sold, in price.
    Position(i32),
    Balance(Balance),
    Refused(Refusal),
    /// The desk holds no ticket; nothing was done.
    NoTicket,
    /// The desk holds no slip; nothing was done.
    NoSlip,
    /// The topmost source has no such call; nothing was done.
    NoSuchCall,
}
