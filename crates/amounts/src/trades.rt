// The trades of a session, and the limits of what a book holds.
ghost use Rattle.std.specs.Prelude.{◌≡◌, IsTrue, ◌↔◌};
ghost use Rattle.amounts.specs.Trades.{party_of, FitsTables};

/// The most trades of a session.
pub const MAX_TRADES: usize = 256;

/// The most contracts of a trade.
pub const MAX_CONTRACTS: u32 = 20_000;

/// The most contracts of a position, bought or sold.
pub const MAX_POSITION: u32 = 500_000;

// The most contracts of a position at a close: those that the session began with, and its trades'.
pub(crate) const MAX_POSITION_AT_CLOSE: u32 = MAX_POSITION + MAX_TRADES as u32 * MAX_CONTRACTS;

/// The most accounts of a book.
pub const MAX_ACCOUNTS: usize = 32;

/// The most months of a book.
pub const MAX_MONTHS: usize = 16;

/// A trade of a session, with sides in rate: accounts and month by index, the dealt rate in
/// thousandths of a percent, the trade price in centavos.
#[derive(Clone, Copy, PartialEq, Eq, Debug)]
pub struct Trade {
    pub buyer: u8,
    pub seller: u8,
    pub month: u8,
    pub rate: u32,
    pub contracts: u32,
    pub price: u32,
}

/// A side in price.
#[derive(Clone, Copy)]
pub enum Side {
    Bought,
    Sold,
}

impl Trade {
    // Who is on a side in price: who sells in rate buys in price.
    pub(crate) fn party(self, side: Side) -> u8
        ensures { result ≡ party_of side self }
    {
        match side {
            Side::Bought => self.seller,
            Side::Sold => self.buyer,
        }
    }

    // Whether the tables of a book have a place for it: its accounts, its month, its contracts.
    pub(crate) fn fits_tables(self) -> bool
        ensures { IsTrue result ↔ FitsTables self }
    {
        (self.buyer as usize) < MAX_ACCOUNTS
            && (self.seller as usize) < MAX_ACCOUNTS
            && (self.month as usize) < MAX_MONTHS
            && self.contracts <= MAX_CONTRACTS
    }
}
