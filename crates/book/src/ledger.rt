// The tables of a book: plain, of fixed room, and of no calendar and no source.

pub(crate) mod accounts;
pub(crate) mod closes;
pub(crate) mod months;
pub(crate) mod trades;

use amounts::{CELLS, MAX_ACCOUNTS, MAX_MONTHS, SessionTrades};
use arrayvec::ArrayVec;
use model::Account;
use std::marker::Model;

/// An account, with what was paid to it and what is due, in centavos.
#[derive(Clone, Copy, Default)]
pub struct AccountRow {
    pub account: Account,
    pub paid: i64,
    pub due: i64,
}

/// A month, with its expiry; in the open session the reserve days from it to the expiry, and the mark;
/// and the settlement price, in centavos, in the latest closed session.
#[derive(Clone, Copy, Default)]
pub struct MonthRow {
    pub number: u32,
    pub expiry: u32,
    pub days: u32,
    pub mark: Option<u32>,
    pub latest: u32,
}

/// Accounts, months and positions; the trades of the latest session; and which sessions were opened,
/// closed and paid.
#[derive(Drop)]
pub struct Ledger {
    number: u32,
    start: u32,
    accounts: ArrayVec<AccountRow, MAX_ACCOUNTS>,
    months: ArrayVec<MonthRow, MAX_MONTHS>,
    positions: [i32; CELLS],
    trades: SessionTrades,
    latest: Option<u32>,
    open: Option<u32>,
    closed: Option<u32>,
    unpaid: Option<u32>,
}

impl Model for Ledger {
    ghost use Rattle.book.specs.Tables.{Tables};

    ghost Value = { Tables };

    ghost use Rattle.book.specs.Inside.{tables_in, HasRoom};

    ghost view = { tables_in };

    ghost invariant = { HasRoom };
}

impl Ledger {
    ghost use Rattle.std.specs.Prelude.{◌≡◌, ◌*◌, length};
    ghost use Rattle.book.specs.Tables.{no_tables};

    /// Empty tables.
    pub(crate) fn new(number: u32, start: u32) -> Ledger
        ensures { result ≡ no_tables number start }
    {
        Ledger {
            number,
            start,
            accounts: ArrayVec::new(),
            months: ArrayVec::new(),
            positions: [0; CELLS],
            trades: SessionTrades::new(),
            latest: None,
            open: None,
            closed: None,
            unpaid: None,
        }
    }

    /// How many cells of accounts and months there are.
    pub(crate) fn cells(&self) -> usize
        ensures { result ≡ length self.now.accounts * length self.now.months }
    {
        self.accounts.len() * self.months.len()
    }
}
