// Closes of a session in a book of 16 months.
ghost use Rattle.std.specs.Prelude.{◌<◌, ◌≤◌};

use crate::numbers::Numbers;
use amounts::{CELLS, MAX_MONTHS, MAX_TRADES, MonthPrices, SessionTrades, Trade};

// A trade between some of the accounts, at a price near the full one.
fn trade(numbers: &mut Numbers, accounts: u32) -> Trade
    requires { (0 < accounts) × (accounts ≤ 32) }
{
    let buyer = numbers.below(accounts) as u8;
    let seller = numbers.below(accounts) as u8;
    let month = numbers.below(16) as u8;
    let contracts = 1 + numbers.below(20_000);
    let price = 9_000_000 + numbers.below(1_000_000);
    Trade {
        buyer,
        seller,
        month,
        rate: 10_000,
        contracts,
        price,
    }
}

// The trades of every session, and the positions at its close.
fn book(accounts: u32) -> ([Trade; MAX_TRADES], [i32; CELLS])
    requires { (0 < accounts) × (accounts ≤ 32) }
{
    let mut numbers = Numbers::new();
    let mut trades = [trade(&mut Numbers::new(), accounts); MAX_TRADES];
    for dealt in &mut trades {
        *dealt = trade(&mut numbers, accounts);
    }
    let mut positions = [0; CELLS];
    for position in &mut positions {
        *position = numbers.below(1_000_001) as i32 - 500_000;
    }
    (trades, positions)
}

// The prices of the months in a session.
fn prices(round: u32) -> [MonthPrices; MAX_MONTHS] {
    [MonthPrices {
        settlement: 9_900_000 + round % 1_000,
        corrected: 9_890_000,
    }; MAX_MONTHS]
}

// What the arrays of a close come to.
pub(crate) fn array_sum(adjustments: &[i64], day_trades: &[i64]) -> i64 {
    let mut sum = 0i64;
    for (adjustment, day_trade) in adjustments.iter().zip(day_trades) {
        sum = sum.wrapping_add(*adjustment ^ *day_trade);
    }
    sum
}

// The sum of the amounts of so many closes, of so many accounts and trades.
pub(crate) fn closes(count: u32, accounts: u32, trades: u32) -> i64
    requires accounts { (0 < accounts) × (accounts ≤ 32) }
    requires trades { trades ≤ 256 }
{
    let (dealt, positions) = book(accounts);
    let cells = 16 * accounts as usize;
    let mut session = SessionTrades::new();
    let mut adjustments = [0; CELLS];
    let mut day_trades = [0; CELLS];
    let mut sum = 0i64;
    for round in 0..count {
        session.clear();
        for trade in &dealt[..trades as usize] {
            session.accept(*trade);
        }
        session.write_amounts(
            accounts as usize,
            &prices(round),
            &positions,
            &mut adjustments[..cells],
            &mut day_trades[..cells],
        );
        sum = sum.wrapping_add(array_sum(&adjustments[..cells], &day_trades[..cells]));
    }
    sum
}
