// A trade sheet written into an array.
ghost use Rattle.std.specs.Prelude.{◌≡◌, ◌+◌, ◌*◌, ◌<◌, ◌≤◌, false, ◌++◌, length, drop, Decides, IfSome, IsTrue, MatchOption, MatchResult, nat_le};
ghost use Rattle.std.specs.List.{flat_map, list_all, AllByRecursion};
ghost use Rattle.std.specs.Result.{result_err};
ghost use Rattle.sheet.specs.Codes.{code_bytes};
ghost use Rattle.sheet.specs.Sheet.{little, sides, terms, sheet_bytes, are_listable, write_fault, FitsLine, Valid};

use crate::code::ContractCode;
use crate::fault::WriteFault;
use crate::trade_line::TradeLine;
use amounts::MAX_TRADES;
use dates::LAST_MONTH;

/// Writes the sheet of these trades, and answers its length. The rest of the array stays.
pub fn write(day: u16, trades: &[TradeLine], out: &mut [u8]) -> Result<usize, WriteFault>
    ensures fault { result_err result ≡ write_fault (length out.old) trades.now }
    ensures written { MatchResult result
        (λ n. (n ≡ 4 + 16 * length trades.now) × Valid day trades.now × (out.new ≡ sheet_bytes day trades.now ++ drop n out.old))
        (λ _. out.new ≡ out.old) }
{
    let count = trades.len();
    if is_short(out.len(), count) {
        return Err(WriteFault::Short);
    }
    let listed = ListedTrades::new(trades).ok_or(WriteFault::BadSheet)?;
    let end = 4 + 16 * count;
    out[0..2].copy_from_slice(&(count as u16).to_le_bytes());
    out[2..4].copy_from_slice(&day.to_le_bytes());
    listed.write_rows(&mut out[4..end]);
    Ok(end)
}

// Whether so much room is short for a sheet of so many trades.
fn is_short(room: usize, count: usize) -> bool
    ensures { Decides result (room < 4 + 16 * count) }
{
    room < 4 || (room - 4) / 16 < count
}

// The trades of a sheet: few enough, and each in a month that has a code.
#[derive(Clone, Copy)]
struct ListedTrades<'a> {
    trades: &'a [TradeLine],
    ghost listable: { IsTrue (are_listable trades.now) },
}

impl<'a> ListedTrades<'a> {
    // The trades, if they make a sheet.
    fn new(trades: &'a [TradeLine]) -> Option<ListedTrades<'a>>
        ensures value { MatchOption result (are_listable trades.now ≡ false) (λ t. t.trades.now ≡ trades.now) }
        ensures fits { IfSome result (λ _. AllByRecursion FitsLine trades.now) }
    {
        if trades.len() > MAX_TRADES || !are_coded(trades) {
            return None;
        }
        Some(ListedTrades { trades })
    }

    // Writes the sides of each trade, and behind them the terms of each.
    // Kept: chunks_exact_mut was tried, and the proof did not close: of what it writes a proof knows the length alone.
    fn write_rows(&self, rows: &mut [u8])
        requires { length rows.old ≡ 16 * length self.now.trades.now }
        ensures { rows.new ≡ flat_map sides self.now.trades.now ++ flat_map terms self.now.trades.now }
    {
        let (side_rows, term_rows) = rows.split_at_mut(2 * self.trades.len());
        for (line, trade) in self.trades.iter().enumerate() {
            let (side, term) = (2 * line, 14 * line);
            side_rows[side..side + 2].copy_from_slice(&[trade.buyer, trade.seller]);
            let code = ContractCode::new(trade.month).unwrap();
            write_terms(
                code,
                trade.rate,
                trade.quantity,
                &mut term_rows[term..term + 14],
            );
        }
    }
}

// Whether the month of each trade has a code.
fn are_coded(trades: &[TradeLine]) -> bool
    ensures coded { result ≡ list_all (λ t. nat_le t.month LAST_MONTH) trades.now }
    ensures fits { IsTrue result → AllByRecursion FitsLine trades.now }
{
    trades.iter().all(|trade| is_coded(*trade))
}

// Whether the month of a trade has a code. Its other fields fit their bytes by their types.
fn is_coded(trade: TradeLine) -> bool
    ensures coded { result ≡ nat_le trade.month LAST_MONTH }
    ensures fits { FitsLine trade }
{
    ContractCode::new(trade.month).is_some()
}

// Writes the terms of a trade.
fn write_terms(code: ContractCode, rate: u32, quantity: u32, out: &mut [u8])
    requires { length out.old ≡ 14 }
    ensures { out.new ≡ code_bytes code.month ++ (little 4 rate ++ little 4 quantity) }
{
    out[0..6].copy_from_slice(&code.bytes());
    out[6..10].copy_from_slice(&rate.to_le_bytes());
    out[10..14].copy_from_slice(&quantity.to_le_bytes());
}
