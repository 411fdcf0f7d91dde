// What a sheet says: its day, how many trades, and each trade.
// Kept: these methods stand apart from their type, since its file may not import definitions that name it.
ghost use Rattle.std.specs.Prelude.{◌≡◌, ◌+◌, ◌*◌, ◌^◌, ◌<◌, ◌≤◌, length, take, None, MatchOption};
ghost use Rattle.std.specs.List.{slice_get};
ghost use Rattle.sheet.specs.Codes.{NoCode};
ghost use Rattle.sheet.specs.Sheet.{terms_at, trade_from};
ghost use Rattle.sheet.specs.Views.{view_day, view_count, view_trades, Sound};
ghost use Rattle.sheet.specs.Lines.{trades_left};

use super::{SheetView, Trades, array_of};
use crate::code::ContractCode;
use crate::trade_line::TradeLine;
use amounts::MAX_TRADES;

impl<'a> SheetView<'a> {
    /// The session day.
    pub fn day(&self) -> u32
        ensures { (result ≡ view_day self.now) × (result < 2 ^ 16) }
    {
        self.frame.day as u32
    }

    /// How many trades there are.
    pub fn count(&self) -> usize
        ensures value { (result ≡ view_count self.now) × (result < 2 ^ 16) }
        ensures sound { Sound self.now }
    {
        self.frame.count as usize
    }

    /// The trade of a line, counted from 0.
    pub fn trade(&self, line: usize) -> Option<TradeLine>
        ensures past { view_count self.now ≤ line → result ≡ None }
        ensures value { result ≡ slice_get (view_trades self.now) line }
    {
        if line >= self.count() {
            return None;
        }
        trade_from(self.frame.sides(line), self.frame.terms(line))
    }

    /// The trades, in the order of their lines.
    pub fn trades(&self) -> Trades<'a>
        ensures items { trades_left result ≡ view_trades self.now }
        ensures few { length (view_trades self.now) ≤ MAX_TRADES }
    {
        Trades {
            view: *self,
            line: 0,
        }
    }
}

// The trade that its sides and its terms say, if the code is one.
fn trade_from(sides: [u8; 2], terms: [u8; 14]) -> Option<TradeLine>
    ensures { MatchOption result (NoCode (take 6 terms)) (λ t. t ≡ trade_from sides terms) }
{
    let code = ContractCode::from_bytes(&terms[0..6])?;
    let [buyer, seller] = sides;
    Some(TradeLine {
        buyer,
        seller,
        month: code.month(),
        rate: u32::from_le_bytes(array_of(&terms[6..10])),
        quantity: u32::from_le_bytes(array_of(&terms[10..14])),
    })
}
