// Lines and contracts of the trades of a sheet, added up over a choice of them.
ghost use Rattle.std.specs.Prelude.{◌≡◌, ℕ, Bool, true, ◌==◌};
ghost use Rattle.sheet.specs.declared.trade_line.TradeLine.{TradeLine};
ghost use Rattle.sheet.specs.Views.{view_trades};
ghost use Rattle.pricing.specs.Pricing.{is_priced};
ghost use Rattle.pricing.specs.Tallies.{Tallied};

use crate::trades::price_trade;
use calendar::kind::Calendar;
use sheet::{SheetView, TradeLine};

/// A choice of trades.
// Kept: of a closure's choice the totals could say only what its `post` says, and callers would owe its `pre`.
pub trait Pick {
    ghost picked: { Self → TradeLine → Bool };

    fn picks(&self, trade: TradeLine) -> bool
        ensures { result ≡ picked self.now trade };
}

/// Every trade.
#[derive(Clone, Copy, Debug)]
pub struct AnyTrade;

impl Pick for AnyTrade {
    ghost picked = { λ _ _. true };

    fn picks(&self, _trade: TradeLine) -> bool {
        true
    }
}

/// The trades of a month.
#[derive(Clone, Copy, Debug)]
pub struct InMonth {
    pub month: u32,
}

impl Pick for InMonth {
    ghost picked = { λ p t. (t.month == p.month) };

    fn picks(&self, trade: TradeLine) -> bool {
        trade.month == self.month
    }
}

/// The trades of a session that are priced on a calendar.
#[derive(Drop)]
pub struct OnCalendar<'a, C> {
    pub calendar: &'a C,
    pub session: u32,
}

impl<C: Calendar> Pick for OnCalendar<'_, C> {
    ghost picked = { λ p t. is_priced (C.Calendar.kinds p.calendar.now) p.session t };

    fn picks(&self, trade: TradeLine) -> bool {
        price_trade(self.calendar, self.session, trade).is_ok()
    }
}

/// How many lines, and how many contracts in them.
#[derive(Clone, Copy, PartialEq, Eq, Debug)]
pub struct Tally {
    pub lines: u32,
    pub contracts: u64,
}

/// Adds up the trades of a sheet that are picked.
pub fn add_up<P: Pick>(view: &SheetView<'_>, pick: &P) -> Tally
    ensures { Tallied (P.picked pick.now) (view_trades view.now) result }
{
    // Kept: two chains would read each line twice, and a fold over the pair is this loop again.
    let mut lines = 0;
    let mut contracts: u64 = 0;
    for trade in view.trades() {
        if pick.picks(trade) {
            lines += 1;
            contracts += trade.quantity as u64;
        }
    }
    Tally { lines, contracts }
}
