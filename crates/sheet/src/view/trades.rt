// The trades of a sheet, from its first line to its last.
ghost use Rattle.std.specs.Iterator.{YieldsFirst, item_count};
ghost use Rattle.sheet.specs.Lines.{trades_left};

use super::SheetView;
use crate::trade_line::TradeLine;

/// The trades of a sheet from a line on.
#[derive(Clone, Debug, Drop)]
pub struct Trades<'a> {
    pub(super) view: SheetView<'a>,
    pub(super) line: usize,
}

impl Iterator for Trades<'_> {
    type Item = TradeLine;

    ghost next_gives = { YieldsFirst trades_left };

    ghost remaining = { item_count trades_left };

    #[tactic(auto, using(crate::proofs::ReadLaws::none_left, crate::proofs::ReadLaws::one_left, crate::proofs::ReadLaws::fewer_left))]
    fn next(&mut self) -> Option<TradeLine> {
        let trade = self.view.trade(self.line)?;
        self.line += 1;
        Some(trade)
    }
}
