// The gap from the latest closed session to the open one: the latest prices of the months corrected
// over it, by any calendar and any source of rates.
ghost use Rattle.std.specs.Prelude.{◌≡◌, ◌≤◌, [], ◌∷◌, map, IfOk, MatchResult};
ghost use Rattle.correction.specs.Gaps.{first_unrated};
ghost use Rattle.interest.specs.Correction.{corrected_day};
ghost use Rattle.rates.specs.Meanings.{rates_of};
ghost use Rattle.refusal.specs.Refusals.{reason_of};
ghost use Rattle.refusal.specs.declared.Refusal.TheVariants.{MissingRate};
ghost use Rattle.rows.specs.Rows.{first_row, reason_by};
ghost use Rattle.model.specs.Rows.{naming};
ghost use Rattle.book.specs.Causes.{day_in};
ghost use Rattle.book.specs.Closes.{gap_in, price_in_32_bits, prices_over, prices_after, Corrects, Unrated};

use crate::ledger::Ledger;
use amounts::{MAX_MONTHS, MonthPrices};
use arrayvec::ArrayVec;
use calendar::kind::Calendar;
use interest::{correct_day, day_factor};
use rates::source::RateSource;
use refusal::Refusal;

// A price after a reserve day of this factor. In a book that keeps a history it fits.
fn after_day(price: u32, factor: u32) -> u32
    requires { factor ≤ 100275437 }
    ensures { result ≡ price_in_32_bits (corrected_day price factor) }
{
    let corrected = correct_day(price as u64, factor).unwrap();
    u32::try_from(corrected).unwrap_or(u32::MAX)
}

// Corrects the prices of all months over a reserve day of this factor.
fn correct_all(prices: &mut ArrayVec<MonthPrices, MAX_MONTHS>, factor: u32)
    requires { factor ≤ 100275437 }
    ensures { prices.new.items ≡ map (prices_after factor) prices.old.items }
{
    for price in prices.iter_mut() {
        price.corrected = after_day(price.corrected, factor);
    }
}

// Corrects them over a day: a reserve day by its own rate, if it has one, any other day not at all.
fn correct_over<C: Calendar, S: RateSource>(
    calendar: &C,
    source: &S,
    day: u32,
    prices: &mut ArrayVec<MonthPrices, MAX_MONTHS>,
) -> Result<(), Refusal>
    ensures { MatchResult result (λ _. Corrects (C.kinds calendar.now) (rates_of (S.meaning source.now)) day prices.old.items prices.new.items) (λ e. (e ≡ MissingRate day) × Unrated (C.kinds calendar.now) (rates_of (S.meaning source.now)) day) }
{
    if !calendar.kind(day).is_reserve() {
        return Ok(());
    }
    match source.rate(day) {
        None => return Err(Refusal::MissingRate(day)),
        Some(rate) => correct_all(prices, day_factor(rate).unwrap()),
    }
    Ok(())
}

/// The prices of the months at the close of the session, the latest corrected over the reserve days
/// of the gap in one walk, or the first of these days without a rate.
pub(crate) fn closing_prices<C: Calendar, S: RateSource>(
    calendar: &C,
    source: &S,
    ledger: &Ledger,
) -> Result<ArrayVec<MonthPrices, MAX_MONTHS>, Refusal>
    ensures answers { reason_by reason_of result ≡ first_row (naming 15 (first_unrated (rates_of (S.meaning source.now)) (gap_in (C.kinds calendar.now) ledger.now)) ∷ []) }
    ensures value { IfOk result (λ prices. prices.items ≡ map (prices_over (rates_of (S.meaning source.now)) (day_in ledger.now) (gap_in (C.kinds calendar.now) ledger.now)) ledger.now.months) }
{
    let mut prices = ledger.month_prices();
    let gap = ledger.gap();
    for day in gap.start..gap.end {
        correct_over(calendar, source, day, &mut prices)?;
    }
    Ok(prices)
}
