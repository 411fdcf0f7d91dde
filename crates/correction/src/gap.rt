// Prices of one session corrected to a later one.
ghost use Rattle.std.specs.Prelude.{◌≡◌, ℕ, ◌^◌, ◌<◌, ◌≤◌, true, List, length, map, is_some, Some, None, IfOk, MatchResult, nat_lt, slice_index};
ghost use Rattle.std.specs.Option.{option_map};
ghost use Rattle.std.specs.Result.{result_err};
ghost use Rattle.calendar.specs.Spans.{reserve_days};
ghost use Rattle.interest.specs.Correction.{corrected_day};
ghost use Rattle.rates.specs.Meanings.{rates_of};
ghost use Rattle.correction.specs.Gaps.{factor_on, first_unrated, corrected_price, corrected_prices};
ghost use Rattle.correction.specs.Walks.{CorrectedTo, NextDay};
ghost use Rattle.correction.specs.Errors.{gap_fault};
ghost use Rattle.correction.specs.declared.error.Uncorrected.TheVariants.{MissingRate};

use crate::error::Uncorrected;
use calendar::kind::Calendar;
use calendar::span::count_reserve_days;
use dates::LAST_DAY;
use interest::{correct_day, day_factor};
use rates::source::RateSource;

/// The most reserve days of a gap: a year of them.
pub const MAX_GAP_DAYS: u32 = 252;

/// The day of a session, a later one, and the price of the session, in hundredths of a point. The
/// gap's days are those from the first, included, to the other, excluded.
#[derive(Clone, Copy, PartialEq, Eq, Debug)]
pub struct Gap {
    pub from: u32,
    pub to: u32,
    pub price: u32,
}

/// The price of a gap's session, corrected over the reserve days of the gap: each multiplies it by
/// the day's own factor and rounds it, halves up.
// Kept: two parameters: counting days takes the calendar alone, a rate of a day the source alone; a pair would be taken apart at once.
pub fn correct<C: Calendar, S: RateSource>(
    calendar: &C,
    source: &S,
    gap: Gap,
) -> Result<u64, Uncorrected>
    ensures fault { result_err result ≡ gap_fault (C.kinds calendar.now) (rates_of (S.meaning source.now)) gap.from gap.to }
    ensures value { IfOk result (λ p. p ≡ corrected_price (C.kinds calendar.now) (rates_of (S.meaning source.now)) gap.from gap.to gap.price) }
    ensures limit { MAX_GAP_DAYS ≡ 252 }
{
    let [price] = correct_prices(calendar, source, gap.from, gap.to, [gap.price])?;
    Ok(price)
}

/// Prices of the session of the day `from`, each corrected over the reserve days from there,
/// included, to `to`, excluded, in one walk that works out one factor a day.
pub fn correct_prices<C: Calendar, S: RateSource, const N: usize>(
    calendar: &C,
    source: &S,
    from: u32,
    to: u32,
    prices: [u32; N],
) -> Result<[u64; N], Uncorrected>
    ensures fault { result_err result ≡ gap_fault (C.kinds calendar.now) (rates_of (S.meaning source.now)) from to }
    ensures value { IfOk result (λ ps. ps ≡ corrected_prices (C.kinds calendar.now) (rates_of (S.meaning source.now)) from to prices.entry) }
{
    if is_long(calendar, from, to) {
        return Err(Uncorrected::TooLong);
    }
    walk(calendar, source, from, to, widened(prices))
}

// Whether a gap has too many reserve days.
fn is_long<C: Calendar>(calendar: &C, from: u32, to: u32) -> bool
    ensures { result ≡ nat_lt MAX_GAP_DAYS (length (reserve_days (C.kinds calendar.now) from to)) }
{
    count_reserve_days(calendar, from, to) > MAX_GAP_DAYS
}

// Prices with room to grow over a gap.
fn widened<const N: usize>(prices: [u32; N]) -> [u64; N]
    ensures same { result ≡ prices.entry }
    ensures small { (i : ℕ) → slice_index result i < 2 ^ 32 }
{
    let mut wide = [0; N];
    for i in 0..N {
        wide[i] = prices[i] as u64;
    }
    wide
}

// Corrects prices over the days of a gap that is not too long, one by one.
fn walk<C: Calendar, S: RateSource, const N: usize>(
    calendar: &C,
    source: &S,
    from: u32,
    to: u32,
    prices: [u64; N],
) -> Result<[u64; N], Uncorrected>
    requires short { length (reserve_days (C.kinds calendar.now) from to) ≤ MAX_GAP_DAYS }
    requires small { (i : ℕ) → slice_index prices i < 2 ^ 32 }
    ensures fault { result_err result ≡ option_map MissingRate (first_unrated (rates_of (S.meaning source.now)) (reserve_days (C.kinds calendar.now) from to)) }
    ensures value { IfOk result (λ ps. ps ≡ corrected_prices (C.kinds calendar.now) (rates_of (S.meaning source.now)) from to prices.entry) }
{
    let end = to.min(LAST_DAY + 1);
    let mut corrected = prices;
    for day in from..end {
        corrected = on_day(calendar, source, day, corrected)?;
    }
    Ok(corrected)
}

// Prices that were corrected to a day, corrected over that day too, if it is a reserve day.
fn on_day<C: Calendar, S: RateSource, const N: usize>(
    calendar: &C,
    source: &S,
    day: u32,
    corrected: [u64; N],
) -> Result<[u64; N], Uncorrected>
    requires { (i : ℕ) → slice_index corrected i ≤ 90000000000 }
    ensures { (from : ℕ) (prices : List ℕ) → from ≤ day
        → CorrectedTo (C.kinds calendar.now) (rates_of (S.meaning source.now)) from day prices corrected.entry
        → NextDay (C.kinds calendar.now) (rates_of (S.meaning source.now)) from day prices result }
{
    if !calendar.kind(day).is_reserve() {
        return Ok(corrected);
    }
    let factor = factor_of(source, day)?;
    Ok(each_after_day(corrected, factor))
}

// The factor of a day, by its own rate.
fn factor_of<S: RateSource>(source: &S, day: u32) -> Result<u32, Uncorrected>
    ensures { MatchResult result
        (λ g. (is_some (rates_of (S.meaning source.now) day) ≡ true) × (g ≡ factor_on (rates_of (S.meaning source.now)) day) × (g ≤ 100275437))
        (λ e. (e ≡ MissingRate day) × (rates_of (S.meaning source.now) day ≡ None)) }
{
    let rate = source.rate(day).ok_or(Uncorrected::MissingRate(day))?;
    Ok(day_factor(rate).unwrap())
}

// Each price after one reserve day of this factor.
fn each_after_day<const N: usize>(prices: [u64; N], factor: u32) -> [u64; N]
    requires small { (i : ℕ) → slice_index prices i ≤ 90000000000 }
    requires rated { factor ≤ 100275437 }
    ensures { result ≡ map (λ p. corrected_day p factor) prices.entry }
{
    let mut corrected = prices;
    for i in 0..N {
        corrected[i] = after_day(prices[i], factor);
    }
    corrected
}

// A price after one reserve day of this factor.
fn after_day(price: u64, factor: u32) -> u64
    requires small { price ≤ 90000000000 }
    requires rated { factor ≤ 100275437 }
    ensures { result ≡ corrected_day price factor }
{
    correct_day(price, factor).unwrap()
}
