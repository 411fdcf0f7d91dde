// The first reserve day without a rate.
ghost use Rattle.std.specs.Prelude.{◌≡◌, ◌&&◌};
ghost use Rattle.calendar.specs.Kinds.{is_reserve};
ghost use Rattle.calendar.specs.Spans.{reserve_days};
ghost use Rattle.rates.specs.Meanings.{rates_of};
ghost use Rattle.correction.specs.Gaps.{is_unrated, first_unrated};

use calendar::kind::Calendar;
use dates::LAST_DAY;
use rates::source::RateSource;

/// The first reserve day from `from`, included, to `to`, excluded, that has no rate, of however
/// many days.
pub fn first_unrated<C: Calendar, S: RateSource>(
    calendar: &C,
    source: &S,
    from: u32,
    to: u32,
) -> Option<u32>
    ensures { result ≡ first_unrated (rates_of (S.meaning source.now)) (reserve_days (C.kinds calendar.now) from to) }
{
    let end = to.min(LAST_DAY + 1);
    (from..end).find(|day| lacks_rate(calendar, source, *day))
}

// Whether a day is a reserve day without a rate.
fn lacks_rate<C: Calendar, S: RateSource>(calendar: &C, source: &S, day: u32) -> bool
    ensures { result ≡ (is_reserve (C.kinds calendar.now day) && is_unrated (rates_of (S.meaning source.now)) day) }
{
    calendar.kind(day).is_reserve() && source.rate(day).is_none()
}
