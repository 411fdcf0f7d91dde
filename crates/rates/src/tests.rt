//! Sources at their edges, and a table under three layers.
ghost use Rattle.std.specs.Prelude.{◌≡◌, ℕ, true, is_some, Some};

use crate::entry::DayRate;
use crate::error::Error;
use crate::flat::FlatSource;
use crate::horizon::Horizon;
use crate::layer::ArbitrationLayer;
use crate::source::{Arbitrating, Publishing, RateSource};
use crate::table::TableSource;
use std::test::Fail;

#[test]
fn flat_days(rt: HostRuntime) {
    let horizon = Horizon {
        first: u32::MAX - 1,
        count: u32::MAX,
    };
    for (rate, day, expected) in [
        (7, u32::MAX, Some(7)),
        (7, u32::MAX - 1, Some(7)),
        (7, u32::MAX - 2, None),
        (7, 0, None),
        (99_999_999, u32::MAX, Some(99_999_999)),
        (100_000_000, u32::MAX, None),
    ] {
        assert_eq!(rt; FlatSource { horizon, rate }.rate(day), expected);
    }
}

#[test]
fn table_days(rt: HostRuntime) -> Result<(), Fail> {
    let entries = vec![in rt.alloc(); 0, 1, 100_000_000, 100_000_001]?;
    let mut source = TableSource::new(10, entries);
    for (day, expected) in [
        (9, None),
        (10, None),
        (11, Some(0)),
        (12, Some(99_999_999)),
        (13, None),
        (14, None),
    ] {
        assert_eq!(rt; source.rate(day), expected);
    }
    for (day, rate, period, expected) in [
        (14, 100_000_000, 2, Err(Error::OutsideHorizon)),
        (11, 100_000_000, 2, Err(Error::HasRate)),
        (10, 100_000_000, 2, Err(Error::RateTooHigh)),
        (10, 99_999_999, 2, Err(Error::BadPeriod)),
        (10, 99_999_999, 1, Ok(())),
        (10, 5, 1, Err(Error::HasRate)),
    ] {
        assert_eq!(rt; source.publish(DayRate { day, rate }, period), expected);
    }
    assert_eq!(rt; source.rate(10), Some(99_999_999));
    Ok(())
}

#[test]
fn sixteen_days(rt: HostRuntime) -> Result<(), Fail> {
    let horizon = Horizon {
        first: 0,
        count: 20,
    };
    let none = FlatSource {
        horizon,
        rate: 100_000_000,
    };
    let mut layer = ArbitrationLayer::new(none);
    for day in 0..16 {
        assert_eq!(rt; layer.arbitrate(DayRate { day, rate: 5 }), Ok(()));
    }
    assert_eq!(rt;
        layer.arbitrate(DayRate { day: 20, rate: 5 }),
        Err(Error::OutsideHorizon)
    );
    assert_eq!(rt;
        layer.arbitrate(DayRate { day: 15, rate: 5 }),
        Err(Error::HasRate)
    );
    assert_eq!(rt;
        layer.arbitrate(DayRate {
            day: 16,
            rate: 100_000_000
        }),
        Err(Error::RateTooHigh)
    );
    assert_eq!(rt;
        layer.arbitrate(DayRate { day: 16, rate: 5 }),
        Err(Error::LayerFull)
    );
    assert_eq!(rt; (layer.rate(15), layer.rate(16)), (Some(5), None));
    Ok(())
}

// Publishes through all layers, and reads the rate at the top.
fn published<S: Publishing>(source: &mut S, day: u32, rate: u32) -> Option<u32>
    ensures rate { is_some result ≡ true → result ≡ Some rate }
    ensures layers { (S.RateSource.meaning source.new).layers ≡ (S.RateSource.meaning source.old).layers }
{
    source.publish(DayRate { day, rate }, 1).ok()?;
    source.rate(day)
}

// Publishes through two layers over any source, and says of each list of days that it stays.
fn published_under<S: Publishing>(
    source: &mut ArbitrationLayer<ArbitrationLayer<S>>,
    entry: DayRate,
) -> Option<u32>
    ensures outer { source.new.days.items ≡ source.old.days.items }
    ensures inner { source.new.below.days.items ≡ source.old.below.days.items }
    ensures layers { (S.RateSource.meaning source.new.below.below).layers ≡ (S.RateSource.meaning source.old.below.below).layers }
    ensures others { (d : ℕ) → (d ≡ entry.day → ⊥) → (S.RateSource.meaning source.new.below.below).published d ≡ (S.RateSource.meaning source.old.below.below).published d }
{
    source.publish(entry, 1).ok()?;
    source.rate(entry.day)
}

#[test]
fn three_layers(rt: HostRuntime) -> Result<(), Fail> {
    let table = TableSource::empty(rt.alloc(), 100, 3)?;
    let mut inner = ArbitrationLayer::new(table);
    inner.arbitrate(DayRate { day: 101, rate: 7 })?;
    let middle = ArbitrationLayer::new(inner);
    let mut outer = ArbitrationLayer::new(middle);
    outer.arbitrate(DayRate { day: 102, rate: 8 })?;
    assert_eq!(rt; published(&mut outer, 100, 6), Some(6));
    assert_eq!(rt;
        outer.publish(DayRate { day: 101, rate: 9 }, 1),
        Err(Error::HasRate)
    );
    assert_eq!(rt;
        outer.publish(
            DayRate {
                day: 102,
                rate: 100_000_000
            },
            2
        ),
        Err(Error::HasRate)
    );
    assert_eq!(rt;
        outer.publish(DayRate { day: 103, rate: 9 }, 1),
        Err(Error::OutsideHorizon)
    );
    assert_eq!(rt;
        (outer.rate(100), outer.rate(101), outer.rate(102)),
        (Some(6), Some(7), Some(8))
    );
    assert!(rt; !outer.is_arbitrated(101) && outer.is_arbitrated(102));
    assert_eq!(rt; outer.below().below().below().rate(100), Some(6));
    let entry = DayRate { day: 101, rate: 1 };
    assert_eq!(rt; published_under(&mut outer, entry), None);
    Ok(())
}
