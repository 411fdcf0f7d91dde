use crate::*;
use calendar::rule::{Exception, RuleCalendar};
use rates::flat::FlatSource;
use rates::horizon::Horizon;
use std::test::Fail;

#[test]
fn over_the_new_year(rt: HostRuntime) -> Result<(), Fail> {
    let calendar = RuleCalendar::new(rt.alloc(), &[Exception::of_mark(9_862, 0)])?;
    let two_days = Horizon {
        first: 9_860,
        count: 2,
    };
    let source = FlatSource {
        horizon: two_days,
        rate: 10_000_000,
    };
    let rows = [
        (9_860, 9_865, 9_992_500, Ok(10_000_061)),
        (9_860, 9_862, 9_090_909, Ok(9_097_788)),
        (9_860, 9_861, 9_090_909, Ok(9_094_348)),
        (9_862, 9_865, 9_090_909, Ok(9_090_909)),
        (9_865, 9_860, 9_090_909, Ok(9_090_909)),
        (
            9_860,
            9_866,
            9_992_500,
            Err(Uncorrected::MissingRate(9_865)),
        ),
        (
            9_859,
            9_866,
            9_992_500,
            Err(Uncorrected::MissingRate(9_859)),
        ),
        (0, u32::MAX, 1, Err(Uncorrected::TooLong)),
    ];
    for (from, to, price, expected) in rows {
        assert_eq!(rt;
            correct(&calendar, &source, Gap { from, to, price }),
            expected
        );
    }
    let months = [9_992_500, 9_090_909, 0];
    assert_eq!(rt;
        correct_prices(&calendar, &source, 9_860, 9_865, months),
        Ok([10_000_061, 9_097_788, 0])
    );
    assert_eq!(rt;
        correct_prices(&calendar, &source, 9_860, 9_866, months),
        Err(Uncorrected::MissingRate(9_865))
    );
    Ok(())
}

#[test]
fn without_a_rate(rt: HostRuntime) -> Result<(), Fail> {
    let calendar = RuleCalendar::new(rt.alloc(), &[Exception::of_mark(9_862, 0)])?;
    let two_days = Horizon {
        first: 9_860,
        count: 2,
    };
    let source = FlatSource {
        horizon: two_days,
        rate: 10_000_000,
    };
    assert_eq!(rt; first_unrated(&calendar, &source, 9_860, 9_865), None);
    assert_eq!(rt;
        first_unrated(&calendar, &source, 9_860, 9_870),
        Some(9_865)
    );
    assert_eq!(rt; first_unrated(&calendar, &source, 0, u32::MAX), Some(2));
    assert_eq!(rt; first_unrated(&calendar, &source, 9_870, 9_860), None);
    Ok(())
}
