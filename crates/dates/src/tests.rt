//! Days, months and dates at their edges.
use crate::{Date, DateError, Day, Weekday, first_day, month_length, month_of};
use std::test::Fail;

#[test]
fn days_and_dates(rt: HostRuntime) -> Result<(), Fail> {
    let cases = [
        ("2000-01-01", 0),
        ("2000-02-29", 59),
        ("2001-01-01", 366),
        ("2026-12-30", 9_860),
        ("2099-12-31", 36_524),
    ];
    for (text, day) in cases {
        let date = text.parse::<Date>()?;
        assert_eq!(rt; date.day_number(), day);
        assert_eq!(rt; Date::of_day(day), Some(date));
    }
    assert_eq!(rt; Date::of_day(36_525), None);
    Ok(())
}

#[test]
fn months(rt: HostRuntime) {
    assert_eq!(rt; month_length(1), Some(29));
    assert_eq!(rt; month_length(13), Some(28));
    assert_eq!(rt; month_length(1_200), None);
    assert_eq!(rt; first_day(324), Some(9_862));
    assert_eq!(rt; first_day(1_200), None);
    assert_eq!(rt; month_of(9_861), Some(323));
    assert_eq!(rt; month_of(9_862), Some(324));
    assert_eq!(rt; month_of(36_525), None);
}

#[test]
fn no_dates(rt: HostRuntime) {
    for text in [
        "2001-02-29",
        "2100-01-01",
        "1999-12-31",
        "2026-13-01",
        "2026-00-10",
        "2026-04-00",
    ] {
        assert_eq!(rt; text.parse::<Date>(), Err(DateError::NoSuchDate));
    }
    for text in [
        "",
        "2026-1-30",
        "2026-12-30 ",
        "2026/12/30",
        "+026-12-30",
        "2026-12-3:",
    ] {
        assert_eq!(rt; text.parse::<Date>(), Err(DateError::Form));
    }
    assert_eq!(rt; Date::new(2024, 2, 30), None);
}

#[test]
fn printed(rt: HostRuntime) -> Result<(), Fail> {
    let date = "2006-02-09".parse::<Date>()?;
    let text = format!(in rt.alloc(); "{date}")?;
    assert!(rt; text.as_str() == "2006-02-09");
    let (new_year, past) = (Day { number: 9_862 }, Day { number: 36_525 });
    let text = format!(in rt.alloc(); "{new_year}, {past}")?;
    assert!(rt; text.as_str() == "2027-01-01, day 36525");
    Ok(())
}

#[test]
fn weekdays(rt: HostRuntime) {
    assert_eq!(rt; Weekday::of_day(0), Weekday::Saturday);
    assert_eq!(rt; Weekday::of_day(2_231), Weekday::Thursday);
    assert_eq!(rt; Weekday::of_day(36_524), Weekday::Thursday);
}
