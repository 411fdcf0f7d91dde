//! Calendars of both makes at their edges.
use crate::kind::{Calendar, DayKind};
use crate::marked::MarkedCalendar;
use crate::rule::{Exception, RuleCalendar};
use crate::span::{count_reserve_days, expiry, next_session};
use std::test::Fail;

#[test]
fn marks(rt: HostRuntime) -> Result<(), Fail> {
    let calendar = MarkedCalendar::new([0, 1, 2, 3, 255].to_vec(rt.alloc())?);
    let kinds = [
        (0, DayKind::ClosedDay),
        (1, DayKind::ReserveDay),
        (2, DayKind::SessionDay),
        (3, DayKind::ClosedDay),
        (5, DayKind::ClosedDay),
        (u32::MAX, DayKind::ClosedDay),
    ];
    for (day, kind) in kinds {
        assert_eq!(rt; calendar.kind(day), kind);
    }
    assert_eq!(rt; count_reserve_days(&calendar, 0, u32::MAX), 2);
    assert_eq!(rt; count_reserve_days(&calendar, 2, 1), 0);
    assert_eq!(rt; expiry(&calendar, 0), Some(2));
    assert_eq!(rt; expiry(&calendar, 1), None);
    Ok(())
}

#[test]
fn rules(rt: HostRuntime) -> Result<(), Fail> {
    let exceptions = [
        Exception::of_mark(9_862, 0),
        Exception::of_mark(9_862, 2),
        Exception::of_mark(9_861, 1),
        Exception::of_mark(36_525, 2),
        Exception::of_mark(9_864, 9),
    ];
    let calendar = RuleCalendar::new(rt.alloc(), &exceptions)?;
    assert_eq!(rt; calendar.kind(9_862), DayKind::ClosedDay);
    assert_eq!(rt; calendar.kind(36_524), DayKind::SessionDay);
    assert_eq!(rt; calendar.kind(36_525), DayKind::ClosedDay);
    assert_eq!(rt; expiry(&calendar, 324), Some(9_865));
    assert_eq!(rt; expiry(&calendar, 1_199), Some(36_494));
    assert_eq!(rt; expiry(&calendar, 1_200), None);
    assert_eq!(rt; count_reserve_days(&calendar, 9_860, 9_865), 2);
    assert_eq!(rt; next_session(&calendar, 9_861), Some(9_865));
    assert_eq!(rt; next_session(&calendar, u32::MAX), None);
    Ok(())
}
