//! The marked calendar: one byte a day from day 0.
ghost use Rattle.std.specs.Prelude.{◌≡◌};
ghost use Rattle.calendar.specs.MarkedCalendars.{marked_kinds};
ghost use Rattle.std.proofs.Common.{rules};

use crate::kind::{Calendar, DayKind};
use dates::LAST_DAY;

/// A calendar of one mark a day from day 0; past the end of the marks all days are closed.
#[derive(Drop)]
pub struct MarkedCalendar {
    marks: Vec<u8>,
}

impl MarkedCalendar {
    /// The calendar of these marks: 1 is a reserve day, 2 a session, any other closed.
    pub fn new(marks: Vec<u8>) -> MarkedCalendar
        ensures { result.marks ≡ marks }
    {
        MarkedCalendar { marks }
    }
}

impl Calendar for MarkedCalendar {
    ghost kinds = { marked_kinds };

    ghost ends = { Prim.search rules };

    fn kind(&self, day: u32) -> DayKind {
        if day > LAST_DAY {
            return DayKind::ClosedDay;
        }
        self.marks
            .get(day as usize)
            .map_or(DayKind::ClosedDay, |mark| DayKind::from(*mark))
    }
}
