//! The rule calendar: Monday to Friday are sessions but for a list of exceptions.
ghost use Rattle.std.specs.Prelude.{◌≡◌, ℕ, ◌+◌, List, ◌∷◌, vec_len, IfOk};
ghost use Rattle.dates.specs.declared.TheConstants.{LAST_DAY};
ghost use Rattle.calendar.specs.declared.rule.Exception.{Exception};
ghost use Rattle.calendar.specs.Kinds.{kind_of_mark};
ghost use Rattle.calendar.specs.RuleCalendars.{week_kind, kind_with_exceptions, kinds_of_exceptions, ListsKinds};
ghost use Rattle.std.proofs.Common.{rules};

use crate::kind::{Calendar, DayKind};
use dates::{LAST_DAY, Weekday};
use std::alloc::{AllocError, Global};

/// A day whose kind the week does not decide, and its kind.
#[derive(Clone, Copy, PartialEq, Eq, Debug)]
pub struct Exception {
    pub day: u32,
    pub kind: DayKind,
}

impl Exception {
    /// A day and the mark of its kind.
    pub fn of_mark(day: u32, mark: u8) -> Exception
        ensures day { result.day ≡ day }
        ensures kind { result.kind ≡ kind_of_mark mark }
    {
        Exception {
            day,
            kind: DayKind::from(mark),
        }
    }
}

/// A calendar by the week and a list of exceptions, of which the first for a day decides.
// The kind of each day from day 0 to the last, worked out once from the exceptions.
#[derive(Drop)]
pub struct RuleCalendar {
    days: Vec<DayKind>,
    ghost whole: { vec_len days ≡ LAST_DAY + 1 },
}

// The kind of a day without an exception.
fn kind_of_week(day: u32) -> DayKind
    ensures { result ≡ week_kind day }
{
    match Weekday::of_day(day) {
        Weekday::Saturday | Weekday::Sunday => DayKind::ClosedDay,
        _ => DayKind::SessionDay,
    }
}

// The kinds of all days, where there is no exception.
fn weeks(heap: Global) -> Result<Vec<DayKind>, AllocError>
    ensures { IfOk result (λ v. ListsKinds week_kind v.items (LAST_DAY + 1)) }
{
    (0..LAST_DAY + 1).map(kind_of_week).collect(heap)
}

// Puts in the entry before those that are in already.
fn enter(days: &mut Vec<DayKind>, exception: Exception)
    ensures { (rest : List Exception) → ListsKinds (kind_with_exceptions rest) days.old.items (LAST_DAY + 1) → ListsKinds (kind_with_exceptions (exception ∷ rest)) days.new.items (LAST_DAY + 1) }
{
    if let Some(kind) = days.get_mut(exception.day as usize) {
        *kind = exception.kind;
    }
}

impl RuleCalendar {
    ghost use Rattle.calendar.specs.RuleDays.{rule_kinds};

    /// The calendar of these exceptions; entries past the last day mean nothing.
    // From the last entry to the first, so that the first entry for a day decides.
    pub fn new(heap: Global, exceptions: &[Exception]) -> Result<RuleCalendar, AllocError>
        ensures { IfOk result (λ c. (d : ℕ) → rule_kinds c d ≡ kinds_of_exceptions exceptions.now d) }
    {
        let mut days = weeks(heap)?;
        for exception in exceptions.iter().rev() {
            enter(&mut days, *exception);
        }
        Ok(RuleCalendar { days })
    }
}

impl Calendar for RuleCalendar {
    ghost use Rattle.calendar.specs.RuleDays.{rule_kinds};

    ghost kinds = { rule_kinds };

    ghost ends = { Prim.search rules };

    fn kind(&self, day: u32) -> DayKind {
        self.days
            .get(day as usize)
            .copied()
            .unwrap_or(DayKind::ClosedDay)
    }
}
