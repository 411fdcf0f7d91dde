//! The kinds of days, and what every calendar gives.
ghost use Rattle.std.specs.Prelude.{◌≡◌, ℕ, ◌<◌};
ghost use Rattle.dates.specs.declared.TheConstants.{LAST_DAY};
ghost use Rattle.calendar.specs.declared.kind.DayKind.{DayKind};
ghost use Rattle.calendar.specs.declared.kind.DayKind.TheVariants.{ClosedDay};
ghost use Rattle.calendar.specs.Kinds.{kind_of_mark, is_reserve, is_session};

/// What kind of day a day is.
#[derive(Clone, Copy, PartialEq, Eq, Debug)]
pub enum DayKind {
    /// Neither a session nor a reserve day.
    ClosedDay,
    /// A reserve day (saque-reserva) without a session.
    ReserveDay,
    /// A session, which is a reserve day too.
    SessionDay,
}

impl DayKind {
    /// Whether interest runs on the day.
    pub fn is_reserve(self) -> bool
        ensures { result ≡ is_reserve self }
    {
        matches!(self, DayKind::ReserveDay | DayKind::SessionDay)
    }

    /// Whether trades are accepted on the day.
    pub fn is_session(self) -> bool
        ensures { result ≡ is_session self }
    {
        matches!(self, DayKind::SessionDay)
    }
}

/// A calendar means one fixed table from days to kinds, closed past the last day. It gives the kind
/// of a day and nothing else, and a question changes nothing.
pub trait Calendar {
    ghost kinds: { Self → ℕ → DayKind };

    /// The kind of a day.
    fn kind(&self, day: u32) -> DayKind
        ensures { result ≡ kinds self.now day };

    ghost ends: { (x : Self) (d : ℕ) → LAST_DAY < d → kinds x d ≡ ClosedDay };
}

// What a mark says: 1 a reserve day, 2 a session, any other closed.
impl From<u8> for DayKind {
    ghost from_gives = { λ mark kind. kind ≡ kind_of_mark mark };

    fn from(mark: u8) -> DayKind {
        match mark {
            1 => DayKind::ReserveDay,
            2 => DayKind::SessionDay,
            _ => DayKind::ClosedDay,
        }
    }
}
