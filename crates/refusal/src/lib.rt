// Why a call is refused: one cause for the whole project, with its number and a message.
#![tactic(auto)]

ghost use Rattle.std.specs.Prelude.{◌≡◌, Some, Option};
ghost use Rattle.std.specs.Option.{option_map};
ghost use Rattle.rows.specs.Rows.{Reason};
ghost use Rattle.rates.specs.Errors as rate_errors;
ghost use Rattle.sheet.specs.Faults.{fault_reason, write_reason};
ghost use Rattle.correction.specs.Errors.{uncorrected_reason};
ghost use Rattle.pricing.specs.Pricing.{cause_reason};
ghost use Rattle.refusal.specs.Refusals.{reason_of, cause, message};

use correction::Uncorrected;
use pricing::Cause;
use rates::error::Error;
use sheet::{SheetFault, WriteFault};
use std::fmt;

/// Why a call is refused, in the order of the numbers. An unmarked month comes with its index, a
/// missing rate with its day.
#[derive(Clone, Copy, PartialEq, Eq, Debug)]
pub enum Refusal {
    NotCurrent,
    NoSuchIndex,
    Expired,
    SameSides,
    BadQuantity,
    BadRate,
    TooFar,
    PositionLimit,
    SessionFull,
    BadPrice,
    SessionOpen,
    NoSession,
    Unpaid,
    Unmarked(u32),
    MissingRate(u32),
    ArrayShort,
    NoLaterSession,
    TableFull,
    AlreadyThere,
    NoExpiry,
    OutsideHorizon,
    HasRate,
    RateTooHigh,
    BadPeriod,
    ArbitrationFull,
    BadSheet,
}

impl Refusal {
    /// The number of the cause, from 1 to 26.
    // Kept: `u32::from(refusal)` would not say that it is the number of the row.
    pub fn number(self) -> u32
        ensures { result ≡ (reason_of self).number }
    {
        match self {
            Refusal::NotCurrent => 1,
            Refusal::NoSuchIndex => 2,
            Refusal::Expired => 3,
            Refusal::SameSides => 4,
            Refusal::BadQuantity => 5,
            Refusal::BadRate => 6,
            Refusal::TooFar => 7,
            Refusal::PositionLimit => 8,
            Refusal::SessionFull => 9,
            Refusal::BadPrice => 10,
            Refusal::SessionOpen => 11,
            Refusal::NoSession => 12,
            Refusal::Unpaid => 13,
            Refusal::Unmarked(_) => 14,
            Refusal::MissingRate(_) => 15,
            Refusal::ArrayShort => 16,
            Refusal::NoLaterSession => 17,
            Refusal::TableFull => 18,
            Refusal::AlreadyThere => 19,
            Refusal::NoExpiry => 20,
            Refusal::OutsideHorizon => 21,
            Refusal::HasRate => 22,
            Refusal::RateTooHigh => 23,
            Refusal::BadPeriod => 24,
            Refusal::ArbitrationFull => 25,
            Refusal::BadSheet => 26,
        }
    }

    /// The cause in words, without the month or the day that it names.
    pub fn cause(self) -> &'static str
        ensures { result.now ≡ cause self }
    {
        match self {
            Refusal::NotCurrent => "not of the open session, or not the unpaid slip",
            Refusal::NoSuchIndex => "index not in the book",
            Refusal::Expired => "expiry not after the session",
            Refusal::SameSides => "buyer and seller are the same account",
            Refusal::BadQuantity => "quantity not from 1 to 20,000",
            Refusal::BadRate => "rate too high or off its step",
            Refusal::TooFar => "more than 2,520 reserve days to the expiry",
            Refusal::PositionLimit => "a position would pass 500,000 contracts",
            Refusal::SessionFull => "256 trades in the session already",
            Refusal::BadPrice => "price not from 1 to 10,000,000",
            Refusal::SessionOpen => "a session is open",
            Refusal::NoSession => "no session in the next 60 days",
            Refusal::Unpaid => "an earlier slip is unpaid",
            Refusal::Unmarked(_) => "month without a settlement price",
            Refusal::MissingRate(_) => "reserve day without a rate",
            Refusal::ArrayShort => "array too short",
            Refusal::NoLaterSession => "no later session is open",
            Refusal::TableFull => "table full",
            Refusal::AlreadyThere => "already in the book",
            Refusal::NoExpiry => "month without an expiry to come",
            Refusal::OutsideHorizon => "day outside the horizon",
            Refusal::HasRate => "day has a rate",
            Refusal::RateTooHigh => "DI rate over 99,999,999",
            Refusal::BadPeriod => "period is not 1",
            Refusal::ArbitrationFull => "16 days arbitrated already",
            Refusal::BadSheet => "bad sheet",
        }
    }
}

// Kept: a derived Display states no output, which pins the words.
impl fmt::Display for Refusal {
    ghost output = { λ x. Some (message x) };

    fn fmt<W: fmt::Write>(&self, f: &mut fmt::Formatter<W>) -> fmt::Result {
        let cause = self.cause();
        match self {
            Refusal::Unmarked(month) => write!(f, "{cause}: index {month}"),
            Refusal::MissingRate(day) => write!(f, "{cause}: day {day}"),
            _ => write!(f, "{cause}"),
        }
    }
}

impl std::error::Error for Refusal {}

/// A rate that is not published or not arbitrated.
impl From<Error> for Refusal {
    ghost from_gives = { λ error refusal. reason_of refusal ≡ rate_errors.reason_of error };

    fn from(error: Error) -> Refusal {
        match error {
            Error::OutsideHorizon => Refusal::OutsideHorizon,
            Error::HasRate => Refusal::HasRate,
            Error::RateTooHigh => Refusal::RateTooHigh,
            Error::BadPeriod => Refusal::BadPeriod,
            Error::LayerFull => Refusal::ArbitrationFull,
        }
    }
}

/// A sheet that is not read is a bad sheet, whatever its fault.
impl From<SheetFault> for Refusal {
    ghost from_gives = { λ fault refusal. reason_of refusal ≡ fault_reason fault };

    fn from(fault: SheetFault) -> Refusal {
        match fault {
            SheetFault::Length | SheetFault::Count | SheetFault::Day => Refusal::BadSheet,
            SheetFault::Code(_) => Refusal::BadSheet,
        }
    }
}

/// A sheet that is not written: the array is short, or the sheet is bad.
impl From<WriteFault> for Refusal {
    ghost from_gives = { λ fault refusal. reason_of refusal ≡ write_reason fault };

    fn from(fault: WriteFault) -> Refusal {
        match fault {
            WriteFault::Short => Refusal::ArrayShort,
            WriteFault::BadSheet => Refusal::BadSheet,
        }
    }
}

/// A cause of an enum of its own, which has a number of the list or none.
// Kept: a TryFrom would need an error type that says no more than None.
pub trait AsRefusal {
    ghost reason: { Self → Option Reason };

    /// The refusal that the cause is; none where it has no number.
    fn refusal(self) -> Option<Refusal>
        ensures { option_map reason_of result ≡ reason self };
}

/// A price that is not corrected, for want of a day's rate; a gap that is too long has no number.
impl AsRefusal for Uncorrected {
    ghost reason = { uncorrected_reason };

    fn refusal(self) -> Option<Refusal> {
        match self {
            Uncorrected::TooLong => None,
            Uncorrected::MissingRate(day) => Some(Refusal::MissingRate(day)),
        }
    }
}

/// A line of a sheet that is not priced; a month without any session has no number.
impl AsRefusal for Cause {
    ghost reason = { cause_reason };

    fn refusal(self) -> Option<Refusal> {
        match self {
            Cause::NoSession => None,
            Cause::Expired => Some(Refusal::Expired),
            Cause::RateTooHigh | Cause::OffTick => Some(Refusal::BadRate),
            Cause::TooFar => Some(Refusal::TooFar),
        }
    }
}

#[cfg(test)]
mod tests {
    use super::*;
    use std::test::Fail;

    #[test]
    fn printed(rt: HostRuntime) -> Result<(), Fail> {
        let missing = Refusal::MissingRate(9_862);
        let text = format!(in rt.alloc();
            "{}: {missing}; {}",
            missing.number(),
            Refusal::BadSheet
        )?;
        assert!(rt; text.as_str() == "15: reserve day without a rate: day 9862; bad sheet");
        Ok(())
    }

    #[test]
    fn causes(rt: HostRuntime) -> Result<(), Fail> {
        assert_eq!(rt; Cause::OffTick.refusal(), Some(Refusal::BadRate));
        assert_eq!(rt; Cause::NoSession.refusal(), None);
        let missing = Uncorrected::MissingRate(9_862);
        assert_eq!(rt; missing.refusal(), Some(Refusal::MissingRate(9_862)));
        assert_eq!(rt; Uncorrected::TooLong.refusal(), None);
        Ok(())
    }
}
