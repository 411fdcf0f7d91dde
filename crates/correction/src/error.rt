// Why a price is not corrected.
ghost use Rattle.std.specs.Prelude.{Some};
ghost use Rattle.correction.specs.Errors.{message};

use dates::Day;
use std::fmt;

/// Why a price is not corrected: the gap has over 252 reserve days; else the first of them that
/// has no rate.
#[derive(Clone, Copy, PartialEq, Eq, Debug)]
pub enum Uncorrected {
    TooLong,
    MissingRate(u32),
}

// Kept: a derived Display states no output, which pins the words.
impl fmt::Display for Uncorrected {
    ghost output = { λ e. Some (message e) };

    fn fmt<W: fmt::Write>(&self, f: &mut fmt::Formatter<W>) -> fmt::Result {
        match self {
            Uncorrected::TooLong => write!(f, "over 252 reserve days"),
            Uncorrected::MissingRate(day) => write!(f, "no rate for {}", Day { number: *day }),
        }
    }
}

impl std::error::Error for Uncorrected {}
