// Why a trade sheet is not read, or not written.
ghost use Rattle.std.specs.Prelude.{◌≡◌, Some};
ghost use Rattle.sheet.specs.Faults.{fault_line, fault_message, write_message};

use std::error::Error;
use std::fmt;

/// Why bytes are no trade sheet: their length, the count of trades, the session day, or the code
/// of a line, counted from 0.
#[derive(Clone, Copy, PartialEq, Eq, Debug)]
pub enum SheetFault {
    Length,
    Count,
    Day,
    Code(u32),
}

impl SheetFault {
    /// The line that the fault tells: that of a wrong code, else 0.
    // Kept: a refused sheet tells line 0 by the rules where no line is at fault.
    pub fn line(&self) -> u32
        ensures { result ≡ fault_line self.now }
    {
        match self {
            SheetFault::Code(line) => *line,
            SheetFault::Length | SheetFault::Count | SheetFault::Day => 0,
        }
    }
}

// Kept: a derived Display states no output, which pins the words.
impl fmt::Display for SheetFault {
    ghost output = { λ fault. Some (fault_message fault) };

    fn fmt<W: fmt::Write>(&self, f: &mut fmt::Formatter<W>) -> fmt::Result {
        match self {
            SheetFault::Length => write!(f, "length not that of the count"),
            SheetFault::Count => write!(f, "count over 256"),
            SheetFault::Day => write!(f, "another day"),
            SheetFault::Code(line) => write!(f, "no contract code on line {line}"),
        }
    }
}

impl Error for SheetFault {}

/// Why a sheet is not written: the array is short, or the trades make no sheet.
#[derive(Clone, Copy, PartialEq, Eq, Debug)]
pub enum WriteFault {
    Short,
    BadSheet,
}

// Kept: a derived Display states no output, which pins the words.
impl fmt::Display for WriteFault {
    ghost output = { λ fault. Some (write_message fault) };

    fn fmt<W: fmt::Write>(&self, f: &mut fmt::Formatter<W>) -> fmt::Result {
        match self {
            WriteFault::Short => write!(f, "array too short"),
            WriteFault::BadSheet => write!(f, "trades of no sheet"),
        }
    }
}

impl Error for WriteFault {}
