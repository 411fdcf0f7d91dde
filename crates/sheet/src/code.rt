// A contract code: DI1, the letter of the month, two digits of the year.
ghost use Rattle.std.specs.Prelude.{◌≡◌, ℕ, ◌+◌, ◌/◌, ◌%◌, ◌<◌, ◌≤◌, Some, MatchOption, ◌≢◌};
ghost use Rattle.dates.specs.declared.TheConstants.{LAST_MONTH};
ghost use Rattle.sheet.specs.Codes.{code_bytes, letter_of, Names, NoCode};

use crate::letters::{letter, month_of_letter};
use dates::LAST_MONTH;
use std::fmt;

/// A month that has a code.
#[derive(Clone, Copy, PartialEq, Eq, Debug)]
pub struct ContractCode {
    month: u32,
    ghost coded: { month ≤ LAST_MONTH },
}

impl ContractCode {
    /// The code of a month, which is none after December 2099.
    pub fn new(month: u32) -> Option<ContractCode>
        ensures { MatchOption result (LAST_MONTH < month) (λ c. c.month ≡ month) }
    {
        // Kept: within a closure for `then` the month is not known to have a code, and the proof does not close.
        if month <= LAST_MONTH {
            Some(ContractCode { month })
        } else {
            None
        }
    }

    /// The month, counted from January 2000.
    pub fn month(&self) -> u32
        ensures { (result ≡ self.now.month) × (result ≤ LAST_MONTH) }
    {
        self.month
    }

    /// The month whose code these bytes are.
    // Kept: a TryFrom of a month or of bytes would need error types that say no more than None.
    pub fn from_bytes(bytes: &[u8]) -> Option<ContractCode>
        ensures { MatchOption result (NoCode bytes.now) (λ c. Names bytes.now c.month) }
    {
        let [b'D', b'I', b'1', letter, tens, ones] = bytes else {
            return None;
        };
        let month_of_year = month_of_letter(char::from(*letter))?;
        let year = 10 * digit(*tens)? + digit(*ones)?;
        Some(ContractCode {
            month: 12 * year + month_of_year,
        })
    }

    /// The six bytes of the code.
    pub fn bytes(&self) -> [u8; 6]
        ensures { result ≡ code_bytes self.now.month }
    {
        let (letter, tens, ones) = self.parts();
        [b'D', b'I', b'1', letter as u8, b'0' + tens, b'0' + ones]
    }

    // The letter of the month, and the two digits of the year.
    fn parts(&self) -> (char, u8, u8)
        ensures letter { (result.0 ≡ letter_of (self.now.month % 12)) × (result.0 < 128) }
        ensures tens { (result.1 ≡ self.now.month / 12 / 10) × (result.1 < 10) }
        ensures ones { (result.2 ≡ self.now.month / 12 % 10) × (result.2 < 10) }
    {
        let year = self.month / 12;
        let letter = letter(self.month % 12).unwrap();
        (letter, (year / 10) as u8, (year % 10) as u8)
    }
}

impl fmt::Display for ContractCode {
    ghost output = { λ c. Some (code_bytes c.month) };

    fn fmt<W: fmt::Write>(&self, f: &mut fmt::Formatter<W>) -> fmt::Result {
        let (letter, tens, ones) = self.parts();
        write!(f, "DI1{letter}{tens}{ones}")
    }
}

// The value of a decimal digit.
fn digit(byte: u8) -> Option<u32>
    ensures { MatchOption result ((d : ℕ) → d < 10 → byte ≢ 48 + d) (λ d. (d < 10) × (byte ≡ 48 + d)) }
{
    char::from(byte).to_digit(10)
}
