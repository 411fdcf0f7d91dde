// The frame of a sheet: its head, and the bytes of its lines.
ghost use Rattle.std.specs.Prelude.{◌≡◌, ℕ, ◌+◌, ◌*◌, ◌<◌, ◌≤◌, length, Some, Option, MatchResult};
ghost use Rattle.std.specs.Option.{option_map};
ghost use Rattle.rows.specs.Rows.{first_row};
ghost use Rattle.sheet.specs.Codes.{is_code};
ghost use Rattle.sheet.specs.Sheet.{count_of, day_of, code_of, sides_at, terms_at, code_rows, read_fault};
ghost use Rattle.sheet.specs.declared.fault.SheetFault.TheVariants.{Code};
ghost use Rattle.amounts.specs.declared.trades.TheConstants.{MAX_TRADES};

use super::array_of;
use crate::code::ContractCode;
use crate::fault::SheetFault;
use amounts::MAX_TRADES;

// Bytes whose length is that of a sheet, with the count and the day of their head.
// Kept: the count stands beside the whole bytes, tied to them below; two slices would need it too, since the definitions speak of the whole.
#[derive(Clone, Copy, Debug)]
pub(super) struct Frame<'a> {
    bytes: &'a [u8],
    pub(super) count: u16,
    pub(super) day: u16,
    ghost long: { length bytes.now ≡ 4 + 16 * count },
    ghost few: { count ≤ MAX_TRADES },
    ghost counted: { count ≡ count_of bytes.now },
    ghost dated: { day ≡ day_of bytes.now },
}

impl<'a> Frame<'a> {
    // The frame of bytes, if their count is in range and their length is that of so many trades.
    pub(super) fn of(bytes: &'a [u8]) -> Result<Frame<'a>, SheetFault>
        ensures { MatchResult result (λ f. f.bytes.now ≡ bytes.now) (λ fault. (ticket : Option ℕ) → read_fault bytes.now ticket ≡ Some fault) }
    {
        if bytes.len() < 4 {
            return Err(SheetFault::Length);
        }
        let count = u16::from_le_bytes(array_of(&bytes[0..2]));
        let day = u16::from_le_bytes(array_of(&bytes[2..4]));
        if count as usize > MAX_TRADES {
            return Err(SheetFault::Count);
        }
        if bytes.len() != 4 + 16 * count as usize {
            return Err(SheetFault::Length);
        }
        Ok(Frame { bytes, count, day })
    }

    // The sides of a line.
    // Kept: a type for a line below the count would be made in one loop and one question, and taken apart at once.
    pub(super) fn sides(&self, line: usize) -> [u8; 2]
        requires { line < self.now.count }
        ensures { result ≡ sides_at self.now.bytes.now line }
    {
        let from = 4 + 2 * line;
        array_of(&self.bytes[from..from + 2])
    }

    // The terms of a line, behind the sides of all lines.
    pub(super) fn terms(&self, line: usize) -> [u8; 14]
        requires { line < self.now.count }
        ensures { result ≡ terms_at self.now.count self.now.bytes.now line }
    {
        let from = 4 + 2 * self.count as usize + 14 * line;
        array_of(&self.bytes[from..from + 14])
    }

    // The first line whose code is none.
    pub(super) fn first_bad_line(&self) -> Option<u32>
        ensures { option_map Code result ≡ first_row (code_rows self.now.bytes.now 0 self.now.count) }
    {
        (0..self.count as u32).find(|line| !self.has_code(*line))
    }

    // Whether a line has a code.
    fn has_code(&self, line: u32) -> bool
        requires { line < self.now.count }
        ensures { result ≡ is_code (code_of self.now.bytes.now line) }
    {
        let terms = self.terms(line as usize);
        ContractCode::from_bytes(&terms[0..6]).is_some()
    }
}
