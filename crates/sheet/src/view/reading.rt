// A trade sheet read: its one fault, or a view of the sheet.
ghost use Rattle.std.specs.Prelude.{◌≡◌, Some, None, IfOk, IsTrue};
ghost use Rattle.std.specs.Result.{result_err};
ghost use Rattle.sheet.specs.Sheet.{is_on, read_fault};
ghost use Rattle.sheet.specs.Views.{view_bytes, view_day, Outcome, ReadsBack};

use super::SheetView;
use super::frame::Frame;
use crate::fault::SheetFault;

/// The sheet that these bytes are, of any day.
pub fn read(bytes: &[u8]) -> Result<SheetView<'_>, SheetFault>
    ensures fault { result_err result ≡ read_fault bytes.now None }
    ensures outcome { Outcome bytes.now None result }
    ensures back { ReadsBack bytes.now None result }
{
    read_on(bytes, None)
}

/// The sheet that these bytes are, if it is of the ticket's day.
pub fn read_for(bytes: &[u8], day: u32) -> Result<SheetView<'_>, SheetFault>
    ensures fault { result_err result ≡ read_fault bytes.now (Some day) }
    ensures outcome { Outcome bytes.now (Some day) result }
    ensures back { ReadsBack bytes.now (Some day) result }
{
    read_on(bytes, Some(day))
}

// The sheet that these bytes are, on the ticket's day if there is a ticket.
fn read_on(bytes: &[u8], ticket: Option<u32>) -> Result<SheetView<'_>, SheetFault>
    ensures fault { result_err result ≡ read_fault bytes.now ticket }
    ensures view { IfOk result (λ v. view_bytes v ≡ bytes.now) }
{
    let frame = Frame::of(bytes)?;
    if !is_on(ticket, frame.day as u32) {
        return Err(SheetFault::Day);
    }
    match frame.first_bad_line() {
        Some(line) => Err(SheetFault::Code(line)),
        None => Ok(SheetView { frame }),
    }
}

// Whether the day is the ticket's, if there is a ticket.
fn is_on(ticket: Option<u32>, day: u32) -> bool
    ensures { result ≡ is_on ticket day }
{
    ticket.is_none_or(|of_ticket| day == of_ticket)
}
