// A trade sheet as its bytes hold it.
ghost use Rattle.std.specs.Prelude.{◌≡◌, length, None};
ghost use Rattle.rows.specs.Rows.{first_row};
ghost use Rattle.sheet.specs.Sheet.{code_rows};

mod frame;
mod methods;
mod reading;
mod trades;

use frame::Frame;
pub use reading::{read, read_for};
pub use trades::Trades;

/// An accepted sheet: each line has a code.
#[derive(Clone, Copy, Debug)]
pub struct SheetView<'a> {
    frame: Frame<'a>,
    ghost coded: { first_row (code_rows frame.bytes.now 0 frame.count) ≡ None },
}

// The bytes of a number, as an array.
fn array_of<const N: usize>(bytes: &[u8]) -> [u8; N]
    requires { length bytes.now ≡ N }
    ensures { result ≡ bytes.now }
{
    bytes.try_into().unwrap()
}
