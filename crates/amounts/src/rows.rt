// Amounts written to an array by rows, one for each account.
ghost use Rattle.std.specs.Prelude.{◌≡◌, ◌<◌, ◌≤◌, ℕ, ℤ, length, IsTrue, ◌↔◌};
ghost use Rattle.amounts.specs.Rows.{row_of, written_to, HasRoom};

use crate::trades::{MAX_ACCOUNTS, MAX_MONTHS};

// An amount for each account and month.
pub(crate) trait Amounts {
    ghost amount_of: { Self → ℕ → ℕ → ℤ };

    fn amount(&self, account: u8, month: u8) -> i64
        requires account { account < MAX_ACCOUNTS }
        requires month { month < MAX_MONTHS }
        ensures { result ≡ amount_of self.now account month };
}

// Whether an array has a place for an amount of each account and month.
pub(crate) fn has_room(accounts: usize, months: usize, len: usize) -> bool
    ensures { IsTrue result ↔ HasRoom accounts months len }
{
    accounts <= MAX_ACCOUNTS && months <= MAX_MONTHS && accounts * months <= len
}

// Writes the row of an account: an amount for each of its months.
fn write_row<A: Amounts>(amounts: &A, account: u8, row: &mut [i64])
    requires account { account < MAX_ACCOUNTS }
    requires months { length row.old ≤ MAX_MONTHS }
    ensures { row.new ≡ row_of (length row.old) (A.amount_of amounts.now account) }
{
    for (month, cell) in row.iter_mut().enumerate() {
        *cell = amounts.amount(account, month as u8);
    }
}

// Writes the rows of all accounts, one after another, and leaves the rest of the array.
pub(crate) fn write_rows<A: Amounts>(amounts: &A, accounts: usize, months: usize, array: &mut [i64])
    requires { HasRoom accounts months (length array.old) }
    ensures { array.new ≡ written_to accounts months (A.amount_of amounts.now) array.old }
{
    for account in 0..accounts {
        let start = account * months;
        write_row(amounts, account as u8, &mut array[start..start + months]);
    }
}
