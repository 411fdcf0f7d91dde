// Accounts in the tables: what they hold, are paid and are due.
ghost use Rattle.std.specs.Prelude.{◌≡◌, ◌<◌, ◌+ℤ◌, ◌∷◌, [], ◌++◌, map, length, IfOk, OnOk, Some, slice_get, slice_index_or, pos};
ghost use Rattle.std.specs.Int.{int_wrap, w64};
ghost use Rattle.std.specs.List.{list_any};
ghost use Rattle.std.specs.Option.{option_map};
ghost use Rattle.amounts.specs.Tables.{place_of};
ghost use Rattle.model.specs.Accounts.{same_account};
ghost use Rattle.refusal.specs.Refusals.{reason_of};
ghost use Rattle.rows.specs.Rows.{first_row, reason_by};
ghost use Rattle.book.specs.Causes.{enter_rows_in, balance_rows_in, position_rows_in, balance_in, pay_rows_in};
ghost use Rattle.book.specs.Changes.{paid_out, after_pay};

use super::{AccountRow, Ledger};
use crate::references::Slip;
use amounts::{MAX_ACCOUNTS, place};
use arrayvec::ArrayVec;
use model::{Account, Balance};
use refusal::Refusal;

// Whether two accounts have the same client, participant and clearing member.
fn same_account(x: Account, y: Account) -> bool
    ensures { result ≡ same_account x y }
{
    x == y
}

// Whether one of the rows is of the account.
fn has_account(rows: &[AccountRow], account: Account) -> bool
    ensures { result ≡ list_any (λ row. same_account account row.account) rows.now }
{
    rows.iter().any(|row| same_account(account, row.account))
}

// Two amounts together. In a book that keeps a history they fit, so nothing is lost.
pub(super) fn together(paid: i64, due: i64) -> i64
    ensures { result ≡ int_wrap w64 (paid +ℤ due) }
{
    paid.wrapping_add(due)
}

// A row with what is due paid.
fn paid_out(row: AccountRow) -> AccountRow
    ensures { result ≡ paid_out row }
{
    AccountRow {
        account: row.account,
        paid: together(row.paid, row.due),
        due: 0,
    }
}

// Moves what is due in each row to what is paid.
fn pay_rows(rows: &mut ArrayVec<AccountRow, MAX_ACCOUNTS>)
    ensures { rows.new.items ≡ map paid_out rows.old.items }
{
    for row in rows.iter_mut() {
        *row = paid_out(*row);
    }
}

impl Ledger {
    /// The index that a new account gets, if it may be entered.
    pub(crate) fn check_enter(&self, account: Account) -> Result<u8, Refusal>
        ensures answers { reason_by reason_of result ≡ first_row (enter_rows_in self.now account) }
        ensures index { IfOk result (λ i. i ≡ length self.now.accounts) }
    {
        let index = self.accounts.len();
        if index >= MAX_ACCOUNTS {
            return Err(Refusal::TableFull);
        }
        if has_account(&self.accounts, account) {
            return Err(Refusal::AlreadyThere);
        }
        Ok(index as u8)
    }

    /// Adds an account, with nothing paid or due.
    pub(crate) fn enter(&mut self, account: Account)
        requires { length self.old.accounts < 32 }
        ensures { self.new ≡ record self.old { accounts = self.old.accounts ++ (record { account = account; paid = pos 0; due = pos 0 } ∷ []) } }
    {
        self.accounts.push(AccountRow {
            account,
            paid: 0,
            due: 0,
        });
    }

    /// What an account was paid and is due.
    pub(crate) fn balance(&self, account: u8) -> Result<Balance, Refusal>
        ensures answers { reason_by reason_of result ≡ first_row (balance_rows_in self.now account) }
        ensures value { IfOk result (λ x. option_map balance_in (slice_get self.now.accounts account) ≡ Some x) }
    {
        match self.accounts.get(account as usize) {
            None => Err(Refusal::NoSuchIndex),
            Some(row) => Ok(Balance {
                paid: row.paid,
                due: row.due,
            }),
        }
    }

    /// The position of an account in a month.
    pub(crate) fn position(&self, account: u8, month: u8) -> Result<i32, Refusal>
        ensures answers { reason_by reason_of result ≡ first_row (position_rows_in self.now account month) }
        ensures value { IfOk result (λ x. x ≡ slice_index_or self.now.positions (place_of account month) (pos 0)) }
        ensures cell { OnOk result ((account < 32) × (month < 16)) }
    {
        if account as usize >= self.accounts.len() || month as usize >= self.months.len() {
            return Err(Refusal::NoSuchIndex);
        }
        Ok(self.positions[place(account, month)])
    }

    /// Whether the slip may be paid.
    pub(crate) fn check_pay(&self, slip: &Slip) -> Result<(), Refusal>
        ensures { reason_by reason_of result ≡ first_row (pay_rows_in self.now slip.now) }
    {
        match self.unpaid {
            Some(day) if slip.number() == self.number && slip.day() == day => {}
            _ => return Err(Refusal::NotCurrent),
        }
        if self.open.is_none() {
            return Err(Refusal::NoLaterSession);
        }
        Ok(())
    }

    /// Moves all that is due to what is paid.
    pub(crate) fn pay(&mut self)
        ensures { self.new ≡ after_pay self.old }
    {
        pay_rows(&mut self.accounts);
        self.unpaid = None;
    }
}
