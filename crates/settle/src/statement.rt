// The statement at the end of a run, with its check.
use crate::check::{Checked, LastSession, checks, last_sessions};
use crate::figures::{Code, Points, Reais, date};
use crate::replay::Replay;
use crate::story::{Month, Story};
use std::alloc::{AllocError, Global};

const MONTHS_HEADING: &str = "month   expiry      last session    last price\n";

const ACCOUNTS_HEADING: &str =
    "account      client  participant      member            paid             due\n";

const POSITIONS_HEADING: &str = "account  month     contracts\n";

const CHECK_HEADING: &str =
    "account  month        adjustments scaled      value of the trades            apart          at most\n";

fn push_counts(text: &mut String, story: &Story) -> Result<(), AllocError> {
    let number = story.number;
    let opened = story.opened;
    let closed = story.closed.len();
    let paid = story.paid;
    let trades = story.trade_count();
    write!(text, "\nstatement of book {number}\n")?;
    write!(
        text,
        "sessions: {opened} opened, {closed} closed, {paid} paid\n"
    )?;
    write!(text, "trades: {trades}\n")
}

fn push_month(
    text: &mut String,
    month: &Month,
    last: &Option<LastSession>,
) -> Result<(), AllocError> {
    let code = Code {
        month: month.number,
    };
    let expiry = date(month.expiry);
    match last {
        Some(LastSession { day, price }) => {
            let day = date(*day);
            let price = Points {
                hundredths: *price as u64,
            };
            write!(text, "{code}  {expiry}  {day}  {price:>14}\n")
        }
        None => write!(text, "{code}  {expiry}  -           {:>14}\n", "-"),
    }
}

fn push_accounts(text: &mut String, story: &Story) -> Result<(), AllocError> {
    let accounts = story.accounts.iter().zip(story.balances.iter());
    for (index, (account, balance)) in accounts.enumerate() {
        let client = account.client;
        let participant = account.participant;
        let member = account.member;
        let paid = Reais {
            centavos: balance.paid,
        };
        let due = Reais {
            centavos: balance.due,
        };
        write!(
            text,
            "{index:>7}{client:>12}{participant:>13}{member:>12}{paid:>16}{due:>16}\n"
        )?;
    }
    Ok(())
}

fn push_positions(text: &mut String, story: &Story) -> Result<(), AllocError> {
    for row in story.positions.iter() {
        let account = row.account;
        let code = Code { month: row.month };
        let contracts = row.contracts;
        write!(text, "{account:>7}  {code}{contracts:>13}\n")?;
    }
    Ok(())
}

fn push_check(
    text: &mut String,
    account: usize,
    month: &Month,
    check: &Option<Checked>,
) -> Result<(), AllocError> {
    let code = Code {
        month: month.number,
    };
    write!(text, "{account:>7}  {code}")?;
    match check {
        Some(check) => {
            let adjustments = check.adjustments;
            let value = check.value;
            let apart = check.apart;
            let at_most = check.at_most;
            write!(
                text,
                "{adjustments:>25}{value:>25}{apart:>17}{at_most:>17}\n"
            )
        }
        None => write!(text, "{:>25}{:>25}{:>17}{:>17}\n", "-", "-", "-", "-"),
    }
}

fn push_checks(
    text: &mut String,
    story: &Story,
    last: &[Option<LastSession>],
    rows: &[Vec<Option<Checked>>],
) -> Result<(), AllocError> {
    for (account, row) in rows.iter().enumerate() {
        for ((month, last), check) in story.months.iter().zip(last).zip(row.iter()) {
            if last.is_some() {
                push_check(text, account, month, check)?;
            }
        }
    }
    Ok(())
}

// The statement of a book as it stands after a run.
pub(crate) fn push_statement(
    heap: Global,
    text: &mut String,
    replay: &Replay,
) -> Result<(), AllocError> {
    let story = &replay.story;
    let last = last_sessions(heap, story)?;
    push_counts(text, story)?;
    text.push_str(MONTHS_HEADING)?;
    for (month, last) in story.months.iter().zip(last.iter()) {
        push_month(text, month, last)?;
    }
    text.push_str(ACCOUNTS_HEADING)?;
    push_accounts(text, story)?;
    text.push_str(POSITIONS_HEADING)?;
    push_positions(text, story)?;
    text.push_str(CHECK_HEADING)?;
    let rows = checks(heap, replay, last.as_slice())?;
    push_checks(text, story, last.as_slice(), rows.as_slice())
}
