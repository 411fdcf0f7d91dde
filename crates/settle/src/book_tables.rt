// The four tables of a run.
use crate::failure::Failure;
use crate::figures::{Code, date};
use crate::story::{ClosedSession, Story, TradeRow};
use crate::tables::{Table, TableFolder};
use serde::Serialize;
use std::alloc::{AllocError, Global};

const CLOSES: &str = "day,account,client,participant,member,month,adjustment,day_trade";

const TRADES: &str =
    "day,line,rate_buyer,rate_seller,price_buyer,price_seller,month,rate,quantity,price";

const BALANCES: &str = "account,client,participant,member,paid,due";

const POSITIONS: &str = "account,month,contracts";

// The fields of a row stand in the order of its columns.
#[derive(Drop, Serialize)]
struct CloseFields<'a> {
    day: &'a str,
    account: usize,
    client: u32,
    participant: u32,
    member: u32,
    month: String,
    adjustment: i64,
    day_trade: i64,
}

#[derive(Drop, Serialize)]
struct TradeFields {
    day: String,
    line: usize,
    rate_buyer: u8,
    rate_seller: u8,
    price_buyer: u8,
    price_seller: u8,
    month: String,
    rate: u32,
    quantity: u32,
    price: u32,
}

#[derive(Drop, Serialize)]
struct BalanceFields {
    account: usize,
    client: u32,
    participant: u32,
    member: u32,
    paid: i64,
    due: i64,
}

#[derive(Drop, Serialize)]
struct PositionFields {
    account: u8,
    month: String,
    contracts: i32,
}

fn code_text(heap: Global, month: u32) -> Result<String, AllocError> {
    format!(in heap; "{}", Code { month })
}

// The rows of a closed session.
fn add_close(
    heap: Global,
    table: &mut Table,
    story: &Story,
    session: &ClosedSession,
) -> Result<(), AllocError> {
    let day = format!(in heap; "{}", date(session.day))?;
    for (account, holder) in story.accounts.iter().enumerate() {
        let adjustments = session.row(session.closing.adjustments.as_slice(), account);
        let day_trades = session.row(session.closing.day_trades.as_slice(), account);
        let amounts = adjustments.iter().zip(day_trades);
        for (month, (adjustment, day_trade)) in story.months.iter().zip(amounts) {
            table.add(&CloseFields {
                day: day.as_str(),
                account,
                client: holder.client,
                participant: holder.participant,
                member: holder.member,
                month: code_text(heap, month.number)?,
                adjustment: *adjustment,
                day_trade: *day_trade,
            })?;
        }
    }
    Ok(())
}

fn closes(heap: Global, story: &Story) -> Result<Table, AllocError> {
    let mut table = Table::new(heap, CLOSES)?;
    for session in story.closed.iter() {
        add_close(heap, &mut table, story, session)?;
    }
    Ok(table)
}

// Who buys in rate sells in price.
fn add_trade(heap: Global, table: &mut Table, row: &TradeRow) -> Result<(), AllocError> {
    let trade = row.trade;
    table.add(&TradeFields {
        day: format!(in heap; "{}", date(row.session))?,
        line: row.line,
        rate_buyer: trade.buyer,
        rate_seller: trade.seller,
        price_buyer: trade.seller,
        price_seller: trade.buyer,
        month: code_text(heap, trade.month)?,
        rate: trade.rate,
        quantity: trade.quantity,
        price: row.price,
    })
}

fn trades(heap: Global, story: &Story) -> Result<Table, AllocError> {
    let mut table = Table::new(heap, TRADES)?;
    for session in story.closed.iter() {
        for row in session.trades.iter() {
            add_trade(heap, &mut table, row)?;
        }
    }
    for row in story.trades.iter() {
        add_trade(heap, &mut table, row)?;
    }
    Ok(table)
}

fn balances(heap: Global, story: &Story) -> Result<Table, AllocError> {
    let mut table = Table::new(heap, BALANCES)?;
    let accounts = story.accounts.iter().zip(story.balances.iter());
    for (account, (holder, balance)) in accounts.enumerate() {
        table.add(&BalanceFields {
            account,
            client: holder.client,
            participant: holder.participant,
            member: holder.member,
            paid: balance.paid,
            due: balance.due,
        })?;
    }
    Ok(table)
}

fn positions(heap: Global, story: &Story) -> Result<Table, AllocError> {
    let mut table = Table::new(heap, POSITIONS)?;
    for row in story.positions.iter() {
        table.add(&PositionFields {
            account: row.account,
            month: code_text(heap, row.month)?,
            contracts: row.contracts,
        })?;
    }
    Ok(table)
}

// Writes the four tables.
pub(crate) fn write_book_tables(
    heap: Global,
    folder: &TableFolder<'_>,
    story: &Story,
) -> Result<(), Failure> {
    folder.write("closes.csv", closes(heap, story)?)?;
    folder.write("trades.csv", trades(heap, story)?)?;
    folder.write("balances.csv", balances(heap, story)?)?;
    folder.write("positions.csv", positions(heap, story)?)
}
