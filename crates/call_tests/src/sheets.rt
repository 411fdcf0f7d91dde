// Sheets that are not imported, in whole or from a line on, and sheets that are not written: rows
// 16 and 26, and the rows of a line's trade.
use crate::fixture::{FIRST, NUMBER, OTHER, opened, standing, ticket_of};
use book::{ImportOutcome, ImportStop};
use model::Layer;
use refusal::Refusal;
use sheet::{TradeLine, write};
use std::alloc::Global;
use std::test::Fail;

// A line in which account 0 buys in rate.
fn line(seller: u8, month: u32, quantity: u32) -> TradeLine {
    TradeLine {
        buyer: 0,
        seller,
        month,
        rate: 10_000,
        quantity,
    }
}

// A line that is taken.
const TAKEN: TradeLine = TradeLine {
    buyer: 0,
    seller: 1,
    month: 2,
    rate: 10_000,
    quantity: 5,
};

// A sheet of two lines of the first session.
fn sheet_of(lines: [TradeLine; 2]) -> Result<[u8; 36], Fail> {
    let mut bytes = [0; 36];
    write(FIRST as u16, &lines, &mut bytes)?;
    Ok(bytes)
}

// So many lines taken and no stop, or a stop behind them.
fn outcome(taken: usize, stop: Option<(usize, Refusal, Layer)>) -> ImportOutcome {
    ImportOutcome {
        taken,
        stop: stop.map(|(line, refusal, layer)| ImportStop {
            line,
            refusal,
            layer,
        }),
    }
}

// What a bad sheet comes to, with the line at which it is told.
fn bad_sheet(line: usize) -> ImportOutcome {
    outcome(0, Some((line, Refusal::BadSheet, Layer::Sheet)))
}

// What a sheet comes to of which the book refuses a line.
fn bad_line(line: usize, refusal: Refusal) -> ImportOutcome {
    outcome(line, Some((line, refusal, Layer::Book)))
}

#[test]
fn bad_sheets(rt: HostRuntime) -> Result<(), Fail> {
    let (mut book, ticket) = opened(rt.alloc(), NUMBER)?;
    let other = ticket_of(rt.alloc(), OTHER, FIRST)?;
    let before = standing(&book)?;
    let good = sheet_of([TAKEN, TAKEN])?;
    let mut another_day = good;
    another_day[2] = 32;
    let mut bad_code = good;
    bad_code[24] = b'd';
    // Also a first line that no book takes.
    let mut both = sheet_of([line(0, 2, 0), TAKEN])?;
    both[24] = b'd';
    for (held, sheet, expected) in [
        (&ticket, b"".as_slice(), bad_sheet(0)),
        (&ticket, b"\x00\x00\x1f", bad_sheet(0)),
        (&ticket, b"\x00\x00\x1f\x00\x00", bad_sheet(0)),
        (&ticket, b"\x01\x01\x1f\x00", bad_sheet(0)),
        (&ticket, another_day.as_slice(), bad_sheet(0)),
        (&ticket, bad_code.as_slice(), bad_sheet(1)),
        (&ticket, both.as_slice(), bad_sheet(1)),
        (&other, both.as_slice(), bad_sheet(1)),
        // A sheet without lines is taken with any ticket of its day.
        (&other, b"\x00\x00\x1f\x00", outcome(0, None)),
        (&ticket, b"\x00\x00\x1f\x00", outcome(0, None)),
    ] {
        assert_eq!(rt; book.import(held, sheet), expected);
        assert_eq!(rt; standing(&book)?, before);
    }
    assert_eq!(rt; book.import(&ticket, &good), outcome(2, None));
    assert_eq!(rt; standing(&book)?.0, 10);
    Ok(())
}

#[test]
fn bad_lines(rt: HostRuntime) -> Result<(), Fail> {
    let (mut book, ticket) = opened(rt.alloc(), NUMBER)?;
    let other = ticket_of(rt.alloc(), OTHER, FIRST)?;
    // Last in each row: what account 1 then holds, by the lines that were taken.
    for (held, lines, expected, position) in [
        (&other, [TAKEN, TAKEN], bad_line(0, Refusal::NotCurrent), 0),
        (
            &other,
            [line(1, 3, 1), TAKEN],
            bad_line(0, Refusal::NotCurrent),
            0,
        ),
        (
            &ticket,
            [line(1, 3, 1), TAKEN],
            bad_line(0, Refusal::NoSuchIndex),
            0,
        ),
        (
            &ticket,
            [TAKEN, line(0, 1, 1)],
            bad_line(1, Refusal::Expired),
            5,
        ),
        (
            &ticket,
            [TAKEN, line(0, 2, 0)],
            bad_line(1, Refusal::SameSides),
            10,
        ),
        (
            &ticket,
            [TAKEN, line(1, 2, 0)],
            bad_line(1, Refusal::BadQuantity),
            15,
        ),
        (&ticket, [TAKEN, TAKEN], outcome(2, None), 25),
    ] {
        let sheet = sheet_of(lines)?;
        assert_eq!(rt; book.import(held, &sheet), expected);
        assert_eq!(rt; standing(&book)?.0, position);
    }
    Ok(())
}

// The refusal of a sheet of so many times this line, written into an array of this length, and
// whether the array is then as before.
fn refused(
    heap: Global,
    line: TradeLine,
    count: usize,
    room: usize,
) -> Result<(Option<Refusal>, bool), Fail> {
    let lines = vec![in heap; line; count]?;
    let mut bytes = vec![in heap; 7u8; room]?;
    let refusal = write(FIRST as u16, &lines, &mut bytes)
        .err()
        .map(Refusal::from);
    Ok((refusal, bytes.iter().all(|byte| *byte == 7)))
}

#[test]
fn writing(rt: HostRuntime) -> Result<(), Fail> {
    let no_month = line(1, 1_200, 1);
    for (line, count, room, expected) in [
        (TAKEN, 0, 3, Some(Refusal::ArrayShort)),
        (TAKEN, 2, 35, Some(Refusal::ArrayShort)),
        (no_month, 2, 35, Some(Refusal::ArrayShort)),
        (TAKEN, 257, 4_115, Some(Refusal::ArrayShort)),
        (TAKEN, 257, 4_116, Some(Refusal::BadSheet)),
        (no_month, 2, 36, Some(Refusal::BadSheet)),
        (TAKEN, 2, 36, None),
        (TAKEN, 256, 4_100, None),
    ] {
        assert_eq!(rt;
            refused(rt.alloc(), line, count, room)?,
            (expected, expected.is_some()),
            "{count} lines in {room} bytes"
        );
    }
    Ok(())
}
