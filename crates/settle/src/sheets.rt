// Sheets as text and back.
use crate::failure::{Complaint, Failure, Source, in_words};
use crate::figures::{Code, Counted, Fixed, date};
use crate::files::{read_bytes, read_text, write_whole};
use crate::journal::trade_line;
use crate::texts::{Line, lines_of};
use crate::words::{day, sheet_day};
use amounts::MAX_TRADES;
use sheet::{SheetFault, SheetView, TradeLine, read, write};
use std::alloc::Global;
use std::fmt;

const SESSION_FORM: &str = "session DATE, or session day N";

const NO_SESSION: &str = "no session line; expected first: session DATE, or session day N";

// The count that a sheet's first bytes say.
// Kept: an Option would be taken apart where the count is shown, and there fewer bytes have been told first.
fn count_said(bytes: &[u8]) -> u16 {
    match bytes {
        [low, high, ..] => u16::from_le_bytes([*low, *high]),
        _ => 0,
    }
}

// Why bytes are no sheet.
#[derive(Clone, Copy, Debug)]
pub(crate) struct FaultWords<'a> {
    bytes: &'a [u8],
    fault: SheetFault,
}

impl fmt::Display for FaultWords<'_> {
    fn fmt<W: fmt::Write>(&self, f: &mut fmt::Formatter<W>) -> fmt::Result {
        let line = self.fault.line();
        let length = self.bytes.len();
        let count = count_said(self.bytes);
        match self.fault {
            SheetFault::Length if length < 4 => {
                write!(f, "line {line}: length {length}, under 4")
            }
            SheetFault::Length => {
                let asked = 4 + 16 * count as usize;
                write!(
                    f,
                    "line {line}: length {length}, and the count asks for {asked}"
                )
            }
            SheetFault::Count => write!(f, "line {line}: count {count}, over 256"),
            SheetFault::Day => write!(f, "line {line}: another day"),
            SheetFault::Code(_) => write!(f, "line {line}: no contract code"),
        }
    }
}

// A view of the bytes of a sheet file.
pub(crate) fn view<'a>(source: &Source<'_>, bytes: &'a [u8]) -> Result<SheetView<'a>, Failure> {
    source.about(read(bytes).map_err(|fault| Complaint::NoSheet(FaultWords { bytes, fault })))
}

// A trade as a line of text.
#[derive(Clone, Copy)]
struct LineText {
    trade: TradeLine,
}

impl fmt::Display for LineText {
    fn fmt<W: fmt::Write>(&self, f: &mut fmt::Formatter<W>) -> fmt::Result {
        let TradeLine {
            buyer,
            seller,
            month,
            rate,
            quantity,
        } = self.trade;
        let code = Code { month };
        let rate = Fixed::dealt_rate(rate);
        writeln!(f, "trade {buyer} {seller} {code} {rate} {quantity}")
    }
}

// A sheet as text.
pub(crate) fn show(rt: &HostRuntime, file: &str) -> Result<String, Failure> {
    let heap = rt.alloc();
    let bytes = in_words(heap, read_bytes(rt, file, file))?;
    let view = view(&Source { heap, file }, bytes.as_slice())?;
    let mut text = format!(in heap; "session {}\n", date(view.day()))?;
    for trade in view.trades() {
        write!(text, "{}", LineText { trade })?;
    }
    Ok(text)
}

// The day of a session line.
fn session_day<'a>(words: &[&'a str]) -> Result<u16, Complaint<'a>> {
    let expected = Complaint::Expected(SESSION_FORM);
    match words {
        ["session", "day", number] => sheet_day(number).ok_or(expected),
        ["session", "day"] => Err(expected),
        ["session", date] => Ok(day(date)? as u16),
        ["session", ..] => Err(expected),
        _ => Err(Complaint::Words(NO_SESSION)),
    }
}

// A line after the session line, with so many trades before it.
fn later_line<'a>(before: usize, words: &[&'a str]) -> Result<TradeLine, Complaint<'a>> {
    let trade = match words {
        ["trade", buyer, seller, code, rate, quantity] => {
            trade_line([buyer, seller, code, rate, quantity])?
        }
        ["trade", ..] => {
            return Err(Complaint::Expected("trade BUYER SELLER CODE RATE QUANTITY"));
        }
        ["session", ..] => return Err(Complaint::Words("a second session")),
        [word, ..] => {
            return Err(Complaint::NoSuch {
                what: "unknown word",
                word,
                expected: "trade BUYER SELLER CODE RATE QUANTITY",
            });
        }
        [] => return Err(Complaint::Words("no word")),
    };
    if before >= MAX_TRADES {
        return Err(Complaint::Words("over 256 trades"));
    }
    Ok(trade)
}

fn trades(source: &Source<'_>, lines: &[Line]) -> Result<Vec<TradeLine>, Failure> {
    lines
        .iter()
        .enumerate()
        .map(|(before, line)| source.at_line(
            line.number,
            later_line(before, line.words.as_slice()),
        ))
        .try_collect(source.heap)
}

// The bytes of the sheet of these trades.
fn sheet_bytes(
    heap: Global,
    day: u16,
    trades: &[TradeLine],
) -> Result<Vec<u8>, Complaint<'static>> {
    let mut bytes = vec![in heap; 0u8; 4 + 16 * trades.len()]?;
    write(day, trades, bytes.as_mut_slice()).map_err(|_| Complaint::Words("no sheet"))?;
    Ok(bytes)
}

// How many trades a text describes, and the bytes of their sheet.
fn sheet_of(source: &Source<'_>, text: &str) -> Result<(usize, Vec<u8>), Failure> {
    let lines = lines_of(source.heap, text)?;
    let Some((first, rest)) = lines.as_slice().split_first() else {
        return source.at_line(1, Err(Complaint::Words(NO_SESSION)));
    };
    let day = source.at_line(first.number, session_day(first.words.as_slice()))?;
    let trades = trades(source, rest)?;
    let bytes = sheet_bytes(source.heap, day, trades.as_slice());
    Ok((trades.len(), source.at_line(first.number, bytes)?))
}

// Writes the sheet that a text describes.
pub(crate) fn make(rt: &HostRuntime, text: &str, file: &str) -> Result<String, Failure> {
    let heap = rt.alloc();
    let lines = in_words(heap, read_text(rt, text))?;
    let (count, bytes) = sheet_of(&Source { heap, file: text }, lines.as_str())?;
    in_words(heap, write_whole(rt, file, bytes.as_slice()))?;
    let trades = Counted {
        count: count as i128,
        one: "trade",
        many: "trades",
    };
    Ok(format!(in heap; "{file}: {trades}, {} bytes\n", bytes.len())?)
}
