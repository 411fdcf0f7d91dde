// A journal: the lines of an office, the line that makes the book, and its calls.
use crate::failure::{Complaint, Failure, Source, in_words};
use crate::files::{read_bytes, read_text};
use crate::office::{Make, Office, OfficeLines, calendar_make};
use crate::texts::{Line, lines_of};
use crate::words::{account, day, dealt_rate, di_rate, month, number, price, quantity};
use desk::Call;
use model::Account;
use rates::entry::DayRate;
use sheet::TradeLine;
use std::alloc::Global;
use std::path::Path;

const BOOK_FORM: &str = "book NUMBER DATE";

const NO_BOOK: &str = "no book line; expected: book NUMBER DATE";

// The lines that may follow the calendar line of a journal, up to the first call.
const JOURNAL_WORDS: &str = "exception, rates, rate, arbitrate or book";

// What a line of a journal asks.
#[derive(Drop)]
enum Request {
    // The bytes of a sheet.
    Import(Vec<u8>),
    Plain(Call<'static>),
}

// A call of a journal: the number of its line, its words, and what it asks.
#[derive(Drop)]
pub(crate) struct CallLine<'a> {
    pub(crate) number: usize,
    pub(crate) words: Vec<&'a str>,
    request: Request,
}

impl<'a> CallLine<'a> {
    // The call to the book.
    pub(crate) fn call(&self) -> Call<'_> {
        match &self.request {
            Request::Import(sheet) => Call::Import(sheet.as_slice()),
            Request::Plain(call) => *call,
        }
    }

    // The word that names the call.
    pub(crate) fn name(&self) -> &'a str {
        match self.words.first() {
            Some(word) => word,
            None => "",
        }
    }
}

// How the call of a first word is written.
fn form_of(word: &str) -> Option<&'static str> {
    match word {
        "enter" => Some("enter CLIENT PARTICIPANT MEMBER"),
        "list" => Some("list CODE"),
        "publish" => Some("publish DATE PERCENT [PERIOD]"),
        "arbitrate" => Some("arbitrate DATE PERCENT"),
        "open" => Some("open"),
        "trade" => Some("trade BUYER SELLER CODE RATE QUANTITY"),
        "import" => Some("import SHEET"),
        "mark" => Some("mark CODE PRICE"),
        "close" => Some("close"),
        "pay" => Some("pay"),
        "write-off" => Some("write-off"),
        "position" => Some("position ACCOUNT CODE"),
        "balance" => Some("balance ACCOUNT"),
        _ => None,
    }
}

// Whether a line is one of an office.
fn is_of_office(words: &[&str]) -> bool {
    matches!(words, ["calendar" | "exception" | "rates" | "rate", ..])
}

// Whether a line makes the book, or is a call that no office line is.
fn ends_office(words: &[&str]) -> bool {
    match words {
        ["arbitrate", ..] => false,
        ["book", ..] => true,
        [word, ..] => form_of(word).is_some(),
        [] => false,
    }
}

// The account that three words say.
fn account_entered<'a>(words: [&'a str; 3]) -> Result<Account, Complaint<'a>> {
    let [client, participant, member] = words;
    Ok(Account {
        client: number(client)?,
        participant: number(participant)?,
        member: number(member)?,
    })
}

// The trade that five words say.
pub(crate) fn trade_line<'a>(words: [&'a str; 5]) -> Result<TradeLine, Complaint<'a>> {
    let [buyer, seller, code, rate, contracts] = words;
    Ok(TradeLine {
        buyer: account(buyer)?,
        seller: account(seller)?,
        month: month(code)?,
        rate: dealt_rate(rate)?,
        quantity: quantity(contracts)?,
    })
}

// The DI rate of a day, that two words say.
fn day_rate<'a>(date: &'a str, percent: &'a str) -> Result<DayRate, Complaint<'a>> {
    Ok(DayRate {
        day: day(date)?,
        rate: di_rate(percent)?,
    })
}

// The call of a line, of which only the form of an import is left out.
fn plain_call<'a>(form: &'static str, words: &[&'a str]) -> Result<Call<'static>, Complaint<'a>> {
    match words {
        ["enter", client, participant, member] => {
            Ok(Call::Enter(account_entered([client, participant, member])?))
        }
        ["list", code] => Ok(Call::List(month(code)?)),
        ["publish", date, percent] => Ok(Call::Publish(day_rate(date, percent)?, 1)),
        ["publish", date, percent, period] => {
            Ok(Call::Publish(day_rate(date, percent)?, number(period)?))
        }
        ["arbitrate", date, percent] => Ok(Call::Arbitrate(day_rate(date, percent)?)),
        ["open"] => Ok(Call::Open),
        ["trade", buyer, seller, code, rate, quantity] => Ok(Call::Trade(trade_line([
            buyer, seller, code, rate, quantity,
        ])?)),
        ["mark", code, points] => Ok(Call::Mark(month(code)?, price(points)?)),
        ["close"] => Ok(Call::Close),
        ["pay"] => Ok(Call::Pay),
        ["write-off"] => Ok(Call::WriteOff),
        ["position", of, code] => Ok(Call::Position(account(of)?, month(code)?)),
        ["balance", of] => Ok(Call::Balance(account(of)?)),
        _ => Err(Complaint::Expected(form)),
    }
}

// The book that a line makes: its number and its start day.
fn book_of<'a>(words: &[&'a str]) -> Result<(u32, u32), Complaint<'a>> {
    match words {
        ["book", of, start] => Ok((number(of)?, day(start)?)),
        ["book", ..] => Err(Complaint::Expected(BOOK_FORM)),
        _ => Err(Complaint::Words("no book line before; expected: book NUMBER DATE")),
    }
}

// Where a journal lies, and the sheets that it names.
#[derive(Clone, Copy)]
struct Folder<'a> {
    rt: &'a HostRuntime,
    path: Path<'a>,
}

impl Folder<'_> {
    // The bytes of a sheet.
    fn sheet<'a>(&self, name: &'a str) -> Result<Vec<u8>, Complaint<'a>> {
        let path = self.path.join(self.rt.alloc(), name)?;
        read_bytes(self.rt, path.as_str(), name)
    }

    // What a line after the book line asks.
    fn request<'a>(&self, words: &[&'a str]) -> Result<Request, Complaint<'a>> {
        match words {
            ["book", ..] => Err(Complaint::Words("a second book")),
            words if is_of_office(words) => {
                Err(Complaint::Words("an office line after the book line"))
            }
            ["import", sheet] => Ok(Request::Import(self.sheet(sheet)?)),
            [word, ..] => match form_of(word) {
                Some(form) => Ok(Request::Plain(plain_call(form, words)?)),
                None => Err(Complaint::NoSuch {
                    what: "unknown word",
                    word,
                    expected: "a call, as: open",
                }),
            },
            [] => Err(Complaint::Words("no word")),
        }
    }
}

// A journal, with the office's lines, from which the office can be made anew.
#[derive(Drop)]
pub(crate) struct Journal<'a> {
    make: Make,
    office_lines: Vec<Line<'a>>,
    pub(crate) number: u32,
    pub(crate) start: u32,
    pub(crate) calls: Vec<CallLine<'a>>,
}

impl Journal<'_> {
    // The office as it is before the first call.
    pub(crate) fn office(&self, source: &Source<'_>) -> Result<Office, Failure> {
        office_of(source, &self.make, self.office_lines.as_slice())
    }
}

// The office of these lines, of which the first is the calendar line.
fn office_of(source: &Source<'_>, make: &Make, lines: &[Line]) -> Result<Office, Failure> {
    let office = OfficeLines {
        source: *source,
        make,
        expected: JOURNAL_WORDS,
    };
    office.office(lines.get(1..).unwrap_or(&[]))
}

// The calls of the lines after the book line.
fn calls_of<'a>(
    rt: &HostRuntime,
    source: &Source<'_>,
    lines: Vec<Line<'a>>,
) -> Result<Vec<CallLine<'a>>, Failure> {
    let folder = Folder {
        rt,
        path: Path::new(source.file).parent().unwrap_or(Path::new("")),
    };
    let mut calls = Vec::new(source.heap);
    for Line { number, words } in lines {
        let request = source.at_line(number, folder.request(words.as_slice()))?;
        calls.push(CallLine {
            number,
            words,
            request,
        })?;
    }
    Ok(calls)
}

// The journal that a text says, and its office.
pub(crate) fn journal_of<'a>(
    rt: &HostRuntime,
    source: &Source<'_>,
    text: &'a str,
) -> Result<(Journal<'a>, Office), Failure> {
    let heap = source.heap;
    let mut office_lines = lines_of(heap, text)?;
    let make = calendar_make(rt, source, office_lines.as_slice())?;
    let end = office_lines
        .iter()
        .position(|line| ends_office(line.words.as_slice()))
        .unwrap_or(office_lines.len());
    let mut calls = office_lines.split_off(end)?;
    let office = office_of(source, &make, office_lines.as_slice())?;
    if calls.is_empty() {
        return source.at_line(text.lines().count(), Err(Complaint::Words(NO_BOOK)));
    }
    let first = calls.remove(0);
    let (number, start) = source.at_line(first.number, book_of(first.words.as_slice()))?;
    let journal = Journal {
        make,
        office_lines,
        number,
        start,
        calls: calls_of(rt, source, calls)?,
    };
    Ok((journal, office))
}
