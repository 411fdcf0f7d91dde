// The lines of an office: the calendar on which sheets are priced and a book stands, and the rates by
// which prices are corrected.
ghost use Rattle.settle.specs.Office.{office_kinds};
ghost use Rattle.std.proofs.Common.{rules};

use crate::failure::{Complaint, Failure, Source, in_words};
use crate::files::{read_bytes, read_text};
use crate::texts::{Line, lines_of};
use crate::words::{day, di_rate, number, or_no_such};
use calendar::kind::{Calendar, DayKind};
use calendar::marked::MarkedCalendar;
use calendar::rule::{Exception, RuleCalendar};
use dates::LAST_DAY;
use rates::entry::DayRate;
use rates::layer::ArbitrationLayer;
use rates::source::{Arbitrating, Publishing};
use rates::table::TableSource;
use std::alloc::{AllocError, Global};

// The most days of a table of rates: those of the calendar.
const MAX_TABLE_DAYS: u32 = LAST_DAY + 1;

const CALENDAR_FORM: &str = "calendar rule, or calendar marked FILE";

const NO_CALENDAR: &str =
    "no calendar line; expected first: calendar rule, or calendar marked FILE";

// The lines that may follow the calendar line of an office file.
const OFFICE_WORDS: &str = "exception, rates, rate or arbitrate";

// Published rates, and above them arbitrated ones.
pub(crate) type OfficeRates = ArbitrationLayer<TableSource>;

// The calendar of an office, of either make.
#[derive(Drop)]
pub(crate) enum OfficeCalendar {
    Marked(MarkedCalendar),
    Rule(RuleCalendar),
}

impl Calendar for OfficeCalendar {
    ghost kinds = { office_kinds };

    ghost ends = { Prim.search rules };

    fn kind(&self, day: u32) -> DayKind {
        match self {
            OfficeCalendar::Marked(marked) => marked.kind(day),
            OfficeCalendar::Rule(rule) => rule.kind(day),
        }
    }
}

#[derive(Drop)]
pub(crate) struct Office {
    pub(crate) calendar: OfficeCalendar,
    pub(crate) rates: OfficeRates,
}

// What a calendar line says: the bytes of the marks, or that the week rules.
#[derive(Drop)]
pub(crate) enum Make {
    Marked(Vec<u8>),
    Rule,
}

impl Make {
    // The same again, for an office that is made anew.
    pub(crate) fn again(&self) -> Result<Make, AllocError> {
        Ok(match self {
            Make::Marked(marks) => Make::Marked(marks.clone()?),
            Make::Rule => Make::Rule,
        })
    }
}

// What the lines have said so far.
#[derive(Drop)]
struct Draft {
    exceptions: Vec<Exception>,
    rates: Option<OfficeRates>,
}

// A table of rates under a layer, with no rates yet.
fn new_rates(heap: Global, first: u32, count: u32) -> Result<OfficeRates, AllocError> {
    Ok(ArbitrationLayer::new(TableSource::empty(heap, first, count)?))
}

fn kind_of_day(word: &str) -> Option<DayKind> {
    match word {
        "closed" => Some(DayKind::ClosedDay),
        "reserve" => Some(DayKind::ReserveDay),
        "session" => Some(DayKind::SessionDay),
        _ => None,
    }
}

// An exception line.
fn exception<'a>(words: &[&'a str]) -> Result<Exception, Complaint<'a>> {
    let ["exception", date, kind] = words else {
        return Err(Complaint::Expected("exception DATE closed, reserve or session"));
    };
    let day = day(date)?;
    let expected = "closed, reserve or session";
    let kind = or_no_such("no kind of day", kind, expected, kind_of_day(kind))?;
    Ok(Exception { day, kind })
}

// A rates line.
fn rates_line<'a>(heap: Global, words: &[&'a str]) -> Result<OfficeRates, Complaint<'a>> {
    let ["rates", "table", first, count] = words else {
        return Err(Complaint::Expected("rates table FIRST COUNT"));
    };
    let first = day(first)?;
    let count = number(count)?;
    if count > MAX_TABLE_DAYS {
        return Err(Complaint::Words("over 36525 days"));
    }
    Ok(new_rates(heap, first, count)?)
}

// The day and the rate of a line of three words.
fn day_rate<'a>(form: &'static str, words: &[&'a str]) -> Result<DayRate, Complaint<'a>> {
    let [_, date, percent] = words else {
        return Err(Complaint::Expected(form));
    };
    Ok(DayRate {
        day: day(date)?,
        rate: di_rate(percent)?,
    })
}

impl Draft {
    fn take_exception<'a>(&mut self, make: &Make, words: &[&'a str]) -> Result<(), Complaint<'a>> {
        match make {
            Make::Marked(_) => Err(Complaint::Words("a marked calendar takes no exception")),
            Make::Rule => Ok(self.exceptions.push(exception(words)?)?),
        }
    }

    fn take_rates<'a>(&mut self, heap: Global, words: &[&'a str]) -> Result<(), Complaint<'a>> {
        if self.rates.is_some() {
            return Err(Complaint::Words("a second rates line"));
        }
        self.rates = Some(rates_line(heap, words)?);
        Ok(())
    }

    // The rates of the line before.
    fn rates_so_far<'a>(&mut self) -> Result<&mut OfficeRates, Complaint<'a>> {
        let missing = "no rates line before; expected: rates table FIRST COUNT";
        self.rates.as_mut().ok_or(Complaint::Words(missing))
    }

    fn publish<'a>(&mut self, words: &[&'a str]) -> Result<(), Complaint<'a>> {
        let rates = self.rates_so_far()?;
        let entry = day_rate("rate DATE PERCENT", words)?;
        Ok(rates.publish(entry, 1)?)
    }

    fn arbitrate<'a>(&mut self, words: &[&'a str]) -> Result<(), Complaint<'a>> {
        let rates = self.rates_so_far()?;
        let entry = day_rate("arbitrate DATE PERCENT", words)?;
        Ok(rates.arbitrate(entry)?)
    }

    // The office that the lines have said; without a rates line it has no rates.
    fn finish(self, heap: Global, make: Make) -> Result<Office, AllocError> {
        let Draft { exceptions, rates } = self;
        let calendar = match make {
            Make::Marked(marks) => OfficeCalendar::Marked(MarkedCalendar::new(marks)),
            Make::Rule => OfficeCalendar::Rule(RuleCalendar::new(heap, exceptions.as_slice())?),
        };
        let rates = rates.map_or_else(|| new_rates(heap, 0, 0), Ok)?;
        Ok(Office { calendar, rates })
    }
}

// The lines of an office in a file: its calendar line's, and the first words that others may have.
#[derive(Clone, Copy)]
pub(crate) struct OfficeLines<'a> {
    pub(crate) source: Source<'a>,
    pub(crate) make: &'a Make,
    pub(crate) expected: &'static str,
}

impl OfficeLines<'_> {
    // A line after the calendar line.
    fn take_line<'a>(&self, draft: &mut Draft, words: &[&'a str]) -> Result<(), Complaint<'a>> {
        match words {
            ["exception", ..] => draft.take_exception(self.make, words),
            ["rates", ..] => draft.take_rates(self.source.heap, words),
            ["rate", ..] => draft.publish(words),
            ["arbitrate", ..] => draft.arbitrate(words),
            ["calendar", ..] => Err(Complaint::Words("a second calendar")),
            [word, ..] => Err(Complaint::NoSuch {
                what: "unknown word",
                word,
                expected: self.expected,
            }),
            [] => Ok(()),
        }
    }

    // What these lines after the calendar line say.
    fn draft(&self, lines: &[Line]) -> Result<Draft, Failure> {
        let mut draft = Draft {
            exceptions: Vec::new(self.source.heap),
            rates: None,
        };
        for Line { number, words } in lines {
            let taken = self.take_line(&mut draft, words.as_slice());
            self.source.at_line(*number, taken)?;
        }
        Ok(draft)
    }

    // The office that the calendar line and these lines after it say; its make stays, for another.
    pub(crate) fn office(&self, lines: &[Line]) -> Result<Office, Failure> {
        let draft = self.draft(lines)?;
        Ok(draft.finish(self.source.heap, self.make.again()?)?)
    }
}

// What a calendar line says.
fn make_of<'a>(rt: &HostRuntime, words: &[&'a str]) -> Result<Make, Complaint<'a>> {
    match words {
        ["calendar", "rule"] => Ok(Make::Rule),
        ["calendar", "marked", path] => Ok(Make::Marked(read_bytes(rt, path, path)?)),
        ["calendar", ..] => Err(Complaint::Expected(CALENDAR_FORM)),
        _ => Err(Complaint::Words(NO_CALENDAR)),
    }
}

// What the calendar line says, which is the first of these lines.
pub(crate) fn calendar_make(
    rt: &HostRuntime,
    source: &Source<'_>,
    lines: &[Line],
) -> Result<Make, Failure> {
    match lines.first() {
        Some(first) => source.at_line(first.number, make_of(rt, first.words.as_slice())),
        None => source.at_line(1, Err(Complaint::Words(NO_CALENDAR))),
    }
}

// The office that a file describes.
pub(crate) fn read_office(rt: &HostRuntime, file: &str) -> Result<Office, Failure> {
    let heap = rt.alloc();
    let source = Source { heap, file };
    let text = in_words(heap, read_text(rt, file))?;
    let lines = lines_of(heap, text.as_str())?;
    let make = calendar_make(rt, &source, lines.as_slice())?;
    let office = OfficeLines {
        source,
        make: &make,
        expected: OFFICE_WORDS,
    };
    let draft = office.draft(lines.get(1..).unwrap_or(&[]))?;
    Ok(draft.finish(heap, make)?)
}
