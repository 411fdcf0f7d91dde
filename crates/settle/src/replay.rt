// A run of a journal: one list of calls from making the book to the last question of the statement.
use crate::failure::Failure;
use crate::journal::CallLine;
use crate::office::{Office, OfficeCalendar, OfficeRates};
use crate::story::Story;
use crate::teller::Teller;
use amounts::MAX_ACCOUNTS;
use book::Book;
use desk::{Call, Ran, run};
use std::alloc::{AllocError, Global};

// What a call of the run is made for: a line of the journal, the table of the close before it, or the
// statement at the end.
#[derive(Clone, Copy)]
pub(crate) enum Purpose {
    Line,
    Table,
    Balance,
    Position(u8, u32),
}

// The calls of a run, and what each is made for.
#[derive(Drop)]
struct Agenda<'a> {
    calls: Vec<Call<'a>>,
    purposes: Vec<Purpose>,
}

impl<'a> Agenda<'a> {
    fn add(&mut self, call: Call<'a>, purpose: Purpose) -> Result<(), AllocError> {
        self.calls.push(call)?;
        self.purposes.push(purpose)?;
        Ok(())
    }

    // Asks what is due to each of so many accounts.
    fn add_table(&mut self, accounts: u8) -> Result<(), AllocError> {
        for account in 0..accounts {
            self.add(Call::Balance(account), Purpose::Table)?;
        }
        Ok(())
    }

    // Asks what the statement tells of so many accounts in these months.
    fn add_statement(&mut self, accounts: u8, months: &[u32]) -> Result<(), AllocError> {
        for account in 0..accounts {
            self.add(Call::Balance(account), Purpose::Balance)?;
        }
        for account in 0..accounts {
            for month in months {
                let purpose = Purpose::Position(account, *month);
                self.add(Call::Position(account, *month), purpose)?;
            }
        }
        Ok(())
    }

    // The calls of these lines, with a question for each account after a close, and the statement's. At
    // most as many accounts and months are there as lines that enter and list them.
    fn of(heap: Global, lines: &'a [CallLine<'_>]) -> Result<Agenda<'a>, AllocError> {
        let mut agenda = Agenda {
            calls: Vec::new(heap),
            purposes: Vec::new(heap),
        };
        let mut accounts = 0u8;
        let mut months = Vec::new(heap);
        for line in lines {
            let call = line.call();
            agenda.add(call, Purpose::Line)?;
            match call {
                Call::Enter(_) if (accounts as usize) < MAX_ACCOUNTS => accounts += 1,
                Call::List(month) if !months.contains(&month) => months.push(month)?,
                Call::Close => agenda.add_table(accounts)?,
                _ => {}
            }
        }
        agenda.add_statement(accounts, months.as_slice())?;
        Ok(agenda)
    }
}

// A run: the book as it stands after it, and what happened.
#[derive(Drop)]
pub(crate) struct Replay {
    pub(crate) book: Book<OfficeCalendar, OfficeRates>,
    pub(crate) story: Story,
}

// Runs the calls of these lines on a new book of a number, which starts on a day.
pub(crate) fn run_lines(
    heap: Global,
    office: Office,
    number: u32,
    start: u32,
    lines: &[CallLine<'_>],
) -> Result<Replay, Failure> {
    let Office { calendar, rates } = office;
    let agenda = Agenda::of(heap, lines)?;
    let Ran { replies, book } = run(
        heap,
        calendar,
        rates,
        number,
        start,
        agenda.calls.as_slice(),
    )?;
    let mut teller = Teller::new(heap, book.calendar(), number, lines);
    for (purpose, reply) in agenda.purposes.iter().zip(replies) {
        teller.hear(*purpose, reply)?;
    }
    let story = teller.story;
    Ok(Replay { book, story })
}
