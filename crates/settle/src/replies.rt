// What a run prints for each call, as text.
use crate::figures::{Code, Counted, Points, Reais, date};
use crate::journal::CallLine;
use crate::story::{Answer, ClosedSession, Detail, Story};
use book::{ImportOutcome, ImportStop};
use model::Layer;
use refusal::Refusal;
use std::alloc::{AllocError, Global};
use std::fmt;

const TABLE_HEADING: &str =
    "       account  month      adjustment   day-trade part      total due\n";

// A refusal, in words.
#[derive(Clone, Copy)]
pub(crate) struct RefusalWords {
    pub(crate) refusal: Refusal,
    pub(crate) detail: Detail,
}

impl fmt::Display for RefusalWords {
    fn fmt<W: fmt::Write>(&self, f: &mut fmt::Formatter<W>) -> fmt::Result {
        let number = self.refusal.number();
        let cause = self.refusal.cause();
        match self.detail {
            Detail::Nothing => write!(f, "refused {number}: {cause}"),
            Detail::Month(month) => {
                let code = Code { month };
                write!(f, "refused {number}: {cause} {code}")
            }
            Detail::Day(day) => {
                let day = date(day);
                write!(f, "refused {number}: {cause} {day}")
            }
        }
    }
}

// Who refused a line of a sheet.
pub(crate) fn layer_word(layer: Layer) -> &'static str {
    match layer {
        Layer::Sheet => "sheet",
        Layer::Book => "book",
    }
}

// Where an import stopped, in words.
#[derive(Clone, Copy)]
pub(crate) struct StopWords {
    pub(crate) stop: ImportStop,
}

impl fmt::Display for StopWords {
    fn fmt<W: fmt::Write>(&self, f: &mut fmt::Formatter<W>) -> fmt::Result {
        let line = self.stop.line;
        let number = self.stop.refusal.number();
        let layer = layer_word(self.stop.layer);
        let cause = self.stop.refusal.cause();
        write!(f, "line {line} refused {number} by the {layer}: {cause}")
    }
}

// What an import came to, in words.
#[derive(Clone, Copy)]
struct ImportWords {
    outcome: ImportOutcome,
}

impl fmt::Display for ImportWords {
    fn fmt<W: fmt::Write>(&self, f: &mut fmt::Formatter<W>) -> fmt::Result {
        let lines = Counted::lines(self.outcome.taken as i128);
        match self.outcome.stop {
            None => write!(f, "{lines} taken"),
            Some(stop) => write!(f, "{lines} taken; {}", StopWords { stop }),
        }
    }
}

impl fmt::Display for Answer {
    fn fmt<W: fmt::Write>(&self, f: &mut fmt::Formatter<W>) -> fmt::Result {
        match *self {
            Answer::Entered(index) => write!(f, "account {index}"),
            Answer::Listed { index, expiry } => write!(
                f,
                "month {index}, expires {}",
                date(expiry)
            ),
            Answer::Published => write!(f, "published"),
            Answer::Arbitrated => write!(f, "arbitrated"),
            Answer::Opened(day) => write!(f, "session {}", date(day)),
            Answer::Traded(price) => write!(
                f,
                "{}",
                Points {
                    hundredths: price as u64
                }
            ),
            Answer::Imported(outcome) => write!(f, "{}", ImportWords { outcome }),
            Answer::Marked => write!(f, "marked"),
            Answer::Closed { day, .. } => write!(f, "session {} closed", date(day)),
            Answer::Paid(day) => write!(f, "session {} paid", date(day)),
            Answer::WrittenOff { number, day } => {
                write!(f, "book {number}, session {}, written off", date(day))
            }
            Answer::Position(contracts) => write!(
                f,
                "{}",
                Counted::contracts(i128::from(contracts))
            ),
            Answer::Balance(balance) => {
                let paid = Reais {
                    centavos: balance.paid,
                };
                let due = Reais {
                    centavos: balance.due,
                };
                write!(f, "paid {paid}, due {due}")
            }
            Answer::Refused(refusal, detail) => write!(f, "{}", RefusalWords { refusal, detail }),
            Answer::Nothing(why) => write!(f, "nothing done: {why}"),
        }
    }
}

// The words of a line, one blank between them.
fn push_words(text: &mut String, line: &CallLine<'_>) -> Result<(), AllocError> {
    let number = line.number;
    write!(text, "{number:>5} ")?;
    for word in line.words.iter() {
        write!(text, " {word}")?;
    }
    Ok(())
}

// The table of a close: an account's months, each with what is due to the account.
fn push_table(text: &mut String, story: &Story, session: &ClosedSession) -> Result<(), AllocError> {
    text.push_str(TABLE_HEADING)?;
    for (account, due) in session.dues.iter().enumerate() {
        let due = Reais { centavos: *due };
        let adjustments = session.row(session.closing.adjustments.as_slice(), account);
        let day_trades = session.row(session.closing.day_trades.as_slice(), account);
        let amounts = adjustments.iter().zip(day_trades);
        for (month, (adjustment, day_trade)) in story.months.iter().zip(amounts) {
            let code = Code {
                month: month.number,
            };
            let adjustment = Reais {
                centavos: *adjustment,
            };
            let day_trade = Reais {
                centavos: *day_trade,
            };
            write!(
                text,
                "{account:>14}  {code}{adjustment:>15}{day_trade:>17}{due:>15}\n"
            )?;
        }
    }
    Ok(())
}

// The lines of the calls and their answers.
pub(crate) fn replies_print(
    heap: Global,
    lines: &[CallLine<'_>],
    story: &Story,
) -> Result<String, AllocError> {
    let mut text = String::new(heap);
    for (line, answer) in lines.iter().zip(story.answers.iter()) {
        push_words(&mut text, line)?;
        write!(text, ": {answer}\n")?;
        if let Answer::Closed { place, .. } = answer
            && let Some(session) = story.closed.get(*place)
        {
            push_table(&mut text, story, session)?;
        }
    }
    Ok(text)
}
