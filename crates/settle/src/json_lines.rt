// What a run prints for each call, as an object of JSON a line.
use crate::figures::{Code, date};
use crate::journal::CallLine;
use crate::replies::layer_word;
use crate::story::{Answer, ClosedSession, Detail, Story};
use book::ImportOutcome;
use refusal::Refusal;
use serde::Serialize;
use std::alloc::{AllocError, Global};

// The members of a line, in their order; those that its answer has.
#[derive(Drop, Serialize)]
struct Members<'a> {
    line: usize,
    call: &'a str,
    #[serde(skip_serializing_if = "Option::is_none")]
    index: Option<u8>,
    #[serde(skip_serializing_if = "Option::is_none")]
    expiry: Option<String>,
    #[serde(skip_serializing_if = "Option::is_none")]
    price: Option<u32>,
    #[serde(skip_serializing_if = "Option::is_none")]
    taken: Option<usize>,
    #[serde(skip_serializing_if = "Option::is_none")]
    at: Option<usize>,
    #[serde(skip_serializing_if = "Option::is_none")]
    refused: Option<u32>,
    #[serde(skip_serializing_if = "Option::is_none")]
    layer: Option<&'static str>,
    #[serde(skip_serializing_if = "Option::is_none")]
    why: Option<&'static str>,
    #[serde(skip_serializing_if = "Option::is_none")]
    month: Option<String>,
    #[serde(skip_serializing_if = "Option::is_none")]
    number: Option<u32>,
    #[serde(skip_serializing_if = "Option::is_none")]
    day: Option<String>,
    #[serde(skip_serializing_if = "Option::is_none")]
    adjustments: Option<Vec<Vec<i64>>>,
    #[serde(skip_serializing_if = "Option::is_none")]
    day_trades: Option<Vec<Vec<i64>>>,
    #[serde(skip_serializing_if = "Option::is_none")]
    contracts: Option<i32>,
    #[serde(skip_serializing_if = "Option::is_none")]
    paid: Option<i64>,
    #[serde(skip_serializing_if = "Option::is_none")]
    due: Option<i64>,
    #[serde(skip_serializing_if = "Option::is_none")]
    nothing: Option<&'static str>,
}

// What a close wrote in one of its two arrays, a row for each account.
fn rows(
    heap: Global,
    session: &ClosedSession,
    amounts: &[i64],
) -> Result<Vec<Vec<i64>>, AllocError> {
    let mut rows = Vec::new(heap);
    for account in 0..session.dues.len() {
        rows.push(Vec::from_slice(heap, session.row(amounts, account))?)?;
    }
    Ok(rows)
}

impl<'a> Members<'a> {
    // Those that every line has.
    fn of(line: &CallLine<'a>) -> Members<'a> {
        Members {
            line: line.number,
            call: line.name(),
            index: None,
            expiry: None,
            price: None,
            taken: None,
            at: None,
            refused: None,
            layer: None,
            why: None,
            month: None,
            number: None,
            day: None,
            adjustments: None,
            day_trades: None,
            contracts: None,
            paid: None,
            due: None,
            nothing: None,
        }
    }

    fn set_day(&mut self, heap: Global, day: u32) -> Result<(), AllocError> {
        self.day = Some(format!(in heap; "{}", date(day))?);
        Ok(())
    }

    fn set_close(&mut self, heap: Global, session: &ClosedSession) -> Result<(), AllocError> {
        let closing = &session.closing;
        self.set_day(heap, session.day)?;
        self.adjustments = Some(rows(heap, session, closing.adjustments.as_slice())?);
        self.day_trades = Some(rows(heap, session, closing.day_trades.as_slice())?);
        Ok(())
    }

    fn set_import(&mut self, outcome: ImportOutcome) {
        self.taken = Some(outcome.taken);
        if let Some(stop) = outcome.stop {
            self.at = Some(stop.line);
            self.refused = Some(stop.refusal.number());
            self.layer = Some(layer_word(stop.layer));
            self.why = Some(stop.refusal.cause());
        }
    }

    fn set_refusal(
        &mut self,
        heap: Global,
        refusal: Refusal,
        detail: Detail,
    ) -> Result<(), AllocError> {
        self.refused = Some(refusal.number());
        self.why = Some(refusal.cause());
        match detail {
            Detail::Nothing => {}
            Detail::Month(month) => self.month = Some(format!(in heap; "{}", Code { month })?),
            Detail::Day(day) => self.set_day(heap, day)?,
        }
        Ok(())
    }

    fn set_answer(
        &mut self,
        heap: Global,
        story: &Story,
        answer: &Answer,
    ) -> Result<(), AllocError> {
        match *answer {
            Answer::Published | Answer::Arbitrated | Answer::Marked => {}
            Answer::Entered(index) => self.index = Some(index),
            Answer::Listed { index, expiry } => {
                self.index = Some(index);
                self.expiry = Some(format!(in heap; "{}", date(expiry))?);
            }
            Answer::Opened(day) | Answer::Paid(day) => self.set_day(heap, day)?,
            Answer::Traded(price) => self.price = Some(price),
            Answer::Imported(outcome) => self.set_import(outcome),
            Answer::Closed { place, .. } => {
                if let Some(session) = story.closed.get(place) {
                    self.set_close(heap, session)?;
                }
            }
            Answer::WrittenOff { number, day } => {
                self.number = Some(number);
                self.set_day(heap, day)?;
            }
            Answer::Position(contracts) => self.contracts = Some(contracts),
            Answer::Balance(balance) => {
                self.paid = Some(balance.paid);
                self.due = Some(balance.due);
            }
            Answer::Refused(refusal, detail) => self.set_refusal(heap, refusal, detail)?,
            Answer::Nothing(why) => self.nothing = Some(why),
        }
        Ok(())
    }
}

// A value as one line of JSON.
pub(crate) fn push_object<T: Serialize>(
    heap: Global,
    text: &mut String,
    value: &T,
) -> Result<(), AllocError> {
    // Kept: a value without floats and keys is refused for want of memory alone.
    let object = serde_json::to_string(heap, value).map_err(|_| AllocError)?;
    text.push_str(object.as_str())?;
    text.push_str("\n")
}

// The objects of the calls and their answers.
pub(crate) fn json_print(
    heap: Global,
    lines: &[CallLine<'_>],
    story: &Story,
) -> Result<String, AllocError> {
    let mut text = String::new(heap);
    for (line, answer) in lines.iter().zip(story.answers.iter()) {
        let mut members = Members::of(line);
        members.set_answer(heap, story, answer)?;
        push_object(heap, &mut text, &members)?;
    }
    Ok(text)
}
