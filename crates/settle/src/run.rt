// The command `run`: a book replayed from its journal.
use crate::book_tables::write_book_tables;
use crate::failure::{Failure, Source, in_words};
use crate::files::read_text;
use crate::journal::{CallLine, Journal, journal_of};
use crate::json_lines::json_print;
use crate::replay::{Replay, run_lines};
use crate::replies::{RefusalWords, StopWords, replies_print};
use crate::statement::push_statement;
use crate::story::Answer;
use crate::tables::TableFolder;
use std::alloc::{AllocError, Global};

// What a run is asked to print and to write, and whether a refusal ends it.
#[derive(Clone, Copy)]
pub(crate) struct RunOptions<'a> {
    pub(crate) strict: bool,
    pub(crate) json: bool,
    pub(crate) csv: Option<&'a str>,
}

// What a command prints, and the refusal that is told after it.
#[derive(Drop)]
pub(crate) struct Output {
    pub(crate) text: String,
    pub(crate) refused: Option<Failure>,
}

// The refusal of a line, that ends a strict run.
fn refusal_at(
    source: &Source<'_>,
    line: &CallLine<'_>,
    answer: Answer,
) -> Result<Option<Failure>, AllocError> {
    let heap = source.heap;
    let words = match (answer, answer.stop()) {
        (Answer::Refused(refusal, detail), _) => {
            format!(in heap; "{}", RefusalWords { refusal, detail })?
        }
        (_, Some(stop)) => format!(in heap; "{}", StopWords { stop })?,
        (_, None) => return Ok(None),
    };
    Ok(Some(Failure::AtLine {
        file: String::from_str(heap, source.file)?,
        line: line.number,
        words,
    }))
}

// A run up to its first refusal, and that refusal, where there is one: the calls up to it are run anew, so
// that the questions of the statement come right after it.
fn up_to_refusal(
    source: &Source<'_>,
    journal: &Journal<'_>,
    whole: Replay,
) -> Result<(Replay, Option<Failure>), Failure> {
    let lines = journal.calls.as_slice();
    let Some(place) = whole.story.first_refusal() else {
        return Ok((whole, None));
    };
    let (Some(line), Some(answer)) = (lines.get(place), whole.story.answers.get(place)) else {
        return Ok((whole, None));
    };
    let refused = refusal_at(source, line, *answer)?;
    let shown = lines.get(..place.saturating_add(1)).unwrap_or(lines);
    let office = journal.office(source)?;
    let run = run_lines(source.heap, office, journal.number, journal.start, shown)?;
    Ok((run, refused))
}

// What is printed of a run.
fn print(
    heap: Global,
    lines: &[CallLine<'_>],
    replay: &Replay,
    json: bool,
) -> Result<String, AllocError> {
    if json {
        return json_print(heap, lines, &replay.story);
    }
    let mut text = replies_print(heap, lines, &replay.story)?;
    push_statement(heap, &mut text, replay)?;
    Ok(text)
}

// Replays the book of a journal.
pub(crate) fn run_journal(
    rt: &HostRuntime,
    file: &str,
    options: RunOptions<'_>,
) -> Result<Output, Failure> {
    let heap = rt.alloc();
    let source = Source { heap, file };
    let text = in_words(heap, read_text(rt, file))?;
    let (journal, office) = journal_of(rt, &source, text.as_str())?;
    let lines = journal.calls.as_slice();
    let whole = run_lines(heap, office, journal.number, journal.start, lines)?;
    let (replay, refused) = if options.strict {
        up_to_refusal(&source, &journal, whole)?
    } else {
        (whole, None)
    };
    if let Some(name) = options.csv {
        write_book_tables(heap, &TableFolder { rt, name }, &replay.story)?;
    }
    let text = print(heap, lines, &replay, options.json)?;
    Ok(Output { text, refused })
}
