// Why a command is refused.
use crate::sheets::FaultWords;
use correction::Uncorrected;
use dates::Day;
use interest::Unpriceable;
use refusal::Refusal;
use std::alloc::{AllocError, Global};
use std::io;
use thiserror::Error;

// Why the words of a command or of a line are refused.
#[derive(Debug, Drop, Error)]
pub(crate) enum Complaint<'a> {
    #[error("{0}")]
    Words(&'static str),
    #[error("expected: {0}")]
    Expected(&'static str),
    #[error("{what}: {word}; expected {expected}")]
    NoSuch {
        what: &'static str,
        word: &'a str,
        expected: &'static str,
    },
    #[error("cannot read {0}")]
    CannotRead(&'a str),
    #[error("cannot read {0}: over 64 MiB")]
    TooLarge(&'a str),
    #[error("cannot write {0}")]
    CannotWrite(&'a str),
    #[error("{0}")]
    NoSheet(FaultWords<'a>),
    #[error("{0} is no session of the calendar")]
    NoSession(Day),
    #[error("refused {number}: {refusal}")]
    Refused {
        number: u32,
        refusal: Refusal,
    },
    #[error("{0}")]
    Unpriceable(#[from] Unpriceable),
    #[error("{0}")]
    Uncorrected(#[from] Uncorrected),
    #[error("out of memory")]
    Memory(#[from(alloc)] AllocError),
}

impl From<rates::error::Error> for Complaint<'_> {
    fn from(error: rates::error::Error) -> Self {
        let refusal = Refusal::from(error);
        Complaint::Refused {
            number: refusal.number(),
            refusal,
        }
    }
}

#[derive(Debug, Drop, Error)]
pub(crate) enum Failure {
    // in these words
    #[error("{0}")]
    InWords(String),
    // at a line of a text file
    #[error("{file}:{line}: {words}")]
    AtLine {
        file: String,
        line: usize,
        words: String,
    },
    // about a file
    #[error("{file}: {words}")]
    About {
        file: String,
        words: String,
    },
    #[error("out of memory")]
    Memory(#[from(alloc)] AllocError),
    #[error("cannot write standard output")]
    Output(#[from] io::Error),
}

impl Complaint<'_> {
    // In words, unless memory ran out.
    fn words(self, heap: Global) -> Result<String, AllocError> {
        match self {
            Complaint::Memory(e) => Err(e),
            complaint => format!(in heap; "{complaint}"),
        }
    }
}

// What the words of a command gave.
pub(crate) fn in_words<T: Drop>(
    heap: Global,
    answer: Result<T, Complaint<'_>>,
) -> Result<T, Failure> {
    answer.try_map_err(|complaint| Ok(Failure::InWords(complaint.words(heap)?)))
}

// A file by its name, and where complaints about it are written.
#[derive(Clone, Copy)]
pub(crate) struct Source<'a> {
    pub(crate) heap: Global,
    pub(crate) file: &'a str,
}

impl Source<'_> {
    // What a line gave.
    pub(crate) fn at_line<T: Drop>(
        &self,
        line: usize,
        answer: Result<T, Complaint<'_>>,
    ) -> Result<T, Failure> {
        answer.try_map_err(|complaint| {
            Ok(Failure::AtLine {
                words: complaint.words(self.heap)?,
                file: String::from_str(self.heap, self.file)?,
                line,
            })
        })
    }

    // What the file as a whole gave.
    pub(crate) fn about<T: Drop>(&self, answer: Result<T, Complaint<'_>>) -> Result<T, Failure> {
        answer.try_map_err(|complaint| {
            Ok(Failure::About {
                words: complaint.words(self.heap)?,
                file: String::from_str(self.heap, self.file)?,
            })
        })
    }
}
