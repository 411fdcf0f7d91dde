// The program of a clearing broker's staff: keeps a position book by its journal, prices trade sheets, and
// makes and shows them.
#![tactic(auto)]

mod book_tables;
mod check;
mod command_line;
mod corrections;
mod failure;
mod figures;
mod files;
mod journal;
mod json_lines;
mod office;
mod price_rows;
mod replay;
mod replies;
mod report;
mod run;
mod sheets;
mod statement;
mod story;
mod tables;
mod teller;
mod texts;
mod words;

use command_line::{BAD_COMMAND_LINE, obey};
use failure::Failure;
use std::process::ExitCode;
use std::{env, io};

// Does what the command line asks.
fn settle(rt: &HostRuntime) -> Result<ExitCode, Failure> {
    let Ok(given) = env::args(rt) else {
        eprintln!(rt; "settle: a word of the command is not UTF-8")?;
        return Ok(ExitCode::from(BAD_COMMAND_LINE));
    };
    let words: Vec<String> = given.collect(rt.alloc())?;
    obey(rt, words.as_slice())
}

fn main(rt: HostRuntime) -> io::Result<ExitCode> {
    match settle(&rt) {
        Ok(code) => Ok(code),
        Err(failure) => {
            eprintln!(rt; "settle: {failure}")?;
            Ok(ExitCode::FAILURE)
        }
    }
}
