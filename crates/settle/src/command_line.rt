// The command line: the commands with their words, and what they ask.
use crate::corrections::correct_gap;
use crate::failure::{Failure, in_words};
use crate::figures::{factor_print, price_print};
use crate::report::{PriceOptions, prices};
use crate::run::{Output, RunOptions, run_journal};
use crate::sheets::{make, show};
use clap::error::ErrorKind;
use clap::{Arg, ArgAction, ArgMatches, Command, Error};
use std::alloc::{AllocError, Global};
use std::process::ExitCode;

// How a bad command line ends.
pub(crate) const BAD_COMMAND_LINE: u8 = 2;

const HELP: &str =
    "settle run [--strict] [--json] [--csv DIR] JOURNAL  replays a book from its journal, and says what each call answered
settle prices [--json] [--csv DIR] OFFICE SHEET     prices every line of a sheet on the office's calendar
settle correct OFFICE FROM TO PRICE                 carries a settlement price over the reserve days of a gap
settle sheet show FILE                              prints a sheet as text
settle sheet make TEXTFILE FILE                     writes the sheet that a text describes
settle price RATE DAYS                              the price of a dealt rate over a number of reserve days
settle factor RATE                                  the day factor of a DI rate
settle help                                         this list
";

// A word that a command asks for; a number below 0 is no option.
fn word<'a>(heap: Global, name: &'a str, help: &'a str) -> Arg<'a> {
    Arg::new(heap, name)
        .required(true)
        .allow_negative_numbers(true)
        .help(help)
}

fn flag<'a>(heap: Global, name: &'a str, help: &'a str) -> Arg<'a> {
    Arg::new(heap, name)
        .long(name)
        .action(ArgAction::SetTrue)
        .help(help)
}

// The option that names a folder for tables.
fn csv_option<'a>(heap: Global) -> Arg<'a> {
    Arg::new(heap, "csv").long("csv").value_name("DIR").help(
        "writes tables of comma-separated values into the folder DIR",
    )
}

fn run_command<'a>(heap: Global) -> Result<Command<'a>, Error> {
    Ok(
        Command::new(heap, "run")
            .about("replays a book from its journal, and says what each call answered")
            .arg(flag(heap, "strict", "ends the run at the first refused call"))?
            .arg(flag(heap, "json", "prints an object of JSON for each call"))?
            .arg(csv_option(heap))?
            .arg(word(
                heap,
                "JOURNAL",
                "the lines of an office, a book line, and the calls",
            ))?,
    )
}

fn prices_command<'a>(heap: Global) -> Result<Command<'a>, Error> {
    Ok(
        Command::new(heap, "prices")
            .about("prices every line of a sheet on the office's calendar")
            .arg(flag(heap, "json", "prints an object of JSON for each line"))?
            .arg(csv_option(heap))?
            .arg(word(heap, "OFFICE", "a calendar and rates"))?
            .arg(word(heap, "SHEET", "a trade sheet"))?,
    )
}

fn correct_command<'a>(heap: Global) -> Result<Command<'a>, Error> {
    Ok(
        Command::new(heap, "correct")
            .about("carries a settlement price over the reserve days of a gap")
            .arg(word(heap, "OFFICE", "a calendar and rates"))?
            .arg(word(heap, "FROM", "the day of the price, a date like 2026-12-30"))?
            .arg(word(heap, "TO", "the day to which it is corrected"))?
            .arg(word(heap, "PRICE", "points, like 99925.00"))?,
    )
}

fn sheet_command<'a>(heap: Global) -> Result<Command<'a>, Error> {
    let show = Command::new(heap, "show")
        .about("prints a sheet as text")
        .arg(word(heap, "FILE", "a trade sheet"))?;
    let make = Command::new(heap, "make")
        .about("writes the sheet that a text describes")
        .arg(word(heap, "TEXTFILE", "what show prints"))?
        .arg(word(heap, "FILE", "the sheet to write"))?;
    Ok(
        Command::new(heap, "sheet")
            .about("shows a trade sheet, or makes one")
            .subcommand_required(true)
            .disable_help_subcommand(true)
            .subcommand(show)?
            .subcommand(make)?,
    )
}

fn price_command<'a>(heap: Global) -> Result<Command<'a>, Error> {
    Ok(
        Command::new(heap, "price")
            .about("the price of a dealt rate over a number of reserve days")
            .arg(word(heap, "RATE", "a percentage, like 10.5"))?
            .arg(word(heap, "DAYS", "reserve days, up to 2520"))?,
    )
}

fn factor_command<'a>(heap: Global) -> Result<Command<'a>, Error> {
    Ok(
        Command::new(heap, "factor")
            .about("the day factor of a DI rate")
            .arg(word(heap, "RATE", "a percentage, like 10.5"))?,
    )
}

// The whole command line.
fn settle_command<'a>(heap: Global) -> Result<Command<'a>, Error> {
    Ok(
        Command::new(heap, "settle")
            .version("1.0.0")
            .about("A settlement book of the DI1 future")
            .subcommand_required(true)
            .arg_required_else_help(true)
            .disable_help_subcommand(true)
            .subcommand(run_command(heap)?)?
            .subcommand(prices_command(heap)?)?
            .subcommand(correct_command(heap)?)?
            .subcommand(sheet_command(heap)?)?
            .subcommand(price_command(heap)?)?
            .subcommand(factor_command(heap)?)?
            .subcommand(Command::new(heap, "help").about("lists the commands"))?,
    )
}

// What the words of a command line ask, the program's name among them.
fn matches_of<'a>(heap: Global, words: &'a [String]) -> Result<ArgMatches<'a>, Error> {
    settle_command(heap)?.try_get_matches_from(words)
}

// A word without which the command line would have been refused.
fn given<'a>(matches: &ArgMatches<'a>, name: &str) -> &'a str {
    matches.get_str(name).unwrap_or("")
}

// What is printed, and how a command line ends that asks for no command: with the help or the version, or
// with what is wrong with it.
fn told(rt: &HostRuntime, error: Error) -> Result<ExitCode, Failure> {
    if error.kind() == ErrorKind::OutOfMemory {
        return Err(Failure::Memory(AllocError));
    }
    error.print(rt)?;
    Ok(if error.use_stderr() {
        ExitCode::from(BAD_COMMAND_LINE)
    } else {
        ExitCode::SUCCESS
    })
}

fn run_print(rt: &HostRuntime, matches: &ArgMatches<'_>) -> Result<Output, Failure> {
    let options = RunOptions {
        strict: matches.get_flag("strict"),
        json: matches.get_flag("json"),
        csv: matches.get_str("csv"),
    };
    run_journal(rt, given(matches, "JOURNAL"), options)
}

fn prices_print(rt: &HostRuntime, matches: &ArgMatches<'_>) -> Result<String, Failure> {
    let options = PriceOptions {
        json: matches.get_flag("json"),
        csv: matches.get_str("csv"),
    };
    prices(
        rt,
        given(matches, "OFFICE"),
        given(matches, "SHEET"),
        options,
    )
}

fn correct_print(rt: &HostRuntime, matches: &ArgMatches<'_>) -> Result<String, Failure> {
    let from = given(matches, "FROM");
    let to = given(matches, "TO");
    correct_gap(
        rt,
        given(matches, "OFFICE"),
        from,
        to,
        given(matches, "PRICE"),
    )
}

fn sheet_print(rt: &HostRuntime, matches: &ArgMatches<'_>) -> Result<String, Failure> {
    match matches.subcommand() {
        Some(("make", words)) => make(rt, given(words, "TEXTFILE"), given(words, "FILE")),
        Some((_, words)) => show(rt, given(words, "FILE")),
        None => Ok(String::new(rt.alloc())),
    }
}

// What a command prints that is no run.
fn other_print(rt: &HostRuntime, name: &str, words: &ArgMatches<'_>) -> Result<String, Failure> {
    let heap = rt.alloc();
    match name {
        "prices" => prices_print(rt, words),
        "correct" => correct_print(rt, words),
        "sheet" => sheet_print(rt, words),
        "price" => in_words(
            heap,
            price_print(heap, given(words, "RATE"), given(words, "DAYS")),
        ),
        "factor" => in_words(heap, factor_print(heap, given(words, "RATE"))),
        _ => Ok(String::from_str(heap, HELP)?),
    }
}

// What a command prints, and the refusal that is told after it.
fn output(rt: &HostRuntime, matches: &ArgMatches<'_>) -> Result<Output, Failure> {
    match matches.subcommand() {
        Some(("run", words)) => run_print(rt, words),
        Some((name, words)) => Ok(Output {
            text: other_print(rt, name, words)?,
            refused: None,
        }),
        None => Ok(Output {
            text: String::new(rt.alloc()),
            refused: None,
        }),
    }
}

// Does what the words of the command line ask, and prints it.
pub(crate) fn obey(rt: &HostRuntime, words: &[String]) -> Result<ExitCode, Failure> {
    let matches = match matches_of(rt.alloc(), words) {
        Ok(matches) => matches,
        Err(error) => return told(rt, error),
    };
    let Output { text, refused } = output(rt, &matches)?;
    rt.print(text)?;
    match refused {
        Some(refused) => Err(refused),
        None => Ok(ExitCode::SUCCESS),
    }
}
