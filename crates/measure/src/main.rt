// Prices, day factors, corrections, trade sheets, closes and whole books in bulk, over numbers that
// every run repeats.
#![tactic(auto)]

mod books;
mod closes;
mod figures;
mod gaps;
mod numbers;
mod sheets;

use anyhow::anyhow;
use books::{IDLE, IMPORTS, Plan, YEARS, books, prices_alone};
use closes::closes;
use figures::{factors, prices};
use gaps::corrections;
use sheets::sheets;
use std::alloc::Global;
use std::process::ExitCode;
use std::{env, io};

const HELP: &str =
    "a command is prices N, factors N, corrections N, sheets N, closes N ACCOUNTS TRADES, \
imports N, idle N, import-prices N, years N or year-prices N";

// What a command prints.
fn answer(heap: Global, command: &str, numbers: &[u32]) -> anyhow::Result<String> {
    match (command, numbers) {
        ("prices", [n]) => Ok(format!(in heap; "{n} prices, sum {}", prices(*n))?),
        ("factors", [n]) => Ok(format!(in heap; "{n} factors, sum {}", factors(*n))?),
        ("corrections", [n]) => {
            let sum = corrections(heap, *n)?;
            Ok(format!(in heap; "{n} corrections, sum {sum}")?)
        }
        ("sheets", [n]) => {
            let total = sheets(heap, *n)?;
            Ok(format!(in heap; "{n} sheets, {total}")?)
        }
        ("closes", [n, accounts @ 1..=32, trades @ 0..=256]) => {
            let sum = closes(*n, *accounts, *trades);
            Ok(format!(in heap;
                "{n} closes of {accounts} accounts and {trades} trades, sum {sum}"
            )?)
        }
        _ => book_answer(heap, command, numbers),
    }
}

// What a command on books prints.
fn book_answer(heap: Global, command: &str, numbers: &[u32]) -> anyhow::Result<String> {
    let figures = match (command, numbers) {
        ("imports", [n]) => books(heap, IMPORTS, *n)?,
        ("idle", [n]) => books(heap, IDLE, *n)?,
        ("import-prices", [n]) => prices_alone(heap, IMPORTS, *n)?,
        ("years", [n]) => books(heap, YEARS, *n)?,
        ("year-prices", [n]) => prices_alone(heap, YEARS, *n)?,
        _ => return Err(anyhow!(HELP)),
    };
    Ok(format!(in heap; "{command}: {figures}")?)
}

fn run(rt: &HostRuntime) -> anyhow::Result<()> {
    let mut words = env::args(rt)?.skip(1);
    let command = words.next().ok_or(anyhow!(HELP))?;
    let mut numbers = Vec::new(rt.alloc());
    for word in words {
        let number = word.as_str().parse::<u32>().map_err(|_| anyhow!(HELP))?;
        numbers.push(number)?;
    }
    let printed = answer(rt.alloc(), command.as_str(), numbers.as_slice())?;
    println!(rt; "{printed}")?;
    Ok(())
}

fn main(rt: HostRuntime) -> io::Result<ExitCode> {
    match run(&rt) {
        Ok(()) => Ok(ExitCode::SUCCESS),
        Err(failure) => {
            eprintln!(rt; "measure: {failure}")?;
            Ok(ExitCode::FAILURE)
        }
    }
}
