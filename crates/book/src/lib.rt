// A position book over any calendar and any source of rates.
#![tactic(auto)]

mod closing;
mod gap;
mod import;
mod ledger;
mod position_book;
mod references;

pub use import::{ImportOutcome, ImportStop};
pub use position_book::{Book, Kept};
pub use references::{CloseRefused, PayRefused, Slip, Ticket};

#[cfg(test)]
mod tests;
