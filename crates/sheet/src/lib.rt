// Contract codes, and the trade sheet read and written.
#![tactic(auto)]

mod code;
mod fault;
mod letters;
#[cfg(test)]
mod tests;
mod trade_line;
mod view;
mod writing;

pub use code::ContractCode;
pub use fault::{SheetFault, WriteFault};
pub use letters::{letter, month_of_letter};
pub use trade_line::TradeLine;
pub use view::{SheetView, Trades, read, read_for};
pub use writing::write;
