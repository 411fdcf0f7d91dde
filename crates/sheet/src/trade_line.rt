// The lines of a trade sheet.

/// A trade as a sheet has it: the sides in rate, the month counted from January 2000, the rate in
/// thousandths of a percent, and the quantity in contracts. Any number that fits is read and
/// written; whether it is a trade of a book is the book's to say.
#[derive(Clone, Copy, PartialEq, Eq, Debug)]
pub struct TradeLine {
    pub buyer: u8,
    pub seller: u8,
    pub month: u32,
    pub rate: u32,
    pub quantity: u32,
}
