// What the calls of a book take, and what they answer.

/// An account: a client, through a participant and its clearing member.
#[derive(Clone, Copy, Default, PartialEq, Eq, Debug)]
pub struct Account {
    pub client: u32,
    pub participant: u32,
    pub member: u32,
}

/// An order to trade: the accounts that buy and sell in rate and the month, by their indices, the dealt
/// rate in thousandths of a percent, and how many contracts.
#[derive(Clone, Copy, PartialEq, Eq, Debug)]
pub struct Order {
    pub buyer: u8,
    pub seller: u8,
    pub month: u8,
    pub rate: u32,
    pub quantity: u32,
}

/// What an account was paid and what it is due, in centavos.
#[derive(Clone, Copy, PartialEq, Eq, Debug)]
pub struct Balance {
    pub paid: i64,
    pub due: i64,
}

/// Who refused an import: the reader of the sheet, or the book a trade of one of its lines.
#[derive(Clone, Copy, PartialEq, Eq, Debug)]
pub enum Layer {
    Sheet,
    Book,
}
