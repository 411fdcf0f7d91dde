// What a book hands out: the ticket of an open session, the slip of a closed one that is not paid.
ghost use Rattle.std.specs.Prelude.{◌≡◌};
ghost use Rattle.model.specs.Answers.{numbers_of};

use refusal::Refusal;
use std::marker::Model;

/// An open session of a book: moved, and used up by an accepted close.
#[derive(Drop)]
pub struct Ticket {
    number: u32,
    day: u32,
}

impl Model for Ticket {
    ghost use Rattle.model.specs.References.{SessionReference};

    ghost Value = { SessionReference };

    ghost view = { λ t. record { number = t.number; day = t.day } };
}

impl Ticket {
    pub(crate) fn new(number: u32, day: u32) -> Ticket
        ensures { result ≡ record { number = number; day = day } }
    {
        Ticket { number, day }
    }

    /// The number of the book.
    pub fn number(&self) -> u32
        ensures { result ≡ self.now.number }
    {
        self.number
    }

    /// The day of the session.
    pub fn day(&self) -> u32
        ensures { result ≡ self.now.day }
    {
        self.day
    }
}

/// A closed session of a book that is not paid: it must end in a payment or be written off, and cannot
/// be let go.
pub struct Slip {
    number: u32,
    day: u32,
}

impl Model for Slip {
    ghost use Rattle.model.specs.References.{SessionReference};

    ghost Value = { SessionReference };

    ghost view = { λ s. record { number = s.number; day = s.day } };
}

impl Slip {
    pub(crate) fn new(number: u32, day: u32) -> Slip
        ensures { result ≡ record { number = number; day = day } }
    {
        Slip { number, day }
    }

    /// The number of the book.
    pub fn number(&self) -> u32
        ensures { result ≡ self.now.number }
    {
        self.number
    }

    /// The day of the session.
    pub fn day(&self) -> u32
        ensures { result ≡ self.now.day }
    {
        self.day
    }

    /// Ends the slip without a payment, and answers the book's number and the session's day: its
    /// amounts remain due.
    pub fn write_off(self) -> (u32, u32)
        ensures { result ≡ numbers_of self }
    {
        let Slip { number, day } = self;
        (number, day)
    }
}

/// Why a payment is refused, with the slip.
pub struct PayRefused {
    pub refusal: Refusal,
    pub slip: Slip,
}

/// Why a close is refused, with the ticket.
#[derive(Drop)]
pub struct CloseRefused {
    pub refusal: Refusal,
    pub ticket: Ticket,
}
