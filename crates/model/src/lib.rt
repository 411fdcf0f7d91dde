// The model of a settlement book, and what is claimed of it.
#![tactic(auto)]

mod calls;
mod claims;

pub use calls::{Account, Balance, Layer, Order};
pub use claims::{claims_hold, laws_hold};
