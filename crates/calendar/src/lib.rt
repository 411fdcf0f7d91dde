//! Which days are sessions and which are reserve days, in calendars of any make, and what follows
//! from that: the expiry of a month, the reserve days of a range, the next session.
#![tactic(auto)]

pub mod kind;
pub mod marked;
pub mod rule;
pub mod span;
#[cfg(test)]
mod tests;
