//! A desk with a book: it holds the ticket and the slip between calls, and runs any list of calls from
//! making the book on.
#![tactic(auto)]

mod calls;
mod desk;
mod running;
mod topmost;

pub use calls::{Call, Closing, Reply};
pub use desk::Desk;
pub use running::{Ran, run};
pub use topmost::Topmost;
