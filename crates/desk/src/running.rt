// A run of any list of calls, from making the book to the last.
ghost use Rattle.std.specs.Prelude.{IfOk};
ghost use Rattle.book.specs.Keeps.{world_of};
ghost use Rattle.desk.specs.Acts.{RanOn, WholeRun};
ghost use Rattle.desk.specs.Runs.{takes};
ghost use Rattle.model.specs.History.{History};
ghost use Rattle.model.specs.World.{World};

use crate::calls::{Call, Reply};
use crate::desk::Desk;
use crate::topmost::Topmost;
use book::{Book, Kept};
use calendar::kind::Calendar;
use std::alloc::{AllocError, Global};

/// What a run came to: the replies to its calls, and the book.
pub struct Ran<C, S> {
    pub replies: Vec<Reply>,
    pub book: Book<C, S>,
}

impl<C: Calendar, S: Topmost<C>> Desk<C, S> {
    /// Makes the calls one after another, and answers each. Where memory is short it stops between two
    /// calls.
    pub fn run(&mut self, heap: Global, calls: &[Call<'_>]) -> Result<Vec<Reply>, AllocError>
        ensures { IfOk result (λ replies. (w : World) (h : History) → ⟦<Book<C, S> as Kept>⟧.keeps w h self.old.book → RanOn (takes S.publishes S.arbitrates) ⟦<Book<C, S> as Kept>⟧.keeps w h calls.now replies.items self.old self.new) }
    {
        let mut replies = Vec::new(heap);
        for call in calls {
            let reply = self.act(heap, *call)?;
            replies.push(reply)?;
        }
        Ok(replies)
    }
}

/// Makes a book of a number, which looks for its first session from the start day on, and makes the
/// calls to it at a desk. A slip that is left is written off.
pub fn run<C: Calendar + Drop, S: Topmost<C> + Drop>(
    heap: Global,
    calendar: C,
    source: S,
    number: u32,
    start: u32,
    calls: &[Call<'_>],
) -> Result<Ran<C, S>, AllocError>
    ensures { IfOk result (λ ran. WholeRun (takes S.publishes S.arbitrates) ⟦<Book<C, S> as Kept>⟧.keeps (world_of number start (C.kinds calendar) (S.meaning source)) calls.now ran.replies.items ran.book) }
{
    let mut desk = Desk::new(calendar, source, number, start);
    match desk.run(heap, calls) {
        Ok(replies) => Ok(Ran {
            replies,
            book: desk.end(),
        }),
        Err(error) => {
            let _ = desk.end();
            Err(error)
        }
    }
}
