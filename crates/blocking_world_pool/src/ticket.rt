//! The job of a world, as its pool has it.
ghost use Rattle.std.specs.Prelude.{◌≡◌};

use blocking_core::pool::{Job, JobNo, JobStep};

/// A job in a pool of tickets: whether its holder let it go, and nothing else.
///
/// A queued or parked job's ticket lies in the pool. A running job has none: it is made anew where its turn ends waiting, from what
/// its holder is then.
#[derive(Clone, Copy, Debug)]
pub struct Ticket {
    /// Whether the job's holder let it go.
    pub is_marked: bool,
}

impl Ticket {
    ghost use Rattle.blocking_world_pool.specs.Tickets.{new_ticket};

    /// The ticket of a new job, which nobody let go.
    pub fn new() -> Ticket
        ensures { result ≡ new_ticket }
    {
        Ticket { is_marked: false }
    }
}

impl Job for Ticket {
    ghost may_answer = { λ ticket answer. ticket.is_marked ≡ answer };

    // In a world what a job does is steps of the layer above, and nobody calls this.
    fn step(&mut self, _me: JobNo) -> JobStep {
        JobStep::Done
    }

    fn abandoned(&self) -> bool {
        self.is_marked
    }
}
