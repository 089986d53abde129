//! The decision core of an operation's job. It calls the operation on the handle, leaves the result in its place, and then the handle
//! in the slot.
use std::marker::Model;

/// What the job of an operation does next.
#[derive(Clone, Copy, Debug, PartialEq, Eq)]
pub enum OpAction {
    /// Call the operation on the handle.
    Call,
    /// Put what the operation gave into the result's place.
    PutResult,
    /// Put the handle into the slot.
    Finish,
    /// Call the waker that was taken out of its seat.
    Deliver,
    /// Nothing more: the job is over.
    Done,
}

/// How an action was answered. `woke` says that the owner's waker was taken out of its seat, and has to be called.
#[derive(Clone, Copy, Debug, PartialEq, Eq)]
pub enum OpAnswer {
    /// The operation returned.
    Returned,
    /// The result is in its place.
    ResultPut { woke: bool },
    /// The handle was put.
    Finished { woke: bool },
    /// The waker was called.
    Delivered,
}

/// What the job of an operation does: a step is its next action, and the answer decides what follows.
///
/// It holds no result. Whoever runs it keeps what the operation gave until it is put.
#[derive(Clone, Copy, Debug)]
pub struct OpCore {
    next: OpAction,
    is_waking: bool,
}

impl Model for OpCore {
    ghost use Rattle.blocking_core.specs.Machines.{Machine};
    ghost use Rattle.blocking_core.specs.declared.job.op.OpAction.{OpAction};

    ghost Value = { Machine OpAction };

    ghost view = { λ core. record { next = core.next; is_waking = core.is_waking } };

    ghost inverse = { λ seen. record { next = seen.next; is_waking = seen.is_waking } };
}

impl OpCore {
    ghost use Rattle.std.specs.Prelude.{◌≡◌};
    ghost use Rattle.blocking_core.specs.Ops.{new_op, op_next, op_after};

    /// The core of a job that hasn't begun.
    pub fn new() -> Self
        ensures { result ≡ new_op }
    {
        OpCore {
            next: OpAction::Call,
            is_waking: false,
        }
    }

    /// The next action.
    pub fn next(&self) -> OpAction
        ensures { result ≡ op_next self.now }
    {
        if self.is_waking {
            return OpAction::Deliver;
        }
        self.next
    }

    /// Takes the answer to the next action. An answer of another kind changes nothing.
    pub fn answer(&mut self, answer: OpAnswer)
        ensures { self.new ≡ op_after self.old answer }
    {
        if self.is_waking {
            self.is_waking = !matches!(answer, OpAnswer::Delivered);
            return;
        }
        let (next, is_waking) = match (self.next, answer) {
            (OpAction::Call, OpAnswer::Returned) => { (OpAction::PutResult, false) }
            (OpAction::PutResult, OpAnswer::ResultPut { woke }) => { (OpAction::Finish, woke) }
            (OpAction::Finish, OpAnswer::Finished { woke }) => { (OpAction::Done, woke) }
            (same, _) => (same, false),
        };
        *self = OpCore { next, is_waking };
    }
}
